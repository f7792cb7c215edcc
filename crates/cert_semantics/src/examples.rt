//! Paths worked out by hand, and which nodes would be badly shaped there.

ghost use Rattle.std.specs.Prelude.{◌≡◌, ◌*◌, pos, negsuc, true, false, []};
ghost use Rattle.lin_proof.specs.declared.derivation.Derivation.{Derivation};
ghost use Rattle.cert_semantics.specs.Examples.{range, world, width, path, path_facts, cut_to, tall_range, tall_world, tall_path, tall_facts, height};
ghost use Rattle.cert_semantics.specs.Facts.{row_of, facts};
ghost use Rattle.cert_semantics.specs.Nodes.{names, splits, states, by_worlds};
ghost use Rattle.cert_semantics.specs.Paths.{first, ◌▸◌, variables, values_along};
ghost use Rattle.cert_semantics.specs.Rectangles.{rectangle, world_count};
ghost use Rattle.cert_semantics.specs.Shapes.{is_shaped};

/// Three variables are declared along the path, of which the floor of 500 by 3 is 166; its facts in order.
pub fn a_path_by_hand()
    ensures count { variables path ≡ 3 }
    ensures width { values_along world path 0 ≡ pos 500 }
    ensures size { values_along world path 1 ≡ pos 16 }
    ensures floor { values_along world path 2 ≡ pos 166 }
    ensures facts { facts range path ≡ path_facts }
    ensures rectangle { world_count (rectangle range path) ≡ 1441 * 13 }
{}

/// Defs on that path: of another number than 3, of a sum with the floor, and the faults that a def can have.
pub fn defs_by_hand()
    ensures other_number { is_shaped range path (names width (pos 2)) ≡ true }
    ensures of_floor { is_shaped range path (names (row_of (pos 1) (pos 1) 2) (pos 3)) ≡ true }
    ensures same { is_shaped range path (names width (pos 3)) ≡ false }
    ensures undeclared { is_shaped range path (names (row_of (pos 0) (pos 1) 3) (pos 3)) ≡ false }
    ensures no_variable { is_shaped range path (names (record { k = pos 1; terms = [] }) (pos 3))
        ≡ false }
    ensures by_one { is_shaped range path (names (row_of (pos 0) (pos 0) 0) (pos 1)) ≡ false }
    ensures constant { is_shaped range path (names (row_of (pos 5) (pos 1) 0) (pos 3)) ≡ false }
    ensures coefficient { is_shaped range path (names (row_of (pos 0) (pos 3) 0) (pos 3)) ≡ false }
    ensures below_zero { is_shaped range path (names (row_of (pos 0) (negsuc 0) 0) (pos 3))
        ≡ false }
{}

/// Splits there, and grids of 64 and of 68 worlds. In form 1 variable 2 is the floor, and cuts nothing.
pub fn splits_and_grids_by_hand()
    ensures of_floor { is_shaped range path (splits (row_of (negsuc 99) (pos 1) 2)) ≡ true }
    ensures undeclared { is_shaped range path (splits (row_of (pos 0) (pos 1) 3)) ≡ false }
    ensures no_variable { is_shaped range path (splits (record { k = pos 1; terms = [] })) ≡ false }
    ensures small { is_shaped range (cut_to (pos 335)) by_worlds ≡ true }
    ensures uncut { world_count (rectangle range (first (row_of (negsuc 99) (pos 1) 2) ▸ path))
        ≡ 1441 * 13 }
    ensures large { is_shaped range (cut_to (pos 336)) by_worlds ≡ false }
{}

/// The path of form 2: its third variable is the height, which a unit split cuts and a lemma does not.
pub fn a_tall_path_by_hand()
    ensures count { variables tall_path ≡ 4 }
    ensures height { values_along tall_world tall_path 2 ≡ pos 631 }
    ensures floor { values_along tall_world tall_path 3 ≡ pos 315 }
    ensures facts { facts tall_range tall_path ≡ tall_facts }
    ensures rectangle { world_count (rectangle tall_range tall_path) ≡ 2 * 32 }
    ensures small { is_shaped tall_range tall_path by_worlds ≡ true }
    ensures same { is_shaped tall_range tall_path (names height (pos 2)) ≡ false }
    ensures undeclared { (why : Derivation) →
        is_shaped tall_range tall_path (states (row_of (pos 0) (pos 1) 4) why) ≡ false }
    ensures no_variable { (why : Derivation) →
        is_shaped tall_range tall_path (states (record { k = pos 1; terms = [] }) why) ≡ false }
{}
