//! What formulas over renderings mean: truth, blame, and what it is to hold over a range of worlds.
#![tactic(auto)]

ghost use Rattle.logic_semantics.specs.Laws.{ForallIsEach, ExistsIsSome, NotIsNot, AndIsBoth, OrIsEither, ImpliesIsIf, ConstIsValue, CmpCompares, CmpIsItsSign, SameIsOnePlace, OverlapIsCommonCell, EdgesAreOfTheirBox, ViewportIsTheWorlds, TrueBlamesNone, ForallBlamesFirst, AndBlamesFirst, ImpliesBlamesConclusion, OthersBlameNone, NodesAreElements, RangeIsItsBounds};

/// Quantifiers: `forall` is true exactly where each member of its set makes its body true, `exists` exactly where some
/// member does.
pub fn truth_of_quantifiers()
    ensures each { ForallIsEach }
    ensures some { ExistsIsSome }
{}

/// `not`, `and`, `or` and `implies` are those of classical logic.
pub fn truth_of_connectives()
    ensures not_is_not { NotIsNot }
    ensures and_is_both { AndIsBoth }
    ensures or_is_either { OrIsEither }
    ensures implies_is_if { ImpliesIsIf }
{}

/// `true`, `false`, comparisons, and what it is for two boxes to be the same or to overlap.
pub fn truth_of_atoms()
    ensures constants { ConstIsValue }
    ensures comparisons { CmpCompares }
    ensures signs { CmpIsItsSign }
    ensures sames { SameIsOnePlace }
    ensures overlaps { OverlapIsCommonCell }
{}

/// The values of edges: those of the box that a name stands for, and those of the viewport.
pub fn values_of_edges()
    ensures boxes { EdgesAreOfTheirBox }
    ensures viewport { ViewportIsTheWorlds }
{}

/// Whom a false formula blames.
pub fn blame_of_false()
    ensures universal { ForallBlamesFirst }
    ensures conjunction { AndBlamesFirst }
    ensures implication { ImpliesBlamesConclusion }
    ensures others { OthersBlameNone }
{}

/// A true formula blames nobody.
pub fn blame_of_true()
    ensures { TrueBlamesNone }
{}

/// A set of nodes has boxes of elements alone.
pub fn members_of_nodes()
    ensures { NodesAreElements }
{}

/// The worlds of a range.
pub fn worlds_of_range()
    ensures { RangeIsItsBounds }
{}
