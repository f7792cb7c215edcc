ghost use Rattle.std.specs.Prelude.{◌≡◌, ℕ, ℤ, ◌≤ℤ◌, Bool, false, List, Contains, IsTrue, Some, MatchOption};
ghost use Rattle.viz_base.specs.declared.layouts.Band.{Band};
ghost use Rattle.viz_base.specs.declared.styles.Clear.{Clear};
ghost use Rattle.layout_semantics.specs.Floats.{FloatBox, is_relevant, lowest_bottom};
ghost use Rattle.layout_semantics.specs.FlowBoxes.{clear_of};
ghost use Rattle.layout_semantics.specs.Clearance.{Ground, resolve};
ghost use Rattle.layout_laws.specs.Clearance.{IsLowestBottom};

/// What `clear` looks at: the lowest outer bottom of the floats that it names, and nothing exactly where there is none
/// (CSS 2.1, 9.5.2).
pub fn clear_looks_at_the_lowest_bottom()
    ensures { (clear : Clear) (floats : List FloatBox)
        → MatchOption (lowest_bottom clear floats) ((f : FloatBox) → Contains floats f
        → is_relevant clear f ≡ false) (IsLowestBottom clear floats) }
{}

/// A box that is cleared stands below each earlier float that its `clear` names (CSS 2.1, 9.5.2).
pub fn a_cleared_box_stands_below_the_floats()
    ensures { (g : Ground) (run : List ℤ) (cb : Band ℤ) (b : ℕ) (passed : ℕ → Bool) (d : ℕ) (y : ℤ)
        → (resolve g run cb b passed).cleared ≡ Some (d, y) → (f : FloatBox) → Contains g.floats f
        → IsTrue (is_relevant (clear_of g.tree d) f) → f.box.bottom ≤ℤ y }
{}
