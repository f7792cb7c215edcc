ghost use Rattle.std.specs.Prelude.{ℕ, ℤ, List, [], ◌∷◌};
ghost use Rattle.std.specs.List.{AllByRecursion};
ghost use Rattle.layout_semantics.specs.Floats.{FloatBox};
ghost use Rattle.layout_semantics.specs.InlineContent.{content};
ghost use Rattle.layout_semantics.specs.LineHeights.{InlineContext};
ghost use Rattle.layout_semantics.specs.Lines.{lines_in};
ghost use Rattle.page_limits.specs.Bounds.{Bounds, IsBandIn, IsFloatIn, IsLevelIn, grown, together};
ghost use Rattle.page_limits.specs.Inline.{AreLinesIn, IsContentSmall, charge};

/// The lines of a block container stay within the bounds that were there and, for each item of its content, what that
/// item can make its line go on: twenty times the greatest length of a box, and for floats and atomic boxes what these
/// have in coordinates of their own (CSS 2.1, 9.4.2, 10.8).
pub fn lines_stay_within_reach()
    ensures { (c : InlineContext) (own rise : ℕ
        → Bounds) (s : ℕ) (b : Bounds) (y least : ℤ) (floats : List FloatBox)
        → IsContentSmall c own rise s → IsBandIn b c.cb
        → AllByRecursion (IsLevelIn b) (y ∷ least ∷ []) → AllByRecursion (IsFloatIn b) floats
        → AreLinesIn own (grown b (together (charge own rise s) (content c.tree c.container)))
        (lines_in c y least floats) }
{}
