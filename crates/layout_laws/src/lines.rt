ghost use Rattle.std.specs.Prelude.{◌≡◌, ℕ, ◌≤◌, ℤ, ◌+ℤ◌, ◌≤ℤ◌, ◌<ℤ◌, false, List, length, IsTrue, Contains};
ghost use Rattle.std.specs.List.{AllByRecursion};
ghost use Rattle.layout_laws.specs.LineStacks.{IsStack, HasMoreFloats, line_rectangles};
ghost use Rattle.layout_laws.specs.Standing.{may_stand};
ghost use Rattle.viz_base.specs.declared.renderings.Quad.{Quad};
ghost use Rattle.layout_semantics.specs.Lines.{lines_in};
ghost use Rattle.layout_semantics.specs.Floats.{FloatBox};
ghost use Rattle.layout_semantics.specs.InlineContent.{content};
ghost use Rattle.layout_semantics.specs.LineHeights.{InlineContext, extended_boxes, line_extent, height_of_extent, tallest};
ghost use Rattle.layout_semantics.specs.LineFilling.{Line, may_hold, segments_held, line_top};

/// A line holds one segment at least, and else the most such that the first two, three and so on up to all of them
/// may stand on it (CSS 2.1, 9.4.2).
pub fn a_line_holds_the_longest_beginning_that_fits()
    ensures one { (c : InlineContext) (line : Line) → 1 ≤ segments_held c line }
    ensures each_fits { (c : InlineContext) (line : Line) (k : ℕ) → 2 ≤ k → k ≤ segments_held c line
        → IsTrue (may_hold c line k) }
    ensures within { (c : InlineContext) (line : Line) → 1 ≤ length line.parts
        → segments_held c line ≤ length line.parts }
    ensures longest { (c : InlineContext) (line : Line) (n : ℕ) → n ≤ length line.parts
        → ((k : ℕ) → 2 ≤ k → k ≤ n → IsTrue (may_hold c line k)) → n ≤ segments_held c line }
{}

/// Whichever boxes of its container's content stand on a line, it is no higher than the tallest line, in whose height
/// the floats beside a line are looked for.
pub fn no_line_is_higher_than_the_tallest()
    ensures { (c : InlineContext) (boxes : List ℕ)
        → AllByRecursion (Contains (extended_boxes (content c.tree c.container))) boxes
        → height_of_extent (line_extent c boxes) ≤ℤ tallest c }
{}

/// A line stands at the highest top, from where it begins, at which its first segment fits beside the floats or no
/// float is met (CSS 2.1, 9.5).
pub fn a_line_stands_as_high_as_its_first_segment_fits()
    ensures below { (c : InlineContext) (floats : List FloatBox) (y tall width : ℤ)
        → y ≤ℤ line_top c floats y tall width }
    ensures stands { (c : InlineContext) (floats : List FloatBox) (y tall width : ℤ)
        → IsTrue (may_stand c floats tall width (line_top c floats y tall width)) }
    ensures highest { (c : InlineContext) (floats : List FloatBox) (y tall width top : ℤ) → y ≤ℤ top
        → top <ℤ line_top c floats y tall width → may_stand c floats tall width top ≡ false }
{}

/// The line boxes of a block container stand one below the other from where they begin, and end at the bottom that
/// the lines are said to have (CSS 2.1, 9.4.2).
pub fn lines_stand_one_below_the_other()
    ensures { (c : InlineContext) (y least : ℤ) (floats : List FloatBox)
        → IsStack y (line_rectangles (lines_in c y least floats).entries)
        (lines_in c y least floats).bottom }
{}

/// Each of them is no higher than the tallest line.
pub fn each_line_is_no_higher_than_the_tallest()
    ensures { (c : InlineContext) (y least : ℤ) (floats : List FloatBox)
        → AllByRecursion (λ (q : Quad ℤ). q.bottom ≤ℤ (q.top +ℤ tallest c))
        (line_rectangles (lines_in c y least floats).entries) }
{}

/// The floats of lines come after those that were there, and none of them has its top above what the earlier content
/// of the context asks (CSS 2.1, 9.5.1, rules 5 and 6).
pub fn no_float_of_a_line_is_above_earlier_content()
    ensures { (c : InlineContext) (y least : ℤ) (floats : List FloatBox)
        → HasMoreFloats least floats (lines_in c y least floats).floats }
{}
