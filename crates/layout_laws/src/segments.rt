ghost use Rattle.std.specs.Prelude.{◌≡◌, ◌<◌, ◌↔◌, ◌&&◌, true, false, List, [], ◌++◌, length, reverse, find};
ghost use Rattle.std.specs.List.{AllByRecursion};
ghost use Rattle.std.specs.Option.{option_map_or};
ghost use Rattle.layout_semantics.specs.InlineContent.{Item};
ghost use Rattle.layout_semantics.specs.Segments.{segments, pieces, is_break, may_part, is_thing, is_forced};
ghost use Rattle.layout_semantics.specs.LineFilling.{joined};
ghost use Rattle.layout_laws.specs.Parts.{IsFull, EndsAPart};

use viz_base::BoxTree;

/// The segments of inline content are the content in parts, none of them empty, and they end where lines may break
/// and nowhere else (CSS 2.1, 9.4.2; our own reading).
pub fn segments_end_where_lines_may_break(tree: &BoxTree)
    ensures whole { (items : List Item) → joined (segments tree.now items) ≡ items }
    ensures full { (items : List Item) → AllByRecursion IsFull (segments tree.now items) }
    ensures ends { (before after : List Item) → 0 < length before → 0 < length after
        → (is_break (may_part tree.now) (reverse before) after ≡ true) ↔ EndsAPart
        (segments tree.now (before ++ after)) before }
{}

/// So are the pieces between forced breaks, which end where lines may break after a forced break.
pub fn pieces_end_after_forced_breaks(tree: &BoxTree)
    ensures whole { (items : List Item) → joined (pieces items) ≡ items }
    ensures full { (items : List Item) → AllByRecursion IsFull (pieces items) }
    ensures ends { (before after : List Item) → 0 < length before → 0 < length after
        → ((is_break (may_part tree.now) (reverse before) after
        && option_map_or is_forced (find is_thing (reverse before)) false) ≡ true) ↔ EndsAPart
        (pieces (before ++ after)) before }
{}
