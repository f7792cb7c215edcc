//! Lines, pieces and places by steps are those of the definitions (CSS 2.1, 9.4.2, 16.6).
ghost use Rattle.std.specs.Prelude.{◌≡◌, ℤ, List, None};
ghost use Rattle.viz_base.specs.declared.trees.BoxTree.{BoxTree};
ghost use Rattle.layout_semantics.specs.LineFilling.{item_width, width_held};
ghost use Rattle.layout_semantics.specs.Floats.{FloatBox};
ghost use Rattle.layout_semantics.specs.InlineContent.{Item};
ghost use Rattle.layout_semantics.specs.LineHeights.{InlineContext};
ghost use Rattle.layout_semantics.specs.Lines.{before_all, lines_in};
ghost use Rattle.layout_semantics.specs.Segments.{segments, pieces, may_part, never, what_stays};
ghost use Rattle.layout_semantics.specs.Fragments.{set_out};
ghost use Rattle.lay_line.specs.steps.Cutting.{cut};
ghost use Rattle.lay_line.specs.steps.Held.{nothing_held};
ghost use Rattle.lay_line.specs.steps.Marks.{marks, marked_parts};
ghost use Rattle.lay_line.specs.steps.Measured.{measured, held_with, rows, first_row};
ghost use Rattle.lay_line.specs.steps.Staying.{spanned, no_items};
ghost use Rattle.lay_line.specs.steps.Laying.{lines_by_steps};
ghost use Rattle.lay_line.specs.steps.Lining.{lined};
ghost use Rattle.lay_line.specs.steps.Words.{width_in};
ghost use Rattle.layout_semantics.specs.InlineContent.{content};

/// The lines of one pass over the inline content are the lines of its block container (CSS 2.1, 9.4.2), whatever the
/// page.
pub fn lines_of_one_pass_are_the_lines()
    ensures { (c : InlineContext) (y least : ℤ) (floats : List FloatBox)
        → lines_by_steps c y least floats ≡ lines_in c y least floats }
{}

/// The pieces between forced breaks, on which preferred widths rest, are those of the same pass (CSS 2.1, 10.3.5).
pub fn pieces_of_one_pass_are_the_pieces()
    ensures { (items : List Item) → cut never None None items ≡ pieces items }
{}

/// The marks that the code makes part the content where the definition does (CSS 2.1, 16.6).
pub fn marks_make_the_parts()
    ensures segments { (tree : BoxTree) (items : List Item)
        → marked_parts items (marks (may_part tree) None None items) ≡ segments tree items }
    ensures pieces { (items : List Item)
        → marked_parts items (marks never None None items) ≡ pieces items }
{}

/// What a line holds of measured items, pass by pass, is their width without the spaces at their ends.
pub fn measured_items_hold_their_width()
    ensures { (c : InlineContext) (items : List Item)
        → (held_with nothing_held (measured (item_width c) items)).width ≡ width_held c items }
{}

/// Item by item they stand where the items stand that stay (CSS 2.1, 16.6.1).
pub fn measured_items_stand_in_their_places()
    ensures { (c : InlineContext) (x : ℤ) (items : List Item)
        → (rows (first_row x (spanned no_items items).solid) (measured (item_width c) items)).places
        ≡ set_out c x (what_stays items) }
{}

/// The lines of measured items in the marked parts of the content, line by line, are the lines (CSS 2.1, 9.4.2).
pub fn lines_of_measured_items_are_the_lines()
    ensures { (c : InlineContext) (y least : ℤ) (floats : List FloatBox)
        → lined c (content c.tree c.container) (measured (width_in c) (content c.tree c.container))
        (marks (may_part c.tree) None None (content c.tree c.container)) (before_all y least floats)
        ≡ lines_in c y least floats }
{}
