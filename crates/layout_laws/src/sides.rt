ghost use Rattle.std.specs.Prelude.{◌≡◌, ◌↔◌, ℤ, ◌+ℤ◌, ◌-ℤ◌, pos, ◌≤ℤ◌, true, false};
ghost use Rattle.viz_base.specs.declared.layouts.Band.{Band};
ghost use Rattle.viz_base.specs.declared.styles.Align.TheVariants as of_align;
ghost use Rattle.viz_base.specs.declared.styles.Clear.TheVariants as of_clear;
ghost use Rattle.viz_base.specs.declared.styles.Side.TheVariants as of_side;
ghost use Rattle.layout_semantics.specs.Floats.{FloatBox, is_relevant};
ghost use Rattle.layout_semantics.specs.LineHeights.{InlineContext};
ghost use Rattle.layout_semantics.specs.Lines.{align_of, content_left};

/// `clear: left` names the left floats, `right` the right ones, `both` each float and `none` no float (CSS 2.1, 9.5.2).
pub fn clear_names_the_floats_of_its_side()
    ensures left { (f : FloatBox) → (is_relevant of_clear.Left f ≡ true) ↔ (f.side ≡ of_side.Left) }
    ensures right { (f : FloatBox) → (is_relevant of_clear.Right f ≡ true)
        ↔ (f.side ≡ of_side.Right) }
    ensures both { (f : FloatBox) → is_relevant of_clear.Both f ≡ true }
    ensures none { (f : FloatBox) → is_relevant of_clear.Nothing f ≡ false }
{}

/// What a line holds begins at the left end of the line's room, or ends at its right end, or stands in the middle but
/// for 1/64 px, as `text-align` says (CSS 2.1, 16.2).
pub fn text_is_aligned_to_its_side()
    ensures left { (c : InlineContext) (room : Band ℤ) (held : ℤ)
        → align_of c.tree c.container ≡ of_align.Left → content_left c room held ≡ room.left }
    ensures right { (c : InlineContext) (room : Band ℤ) (held : ℤ)
        → align_of c.tree c.container ≡ of_align.Right → (room.left +ℤ held) ≤ℤ room.right
        → content_left c room held +ℤ held ≡ room.right }
    ensures centre_no_less { (c : InlineContext) (room : Band ℤ) (held : ℤ)
        → align_of c.tree c.container ≡ of_align.Center → (room.left +ℤ held) ≤ℤ room.right
        → (content_left c room held -ℤ room.left) ≤ℤ
        (room.right -ℤ (content_left c room held +ℤ held)) }
    ensures centre_no_more { (c : InlineContext) (room : Band ℤ) (held : ℤ)
        → align_of c.tree c.container ≡ of_align.Center → (room.left +ℤ held) ≤ℤ room.right
        → (room.right -ℤ (content_left c room held +ℤ held)) ≤ℤ
        ((content_left c room held -ℤ room.left) +ℤ pos 1) }
{}
