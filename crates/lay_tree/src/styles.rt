//! The values of a box's properties, and their initial ones where it has no style of its own.
ghost use Rattle.std.specs.Prelude.{◌≡◌, None, unwrap_or, false};
ghost use Rattle.std.specs.Option.{option_copied};
ghost use Rattle.viz_base.specs.declared.lengths.Length.TheVariants as of_length;
ghost use Rattle.viz_base.specs.declared.lengths.Valign.TheVariants as of_valign;
ghost use Rattle.viz_base.specs.declared.styles.Clear.TheVariants as of_clear;
ghost use Rattle.viz_base.specs.declared.styles.Side.TheVariants as of_side;
ghost use Rattle.viz_base.specs.declared.styles.Style.{Style as StyleOf};
ghost use Rattle.viz_base.specs.Styles.{nothing};
ghost use Rattle.layout_semantics.specs.Horizontal.{is_auto as is_automatic};
ghost use Rattle.layout_semantics.specs.InlineContent.{is_zero as is_nothing, all_zero};
ghost use Rattle.layout_semantics.specs.Lengths.{own, no_sides};
ghost use Rattle.layout_semantics.specs.Lengths.{margins as margins_at, borders as borders_at, paddings as paddings_at, own_style as style_at};
ghost use Rattle.layout_semantics.specs.Lines.{align_of};
ghost use Rattle.layout_semantics.specs.Segments.{wraps as wraps_at};

use viz_base::{Align, BoxTree, Clear, Kind, Length, Side, Sides, Style, Valign};

/// A length of nothing.
fn none() -> Length
    ensures { result ≡ nothing }
{
    Length::Px(0)
}

/// The style of a box that has one of its own: an anonymous one has the initial values (CSS 2.1, 9.2.1.1).
pub fn own_style(tree: &BoxTree, at: u32) -> Option<&Style>
    ensures { option_copied result ≡ style_at tree.now at }
{
    let found = tree.boxes.get(at as usize)?;
    match found.kind {
        Kind::Anon => None,
        _ => tree.styles.get(found.node as usize),
    }
}

/// Sides of nothing.
fn no_sides() -> Sides<Length>
    ensures { result ≡ no_sides }
{
    Sides {
        top: Length::Px(0),
        right: Length::Px(0),
        bottom: Length::Px(0),
        left: Length::Px(0),
    }
}

/// The margins of a box.
pub fn margins(tree: &BoxTree, at: u32) -> Sides<Length>
    ensures { result ≡ margins_at tree.now at }
{
    match own_style(tree, at) {
        Some(style) => style.margin,
        None => no_sides(),
    }
}

/// The border widths of a box.
pub fn borders(tree: &BoxTree, at: u32) -> Sides<Length>
    ensures { result ≡ borders_at tree.now at }
{
    match own_style(tree, at) {
        Some(style) => style.border,
        None => no_sides(),
    }
}

/// The paddings of a box.
pub fn paddings(tree: &BoxTree, at: u32) -> Sides<Length>
    ensures { result ≡ paddings_at tree.now at }
{
    match own_style(tree, at) {
        Some(style) => style.padding,
        None => no_sides(),
    }
}

/// The `width` of a box.
pub fn own_width(tree: &BoxTree, at: u32) -> Length
    ensures { result ≡ own tree.now at (λ (s : StyleOf). s.width) of_length.Auto }
{
    match own_style(tree, at) {
        Some(style) => style.width,
        None => Length::Auto,
    }
}

/// The `min-width` of a box.
pub fn min_width(tree: &BoxTree, at: u32) -> Length
    ensures { result ≡ own tree.now at (λ (s : StyleOf). s.min_width) nothing }
{
    match own_style(tree, at) {
        Some(style) => style.min_width,
        None => none(),
    }
}

/// The `max-width` of a box, where it has one.
pub fn max_width(tree: &BoxTree, at: u32) -> Option<Length>
    ensures { result ≡ own tree.now at (λ (s : StyleOf). s.max_width) None }
{
    match own_style(tree, at) {
        Some(style) => style.max_width,
        None => None,
    }
}

/// The `height` of a box.
pub fn own_height(tree: &BoxTree, at: u32) -> Length
    ensures { result ≡ own tree.now at (λ (s : StyleOf). s.height) of_length.Auto }
{
    match own_style(tree, at) {
        Some(style) => style.height,
        None => Length::Auto,
    }
}

/// The `min-height` of a box.
pub fn min_height(tree: &BoxTree, at: u32) -> Length
    ensures { result ≡ own tree.now at (λ (s : StyleOf). s.min_height) nothing }
{
    match own_style(tree, at) {
        Some(style) => style.min_height,
        None => none(),
    }
}

/// The `max-height` of a box, where it has one.
pub fn max_height(tree: &BoxTree, at: u32) -> Option<Length>
    ensures { result ≡ own tree.now at (λ (s : StyleOf). s.max_height) None }
{
    match own_style(tree, at) {
        Some(style) => style.max_height,
        None => None,
    }
}

/// Whether a length is `auto`.
pub fn is_auto(length: &Length) -> bool
    ensures { result ≡ is_automatic length.now }
{
    matches!(length, Length::Auto)
}

/// Whether a length has a computed value of zero; an automatic margin counts as one.
pub fn is_zero(length: &Length) -> bool
    ensures { result ≡ is_nothing length.now }
{
    match length {
        Length::Auto => true,
        Length::Px(units) => *units == 0,
        Length::Em { k, node: _ } => *k == 0,
        Length::Pct(part) => *part == 0,
    }
}

/// Whether all lengths have a computed value of zero; an automatic margin counts as one.
pub fn are_zero(lengths: &[Length]) -> bool
    ensures { result ≡ all_zero lengths.now }
{
    lengths.iter().all(|length| is_zero(length))
}

/// To which side a box floats, if it does.
fn own_float(tree: &BoxTree, at: u32) -> Option<Side>
    ensures { result ≡ own tree.now at (λ (s : StyleOf). s.float) None }
{
    match own_style(tree, at) {
        Some(style) => style.float,
        None => None,
    }
}

/// The side of a float.
pub fn float_side(tree: &BoxTree, at: u32) -> Side
    ensures { result ≡ unwrap_or (own tree.now at (λ (s : StyleOf). s.float) None) of_side.Left }
{
    match own_float(tree, at) {
        Some(side) => side,
        None => Side::Left,
    }
}

/// The `clear` of a box.
pub fn clear(tree: &BoxTree, at: u32) -> Clear
    ensures { result ≡ own tree.now at (λ (s : StyleOf). s.clear) of_clear.Nothing }
{
    match own_style(tree, at) {
        Some(style) => style.clear,
        None => Clear::Nothing,
    }
}

/// Whether a box clips its content: its `overflow` isn't `visible`.
pub fn clips(tree: &BoxTree, at: u32) -> bool
    ensures { result ≡ own tree.now at (λ (s : StyleOf). s.clips) false }
{
    match own_style(tree, at) {
        Some(style) => style.clips,
        None => false,
    }
}

/// The `vertical-align` of a box.
pub fn vertical_align(tree: &BoxTree, at: u32) -> Valign
    ensures { result ≡ own tree.now at (λ (s : StyleOf). s.valign) of_valign.Baseline }
{
    match own_style(tree, at) {
        Some(style) => style.valign,
        None => Valign::Baseline,
    }
}

/// The `text-align` of a box, which is inherited: an anonymous one has its node's.
pub fn text_align(tree: &BoxTree, at: u32) -> Align
    ensures { result ≡ align_of tree.now at }
{
    match tree.boxes.get(at as usize) {
        Some(found) => match tree.styles.get(found.node as usize) {
            Some(style) => style.align,
            None => Align::Left,
        },
        None => Align::Left,
    }
}

#[tactic(auto, unfolding(layout_semantics::specs::Segments::wraps))]
/// Whether `white-space` of a box's node lets lines break (CSS 2.1, 16.6).
pub fn wraps(tree: &BoxTree, at: u32) -> bool
    ensures { result ≡ wraps_at tree.now at }
{
    match tree.boxes.get(at as usize) {
        Some(found) => match tree.styles.get(found.node as usize) {
            Some(style) => style.wraps,
            None => false,
        },
        None => false,
    }
}
