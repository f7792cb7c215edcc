ghost use Rattle.std.specs.Prelude.{◌≡◌, ◌≤◌, ◌^◌, true, false, length, None, IfErr, IfOk};
ghost use Rattle.std.specs.Option.{option_copied};
ghost use Rattle.viz_base.specs.declared.lengths.Sides.{Sides};
ghost use Rattle.viz_base.specs.declared.lengths.Size.TheVariants as of_size;
ghost use Rattle.viz_base.specs.declared.settings.Prop.TheVariants.{Clear as ClearProp, Display as DisplayProp, Float, FontFamily, FontSize, LineHeight as LineHeightProp, Overflow, TextAlign, VerticalAlign, WhiteSpace};
ghost use Rattle.viz_base.specs.declared.styles.Align.TheVariants as of_align;
ghost use Rattle.viz_base.specs.declared.styles.Clear.TheVariants as of_clear;
ghost use Rattle.viz_base.specs.declared.styles.Display.TheVariants as of_display;
ghost use Rattle.viz_base.specs.declared.styles.Style.{Style};
ghost use Rattle.css_semantics.specs.ComputedValues.{AreDrawn, aligns, by_word, clears, clippings, computed, displays, floats, font_of, line_of, size_of, valign_of, wrappings};

use crate::values::{
    ALIGNS, CLEARS, CLIPPINGS, DISPLAYS, DRAWINGS, FLOATS, WRAPPINGS, font_place, font_size,
    keyword, line_height, raised,
};
use viz_base::{
    Align, Clear, Display, Font, LineHeight, Mem, Prop, Setting, Side, Sides, Size, Style, Valign,
};

/// The computed `display`.
pub fn display(winners: &[Setting], parent: Option<&Style>) -> Display
    ensures { result ≡ computed DisplayProp (by_word displays of_display.Inline)
        (λ (t : Style). t.display) (option_copied parent.entry) winners.now }
{
    let parents = parent.map(|t| t.display);
    keyword(
        winners,
        Prop::Display,
        false,
        &DISPLAYS,
        parents,
        Display::Inline,
    )
}

/// The computed `float`.
pub fn float(winners: &[Setting], parent: Option<&Style>) -> Option<Side>
    ensures { result ≡ computed Float (by_word floats None)
        (λ (t : Style). t.float) (option_copied parent.entry) winners.now }
{
    let parents = parent.map(|t| t.float);
    keyword(winners, Prop::Float, false, &FLOATS, parents, None)
}

/// The computed `clear`.
pub fn clear(winners: &[Setting], parent: Option<&Style>) -> Clear
    ensures { result ≡ computed ClearProp (by_word clears of_clear.Nothing)
        (λ (t : Style). t.clear) (option_copied parent.entry) winners.now }
{
    let parents = parent.map(|t| t.clear);
    keyword(
        winners,
        Prop::Clear,
        false,
        &CLEARS,
        parents,
        Clear::Nothing,
    )
}

/// Whether the computed `overflow` clips.
pub fn clips(winners: &[Setting], parent: Option<&Style>) -> bool
    ensures { result ≡ computed Overflow (by_word clippings false)
        (λ (t : Style). t.clips) (option_copied parent.entry) winners.now }
{
    let parents = parent.map(|t| t.clips);
    keyword(winners, Prop::Overflow, false, &CLIPPINGS, parents, false)
}

/// The computed `text-align`.
pub fn align(winners: &[Setting], parent: Option<&Style>) -> Align
    ensures { result ≡ computed TextAlign (by_word aligns of_align.Left)
        (λ (t : Style). t.align) (option_copied parent.entry) winners.now }
{
    let parents = parent.map(|t| t.align);
    keyword(
        winners,
        Prop::TextAlign,
        true,
        &ALIGNS,
        parents,
        Align::Left,
    )
}

/// Whether lines break at spaces under the computed `white-space`.
pub fn wraps(winners: &[Setting], parent: Option<&Style>) -> bool
    ensures { result ≡ computed WhiteSpace (by_word wrappings true)
        (λ (t : Style). t.wraps) (option_copied parent.entry) winners.now }
{
    let parents = parent.map(|t| t.wraps);
    keyword(winners, Prop::WhiteSpace, true, &WRAPPINGS, parents, true)
}

/// The computed `line-height`.
pub fn line(winners: &[Setting], node: u32, parent: Option<&Style>) -> LineHeight
    ensures { result ≡ computed LineHeightProp (line_of node)
        (λ (t : Style). t.line) (option_copied parent.entry) winners.now }
{
    let parents = parent.map(|t| t.line);
    line_height(winners, node, parents)
}

/// The computed `vertical-align`.
pub fn valign(winners: &[Setting], node: u32, parent: Option<&Style>) -> Valign
    ensures { result ≡ computed VerticalAlign (valign_of node)
        (λ (t : Style). t.valign) (option_copied parent.entry) winners.now }
{
    let parents = parent.map(|t| t.valign);
    raised(winners, node, parents)
}

/// The computed `font-size`. An inherited one is the parent's.
pub fn size(winners: &[Setting], parent: Option<&Style>) -> Size
    ensures { result ≡ computed FontSize size_of
        (λ (t : Style). of_size.Same) (option_copied parent.entry) winners.now }
{
    let parents = parent.map(|_| Size::Same);
    font_size(winners, parents)
}

/// The place of the computed font.
pub fn font(winners: &[Setting], fonts: &[Font], parent: Option<&Style>) -> Result<u32, Mem>
    ensures is { IfOk result (λ font. font ≡ computed FontFamily (font_of fonts.now)
        (λ (t : Style). t.font) (option_copied parent.entry) winners.now) }
    ensures room { IfErr result (λ _. 2 ^ 32 ≤ length fonts.now) }
{
    let parents = parent.map(|t| t.font);
    font_place(winners, fonts, parents)
}

/// Which borders of a node have a style with a width (CSS 2.1, 8.5.3).
pub fn drawn_borders(winners: &[Setting], parent: Option<Sides<bool>>) -> Sides<bool>
    ensures { AreDrawn winners.now parent result }
{
    Sides {
        top: keyword(
            winners,
            Prop::BorderTopStyle,
            false,
            &DRAWINGS,
            parent.map(|d| d.top),
            false,
        ),
        right: keyword(
            winners,
            Prop::BorderRightStyle,
            false,
            &DRAWINGS,
            parent.map(|d| d.right),
            false,
        ),
        bottom: keyword(
            winners,
            Prop::BorderBottomStyle,
            false,
            &DRAWINGS,
            parent.map(|d| d.bottom),
            false,
        ),
        left: keyword(
            winners,
            Prop::BorderLeftStyle,
            false,
            &DRAWINGS,
            parent.map(|d| d.left),
            false,
        ),
    }
}
