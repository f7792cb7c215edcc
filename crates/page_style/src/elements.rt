ghost use Rattle.std.specs.Prelude.{◌≤◌, ◌^◌, length, IfErr, IfOk};
ghost use Rattle.std.specs.List.{AllByRecursion};
ghost use Rattle.std.specs.Option.{option_copied};
ghost use Rattle.css_semantics.specs.ComputedValues.{AreLengths, IsComputed, IsOfText};
ghost use Rattle.css_semantics.specs.Winners.{IsAllowed};
ghost use Rattle.page_style.specs.Added.{own_of};

use crate::lengths::{
    border, height, margin, max_height, max_width, min_height, min_width, padding, width,
};
use crate::properties::{align, clear, clips, display, float, font, line, size, valign, wraps};
use viz_base::{Font, Length, Mem, Setting, Sides, Size, Style};

/// The lengths of the box of an element.
#[derive(Clone, Copy)]
pub struct Lengths {
    pub width: Length,
    pub min_width: Length,
    pub max_width: Option<Length>,
    pub height: Length,
    pub min_height: Length,
    pub max_height: Option<Length>,
    pub margin: Sides<Length>,
    pub padding: Sides<Length>,
    pub border: Sides<Length>,
}

/// The lengths of the box of an element, beside its parent's.
fn own_lengths(
    node: u32,
    winners: &[Setting],
    drawn: Sides<bool>,
    parent: Option<&Style>,
) -> Lengths
    ensures { AreLengths node winners.now drawn (option_copied parent.entry) (own_of result) }
{
    Lengths {
        width: width(winners, node, parent),
        min_width: min_width(winners, node, parent),
        max_width: max_width(winners, node, parent),
        height: height(winners, node, parent),
        min_height: min_height(winners, node, parent),
        max_height: max_height(winners, node, parent),
        margin: margin(winners, node, parent),
        padding: padding(winners, node, parent),
        border: border(winners, node, drawn, parent),
    }
}

/// The style of an element, beside its parent's.
pub fn element_style(
    fonts: &[Font],
    node: u32,
    winners: &[Setting],
    drawn: Sides<bool>,
    parent: Option<&Style>,
) -> Result<Style, Mem>
    requires { AllByRecursion IsAllowed winners.now }
    ensures is { IfOk result (IsComputed fonts.now node winners.now drawn
        (option_copied parent.entry)) }
    ensures room { IfErr result (λ _. 2 ^ 32 ≤ length fonts.now) }
{
    let own = own_lengths(node, winners, drawn, parent);
    Ok(Style {
        display: display(winners, parent),
        float: float(winners, parent),
        clear: clear(winners, parent),
        clips: clips(winners, parent),
        width: own.width,
        min_width: own.min_width,
        max_width: own.max_width,
        height: own.height,
        min_height: own.min_height,
        max_height: own.max_height,
        margin: own.margin,
        padding: own.padding,
        border: own.border,
        size: size(winners, parent),
        font: font(winners, fonts, parent)?,
        line: line(winners, node, parent),
        valign: valign(winners, node, parent),
        align: align(winners, parent),
        wraps: wraps(winners, parent),
    })
}

/// The style of a text: its parent's, with the parent's font size.
pub fn text_style(parent: &Style) -> Style
    ensures { IsOfText parent.now result }
{
    Style {
        display: parent.display,
        float: parent.float,
        clear: parent.clear,
        clips: parent.clips,
        width: parent.width,
        min_width: parent.min_width,
        max_width: parent.max_width,
        height: parent.height,
        min_height: parent.min_height,
        max_height: parent.max_height,
        margin: parent.margin,
        padding: parent.padding,
        border: parent.border,
        size: Size::Same,
        font: parent.font,
        line: parent.line,
        valign: parent.valign,
        align: parent.align,
        wraps: parent.wraps,
    }
}
