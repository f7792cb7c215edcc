ghost use Rattle.std.specs.Prelude.{◌≡◌};
ghost use Rattle.std.specs.Option.{option_copied};
ghost use Rattle.viz_base.specs.declared.settings.Prop.TheVariants.{BorderBottomWidth, BorderLeftWidth, BorderRightWidth, BorderTopWidth, Height, MarginBottom, MarginLeft, MarginRight, MarginTop, MaxHeight, MaxWidth, MinHeight, MinWidth, PaddingBottom, PaddingLeft, PaddingRight, PaddingTop, Width};
ghost use Rattle.viz_base.specs.declared.styles.Style.{Style};
ghost use Rattle.css_semantics.specs.ComputedValues.{computed, if_drawn, length_of, maximum_of, width_of};

use crate::values::{NOTHING, border_width, length, maximum};
use viz_base::{Length, Prop, Setting, Sides, Style};

/// The computed `width`.
pub fn width(winners: &[Setting], node: u32, parent: Option<&Style>) -> Length
    ensures { result ≡ computed Width (length_of node)
        (λ (t : Style). t.width) (option_copied parent.entry) winners.now }
{
    let parents = parent.map(|t| t.width);
    length(winners, Prop::Width, node, parents, Length::Auto)
}

/// The computed `min-width`.
pub fn min_width(winners: &[Setting], node: u32, parent: Option<&Style>) -> Length
    ensures { result ≡ computed MinWidth (length_of node)
        (λ (t : Style). t.min_width) (option_copied parent.entry) winners.now }
{
    let parents = parent.map(|t| t.min_width);
    length(winners, Prop::MinWidth, node, parents, NOTHING)
}

/// The computed `height`.
pub fn height(winners: &[Setting], node: u32, parent: Option<&Style>) -> Length
    ensures { result ≡ computed Height (length_of node)
        (λ (t : Style). t.height) (option_copied parent.entry) winners.now }
{
    let parents = parent.map(|t| t.height);
    length(winners, Prop::Height, node, parents, Length::Auto)
}

/// The computed `min-height`.
pub fn min_height(winners: &[Setting], node: u32, parent: Option<&Style>) -> Length
    ensures { result ≡ computed MinHeight (length_of node)
        (λ (t : Style). t.min_height) (option_copied parent.entry) winners.now }
{
    let parents = parent.map(|t| t.min_height);
    length(winners, Prop::MinHeight, node, parents, NOTHING)
}

/// The computed `max-width`.
pub fn max_width(winners: &[Setting], node: u32, parent: Option<&Style>) -> Option<Length>
    ensures { result ≡ computed MaxWidth (maximum_of node)
        (λ (t : Style). t.max_width) (option_copied parent.entry) winners.now }
{
    let parents = parent.map(|t| t.max_width);
    maximum(winners, Prop::MaxWidth, node, parents)
}

/// The computed `max-height`.
pub fn max_height(winners: &[Setting], node: u32, parent: Option<&Style>) -> Option<Length>
    ensures { result ≡ computed MaxHeight (maximum_of node)
        (λ (t : Style). t.max_height) (option_copied parent.entry) winners.now }
{
    let parents = parent.map(|t| t.max_height);
    maximum(winners, Prop::MaxHeight, node, parents)
}

fn margin_top(winners: &[Setting], node: u32, parent: Option<&Style>) -> Length
    ensures { result ≡ computed MarginTop (length_of node)
        (λ (t : Style). t.margin.top) (option_copied parent.entry) winners.now }
{
    let parents = parent.map(|t| t.margin.top);
    length(winners, Prop::MarginTop, node, parents, NOTHING)
}

fn margin_right(winners: &[Setting], node: u32, parent: Option<&Style>) -> Length
    ensures { result ≡ computed MarginRight (length_of node)
        (λ (t : Style). t.margin.right) (option_copied parent.entry) winners.now }
{
    let parents = parent.map(|t| t.margin.right);
    length(winners, Prop::MarginRight, node, parents, NOTHING)
}

fn margin_bottom(winners: &[Setting], node: u32, parent: Option<&Style>) -> Length
    ensures { result ≡ computed MarginBottom (length_of node)
        (λ (t : Style). t.margin.bottom) (option_copied parent.entry) winners.now }
{
    let parents = parent.map(|t| t.margin.bottom);
    length(winners, Prop::MarginBottom, node, parents, NOTHING)
}

fn margin_left(winners: &[Setting], node: u32, parent: Option<&Style>) -> Length
    ensures { result ≡ computed MarginLeft (length_of node)
        (λ (t : Style). t.margin.left) (option_copied parent.entry) winners.now }
{
    let parents = parent.map(|t| t.margin.left);
    length(winners, Prop::MarginLeft, node, parents, NOTHING)
}

fn padding_top(winners: &[Setting], node: u32, parent: Option<&Style>) -> Length
    ensures { result ≡ computed PaddingTop (length_of node)
        (λ (t : Style). t.padding.top) (option_copied parent.entry) winners.now }
{
    let parents = parent.map(|t| t.padding.top);
    length(winners, Prop::PaddingTop, node, parents, NOTHING)
}

fn padding_right(winners: &[Setting], node: u32, parent: Option<&Style>) -> Length
    ensures { result ≡ computed PaddingRight (length_of node)
        (λ (t : Style). t.padding.right) (option_copied parent.entry) winners.now }
{
    let parents = parent.map(|t| t.padding.right);
    length(winners, Prop::PaddingRight, node, parents, NOTHING)
}

fn padding_bottom(winners: &[Setting], node: u32, parent: Option<&Style>) -> Length
    ensures { result ≡ computed PaddingBottom (length_of node)
        (λ (t : Style). t.padding.bottom) (option_copied parent.entry) winners.now }
{
    let parents = parent.map(|t| t.padding.bottom);
    length(winners, Prop::PaddingBottom, node, parents, NOTHING)
}

fn padding_left(winners: &[Setting], node: u32, parent: Option<&Style>) -> Length
    ensures { result ≡ computed PaddingLeft (length_of node)
        (λ (t : Style). t.padding.left) (option_copied parent.entry) winners.now }
{
    let parents = parent.map(|t| t.padding.left);
    length(winners, Prop::PaddingLeft, node, parents, NOTHING)
}

fn border_top(winners: &[Setting], node: u32, parent: Option<&Style>) -> Length
    ensures { result ≡ computed BorderTopWidth (width_of node)
        (λ (t : Style). t.border.top) (option_copied parent.entry) winners.now }
{
    let parents = parent.map(|t| t.border.top);
    border_width(winners, Prop::BorderTopWidth, node, parents)
}

fn border_right(winners: &[Setting], node: u32, parent: Option<&Style>) -> Length
    ensures { result ≡ computed BorderRightWidth (width_of node)
        (λ (t : Style). t.border.right) (option_copied parent.entry) winners.now }
{
    let parents = parent.map(|t| t.border.right);
    border_width(winners, Prop::BorderRightWidth, node, parents)
}

fn border_bottom(winners: &[Setting], node: u32, parent: Option<&Style>) -> Length
    ensures { result ≡ computed BorderBottomWidth (width_of node)
        (λ (t : Style). t.border.bottom) (option_copied parent.entry) winners.now }
{
    let parents = parent.map(|t| t.border.bottom);
    border_width(winners, Prop::BorderBottomWidth, node, parents)
}

fn border_left(winners: &[Setting], node: u32, parent: Option<&Style>) -> Length
    ensures { result ≡ computed BorderLeftWidth (width_of node)
        (λ (t : Style). t.border.left) (option_copied parent.entry) winners.now }
{
    let parents = parent.map(|t| t.border.left);
    border_width(winners, Prop::BorderLeftWidth, node, parents)
}

/// The margins of an element.
pub fn margin(winners: &[Setting], node: u32, parent: Option<&Style>) -> Sides<Length>
    ensures top { result.top ≡ computed MarginTop (length_of node)
        (λ (t : Style). t.margin.top) (option_copied parent.entry) winners.now }
    ensures right { result.right ≡ computed MarginRight (length_of node)
        (λ (t : Style). t.margin.right) (option_copied parent.entry) winners.now }
    ensures bottom { result.bottom ≡ computed MarginBottom (length_of node)
        (λ (t : Style). t.margin.bottom) (option_copied parent.entry) winners.now }
    ensures left { result.left ≡ computed MarginLeft (length_of node)
        (λ (t : Style). t.margin.left) (option_copied parent.entry) winners.now }
{
    Sides {
        top: margin_top(winners, node, parent),
        right: margin_right(winners, node, parent),
        bottom: margin_bottom(winners, node, parent),
        left: margin_left(winners, node, parent),
    }
}

/// The paddings of an element.
pub fn padding(winners: &[Setting], node: u32, parent: Option<&Style>) -> Sides<Length>
    ensures top { result.top ≡ computed PaddingTop (length_of node)
        (λ (t : Style). t.padding.top) (option_copied parent.entry) winners.now }
    ensures right { result.right ≡ computed PaddingRight (length_of node)
        (λ (t : Style). t.padding.right) (option_copied parent.entry) winners.now }
    ensures bottom { result.bottom ≡ computed PaddingBottom (length_of node)
        (λ (t : Style). t.padding.bottom) (option_copied parent.entry) winners.now }
    ensures left { result.left ≡ computed PaddingLeft (length_of node)
        (λ (t : Style). t.padding.left) (option_copied parent.entry) winners.now }
{
    Sides {
        top: padding_top(winners, node, parent),
        right: padding_right(winners, node, parent),
        bottom: padding_bottom(winners, node, parent),
        left: padding_left(winners, node, parent),
    }
}

/// A border has no width where its style has none (CSS 2.1, 8.5.3).
fn if_drawn(drawn: bool, width: Length) -> Length
    ensures { result ≡ if_drawn drawn width }
{
    if drawn { width } else { NOTHING }
}

/// The widths of an element's borders.
pub fn border(
    winners: &[Setting],
    node: u32,
    drawn: Sides<bool>,
    parent: Option<&Style>,
) -> Sides<Length>
    ensures top { result.top ≡ if_drawn drawn.top (computed BorderTopWidth (width_of node)
        (λ (t : Style). t.border.top) (option_copied parent.entry) winners.now) }
    ensures right { result.right ≡ if_drawn drawn.right (computed BorderRightWidth (width_of node)
        (λ (t : Style). t.border.right) (option_copied parent.entry) winners.now) }
    ensures bottom { result.bottom ≡ if_drawn drawn.bottom
        (computed BorderBottomWidth (width_of node)
        (λ (t : Style). t.border.bottom) (option_copied parent.entry) winners.now) }
    ensures left { result.left ≡ if_drawn drawn.left (computed BorderLeftWidth (width_of node)
        (λ (t : Style). t.border.left) (option_copied parent.entry) winners.now) }
{
    Sides {
        top: if_drawn(drawn.top, border_top(winners, node, parent)),
        right: if_drawn(drawn.right, border_right(winners, node, parent)),
        bottom: if_drawn(drawn.bottom, border_bottom(winners, node, parent)),
        left: if_drawn(drawn.left, border_left(winners, node, parent)),
    }
}
