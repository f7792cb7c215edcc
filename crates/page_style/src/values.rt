ghost use Rattle.std.specs.Prelude.{◌≡◌, ◌≤◌, ◌^◌, false, length, IfErr, IfOk};
ghost use Rattle.css_semantics.specs.ComputedValues.{by_word, font_of, length_of, line_of, maximum_of, resolved, size_of, specified, valign_of, width_of};
ghost use Rattle.css_semantics.specs.ComputedValues.{aligns, clears, clippings, displays, drawings, floats, raises, sizes, widths, wrappings};
ghost use Rattle.css_semantics.specs.Properties.{row};
ghost use Rattle.viz_base.specs.declared.settings.Prop.TheVariants.{FontFamily, FontSize, LineHeight as LineHeightProp, VerticalAlign};
ghost use Rattle.viz_base.specs.declared.settings.Value.TheVariants.{Word};

use crate::families::first_named;
use crate::winners::{Specified, specified_value};
use viz_base::{
    Align, Clear, Display, Font, Length, LineHeight, Mem, Prop, Setting, Side, Size, Valign, Value,
};

/// A length of nothing.
pub const NOTHING: Length = Length::Px(0);

/// What the keywords of `display` say; `list-item` is a block.
pub const DISPLAYS: [Display; 5] = [
    Display::Hidden,
    Display::Block,
    Display::Inline,
    Display::InlineBlock,
    Display::Block,
];

/// What the keywords of `float` say.
pub const FLOATS: [Option<Side>; 3] = [None, Some(Side::Left), Some(Side::Right)];

/// What the keywords of `clear` say.
pub const CLEARS: [Clear; 4] = [Clear::Nothing, Clear::Left, Clear::Right, Clear::Both];

/// Whether each keyword of `overflow` clips.
pub const CLIPPINGS: [bool; 4] = [false, true, true, true];

/// What the keywords of `text-align` say; `justify` is as `left`.
pub const ALIGNS: [Align; 4] = [Align::Left, Align::Right, Align::Center, Align::Left];

/// Whether lines break at spaces under each keyword of `white-space`.
pub const WRAPPINGS: [bool; 2] = [true, false];

/// Whether a border of each style has a width.
pub const DRAWINGS: [bool; 10] = [false, false, true, true, true, true, true, true, true, true];

/// The widths of borders that keywords name, in units of 1/64 px.
const WIDTHS: [Length; 3] = [Length::Px(64), Length::Px(192), Length::Px(320)];

/// The font sizes that keywords name.
const SIZES: [Size; 9] = [
    Size::Default { num: 3, den: 5 },
    Size::Default { num: 3, den: 4 },
    Size::Default { num: 8, den: 9 },
    Size::Default { num: 1, den: 1 },
    Size::Default { num: 6, den: 5 },
    Size::Default { num: 3, den: 2 },
    Size::Default { num: 2, den: 1 },
    Size::Parent { num: 6, den: 5 },
    Size::Parent { num: 5, den: 6 },
];

/// What the keywords of `vertical-align` say.
const RAISES: [Valign; 4] = [Valign::Baseline, Valign::Sub, Valign::Super, Valign::Middle];

/// What a keyword says.
fn by_word<A: Copy>(says: &[A], initial: A, value: &Value) -> A
    ensures { result ≡ by_word says.now initial value.now }
{
    match value {
        Value::Word(at) => says.get(usize::from(*at)).copied().unwrap_or(initial),
        _ => initial,
    }
}

/// What a length says; a keyword is `auto`.
fn length_of(node: u32, value: &Value) -> Length
    ensures { result ≡ length_of node value.now }
{
    match value {
        Value::Word(_) => Length::Auto,
        Value::Px(n) => Length::Px(*n),
        Value::Em(k) => Length::Em { k: *k, node },
        Value::Pct(p) => Length::Pct(*p),
        _ => NOTHING,
    }
}

/// What a maximum says; a keyword is `none`.
fn maximum_of(node: u32, value: &Value) -> Option<Length>
    ensures { result ≡ maximum_of node value.now }
{
    match value {
        Value::Word(_) => None,
        _ => Some(length_of(node, value)),
    }
}

/// What the width of a border says.
fn width_of(node: u32, value: &Value) -> Length
    ensures { result ≡ width_of node value.now }
{
    match value {
        Value::Word(at) => WIDTHS.get(usize::from(*at)).copied().unwrap_or(NOTHING),
        _ => length_of(node, value),
    }
}

/// What a font size says; an em and a percentage are of the parent's.
fn size_of(value: &Value) -> Size
    ensures { result ≡ size_of value.now }
{
    match value {
        Value::Word(at) => SIZES.get(usize::from(*at)).copied().unwrap_or(Size::Same),
        Value::Px(n) => Size::Px(*n),
        Value::Em(k) => Size::Parent {
            num: *k,
            den: 1_000_000,
        },
        Value::Pct(p) => Size::Parent {
            num: *p,
            den: 100_000_000,
        },
        _ => Size::Same,
    }
}

/// What a line height says.
fn line_of(node: u32, value: &Value) -> LineHeight
    ensures { result ≡ line_of node value.now }
{
    match value {
        Value::Px(n) => LineHeight::Px(*n),
        Value::Em(k) => LineHeight::OfNode {
            node,
            num: *k,
            den: 1_000_000,
        },
        Value::Pct(p) => LineHeight::OfNode {
            node,
            num: *p,
            den: 100_000_000,
        },
        Value::Number(n) => LineHeight::Own {
            num: *n,
            den: 1_000_000,
        },
        _ => LineHeight::Own { num: 6, den: 5 },
    }
}

/// What `vertical-align` says.
fn valign_of(node: u32, value: &Value) -> Valign
    ensures { result ≡ valign_of node value.now }
{
    match value {
        Value::Word(at) => RAISES
            .get(usize::from(*at))
            .copied()
            .unwrap_or(Valign::Baseline),
        _ => Valign::Raise(length_of(node, value)),
    }
}

/// The font that a list of families says.
fn font_of(fonts: &[Font], value: &Value) -> usize
    ensures is { result ≡ font_of fonts.now value.now }
    ensures there { result ≤ length fonts.now }
{
    match value {
        Value::Names(names) => first_named(fonts, names.as_slice()),
        _ => 0,
    }
}

/// The computed value of a property of keywords, which say these.
pub fn keyword<A: Copy>(
    winners: &[Setting],
    prop: Prop,
    inherits: bool,
    says: &[A],
    parents: Option<A>,
    initial: A,
) -> A
    requires inherits { inherits ≡ (row prop).inherits }
    requires initial { initial ≡ by_word says.now initial (row prop).initial }
    ensures { result ≡ resolved (by_word says.now initial) parents (row prop).initial
        (specified prop winners.now) }
{
    match specified_value(winners, prop, inherits) {
        Specified::Initial => initial,
        Specified::Inherit => parents.unwrap_or(initial),
        Specified::Value(value) => by_word(says, initial, value),
    }
}

/// The computed length of a property that doesn't inherit.
pub fn length(
    winners: &[Setting],
    prop: Prop,
    node: u32,
    parents: Option<Length>,
    initial: Length,
) -> Length
    requires inherits { (row prop).inherits ≡ false }
    requires initial { initial ≡ length_of node (row prop).initial }
    ensures { result ≡ resolved (length_of node) parents (row prop).initial
        (specified prop winners.now) }
{
    match specified_value(winners, prop, false) {
        Specified::Initial => initial,
        Specified::Inherit => parents.unwrap_or(initial),
        Specified::Value(value) => length_of(node, value),
    }
}

/// The computed maximum of a property.
pub fn maximum(
    winners: &[Setting],
    prop: Prop,
    node: u32,
    parents: Option<Option<Length>>,
) -> Option<Length>
    requires inherits { (row prop).inherits ≡ false }
    requires initial { (row prop).initial ≡ Word 0 }
    ensures { result ≡ resolved (maximum_of node) parents (row prop).initial
        (specified prop winners.now) }
{
    match specified_value(winners, prop, false) {
        Specified::Initial => None,
        Specified::Inherit => parents.unwrap_or(None),
        Specified::Value(value) => maximum_of(node, value),
    }
}

/// The computed width of a border, before its style is asked.
pub fn border_width(winners: &[Setting], prop: Prop, node: u32, parents: Option<Length>) -> Length
    requires inherits { (row prop).inherits ≡ false }
    requires initial { (row prop).initial ≡ Word 1 }
    ensures { result ≡ resolved (width_of node) parents (row prop).initial
        (specified prop winners.now) }
{
    match specified_value(winners, prop, false) {
        Specified::Initial => Length::Px(192),
        Specified::Inherit => parents.unwrap_or(Length::Px(192)),
        Specified::Value(value) => width_of(node, value),
    }
}

/// The computed font size, beside the parent's where there is a parent.
pub fn font_size(winners: &[Setting], parents: Option<Size>) -> Size
    ensures { result ≡ resolved size_of parents (row FontSize).initial
        (specified FontSize winners.now) }
{
    match specified_value(winners, Prop::FontSize, true) {
        Specified::Value(value) => size_of(value),
        Specified::Inherit => parents.unwrap_or(Size::Default { num: 1, den: 1 }),
        Specified::Initial => Size::Default { num: 1, den: 1 },
    }
}

/// The computed font. Past `2^32` fonts its place may not fit, which counts as want of memory.
pub fn font_place(winners: &[Setting], fonts: &[Font], parents: Option<u32>) -> Result<u32, Mem>
    ensures is { IfOk result (λ font. font ≡ resolved (font_of fonts.now)
        parents (row FontFamily).initial (specified FontFamily winners.now)) }
    ensures room { IfErr result (λ _. 2 ^ 32 ≤ length fonts.now) }
{
    match specified_value(winners, Prop::FontFamily, true) {
        Specified::Value(value) => u32::try_from(font_of(fonts, value)).map_err(|_| Mem),
        Specified::Inherit => Ok(parents.unwrap_or(0)),
        Specified::Initial => Ok(0),
    }
}

/// The computed line height.
pub fn line_height(winners: &[Setting], node: u32, parents: Option<LineHeight>) -> LineHeight
    ensures { result ≡ resolved (line_of node)
        parents (row LineHeightProp).initial (specified LineHeightProp winners.now) }
{
    match specified_value(winners, Prop::LineHeight, true) {
        Specified::Value(value) => line_of(node, value),
        Specified::Inherit => parents.unwrap_or(LineHeight::Own { num: 6, den: 5 }),
        Specified::Initial => LineHeight::Own { num: 6, den: 5 },
    }
}

/// The computed `vertical-align`.
pub fn raised(winners: &[Setting], node: u32, parents: Option<Valign>) -> Valign
    ensures { result ≡ resolved (valign_of node)
        parents (row VerticalAlign).initial (specified VerticalAlign winners.now) }
{
    match specified_value(winners, Prop::VerticalAlign, false) {
        Specified::Initial => Valign::Baseline,
        Specified::Inherit => parents.unwrap_or(Valign::Baseline),
        Specified::Value(value) => valign_of(node, value),
    }
}
