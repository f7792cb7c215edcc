ghost use Rattle.std.specs.Prelude.{◌≡◌, ◌<◌, map, length, option_map, slice_get};
ghost use Rattle.std.specs.List.{find};
ghost use Rattle.css_semantics.specs.Names.{same_name};
ghost use Rattle.css_semantics.specs.Properties.{properties, property_named, row};
ghost use Rattle.css_value.specs.Rows.{filled};

use css_semantics::Takes;
use css_token::same_name;
use viz_base::Prop;

/// What a property takes, beside `inherit`.
#[derive(Clone, Copy)]
pub struct TableRow {
    /// The property's name.
    pub name: &'static str,
    /// The keywords that it takes, in the order in which their places are counted.
    pub words: &'static [&'static str],
    /// The keywords that are refused by name.
    pub refused: &'static [&'static str],
    /// Which lengths it takes.
    pub lengths: Takes,
    /// Which percentages it takes.
    pub percentages: Takes,
    /// Which numbers without a unit it takes.
    pub numbers: Takes,
    /// Whether its value is a list of names of font families.
    pub families: bool,
    /// Whether its value may be a text: strings, one after another.
    pub strings: bool,
}

const LINE_WIDTHS: &[&str] = &["thin", "medium", "thick"];

const LINE_STYLES: &[&str] = &[
    "none", "hidden", "dotted", "dashed", "solid", "double", "groove", "ridge", "inset", "outset",
];

const SIZE_WORDS: &[&str] = &[
    "xx-small", "x-small", "small", "medium", "large", "x-large", "xx-large", "larger", "smaller",
];

/// The properties in the order of the table.
const PROPERTIES: [Prop; 40] = [
    Prop::Display,
    Prop::Position,
    Prop::Float,
    Prop::Clear,
    Prop::Overflow,
    Prop::Direction,
    Prop::Width,
    Prop::Height,
    Prop::MinWidth,
    Prop::MinHeight,
    Prop::MaxWidth,
    Prop::MaxHeight,
    Prop::MarginTop,
    Prop::MarginRight,
    Prop::MarginBottom,
    Prop::MarginLeft,
    Prop::PaddingTop,
    Prop::PaddingRight,
    Prop::PaddingBottom,
    Prop::PaddingLeft,
    Prop::BorderTopWidth,
    Prop::BorderRightWidth,
    Prop::BorderBottomWidth,
    Prop::BorderLeftWidth,
    Prop::BorderTopStyle,
    Prop::BorderRightStyle,
    Prop::BorderBottomStyle,
    Prop::BorderLeftStyle,
    Prop::FontSize,
    Prop::FontFamily,
    Prop::LineHeight,
    Prop::VerticalAlign,
    Prop::TextAlign,
    Prop::WhiteSpace,
    Prop::TextIndent,
    Prop::LetterSpacing,
    Prop::WordSpacing,
    Prop::TextTransform,
    Prop::ListStylePosition,
    Prop::Content,
];

/// A row of a property that takes nothing.
const EMPTY: TableRow = TableRow {
    name: "",
    words: &[],
    refused: &[],
    lengths: Takes::Nothing,
    percentages: Takes::Nothing,
    numbers: Takes::Nothing,
    families: false,
    strings: false,
};

/// The row of a property in the table.
fn table(prop: Prop) -> &'static TableRow
    ensures is { filled prop result.now ≡ row prop }
    ensures few { length result.now.words.now < 256 }
{
    match prop {
        Prop::Display => &TableRow {
            name: "display",
            words: &["none", "block", "inline", "inline-block", "list-item"],
            refused: &[
                "table",
                "inline-table",
                "table-row",
                "table-row-group",
                "table-header-group",
                "table-footer-group",
                "table-column",
                "table-column-group",
                "table-cell",
                "table-caption",
            ],
            ..EMPTY
        },
        Prop::Position => &TableRow {
            name: "position",
            words: &["static"],
            refused: &["relative", "absolute", "fixed"],
            ..EMPTY
        },
        Prop::Float => &TableRow {
            name: "float",
            words: &["none", "left", "right"],
            ..EMPTY
        },
        Prop::Clear => &TableRow {
            name: "clear",
            words: &["none", "left", "right", "both"],
            ..EMPTY
        },
        Prop::Overflow => &TableRow {
            name: "overflow",
            words: &["visible", "hidden", "scroll", "auto"],
            ..EMPTY
        },
        Prop::Direction => &TableRow {
            name: "direction",
            words: &["ltr"],
            refused: &["rtl"],
            ..EMPTY
        },
        Prop::Width => &TableRow {
            name: "width",
            words: &["auto"],
            lengths: Takes::NotNegative,
            percentages: Takes::NotNegative,
            ..EMPTY
        },
        Prop::Height => &TableRow {
            name: "height",
            words: &["auto"],
            lengths: Takes::NotNegative,
            percentages: Takes::NotNegative,
            ..EMPTY
        },
        Prop::MinWidth => &TableRow {
            name: "min-width",
            lengths: Takes::NotNegative,
            percentages: Takes::NotNegative,
            ..EMPTY
        },
        Prop::MinHeight => &TableRow {
            name: "min-height",
            lengths: Takes::NotNegative,
            percentages: Takes::NotNegative,
            ..EMPTY
        },
        Prop::MaxWidth => &TableRow {
            name: "max-width",
            words: &["none"],
            lengths: Takes::NotNegative,
            percentages: Takes::NotNegative,
            ..EMPTY
        },
        Prop::MaxHeight => &TableRow {
            name: "max-height",
            words: &["none"],
            lengths: Takes::NotNegative,
            percentages: Takes::NotNegative,
            ..EMPTY
        },
        Prop::MarginTop => &TableRow {
            name: "margin-top",
            words: &["auto"],
            lengths: Takes::All,
            percentages: Takes::All,
            ..EMPTY
        },
        Prop::MarginRight => &TableRow {
            name: "margin-right",
            words: &["auto"],
            lengths: Takes::All,
            percentages: Takes::All,
            ..EMPTY
        },
        Prop::MarginBottom => &TableRow {
            name: "margin-bottom",
            words: &["auto"],
            lengths: Takes::All,
            percentages: Takes::All,
            ..EMPTY
        },
        Prop::MarginLeft => &TableRow {
            name: "margin-left",
            words: &["auto"],
            lengths: Takes::All,
            percentages: Takes::All,
            ..EMPTY
        },
        Prop::PaddingTop => &TableRow {
            name: "padding-top",
            lengths: Takes::NotNegative,
            percentages: Takes::NotNegative,
            ..EMPTY
        },
        Prop::PaddingRight => &TableRow {
            name: "padding-right",
            lengths: Takes::NotNegative,
            percentages: Takes::NotNegative,
            ..EMPTY
        },
        Prop::PaddingBottom => &TableRow {
            name: "padding-bottom",
            lengths: Takes::NotNegative,
            percentages: Takes::NotNegative,
            ..EMPTY
        },
        Prop::PaddingLeft => &TableRow {
            name: "padding-left",
            lengths: Takes::NotNegative,
            percentages: Takes::NotNegative,
            ..EMPTY
        },
        Prop::BorderTopWidth => &TableRow {
            name: "border-top-width",
            words: LINE_WIDTHS,
            lengths: Takes::NotNegative,
            ..EMPTY
        },
        Prop::BorderRightWidth => &TableRow {
            name: "border-right-width",
            words: LINE_WIDTHS,
            lengths: Takes::NotNegative,
            ..EMPTY
        },
        Prop::BorderBottomWidth => &TableRow {
            name: "border-bottom-width",
            words: LINE_WIDTHS,
            lengths: Takes::NotNegative,
            ..EMPTY
        },
        Prop::BorderLeftWidth => &TableRow {
            name: "border-left-width",
            words: LINE_WIDTHS,
            lengths: Takes::NotNegative,
            ..EMPTY
        },
        Prop::BorderTopStyle => &TableRow {
            name: "border-top-style",
            words: LINE_STYLES,
            ..EMPTY
        },
        Prop::BorderRightStyle => &TableRow {
            name: "border-right-style",
            words: LINE_STYLES,
            ..EMPTY
        },
        Prop::BorderBottomStyle => &TableRow {
            name: "border-bottom-style",
            words: LINE_STYLES,
            ..EMPTY
        },
        Prop::BorderLeftStyle => &TableRow {
            name: "border-left-style",
            words: LINE_STYLES,
            ..EMPTY
        },
        Prop::FontSize => &TableRow {
            name: "font-size",
            words: SIZE_WORDS,
            lengths: Takes::NotNegative,
            percentages: Takes::NotNegative,
            ..EMPTY
        },
        Prop::FontFamily => &TableRow {
            name: "font-family",
            families: true,
            ..EMPTY
        },
        Prop::LineHeight => &TableRow {
            name: "line-height",
            words: &["normal"],
            numbers: Takes::NotNegative,
            lengths: Takes::NotNegative,
            percentages: Takes::NotNegative,
            ..EMPTY
        },
        Prop::VerticalAlign => &TableRow {
            name: "vertical-align",
            words: &["baseline", "sub", "super", "middle"],
            refused: &["top", "bottom", "text-top", "text-bottom"],
            lengths: Takes::All,
            percentages: Takes::All,
            ..EMPTY
        },
        Prop::TextAlign => &TableRow {
            name: "text-align",
            words: &["left", "right", "center", "justify"],
            ..EMPTY
        },
        Prop::WhiteSpace => &TableRow {
            name: "white-space",
            words: &["normal", "nowrap"],
            refused: &["pre", "pre-wrap", "pre-line"],
            ..EMPTY
        },
        Prop::TextIndent => &TableRow {
            name: "text-indent",
            lengths: Takes::ZeroAlone,
            percentages: Takes::ZeroAlone,
            ..EMPTY
        },
        Prop::LetterSpacing => &TableRow {
            name: "letter-spacing",
            words: &["normal"],
            lengths: Takes::ZeroAlone,
            ..EMPTY
        },
        Prop::WordSpacing => &TableRow {
            name: "word-spacing",
            words: &["normal"],
            lengths: Takes::ZeroAlone,
            ..EMPTY
        },
        Prop::TextTransform => &TableRow {
            name: "text-transform",
            words: &["none"],
            refused: &["capitalize", "uppercase", "lowercase"],
            ..EMPTY
        },
        Prop::ListStylePosition => &TableRow {
            name: "list-style-position",
            words: &["outside"],
            refused: &["inside"],
            ..EMPTY
        },
        Prop::Content => &TableRow {
            name: "content",
            words: &["normal", "none"],
            refused: &[
                "open-quote",
                "close-quote",
                "no-open-quote",
                "no-close-quote",
            ],
            strings: true,
            ..EMPTY
        },
    }
}

/// What a property takes.
pub fn row(prop: Prop) -> TableRow
    ensures name { result.name.now ≡ (row prop).name }
    ensures words { map (λ w. w.now) result.words.now ≡ (row prop).words }
    ensures few { length result.words.now < 256 }
    ensures refused { map (λ w. w.now) result.refused.now ≡ (row prop).refused }
    ensures lengths { result.lengths ≡ (row prop).lengths }
    ensures percentages { result.percentages ≡ (row prop).percentages }
    ensures numbers { result.numbers ≡ (row prop).numbers }
    ensures families { result.families ≡ (row prop).families }
    ensures strings { result.strings ≡ (row prop).strings }
{
    *table(prop)
}

/// The properties in the order of the table.
pub fn properties() -> &'static [Prop]
    ensures { result.now ≡ properties }
{
    &PROPERTIES
}

/// The name of a property, as it is printed.
pub fn property_name(prop: Prop) -> &'static str
    ensures { result.now ≡ (row prop).name }
{
    row(prop).name
}

/// The keyword at this place, from 0, among those that a property takes; none past the last.
pub fn keyword_at(prop: Prop, place: u8) -> Option<&'static str>
    ensures { option_map (λ word. word.now) result ≡ slice_get (row prop).words place }
{
    row(prop).words.get(place as usize).copied()
}

fn is_named(name: &str, prop: Prop) -> bool
    ensures { result ≡ same_name name.now (row prop).name }
{
    same_name(name, property_name(prop))
}

/// The first of the properties that has this name.
fn first_named(name: &str, props: &[Prop]) -> Option<Prop>
    ensures { result ≡ find (λ p. same_name name.now (row p).name) props.now }
{
    for prop in props {
        if is_named(name, *prop) {
            return Some(*prop);
        }
    }
    None
}

/// The property of this name, in any ASCII case; none where the table has none.
pub fn property_named(name: &str) -> Option<Prop>
    ensures { result ≡ property_named name.now }
{
    first_named(name, properties())
}
