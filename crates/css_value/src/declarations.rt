ghost use Rattle.std.specs.Prelude.{◌≡◌, codes};
ghost use Rattle.std.specs.List.{find, list_any};
ghost use Rattle.css_semantics.specs.Values.{is_keyword};
ghost use Rattle.css_semantics.specs.Shorthands.{Says, declared, list_style, longhand_or, shorthand, shorthand_name, shorthand_named, shorthands};
ghost use Rattle.css_semantics.specs.Names.{same_name};
ghost use Rattle.css_semantics.specs.Properties.{property_named};
ghost use Rattle.viz_base.specs.Answers.{Gives, GivesOneOf};
ghost use Rattle.css_value.specs.Faults.{refusal_of};

use crate::fault::ValueFault;
use crate::fonts::font;
use crate::lines::lines;
use crate::rows::property_named;
use crate::sides::four_sides;
use crate::splitting::split;
use crate::values::{is_keyword, longhand};
use css_semantics::{Part, Shorthand};
use css_token::{close_by_end, same_name, tokens};
use std::alloc::Global;
use viz_base::{List, Prop, Setting, Sides};

const SHORTHANDS: [Shorthand; 11] = [
    Shorthand::Margin,
    Shorthand::Padding,
    Shorthand::BorderWidth,
    Shorthand::BorderStyle,
    Shorthand::Border,
    Shorthand::BorderTop,
    Shorthand::BorderRight,
    Shorthand::BorderBottom,
    Shorthand::BorderLeft,
    Shorthand::Font,
    Shorthand::ListStyle,
];

const LINE_WIDTHS: [Prop; 4] = [
    Prop::BorderTopWidth,
    Prop::BorderRightWidth,
    Prop::BorderBottomWidth,
    Prop::BorderLeftWidth,
];

const LINE_STYLES: [Prop; 4] = [
    Prop::BorderTopStyle,
    Prop::BorderRightStyle,
    Prop::BorderBottomStyle,
    Prop::BorderLeftStyle,
];

const MARGINS: Sides<Prop> = Sides {
    top: Prop::MarginTop,
    right: Prop::MarginRight,
    bottom: Prop::MarginBottom,
    left: Prop::MarginLeft,
};

const PADDINGS: Sides<Prop> = Sides {
    top: Prop::PaddingTop,
    right: Prop::PaddingRight,
    bottom: Prop::PaddingBottom,
    left: Prop::PaddingLeft,
};

const WIDTHS: Sides<Prop> = Sides {
    top: Prop::BorderTopWidth,
    right: Prop::BorderRightWidth,
    bottom: Prop::BorderBottomWidth,
    left: Prop::BorderLeftWidth,
};

const STYLES: Sides<Prop> = Sides {
    top: Prop::BorderTopStyle,
    right: Prop::BorderRightStyle,
    bottom: Prop::BorderBottomStyle,
    left: Prop::BorderLeftStyle,
};

fn shorthand_name(shorthand: Shorthand) -> &'static str
    ensures { result.now ≡ shorthand_name shorthand }
{
    match shorthand {
        Shorthand::Margin => "margin",
        Shorthand::Padding => "padding",
        Shorthand::BorderWidth => "border-width",
        Shorthand::BorderStyle => "border-style",
        Shorthand::Border => "border",
        Shorthand::BorderTop => "border-top",
        Shorthand::BorderRight => "border-right",
        Shorthand::BorderBottom => "border-bottom",
        Shorthand::BorderLeft => "border-left",
        Shorthand::Font => "font",
        Shorthand::ListStyle => "list-style",
    }
}

fn is_named(name: &str, shorthand: Shorthand) -> bool
    ensures { result ≡ same_name name.now (shorthand_name shorthand) }
{
    same_name(name, shorthand_name(shorthand))
}

/// The first of the shorthands that has this name.
fn first_named(name: &str, among: &[Shorthand]) -> Option<Shorthand>
    ensures { result ≡ find (λ s. same_name name.now (shorthand_name s)) among.now }
{
    for shorthand in among {
        if is_named(name, *shorthand) {
            return Some(*shorthand);
        }
    }
    None
}

fn shorthands() -> &'static [Shorthand]
    ensures { result.now ≡ shorthands }
{
    &SHORTHANDS
}

fn shorthand_named(name: &str) -> Option<Shorthand>
    ensures { result ≡ shorthand_named name.now }
{
    first_named(name, shorthands())
}

fn names_inside(parts: &[Part]) -> bool
    ensures { result ≡ list_any (is_keyword (codes "inside")) parts.now }
{
    parts.iter().any(|part| is_keyword("inside", part))
}

/// Why `list-style` gives no setting (CSS 2.1, 12.5.1).
fn list_style(parts: &[Part]) -> Result<List<Setting>, ValueFault>
    ensures { Gives (λ x. x) refusal_of result (list_style parts.now) }
{
    if names_inside(parts) {
        Err(ValueFault::Unsupported(Prop::ListStylePosition))
    } else {
        Err(ValueFault::Ignored)
    }
}

/// What the value of a shorthand gives.
fn shorthand(alloc: Global, known: Shorthand, parts: &[Part]) -> Result<List<Setting>, ValueFault>
    ensures { Gives (λ x. x) refusal_of result (shorthand known parts.now) }
{
    match known {
        Shorthand::Margin => four_sides(alloc, MARGINS, parts),
        Shorthand::Padding => four_sides(alloc, PADDINGS, parts),
        Shorthand::BorderWidth => four_sides(alloc, WIDTHS, parts),
        Shorthand::BorderStyle => four_sides(alloc, STYLES, parts),
        Shorthand::Border => lines(alloc, &LINE_WIDTHS, &LINE_STYLES, parts),
        Shorthand::BorderTop => lines(
            alloc,
            &[Prop::BorderTopWidth],
            &[Prop::BorderTopStyle],
            parts,
        ),
        Shorthand::BorderRight => lines(
            alloc,
            &[Prop::BorderRightWidth],
            &[Prop::BorderRightStyle],
            parts,
        ),
        Shorthand::BorderBottom => lines(
            alloc,
            &[Prop::BorderBottomWidth],
            &[Prop::BorderBottomStyle],
            parts,
        ),
        Shorthand::BorderLeft => lines(
            alloc,
            &[Prop::BorderLeftWidth],
            &[Prop::BorderLeftStyle],
            parts,
        ),
        Shorthand::Font => font(alloc, parts),
        Shorthand::ListStyle => list_style(parts),
    }
}

/// What a declaration of this name with these parts as its value gives.
fn declared(alloc: Global, name: &str, parts: &[Part]) -> Result<List<Setting>, ValueFault>
    ensures { Gives (λ x. x) refusal_of result (declared name.now parts.now) }
{
    if let Some(prop) = property_named(name) {
        longhand(alloc, prop, parts)
    } else if let Some(known) = shorthand_named(name) {
        shorthand(alloc, known, parts)
    } else {
        Err(ValueFault::Ignored)
    }
}

/// The settings of a declaration, those of a shorthand in the order of the table of properties (CSS 2.1, 1.4.3 and
/// 4.3). The name is without escapes, and it and the value are shorter than `2^32` bytes. The end of the value closes
/// what is open there. Absolute lengths are in 1/64 px, other amounts in millionths.
///
/// `Ignored` where the declaration is dropped, since the property is unknown or the value illegal; `Unsupported` where
/// the value is one that the property refuses by name; `Mem` for want of memory, and no clause says when.
pub fn read_declaration(alloc: Global, name: &str, value: &str) -> Result<List<Setting>, ValueFault>
    ensures { GivesOneOf (λ x. x) refusal_of result (Says name.now value.now) }
{
    let mut tokens = tokens(alloc, value)?.into_vec();
    close_by_end(&mut tokens);
    let parts = split(alloc, tokens.as_slice())?;
    declared(alloc, name, parts.as_slice())
}
