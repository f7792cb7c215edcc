//! The extents of boxes at the largest default font size, each up to one past the most that a page may reach.
ghost use Rattle.std.specs.Prelude.{◌≡◌, ◌≤◌, ◌*◌, ◌^◌, ◌+◌, ◌<◌, ◌==◌, ◌||◌, ℕ, IfOk, IsTrue, find, max, min, option_map, if◌then◌else◌};
ghost use Rattle.std.specs.Option.{option_copied};
ghost use Rattle.viz_base.specs.Styles.{is_good_line};
ghost use Rattle.viz_base.specs.FontSizes.{advance};
ghost use Rattle.viz_base.specs.Reaches.{intrinsic_extent, is_of_element, quotient_up, ratio};
ghost use Rattle.viz_base.specs.Words.{font_in};
ghost use Rattle.page_boxes.specs.steps.Extents.{AreCapped, extent_in, font_extent_in, lengths_extent, line_in, measured_in, most, most_extent, own_in, raise_in, sides_extent, style_extent_in, text_in, widths_in};

use crate::fonts::{capped, part_of, size_at};
use crate::letters::letters_of;
use std::alloc::{AllocError, Global};
use viz_base::{BoxNode, Font, Kind, Length, LineHeight, Sides, Style, Valign};

/// An absolute length or one in em, without its sign.
fn extent(sizes: &[u64], length: Length) -> u64
    requires { AreCapped sizes.now }
    ensures value { result ≡ extent_in sizes.now length }
    ensures bound { result ≤ most + 1 }
{
    match length {
        Length::Auto | Length::Pct(_) => 0,
        Length::Px(units) => capped(i128::from(units).unsigned_abs()),
        Length::Em { k, node } => part_of(k, 1_000_000, size_at(sizes, Some(node))),
    }
}

fn most_extent(sizes: &[u64], most: Option<Length>) -> u64
    requires { AreCapped sizes.now }
    ensures value { result ≡ most_extent sizes.now most }
    ensures bound { result ≤ 2 ^ 40 + 1 }
{
    match most {
        Some(length) => extent(sizes, length),
        None => 0,
    }
}

fn sides_extent(sizes: &[u64], sides: Sides<Length>) -> u64
    requires { AreCapped sizes.now }
    ensures value { result ≡ sides_extent sizes.now sides }
    ensures bound { result ≤ 4 * (most + 1) }
{
    extent(sizes, sides.top)
        + extent(sizes, sides.right)
        + extent(sizes, sides.bottom)
        + extent(sizes, sides.left)
}

/// All lengths of a style but for its raise.
fn lengths_extent(sizes: &[u64], style: &Style) -> u64
    requires { AreCapped sizes.now }
    ensures value { result ≡ lengths_extent sizes.now style.now }
    ensures bound { result ≤ 18 * (most + 1) }
{
    extent(sizes, style.width)
        + extent(sizes, style.min_width)
        + extent(sizes, style.height)
        + extent(sizes, style.min_height)
        + most_extent(sizes, style.max_width)
        + most_extent(sizes, style.max_height)
        + sides_extent(sizes, style.margin)
        + sides_extent(sizes, style.padding)
        + sides_extent(sizes, style.border)
}

fn line_height(sizes: &[u64], node: u32, line: LineHeight) -> u64
    requires sizes { AreCapped sizes.now }
    requires good { IsTrue (is_good_line line) }
    ensures value { result ≡ line_in sizes.now node line }
    ensures bound { result ≤ most + 1 }
{
    match line {
        LineHeight::Own { num, den } => part_of(num, den, size_at(sizes, Some(node))),
        LineHeight::Px(units) => capped(i128::from(units).unsigned_abs()),
        LineHeight::OfNode { node, num, den } => part_of(num, den, size_at(sizes, Some(node))),
    }
}

/// A raise by a length, or by a percentage of the line height.
fn raise_extent(sizes: &[u64], line: u64, valign: Valign) -> u64
    requires sizes { AreCapped sizes.now }
    requires short { line ≤ most + 1 }
    ensures value { result ≡ raise_in sizes.now line valign }
    ensures bound { result ≤ most + 1 }
{
    match valign {
        Valign::Raise(Length::Pct(part)) => part_of(part, 100_000_000, line),
        Valign::Raise(length) => extent(sizes, length),
        _ => 0,
    }
}

/// So many units of a font's em square.
fn measured(font: &Font, size: u64, units: u32) -> u64
    requires { size ≤ most + 1 }
    ensures value { result ≡ measured_in font.now size units }
    ensures bound { result ≤ most + 1 }
{
    part_of(i64::from(units), u64::from(font.upem), size)
}

/// Font size, line height, ascent and descent.
fn font_extent(size: u64, line: u64, font: &Font) -> u64
    requires size { size ≤ most + 1 }
    requires line { line ≤ most + 1 }
    ensures value { result ≡ font_extent_in size line font.now }
    ensures bound { result ≤ 4 * (most + 1) }
{
    size + line + measured(font, size, font.ascent) + measured(font, size, font.descent)
}

/// How many times the lesser intrinsic size of a replaced box goes into the greater, rounded up.
pub fn ratio(size: Option<(u32, u32)>) -> u64
    ensures value { result ≡ ratio size }
    ensures bound { result ≤ 2 ^ 33 }
{
    match size {
        Some((width, height)) => ratio_of(u64::from(width), u64::from(height)),
        None => 1,
    }
}

fn ratio_of(width: u64, height: u64) -> u64
    requires width { width < 2 ^ 32 }
    requires height { height < 2 ^ 32 }
    ensures value { result ≡ (if width == 0 || height == 0 then 1 else quotient_up
        (max width height) (min width height)) }
    ensures bound { result ≤ 2 ^ 33 }
{
    if width == 0 || height == 0 {
        return 1;
    }
    let most = width.max(height);
    let least = width.min(height);
    (most + (least - 1)) / least
}

fn intrinsic_extent(size: Option<(u32, u32)>) -> u64
    ensures value { result ≡ intrinsic_extent size }
    ensures bound { result ≤ 2 ^ 40 }
{
    match size {
        Some((width, height)) => 64 * u64::from(width) + 64 * u64::from(height),
        None => 0,
    }
}

fn style_extent(sizes: &[u64], style: &Style, font: &Font, inner: &BoxNode) -> u64
    requires { AreCapped sizes.now }
    ensures value { result ≡ style_extent_in sizes.now style.now font.now inner.now }
    ensures bound { result ≤ most + 1 }
{
    let line = line_height(sizes, inner.node, style.line);
    let all = lengths_extent(sizes, style)
        + raise_extent(sizes, line, style.valign)
        + font_extent(size_at(sizes, Some(inner.node)), line, font)
        + intrinsic_extent(inner.size);
    capped(u128::from(ratio(inner.size)) * u128::from(all))
}

/// Whether a box is an element's.
pub fn is_of_element(kind: Kind) -> bool
    ensures { result ≡ is_of_element kind }
{
    !matches!(kind, Kind::Chars | Kind::Anon | Kind::Line)
}

/// The extent that a box has by itself.
pub fn own_extent(sizes: &[u64], styles: &[Style], fonts: &[Font], inner: &BoxNode) -> u64
    requires { AreCapped sizes.now }
    ensures value { result ≡ own_in sizes.now styles.now fonts.now inner.now }
    ensures bound { result ≤ most + 1 }
{
    if !is_of_element(inner.kind) {
        return 0;
    }
    match styles.get(inner.node as usize) {
        Some(style) => match fonts.get(style.font as usize) {
            Some(font) => style_extent(sizes, style, font, inner),
            None => 0,
        },
        None => 0,
    }
}

/// The advance of a character, by the first entry that it has.
fn advance_in(advances: &[(char, u32)], letter: char) -> Option<u32>
    ensures { result ≡ option_map (λ (entry : ℕ × ℕ). entry.1) (find
        (λ (entry : ℕ × ℕ). entry.0 == letter) advances.now) }
{
    for entry in advances {
        if entry.0 == letter {
            return Some(entry.1);
        }
    }
    None
}

/// The advance of a character: that of its entry, or the font's for all others.
pub fn advance(font: &Font, letter: char) -> u32
    ensures { result ≡ advance font.now letter }
{
    advance_in(font.advances.as_slice(), letter).unwrap_or(font.other)
}

/// The widths of characters, one by one.
fn widths(font: &Font, size: u64, letters: &[char]) -> u64
    requires { size ≤ most + 1 }
    ensures value { result ≡ widths_in font.now size 0 letters.now }
    ensures bound { result ≤ most + 1 }
{
    let mut total = 0;
    for letter in letters {
        let width = measured(font, size, advance(font, *letter));
        total = capped(u128::from(total) + u128::from(width));
    }
    total
}

/// The font of a node.
pub fn font_at<'a>(styles: &[Style], fonts: &'a [Font], node: u32) -> Option<&'a Font>
    ensures { option_copied result ≡ font_in styles.now fonts.now node }
{
    match styles.get(node as usize) {
        Some(style) => fonts.get(style.font as usize),
        None => None,
    }
}

/// The widths of a text's characters.
pub fn text_extent(
    alloc: Global,
    sizes: &[u64],
    styles: &[Style],
    fonts: &[Font],
    inner: &BoxNode,
) -> Result<u64, AllocError>
    requires { AreCapped sizes.now }
    ensures value { IfOk result (λ n. n ≡ text_in sizes.now styles.now fonts.now inner.now) }
    ensures bound { IfOk result (λ n. n ≤ most + 1) }
{
    let letters = letters_of(alloc, inner.chars.as_str())?;
    match font_at(styles, fonts, inner.node) {
        Some(font) => Ok(widths(font, size_at(sizes, Some(inner.node)), &letters)),
        None => Ok(0),
    }
}
