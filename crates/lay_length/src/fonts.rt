//! Font sizes, line heights and the measures of fonts (CSS 2.1, 10.8.1, 15.7).
ghost use Rattle.std.specs.Prelude.{◌≡◌, ◌≤◌, length, [], ◌∷◌};
ghost use Rattle.std.specs.Str.{chars};
ghost use Rattle.viz_base.specs.declared.limits.TheConstants.{MOST_CHARACTERS};
ghost use Rattle.viz_calc.specs.State.{AllSmall};
ghost use Rattle.viz_calc.specs.Run.{Lays};
ghost use Rattle.viz_base.specs.FontSizes.{fraction, default_size};
ghost use Rattle.viz_base.specs.Words.{font_in, units_in};
ghost use Rattle.layout_semantics.specs.Fonts.{font_size as font_size_of, line_height as line_height_of};
ghost use Rattle.layout_semantics.specs.Fonts.{ascent as ascent_of, descent as descent_of, text_width as text_width_of};
ghost use Rattle.lay_length.specs.Ways.{size_way, part_way, line_way};

use crate::lengths::{pixels, zero};
use crate::texts::advances_of;
use lay_tree::nodes::{font, own_line_height, own_size, parent_node};
use viz_base::{BoxTree, Font, LineHeight, Size, Word};
use viz_calc::Steady;

/// A part of the default font size.
fn default_part<S: Steady>(calc: &mut S, num: i64, den: u64) -> S::Num
    requires { 1 ≤ den }
    ensures { Lays S.run calc.old calc.new (S.at result)
        (λ e. fraction num den (default_size e.world.s))
        (λ e. AllSmall (default_size e.world.s ∷ fraction num den (default_size e.world.s) ∷ [])) }
{
    let size = calc.size();
    // The root's is the whole, and each word of a page asks for it.
    if num == 1 && den == 1 {
        return size;
    }
    calc.scale_floor(&size, num, den)
}

/// The font size of a node, in 1/64 px (CSS 2.1, 15.7).
///
/// It goes up to the nearest node whose size needs no parent's.
pub fn font_size<S: Steady>(calc: &mut S, tree: &BoxTree, node: u32) -> S::Num
    ensures { Lays S.run calc.old calc.new (S.at result) (λ e. font_size_of tree.now e.world node)
        (λ e. AllSmall (size_way tree.now e.world node)) }
{
    match (own_size(tree, node), parent_node(tree, node)) {
        (Size::Px(units), _) => pixels(calc, units),
        (Size::Default { num, den }, _) => default_part(calc, num, den),
        (Size::Parent { num, den }, None) => default_part(calc, num, den),
        (Size::Parent { num, den }, Some(parent)) => {
            let above = font_size(calc, tree, parent);
            calc.scale_floor(&above, num, den)
        }
        (Size::Same, None) => calc.size(),
        (Size::Same, Some(parent)) => font_size(calc, tree, parent),
    }
}

/// A part of a node's font size.
pub fn size_part<S: Steady>(calc: &mut S, tree: &BoxTree, node: u32, num: i64, den: u64) -> S::Num
    requires { 1 ≤ den }
    ensures { Lays S.run calc.old calc.new (S.at result)
        (λ e. fraction num den (font_size_of tree.now e.world node))
        (λ e. AllSmall (part_way tree.now e.world node
        (fraction num den (font_size_of tree.now e.world node)))) }
{
    let size = font_size(calc, tree, node);
    calc.scale_floor(&size, num, den)
}

/// The line height of a node, in 1/64 px (CSS 2.1, 10.8.1).
pub fn line_height<S: Steady>(calc: &mut S, tree: &BoxTree, node: u32) -> S::Num
    ensures { Lays S.run calc.old calc.new (S.at result) (λ e. line_height_of tree.now e.world node)
        (λ e. AllSmall (line_way tree.now e.world node)) }
{
    match own_line_height(tree, node) {
        Some(LineHeight::Own { num, den }) => size_part(calc, tree, node, num, den),
        Some(LineHeight::Px(units)) => pixels(calc, units),
        Some(LineHeight::OfNode { node, num, den }) => size_part(calc, tree, node, num, den),
        None => zero(calc),
    }
}

/// So many units of a font's em square, at a node's font size.
fn measure<S: Steady>(calc: &mut S, tree: &BoxTree, node: u32, font: &Font, units: i64) -> S::Num
    ensures { Lays S.run calc.old calc.new (S.at result)
        (λ e. fraction units font.now.upem (font_size_of tree.now e.world node))
        (λ e. AllSmall (part_way tree.now e.world node
        (fraction units font.now.upem (font_size_of tree.now e.world node)))) }
{
    size_part(calc, tree, node, units, u64::from(font.upem))
}

/// The ascent of a node's font, in 1/64 px (CSS 2.1, 10.8.1).
pub fn ascent<S: Steady>(calc: &mut S, tree: &BoxTree, node: u32) -> S::Num
    ensures { Lays S.run calc.old calc.new (S.at result) (λ e. ascent_of tree.now e.world node)
        (λ e. AllSmall (part_way tree.now e.world node (ascent_of tree.now e.world node))) }
{
    match font(tree, node) {
        Some(font) => measure(calc, tree, node, font, i64::from(font.ascent)),
        None => zero(calc),
    }
}

/// The descent of a node's font, in 1/64 px (CSS 2.1, 10.8.1).
pub fn descent<S: Steady>(calc: &mut S, tree: &BoxTree, node: u32) -> S::Num
    ensures { Lays S.run calc.old calc.new (S.at result) (λ e. descent_of tree.now e.world node)
        (λ e. AllSmall (part_way tree.now e.world node (descent_of tree.now e.world node))) }
{
    match font(tree, node) {
        Some(font) => measure(calc, tree, node, font, i64::from(font.descent)),
        None => zero(calc),
    }
}

/// The width of a text as one word, in 1/64 px: the sum of its advances, and then the fraction.
pub fn text_width<S: Steady>(calc: &mut S, tree: &BoxTree, node: u32, text: &str) -> S::Num
    requires { length (chars text.now) ≤ MOST_CHARACTERS }
    ensures { Lays S.run calc.old calc.new (S.at result)
        (λ e. text_width_of tree.now e.world node (chars text.now))
        (λ e. AllSmall (part_way tree.now e.world node
        (text_width_of tree.now e.world node (chars text.now)))) }
{
    match font(tree, node) {
        Some(font) => measure(calc, tree, node, font, advances_of(font, text) as i64),
        None => zero(calc),
    }
}

/// The width of a word that the tree keeps, in 1/64 px: the sum of its advances, and then the fraction.
pub fn word_width<S: Steady>(calc: &mut S, tree: &BoxTree, node: u32, word: &Word) -> S::Num
    requires { word.now.units
        ≡ units_in (font_in tree.now.styles tree.now.fonts node) word.now.letters }
    ensures { Lays S.run calc.old calc.new (S.at result)
        (λ e. text_width_of tree.now e.world node word.now.letters)
        (λ e. AllSmall (part_way tree.now e.world node
        (text_width_of tree.now e.world node word.now.letters))) }
{
    match font(tree, node) {
        Some(font) => measure(calc, tree, node, font, word.units),
        None => zero(calc),
    }
}
