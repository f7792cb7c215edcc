ghost use Rattle.std.specs.Prelude.{◌≡◌, ◌<◌, ◌≤◌, ◌^◌, true, false, length, Some, IfErr, IfOk, MatchResult, OnOk};
ghost use Rattle.std.specs.List.{AllByRecursion};
ghost use Rattle.std.specs.Option.{option_copied};
ghost use Rattle.viz_base.specs.Pages.{is_element};
ghost use Rattle.viz_base.specs.declared.styles.Style.{Style};
ghost use Rattle.css_semantics.specs.ComputedValues.{AreComputed, IsComputed, IsOfText, of_parent};
ghost use Rattle.css_semantics.specs.Winners.{AreWinners, IsAllowed};
ghost use Rattle.layout_laws.specs.Styled.{AreStylesOf};
ghost use Rattle.page_style.specs.Added.{IsAdded};

use crate::elements::{element_style, text_style};
use crate::properties::drawn_borders;
use std::alloc::Global;
use viz_base::{Body, Cascaded, Font, List, Mem, Node, Page, Setting, Sides, Style};

/// What is known of the parent of a node.
fn of_parent<'a, T>(known: &'a [T], node: &Node) -> Option<&'a T>
    ensures { option_copied result ≡ of_parent known.now node.now }
{
    match node.parent {
        Some(parent) => known.get(parent as usize),
        None => None,
    }
}

/// The style of a node, beside its parent's.
fn node_style(
    fonts: &[Font],
    at: u32,
    node: &Node,
    winners: &[Setting],
    drawn: Sides<bool>,
    parent: Option<&Style>,
) -> Result<Style, Mem>
    requires { AllByRecursion IsAllowed winners.now }
    ensures element { IfOk result (λ s. is_element node.now.body ≡ true
        → IsComputed fonts.now at winners.now drawn (option_copied parent.entry) s) }
    ensures text { IfOk result (λ s. is_element node.now.body ≡ false
        → (t : Style) → option_copied parent.entry ≡ Some t → IsOfText t s) }
    ensures room { IfErr result (λ _. 2 ^ 32 ≤ length fonts.now) }
{
    match (&node.body, parent) {
        (Body::Chars(_), Some(parent)) => Ok(text_style(parent)),
        _ => element_style(fonts, at, winners, drawn, parent),
    }
}

/// A place as the number of a node. Of `2^32` and more it may not fit, which counts as want of memory.
fn number(at: usize) -> Result<u32, Mem>
    ensures { MatchResult result (λ n. n ≡ at) (λ _. 2 ^ 32 ≤ at) }
{
    u32::try_from(at).map_err(|_| Mem)
}

/// An error, for which the styles so far and their borders are given up.
fn given_up<E>(drawn: Vec<Sides<bool>>, styles: List<Style>, error: E) -> E
    ensures { result ≡ error }
{
    drop(drawn);
    drop(styles);
    error
}

/// Adds the style of a node to those of the nodes before it, and which of its borders are drawn.
fn add_style(
    fonts: &[Font],
    at: usize,
    node: &Node,
    winners: &[Setting],
    drawn: &mut Vec<Sides<bool>>,
    styles: &mut List<Style>,
) -> Result<(), Mem>
    requires { AllByRecursion IsAllowed winners.now }
    ensures { OnOk result (IsAdded fonts.now at node.now winners.now drawn.old.items drawn.new.items styles.old
        styles.new) }
{
    let borders = drawn_borders(winners, of_parent(drawn.as_slice(), node).copied());
    let style = node_style(
        fonts,
        number(at)?,
        node,
        winners,
        borders,
        of_parent(styles.as_slice(), node),
    )?;
    drawn.push(borders)?;
    styles.push(style)?;
    Ok(())
}

/// The style of each node of a page, in the order of the nodes (CSS 2.1, 6.1 and 6.2). An element's is what wins there,
/// what it inherits and what is initial, computed; a text's is its parent's with the size `Same`. Lengths are in units
/// of 1/64 px.
///
/// `Mem` for want of memory, as which a number of a node or of a font from `2^32` on counts; no clause says when.
pub fn compute(
    alloc: Global,
    page: &Page,
    cascaded: &Cascaded,
    fonts: &List<Font>,
) -> Result<List<Style>, Mem>
    requires fonts { 0 < length fonts.now }
    requires winners { AreWinners page.now.nodes cascaded.now.winners }
    ensures computed { IfOk result (AreComputed page.now.nodes cascaded.now.winners fonts.now) }
    ensures fitting { IfOk result (λ styles. AreStylesOf page.now.nodes styles fonts.now) }
{
    let nodes = page.nodes.as_slice();
    let winners = cascaded.winners.as_slice();
    let mut drawn = Vec::new(alloc);
    let mut styles = List::new(alloc);
    for at in 0..nodes.len() {
        let node = &nodes[at];
        let settings = winners[at].as_slice();
        match add_style(
            fonts.as_slice(),
            at,
            node,
            settings,
            &mut drawn,
            &mut styles,
        ) {
            Ok(()) => (),
            Err(mem) => return Err(given_up(drawn, styles, mem)),
        }
    }
    Ok(styles)
}
