ghost use Rattle.std.specs.Prelude.{◌≡◌, ◌↔◌, reverse, IfSome, IsTrue};
ghost use Rattle.std.specs.List.{AllByRecursion};
ghost use Rattle.css_semantics.specs.Matching.{HasTag, Match, MatchesCompound, Passes};
ghost use Rattle.css_select.specs.steps.Outcomes.{IsOutcome, IsOutcomeAround};
ghost use Rattle.css_select.specs.steps.Trees.{AreSiblings};

use crate::attributes::some_attribute;
use crate::siblings::Siblings;
use crate::tree::{is_first_child, parent_of, previous_sibling};
use css_token::same_name;
use viz_base::{Body, Compound, Element, Join, Page, Selector, Test, Text};

/// Whether an element passes a test.
fn passes(
    page: &Page,
    siblings: Option<&Siblings>,
    node: u32,
    element: &Element,
    test: &Test,
) -> bool
    requires { IfSome siblings (λ s. AreSiblings page.now.nodes s.now) }
    ensures { IsTrue result ↔ Passes page.now.nodes node element.now test.now }
{
    match test {
        Test::FirstChild => is_first_child(page, siblings, node),
        // No link is visited here, so `:link` is each `a` with `href`, and `:visited` matches nothing.
        Test::Link => same_name("a", element.tag.as_str()) && some_attribute(element, test),
        _ => some_attribute(element, test),
    }
}

/// Whether an element passes all tests.
fn passes_all(
    page: &Page,
    siblings: Option<&Siblings>,
    node: u32,
    element: &Element,
    tests: &[Test],
) -> bool
    requires { IfSome siblings (λ s. AreSiblings page.now.nodes s.now) }
    ensures { IsTrue result ↔ AllByRecursion (Passes page.now.nodes node element.now) tests.now }
{
    for test in tests {
        if !passes(page, siblings, node, element, test) {
            return false;
        }
    }
    true
}

/// Whether an element has the tag that is asked for, if one is.
fn has_tag(element: &Element, tag: &Option<Text>) -> bool
    ensures { IsTrue result ↔ HasTag element.now tag.now }
{
    match tag {
        Some(tag) => same_name(tag.as_str(), element.tag.as_str()),
        None => true,
    }
}

/// Whether a simple selector matches a node.
fn matches_compound(
    page: &Page,
    siblings: Option<&Siblings>,
    compound: &Compound,
    node: u32,
) -> bool
    requires { IfSome siblings (λ s. AreSiblings page.now.nodes s.now) }
    ensures { IsTrue result ↔ MatchesCompound page.now.nodes compound.now node }
{
    let Some(found) = page.nodes.get(node as usize) else {
        return false;
    };
    match &found.body {
        Body::Element(element) => {
            has_tag(element, &compound.tag)
                && passes_all(page, siblings, node, element, compound.tests.as_slice())
        }
        Body::Chars(_) => false,
    }
}

/// How far matching the simple selectors of a selector came at a node.
#[derive(Clone, Copy)]
enum Outcome {
    /// They match.
    Found,
    /// They don't.
    Failed,
    /// They don't, nor at any node above: each element around the place where an element was looked for failed, and
    /// these are all that another try would find.
    Hopeless,
}

/// Matches the simple selectors at a node, the last of them first.
#[cycle(matching)]
fn match_parts(
    page: &Page,
    siblings: Option<&Siblings>,
    parts: &[(Join, Compound)],
    node: u32,
) -> Outcome
    requires { IfSome siblings (λ s. AreSiblings page.now.nodes s.now) }
    ensures { IsOutcome page.now.nodes (reverse parts.now) node result }
{
    // From right to left: the last simple selector is about the node itself, and most fail there.
    let Some(((join, compound), before)) = parts.split_last() else {
        return Outcome::Found;
    };
    if !matches_compound(page, siblings, compound, node) {
        return Outcome::Failed;
    }
    match join {
        Join::First => Outcome::Found,
        Join::Descendant => match_around(page, siblings, before, node),
        Join::Child => match parent_of(page, node) {
            Some(parent) => match_parts(page, siblings, before, parent),
            None => Outcome::Failed,
        },
        Join::Next => match previous_sibling(page, siblings, node) {
            Some(sibling) => match_parts(page, siblings, before, sibling),
            None => Outcome::Failed,
        },
    }
}

/// Matches them at the elements around a node, the nearest first. Behind one from which the search came to an end
/// without an element, the others need no try.
#[cycle(matching)]
fn match_around(
    page: &Page,
    siblings: Option<&Siblings>,
    parts: &[(Join, Compound)],
    node: u32,
) -> Outcome
    requires { IfSome siblings (λ s. AreSiblings page.now.nodes s.now) }
    ensures { IsOutcomeAround page.now.nodes (reverse parts.now) node result }
{
    let mut at = node;
    while let Some(parent) = parent_of(page, at) {
        match match_parts(page, siblings, parts, parent) {
            // `Hopeless` ends the search too: plain backtracking over each element around would take exponential
            // time.
            Outcome::Failed => at = parent,
            outcome => return outcome,
        }
    }
    Outcome::Hopeless
}

/// Whether a selector matches a node of a page, which is an element then (CSS 2.1, chapter 5), in time linear in the
/// depth of the page for each simple selector, and in its siblings where one looks at them. Its pseudo-element isn't
/// asked for: what stands before it matches the element that has one.
pub fn matches(selector: &Selector, page: &Page, node: u32) -> bool
    ensures { IsTrue result ↔ Match selector.now.parts page.now.nodes node }
{
    matches!(
        match_parts(page, None, selector.parts.as_slice(), node),
        Outcome::Found
    )
}

/// The same as `matches`, in time that doesn't depend on the siblings of a node, by the table of the page.
pub fn matches_beside(selector: &Selector, page: &Page, siblings: &Siblings, node: u32) -> bool
    requires { AreSiblings page.now.nodes siblings.now }
    ensures { IsTrue result ↔ Match selector.now.parts page.now.nodes node }
{
    matches!(
        match_parts(page, Some(siblings), selector.parts.as_slice(), node),
        Outcome::Found
    )
}
