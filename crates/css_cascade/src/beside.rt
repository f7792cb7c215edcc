//! What the pseudo-elements of nodes set, and which value of theirs is refused by name.
ghost use Rattle.std.specs.Prelude.{◌≡◌, map, option_map, slice_get, IfOk};
ghost use Rattle.std.specs.List.{AllByRecursion, list_any};
ghost use Rattle.css_semantics.specs.PseudoCascade.{asks_text, first_unsupported, is_asked, is_text_or_refused, settings_beside};
ghost use Rattle.css_select.specs.steps.Trees.{AreSiblings};
ghost use Rattle.css_cascade.specs.steps.Beside.{AreBeside, IsBeside, named, refused_of};
ghost use Rattle.css_cascade.specs.steps.Trimming.{IsTrimmed, rules_of};
ghost use Rattle.css_cascade.specs.steps.Trying.{AreBuckets};

use crate::applying::applied;
use crate::buckets::Buckets;
use crate::nodes::{has_hiding, number, set_by};
use crate::order::claims_among;
use crate::trimming::Trimmed;
use css_select::Siblings;
use css_semantics::Claim;
use std::alloc::Global;
use viz_base::{Body, List, Mem, Node, Page, Prop, Setting, Source, Value};

/// A value that is refused by name.
#[derive(Clone, Copy)]
pub struct Refused {
    pub prop: Prop,
    /// Where the value stands.
    pub source: Source,
}

/// For each node of a page what its pseudo-element sets, and the value of it that is refused if the element is shown.
#[derive(Drop)]
pub struct Beside {
    /// What the pseudo-element of each node sets.
    pub winners: List<List<Setting>>,
    /// For each node the value of its pseudo-element that is refused if the node is shown, if there is one.
    pub refused: Vec<Option<Refused>>,
}

/// Whether the value of `content` is a text, or refused by name.
fn is_text_or_refused(value: &Option<Value>) -> bool
    ensures { result ≡ is_text_or_refused value.now }
{
    match value {
        Some(Value::Chars(_)) => true,
        Some(_) => false,
        None => true,
    }
}

fn asks_text(claim: &Claim) -> bool
    ensures { result ≡ asks_text claim.now }
{
    claim.prop == Prop::Content && is_text_or_refused(&claim.value)
}

fn have_text(winners: &[&Claim]) -> bool
    ensures { result ≡ list_any asks_text (map (λ c. c.now) winners.now) }
{
    for winner in winners {
        if asks_text(winner) {
            return true;
        }
    }
    false
}

/// Whether a pseudo-element with these winners has to be laid out (CSS 2.1, 12.1 and 12.2).
fn is_asked(winners: &[&Claim]) -> bool
    ensures { result ≡ is_asked (map (λ c. c.now) winners.now) }
{
    have_text(winners) && !has_hiding(winners)
}

/// The first of the winners that is refused by name.
fn first_unsupported<'a>(winners: &[&'a Claim]) -> Option<&'a Claim>
    ensures { option_map (λ c. c.now) result ≡ first_unsupported (map (λ c. c.now) winners.now) }
{
    for winner in winners {
        let claim = *winner;
        if claim.value.is_none() {
            return Some(claim);
        }
    }
    None
}

fn refused_of(winners: &[&Claim]) -> Option<Refused>
    ensures { result ≡ option_map named (refused_of (map (λ c. c.now) winners.now)) }
{
    if !is_asked(winners) {
        return None;
    }
    let claim = first_unsupported(winners)?;
    Some(Refused {
        prop: claim.prop,
        source: claim.source,
    })
}

/// What the winners of a pseudo-element set.
fn settings_beside(alloc: Global, winners: &[&Claim]) -> Result<List<Setting>, Mem>
    ensures { IfOk result (λ settings. settings ≡ settings_beside (map (λ c. c.now) winners.now)) }
{
    let mut settings = List::new(alloc);
    for winner in winners {
        if let Some(setting) = set_by(alloc, winner)? {
            settings.push(setting)?;
        }
    }
    Ok(settings)
}

/// What the pseudo-element of a node comes to.
fn come_beside(
    alloc: Global,
    page: &Page,
    siblings: &Siblings,
    rulesets: &[Trimmed<'_>],
    buckets: &Buckets<'_>,
    at: u32,
    node: &Node,
) -> Result<(List<Setting>, Option<Refused>), Mem>
    requires found { slice_get page.now.nodes at ≡ Some node.now }
    requires siblings { AreSiblings page.now.nodes siblings.now }
    requires trimmed { AllByRecursion IsTrimmed rulesets.now }
    requires buckets { AreBuckets page.now.nodes (map rules_of rulesets.now) buckets.now }
    ensures { IfOk result (λ come. IsBeside page.now.nodes
        (map rules_of rulesets.now) at node.now.body come.0 come.1) }
{
    match &node.body {
        Body::Element(element) => {
            // A style attribute says nothing of a pseudo-element (CSS 2.1, 6.4.3).
            let best = applied(alloc, rulesets, buckets, page, siblings, at, element, &[])?;
            let winners = claims_among(alloc, best.as_slice())?;
            Ok((settings_beside(alloc, &winners)?, refused_of(&winners)))
        }
        Body::Chars(_) => Ok((List::new(alloc), None)),
    }
}

/// What the pseudo-elements of all nodes come to.
pub fn beside_nodes(
    alloc: Global,
    page: &Page,
    siblings: &Siblings,
    rulesets: &[Trimmed<'_>],
    buckets: &Buckets<'_>,
) -> Result<Beside, Mem>
    requires siblings { AreSiblings page.now.nodes siblings.now }
    requires trimmed { AllByRecursion IsTrimmed rulesets.now }
    requires buckets { AreBuckets page.now.nodes (map rules_of rulesets.now) buckets.now }
    ensures { IfOk result (AreBeside page.now.nodes (map rules_of rulesets.now)) }
{
    let mut winners = List::new(alloc);
    let mut refused = Vec::new(alloc);
    let nodes = page.nodes.as_slice();
    for at in 0..nodes.len() {
        let (settings, named) = come_beside(
            alloc,
            page,
            siblings,
            rulesets,
            buckets,
            number(at)?,
            &nodes[at],
        )?;
        winners.push(settings)?;
        refused.push(named)?;
    }
    Ok(Beside { winners, refused })
}
