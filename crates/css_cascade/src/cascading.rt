//! What wins at each node of a page, or why the page is refused.
ghost use Rattle.std.specs.Prelude.{◌≡◌, [], map, slice_get, IfErr, IfOk, IfSome, Some, length};
ghost use Rattle.std.specs.List.{AllByRecursion};
ghost use Rattle.css_semantics.specs.Cascade.{ComesTo, Goes, IsCascade};
ghost use Rattle.css_semantics.specs.CascadeNodes.{judged};
ghost use Rattle.css_semantics.specs.Winners.{AreWinners};
ghost use Rattle.viz_base.specs.Answers.{GivesOneOf};
ghost use Rattle.css_select.specs.steps.Trees.{AreSiblings};
ghost use Rattle.css_cascade.specs.Faults.{ByValue, IsPlaced, refusal_of};
ghost use Rattle.css_cascade.specs.steps.Trimming.{IsTrimmed, rules_of};
ghost use Rattle.css_cascade.specs.steps.Trying.{AreBuckets};

use crate::applying::{applied, styled};
use crate::buckets::{Buckets, buckets_of};
use crate::faults::CascadeFault;
use crate::nodes::{first_refused, is_hidden, number, settings_of, standing_around, standing_of};
use crate::order::claims_among;
use crate::reading::read_rulesets;
use crate::trimming::{Trimmed, trim};
use css_select::{Siblings, find_siblings};
use css_semantics::{Claim, Standing};
use std::alloc::Global;
use viz_base::{Body, Cascaded, List, Node, Page, Setting, Sheet, Text, is_replaced};

/// What a node comes to at which these win.
fn judge(
    alloc: Global,
    node: u32,
    replaced: bool,
    outer: Standing,
    winners: &[&Claim],
) -> Result<(List<Setting>, Standing), CascadeFault>
    ensures { GivesOneOf (λ p. (p.0, p.1)) refusal_of result
        (ByValue node (λ answer. answer ≡ judged replaced outer (map (λ c. c.now) winners.now))) }
{
    let hidden = is_hidden(outer, winners);
    // What is refused on a hidden node has no effect on the page, and refuses nothing.
    if !hidden {
        if let Some(claim) = first_refused(replaced, outer, winners) {
            return Err(CascadeFault::Value(node, claim.prop, claim.source));
        }
    }
    let settings = settings_of(alloc, replaced, outer, winners)?;
    let standing = standing_of(outer, hidden, settings.as_slice());
    Ok((settings, standing))
}

/// What a node comes to, behind the nodes before it.
fn come_to(
    alloc: Global,
    page: &Page,
    siblings: &Siblings,
    rulesets: &[Trimmed<'_>],
    buckets: &Buckets<'_>,
    standings: &[Standing],
    at: u32,
    node: &Node,
) -> Result<(List<Setting>, Standing), CascadeFault>
    requires found { slice_get page.now.nodes at ≡ Some node.now }
    requires siblings { AreSiblings page.now.nodes siblings.now }
    requires trimmed { AllByRecursion IsTrimmed rulesets.now }
    requires buckets { AreBuckets page.now.nodes (map rules_of rulesets.now) buckets.now }
    ensures { GivesOneOf (λ p. (p.0, p.1)) refusal_of result
        (ByValue at (ComesTo page.now.nodes
        (map rules_of rulesets.now) standings.now at node.now)) }
{
    let outer = standing_around(standings, node.parent);
    let replaced = is_replaced(&node.body);
    match &node.body {
        Body::Element(element) => {
            let style = styled(alloc, at, element.attrs.as_slice())?;
            let best = applied(
                alloc,
                rulesets,
                buckets,
                page,
                siblings,
                at,
                element,
                style.as_slice(),
            )?;
            let winners = claims_among(alloc, best.as_slice())?;
            judge(alloc, at, replaced, outer, &winners)
        }
        Body::Chars(_) => judge(alloc, at, replaced, outer, &[]),
    }
}

/// The settings of each node.
fn cascade_nodes(
    alloc: Global,
    page: &Page,
    siblings: &Siblings,
    rulesets: &[Trimmed<'_>],
    buckets: &Buckets<'_>,
) -> Result<Cascaded, CascadeFault>
    requires siblings { AreSiblings page.now.nodes siblings.now }
    requires trimmed { AllByRecursion IsTrimmed rulesets.now }
    requires buckets { AreBuckets page.now.nodes (map rules_of rulesets.now) buckets.now }
    ensures { GivesOneOf (λ c. c.winners) refusal_of result
        (Goes page.now.nodes (map rules_of rulesets.now) [] [] page.now.nodes) }
{
    let mut standings = Vec::new(alloc);
    let mut winners = List::new(alloc);
    let nodes = page.nodes.as_slice();
    for at in 0..nodes.len() {
        let number = number(at)?;
        let (settings, standing) = come_to(
            alloc,
            page,
            siblings,
            rulesets,
            buckets,
            standings.as_slice(),
            number,
            &nodes[at],
        )?;
        standings.push(standing)?;
        winners.push(settings)?;
    }
    Ok(Cascaded { winners })
}

/// What wins at each node of a page for each property, of the declarations of the sheets and of the style attributes
/// (CSS 2.1, 6.4): for each node a list in the order of the table of properties, without what no declaration sets and
/// without what is refused and refuses nothing, as `content` on an element. The first sheet is the default one, and
/// those behind it the author's. Selectors with a pseudo-element are left out.
///
/// `Selector` for the first selector in an author's sheet that is refused by name, at its place in the sheet; `Value`,
/// where no selector is refused, for the first node that isn't hidden at which a refused value wins, and there for the
/// first property in the order of the table, with where the value stands in its text, at characters; `Mem` for want of
/// memory, as which a number of a node or of a sheet or a place in a sheet counts from `2^32` on; no clause says when.
pub fn cascade(
    alloc: Global,
    page: &Page,
    texts: &[Text],
    sheets: &[Sheet],
) -> Result<Cascaded, CascadeFault>
    requires { length texts.now ≡ length sheets.now }
    ensures given { GivesOneOf (λ c. c.winners) refusal_of result
        (IsCascade page.now.nodes texts.now sheets.now) }
    ensures lists { IfOk result (λ c. AreWinners page.now.nodes c.winners) }
    ensures places { IfErr result (λ fault. IfSome (refusal_of fault)
        (IsPlaced page.now.nodes texts.now)) }
{
    let rulesets = read_rulesets(alloc, None, texts, sheets)?;
    let trimmed = trim(alloc, &rulesets)?;
    let buckets = buckets_of(alloc, page, &trimmed)?;
    // Without the table `+` and `:first-child` would walk back over texts at each node.
    let siblings = find_siblings(alloc, page)?;
    cascade_nodes(alloc, page, &siblings, &trimmed, &buckets)
}
