//! Which nodes of a page are hidden, themselves or by a node around them.
ghost use Rattle.std.specs.Prelude.{◌≡◌, ℕ, List as Seq, map, slice_get, length, IfOk, None, Ok, Some};
ghost use Rattle.std.specs.List.{AllByRecursion};
ghost use Rattle.viz_base.specs.Answers.{GivesOneOf};
ghost use Rattle.viz_base.specs.declared.sheets.Sheet.{Sheet};
ghost use Rattle.css_semantics.specs.CascadeReading.{AreRulesets};
ghost use Rattle.css_select.specs.steps.Trees.{AreSiblings};
ghost use Rattle.css_cascade.specs.Faults.{refusal_of};
ghost use Rattle.css_cascade.specs.steps.Beside.{AreHidden, HidesHere, IsHiddenAnswer, is_inside_hidden};
ghost use Rattle.css_cascade.specs.steps.Trimming.{IsTrimmed, rules_of};
ghost use Rattle.css_cascade.specs.steps.Trying.{AreBuckets};

use crate::applying::{applied, styled};
use crate::buckets::{Buckets, buckets_of};
use crate::faults::CascadeFault;
use crate::nodes::{has_hiding, number};
use crate::order::claims_among;
use crate::reading::read_rulesets;
use crate::trimming::{Trimmed, trim};
use css_select::Siblings;
use std::alloc::Global;
use viz_base::{Body, Mem, Node, Page, Sheet, Text};

/// Whether `display: none` wins at a node.
fn hides_here(
    alloc: Global,
    page: &Page,
    siblings: &Siblings,
    rulesets: &[Trimmed<'_>],
    buckets: &Buckets<'_>,
    at: u32,
    node: &Node,
) -> Result<bool, Mem>
    requires found { slice_get page.now.nodes at ≡ Some node.now }
    requires siblings { AreSiblings page.now.nodes siblings.now }
    requires trimmed { AllByRecursion IsTrimmed rulesets.now }
    requires buckets { AreBuckets page.now.nodes (map rules_of rulesets.now) buckets.now }
    ensures { IfOk result (HidesHere page.now.nodes (map rules_of rulesets.now) at node.now.body) }
{
    match &node.body {
        Body::Element(element) => {
            let style = styled(alloc, at, element.attrs.as_slice())?;
            let best = applied(
                alloc,
                rulesets,
                buckets,
                page,
                siblings,
                at,
                element,
                style.as_slice(),
            )?;
            let winners = claims_among(alloc, best.as_slice())?;
            Ok(has_hiding(&winners))
        }
        Body::Chars(_) => Ok(false),
    }
}

/// Whether the parent of a node is hidden.
fn is_inside_hidden(hidden: &[bool], parent: Option<u32>) -> bool
    ensures { result ≡ is_inside_hidden hidden.now parent }
{
    match parent {
        Some(parent) => hidden.get(parent as usize).copied().unwrap_or(false),
        None => false,
    }
}

/// Whether each node is hidden, by these rulesets and by style attributes (CSS 2.1, 9.2.4).
fn hidden_by(
    alloc: Global,
    page: &Page,
    siblings: &Siblings,
    rulesets: &[Trimmed<'_>],
    buckets: &Buckets<'_>,
) -> Result<Vec<bool>, Mem>
    requires siblings { AreSiblings page.now.nodes siblings.now }
    requires trimmed { AllByRecursion IsTrimmed rulesets.now }
    requires buckets { AreBuckets page.now.nodes (map rules_of rulesets.now) buckets.now }
    ensures { IfOk result (λ hidden. (texts : Seq (Seq ℕ)) (sheets : Seq Sheet)
        → AreRulesets None texts sheets (Ok (map rules_of rulesets.now))
        → AreHidden page.now.nodes texts sheets hidden.items) }
{
    let mut hidden = Vec::new(alloc);
    let nodes = page.nodes.as_slice();
    for at in 0..nodes.len() {
        let node = &nodes[at];
        let inside = is_inside_hidden(&hidden, node.parent);
        let here = hides_here(alloc, page, siblings, rulesets, buckets, number(at)?, node)?;
        hidden.push(inside || here)?;
    }
    Ok(hidden)
}

/// Whether each node of a page is hidden.
pub fn hidden_nodes(
    alloc: Global,
    page: &Page,
    siblings: &Siblings,
    texts: &[Text],
    sheets: &[Sheet],
) -> Result<Vec<bool>, CascadeFault>
    requires texts { length texts.now ≡ length sheets.now }
    requires siblings { AreSiblings page.now.nodes siblings.now }
    ensures { GivesOneOf (λ hidden. hidden.items) refusal_of result
        (IsHiddenAnswer page.now.nodes texts.now sheets.now) }
{
    let rulesets = read_rulesets(alloc, None, texts, sheets)?;
    let trimmed = trim(alloc, &rulesets)?;
    let buckets = buckets_of(alloc, page, &trimmed)?;
    Ok(hidden_by(alloc, page, siblings, &trimmed, &buckets)?)
}
