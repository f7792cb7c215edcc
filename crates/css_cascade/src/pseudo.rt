//! What wins at the pseudo-elements of a page's nodes, or why the page is refused.
ghost use Rattle.std.specs.Prelude.{◌≡◌, ◌<◌, [], length, replicate, IfErr, IfOk, IfSome, MatchOption, Ok, Some};
ghost use Rattle.std.specs.Prelude.{List as Seq};
ghost use Rattle.css_semantics.specs.declared.claims.Ruleset.{Ruleset};
ghost use Rattle.css_semantics.specs.PseudoCascade.{IsPseudoCascade};
ghost use Rattle.css_select.specs.steps.Trees.{AreSiblings};
ghost use Rattle.css_semantics.specs.Winners.{AreWinners};
ghost use Rattle.viz_base.specs.Answers.{GivesOneOf};
ghost use Rattle.css_cascade.specs.Faults.{IsPlaced, refusal_of};
ghost use Rattle.css_cascade.specs.steps.Beside.{AreBeside, GoesOrRefuses, IsRefusedAt, NoneRefusedTo, has_refused};

use crate::beside::{Beside, Refused, beside_nodes};
use crate::buckets::buckets_of;
use crate::faults::CascadeFault;
use crate::hidden::hidden_nodes;
use crate::nodes::number;
use crate::reading::read_rulesets;
use crate::trimming::trim;
use css_select::{Siblings, find_siblings};
use css_semantics::Ruleset;
use std::alloc::Global;
use viz_base::{Cascaded, List, Mem, Page, Pseudo, Setting, Sheet, Text};

/// Whether a value is refused anywhere.
fn has_refused(refused: &[Option<Refused>]) -> bool
    ensures { result ≡ has_refused refused.now }
{
    refused.iter().any(|named| named.is_some())
}

/// The first node that is shown at which a value is refused.
fn first_shown(refused: &[Option<Refused>], hidden: &[bool]) -> Option<(usize, Refused)>
    ensures { MatchOption result (NoneRefusedTo refused.now hidden.now (length refused.now))
        (λ p. IsRefusedAt refused.now hidden.now p.0 p.1
        × NoneRefusedTo refused.now hidden.now p.0) }
{
    for at in 0..refused.len() {
        if let Some(named) = refused[at] {
            if !hidden.get(at).copied().unwrap_or(false) {
                return Some((at, named));
            }
        }
    }
    None
}

/// Nothing for each of so many nodes.
fn no_settings(alloc: Global, count: usize) -> Result<List<List<Setting>>, Mem>
    ensures { IfOk result (λ winners. winners ≡ replicate count []) }
{
    let mut winners = List::new(alloc);
    for _node in 0..count {
        winners.push(List::new(alloc))?;
    }
    Ok(winners)
}

/// What the pseudo-elements of all nodes come to by these rulesets.
fn beside_all(
    alloc: Global,
    page: &Page,
    siblings: &Siblings,
    rulesets: &[Ruleset],
) -> Result<Beside, Mem>
    requires { AreSiblings page.now.nodes siblings.now }
    ensures { IfOk result (AreBeside page.now.nodes rulesets.now) }
{
    let trimmed = trim(alloc, rulesets)?;
    let buckets = buckets_of(alloc, page, &trimmed)?;
    beside_nodes(alloc, page, siblings, &trimmed, &buckets)
}

/// The winners, unless a value of theirs is refused at a node that is shown.
fn judged(
    alloc: Global,
    page: &Page,
    siblings: &Siblings,
    texts: &[Text],
    sheets: &[Sheet],
    beside: Beside,
) -> Result<Cascaded, CascadeFault>
    requires texts { length texts.now ≡ length sheets.now }
    requires siblings { AreSiblings page.now.nodes siblings.now }
    ensures { (rulesets : Seq Ruleset) → AreBeside page.now.nodes rulesets beside
        → GivesOneOf (λ c. c.winners) refusal_of result
        (GoesOrRefuses page.now.nodes texts.now sheets.now rulesets) }
{
    let Beside { winners, refused } = beside;
    // Which nodes are hidden takes the rules of elements, so it is asked where it matters.
    if has_refused(&refused) {
        let hidden = hidden_nodes(alloc, page, siblings, texts, sheets)?;
        if let Some((at, named)) = first_shown(&refused, &hidden) {
            return Err(CascadeFault::Value(number(at)?, named.prop, named.source));
        }
    }
    Ok(Cascaded { winners })
}

/// What wins at a pseudo-element of each node of a page for each property, of the declarations of the sheets under
/// selectors with this pseudo-element (CSS 2.1, 6.4 and 12.1): for each node a list in the order of the table of
/// properties, without what no declaration sets and without what is refused. Style attributes say nothing of it. The
/// first sheet is the default one, and those behind it the author's.
///
/// `Selector` for the first selector in an author's sheet that is refused by name, at its place in the sheet; `Value`,
/// where no selector is refused, for the first node with a pseudo-element that would have to be laid out and a refused
/// value of it that wins, and there for the first property in the order of the table: one whose winning content is a
/// text or is refused by name, of which `display: none` wins neither there, nor at the node, nor around it. `Mem` for
/// want of memory, as which a number of a node or of a sheet or a place in a sheet counts from `2^32` on; no clause
/// says when.
pub fn cascade_pseudo(
    alloc: Global,
    page: &Page,
    texts: &[Text],
    sheets: &[Sheet],
    which: Pseudo,
) -> Result<Cascaded, CascadeFault>
    requires { length texts.now ≡ length sheets.now }
    ensures given { GivesOneOf (λ c. c.winners) refusal_of result
        (IsPseudoCascade page.now.nodes texts.now sheets.now which) }
    ensures lists { IfOk result (λ c. AreWinners page.now.nodes c.winners) }
    ensures places { IfErr result (λ fault. IfSome (refusal_of fault)
        (IsPlaced page.now.nodes texts.now)) }
{
    let rulesets = read_rulesets(alloc, Some(which), texts, sheets)?;
    if rulesets.as_slice().is_empty() {
        let winners = no_settings(alloc, page.nodes.len())?;
        return Ok(Cascaded { winners });
    }
    let siblings = find_siblings(alloc, page)?;
    let beside = beside_all(alloc, page, &siblings, &rulesets)?;
    judged(alloc, page, &siblings, texts, sheets, beside)
}
