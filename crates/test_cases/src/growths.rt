//! The page with its generated content.
use crate::cascades::{sheets, tell_node, texts, winners};
use crate::queries::met;
use page_pseudo::{GrowFault, Grown, grow};
use serde_json::Value;
use test_scribe::{Fault, Scribe, job_of};
use viz_base::{Body, Cascaded, Node, Page, Pseudo, RawJob, Setting, Sheet, Text};

/// A generated node: its tag, or null and its text.
fn tell_made(scribe: &mut Scribe, body: &Body) {
    match body {
        Body::Element(element) => scribe.quoted(element.tag.as_str()),
        Body::Chars(text) => {
            scribe.null();
            scribe.quoted(text.as_str());
        }
    }
}

/// A number, or null.
fn tell_number(scribe: &mut Scribe, number: Option<u32>) {
    match number {
        Some(number) => scribe.number(number),
        None => scribe.null(),
    }
}

/// A node: its parent, its number on the page as it is written, and what it is if it has none.
fn tell_grown_node(scribe: &mut Scribe, node: &Node, from: Option<u32>) {
    scribe.open();
    tell_number(scribe, node.parent);
    tell_number(scribe, from);
    if from.is_none() {
        tell_made(scribe, &node.body);
    }
    scribe.close();
}

/// The nodes, in document order.
fn tell_nodes(scribe: &mut Scribe, nodes: &[Node], from: &[Option<u32>]) {
    scribe.open();
    for (node, number) in nodes.iter().zip(from) {
        tell_grown_node(scribe, node, *number);
    }
    scribe.close();
}

/// What wins at a node that is generated.
fn tell_generated(scribe: &mut Scribe, at: usize, from: Option<u32>, settings: &[Setting]) {
    if from.is_none() {
        tell_node(scribe, at, settings);
    }
}

/// What wins at the generated nodes.
fn tell_winners(scribe: &mut Scribe, cascaded: &Cascaded, from: &[Option<u32>]) {
    scribe.open();
    for (at, (settings, number)) in cascaded.winners.as_slice().iter().zip(from).enumerate() {
        tell_generated(scribe, at, *number, settings.as_slice());
    }
    scribe.close();
}

/// A grown page: its nodes, and what wins at those that are generated.
fn tell(scribe: &mut Scribe, grown: &Grown) {
    scribe.open();
    tell_nodes(scribe, grown.page.nodes.as_slice(), grown.from.as_slice());
    tell_winners(scribe, &grown.cascaded, grown.from.as_slice());
    scribe.close();
}

/// What wins on a page as it is written: at its nodes, at their `:before` and at their `:after`.
#[derive(Drop)]
struct Winning {
    own: Cascaded,
    before: Cascaded,
    after: Cascaded,
}

/// What wins on a page with these sheets, or nothing where that refuses the page, which is told.
fn all_winners(
    scribe: &mut Scribe,
    page: &Page,
    texts: &[Text],
    sheets: &[Sheet],
) -> Option<Winning> {
    let own = winners(scribe, page, texts, sheets, None)?;
    let before = winners(scribe, page, texts, sheets, Some(Pseudo::Before))?;
    let after = winners(scribe, page, texts, sheets, Some(Pseudo::After))?;
    Some(Winning { own, before, after })
}

/// The page with what wins on it, or what refuses it.
fn tell_growth(
    scribe: &mut Scribe,
    page: &Page,
    own: &Cascaded,
    before: &Cascaded,
    after: &Cascaded,
) {
    let count = page.nodes.len();
    if own.winners.len() != count || before.winners.len() != count || after.winners.len() != count {
        return scribe.fail(Fault::NoCase);
    }
    match grow(scribe.alloc(), page, own, before, after) {
        Ok(grown) => tell(scribe, &grown),
        Err(GrowFault::Generated(node)) => scribe.refused("Generated", &[node]),
        Err(GrowFault::Mem) => scribe.fail(Fault::Mem),
    }
}

/// The page of a job with its generated content, by the rules of these sheets of an author that are met where its range
/// begins.
fn tell_page(scribe: &mut Scribe, job: &RawJob, authors: &[Value]) {
    let texts = texts(scribe, authors);
    let sheets = sheets(scribe, texts.as_slice());
    let Some(met) = met(scribe, sheets.as_slice(), &job.range) else {
        return;
    };
    if let Some(winning) = all_winners(scribe, &job.page, texts.as_slice(), met.as_slice()) {
        tell_growth(
            scribe,
            &job.page,
            &winning.own,
            &winning.before,
            &winning.after,
        );
    }
}

/// The page of a case with its generated content, by its sheets of an author.
pub fn answer(scribe: &mut Scribe, case: &Value) {
    if let Some(job) = job_of(scribe, case) {
        let authors = scribe.list_at(case, 2);
        tell_page(scribe, &job, authors);
    }
}
