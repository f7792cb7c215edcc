ghost use Rattle.css_semantics.specs.Specificity.{IsCountable};
ghost use Rattle.css_semantics.specs.Spelled.{spelled};

use css_select::{SelFault, matches, read_selector, specificity};
use serde_json::Value;
use test_scribe::{Fault, Scribe, job_of};
use viz_base::{Compound, Join, List, Page, Selector, Test, Text};

/// A test of a text.
fn of_one(scribe: &mut Scribe, name: &str, text: &Text) {
    scribe.open();
    scribe.word(name);
    scribe.quoted(text.as_str());
    scribe.close();
}

/// A test of an attribute's name and a text.
fn of_two(scribe: &mut Scribe, name: &str, attribute: &Text, text: &Text) {
    scribe.open();
    scribe.word(name);
    scribe.quoted(attribute.as_str());
    scribe.quoted(text.as_str());
    scribe.close();
}

/// A test with its texts.
fn test(scribe: &mut Scribe, test: &Test) {
    match test {
        Test::Id(id) => of_one(scribe, "Id", id),
        Test::Class(class) => of_one(scribe, "Class", class),
        Test::Has(name) => of_one(scribe, "Has", name),
        Test::Equals(name, value) => of_two(scribe, "Equals", name, value),
        Test::Word(name, word) => of_two(scribe, "Word", name, word),
        Test::Dash(name, value) => of_two(scribe, "Dash", name, value),
        Test::FirstChild => scribe.member("[\"FirstChild\"]"),
        Test::Link => scribe.member("[\"Link\"]"),
        Test::Never => scribe.member("[\"Never\"]"),
    }
}

/// A compound: its tag or null, and its tests.
fn compound(scribe: &mut Scribe, compound: &Compound) {
    match &compound.tag {
        Some(tag) => scribe.quoted(tag.as_str()),
        None => scribe.null(),
    }
    scribe.open();
    for one in compound.tests.as_slice() {
        test(scribe, one);
    }
    scribe.close();
}

/// Compounds, each with how it is joined.
fn compounds(scribe: &mut Scribe, parts: &[(Join, Compound)]) {
    scribe.open();
    for (join, one) in parts {
        scribe.open();
        scribe.name(join);
        compound(scribe, one);
        scribe.close();
    }
    scribe.close();
}

/// A selector: its compounds, each with how it is joined, its specificity, and its pseudo-element, or null.
fn selector(scribe: &mut Scribe, selector: &Selector)
    requires { IsCountable (spelled selector.now) }
{
    let spec = specificity(selector);
    scribe.open();
    compounds(scribe, selector.parts.as_slice());
    scribe.row(&[spec.style, spec.ids, spec.attrs, spec.types]);
    match &selector.pseudo {
        Some(pseudo) => scribe.name(pseudo),
        None => scribe.null(),
    }
    scribe.close();
}

fn refusal(scribe: &mut Scribe, fault: &SelFault) {
    match fault {
        SelFault::Bad(at) => scribe.refused("Bad", &[*at]),
        SelFault::Unsupported(at) => scribe.refused("Unsupported", &[*at]),
        SelFault::Mem => scribe.fail(Fault::Mem),
    }
}

/// The group of selectors that a text spells, or why it is none.
pub fn group(scribe: &mut Scribe, case: &Value) {
    let text = scribe.text_at(case, 1);
    match read_selector(scribe.alloc(), text) {
        Ok(group) => {
            scribe.open();
            for one in group.as_slice() {
                selector(scribe, one);
            }
            scribe.close();
        }
        Err(fault) => refusal(scribe, &fault),
    }
}

/// Whether one of the selectors matches the node.
fn one_matches(group: &[Selector], page: &Page, node: u32) -> bool {
    for selector in group {
        if matches(selector, page, node) {
            return true;
        }
    }
    false
}

/// The nodes that one of the selectors matches, in document order.
fn matched_by(scribe: &mut Scribe, page: &Page, group: &[Selector]) -> List<u32> {
    let mut found = List::new(scribe.alloc());
    for at in 0..page.nodes.len() {
        match u32::try_from(at) {
            Ok(node) if one_matches(group, page, node) => scribe.put(&mut found, node),
            Ok(_) => (),
            Err(_) => scribe.fail(Fault::NoCase),
        }
    }
    found
}

/// The nodes that a group of selectors matches, in document order.
pub fn matched_nodes(scribe: &mut Scribe, page: &Page, value: &Value) -> List<u32> {
    let text = scribe.text(value);
    match read_selector(scribe.alloc(), text) {
        Ok(group) => matched_by(scribe, page, group.as_slice()),
        Err(_) => {
            scribe.fail(Fault::NoCase);
            List::new(scribe.alloc())
        }
    }
}

/// For each of the groups of selectors the nodes of the page that it matches.
fn tell(scribe: &mut Scribe, page: &Page, groups: &[Value]) {
    scribe.open();
    for text in groups {
        let nodes = matched_nodes(scribe, page, text);
        scribe.row(nodes.as_slice());
    }
    scribe.close();
}

/// For each of the groups of selectors of a case the nodes of its page that it matches.
pub fn matched(scribe: &mut Scribe, case: &Value) {
    if let Some(job) = job_of(scribe, case) {
        let groups = scribe.list_at(case, 2);
        tell(scribe, &job.page, groups);
    }
}
