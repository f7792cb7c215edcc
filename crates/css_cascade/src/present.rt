//! Which words a page has, so that selectors that ask for others are left out before any node is looked at.
ghost use Rattle.std.specs.Prelude.{◌≡◌, false, replicate, reverse, set, true, IfOk, OnOk};
ghost use Rattle.std.specs.List.{list_any};
ghost use Rattle.viz_base.specs.Selectors.{is_first};
ghost use Rattle.css_cascade.specs.steps.Present.{body_buckets, is_present, lacks_behind, lacks_some, lacks_tag};
ghost use Rattle.css_cascade.specs.steps.Present.{lacks_test, lacks_word, marked, present_in};

use crate::names::{BUCKETS, bucket_of, words_of};
use std::alloc::Global;
use viz_base::{Body, Compound, Join, Mem, Page, Test, Text};

/// Marks a bucket.
fn mark(present: &mut Vec<bool>, at: usize)
    ensures { present.new.items ≡ set present.old.items at true }
{
    if at < present.len() {
        present[at] = true;
    }
}

/// Marks buckets.
fn mark_all(present: &mut Vec<bool>, words: &[usize])
    ensures { present.new.items ≡ marked present.old.items words.now }
{
    for word in words {
        mark(present, *word);
    }
}

/// Marks the buckets of an element's tag, classes and ids.
fn mark_body(alloc: Global, present: &mut Vec<bool>, body: &Body) -> Result<(), Mem>
    ensures { OnOk result (present.new.items ≡ marked present.old.items (body_buckets body.now)) }
{
    if let Body::Element(element) = body {
        let words = words_of(alloc, element)?;
        mark_all(present, words.as_slice());
    }
    Ok(())
}

/// So many buckets of which none is marked.
fn no_words(alloc: Global, count: usize) -> Result<Vec<bool>, Mem>
    ensures { IfOk result (λ present. present.items ≡ replicate count false) }
{
    let mut present = Vec::new(alloc);
    for _at in 0..count {
        present.push(false)?;
    }
    Ok(present)
}

/// For each bucket whether a tag, a class or an id of a page has it.
pub fn present_in(alloc: Global, page: &Page) -> Result<Vec<bool>, Mem>
    ensures { IfOk result (λ present. present.items ≡ present_in page.now.nodes) }
{
    let mut present = no_words(alloc, BUCKETS)?;
    for node in page.nodes.as_slice() {
        mark_body(alloc, &mut present, &node.body)?;
    }
    Ok(present)
}

/// Whether the bucket of a word is that of one on the page.
fn is_present(present: &[bool], word: &Text) -> bool
    ensures { result ≡ is_present present.now word.now }
{
    let at = bucket_of(word.as_str());
    match present.get(at) {
        Some(marked) => *marked,
        // No bucket is past the table's end; saying that it is present is right of any table.
        None => true,
    }
}

fn lacks_test(present: &[bool], test: &Test) -> bool
    ensures { result ≡ lacks_test present.now test.now }
{
    match test {
        Test::Id(word) => !is_present(present, word),
        Test::Class(word) => !is_present(present, word),
        _ => false,
    }
}

fn lacks_tag(present: &[bool], tag: &Option<Text>) -> bool
    ensures { result ≡ lacks_tag present.now tag.now }
{
    match tag {
        Some(tag) => !is_present(present, tag),
        None => false,
    }
}

fn lacks_tests(present: &[bool], tests: &[Test]) -> bool
    ensures { result ≡ list_any (lacks_test present.now) tests.now }
{
    for test in tests {
        if lacks_test(present, test) {
            return true;
        }
    }
    false
}

/// Whether a simple selector asks for a tag, a class or an id that no element has.
fn lacks_word(present: &[bool], compound: &Compound) -> bool
    ensures { result ≡ lacks_word present.now compound.now }
{
    lacks_tag(present, &compound.tag) || lacks_tests(present, compound.tests.as_slice())
}

fn is_first(join: Join) -> bool
    ensures { result ≡ is_first join }
{
    matches!(join, Join::First)
}

/// Whether a simple selector, or one before it, asks for a word that no element has. None before one that is joined as
/// the first is looked at in matching.
fn lacks_behind(present: &[bool], before: bool, join: Join, compound: &Compound) -> bool
    ensures { result ≡ lacks_behind present.now before join compound.now }
{
    // Attributes are no words here: a test of one is met or not at the node.
    lacks_word(present, compound) || (!is_first(join) && before)
}

/// Whether one of the simple selectors of a selector asks for a word that is not on the page. It matches no node then.
pub fn lacks_some(present: &[bool], parts: &[(Join, Compound)]) -> bool
    ensures { result ≡ lacks_some present.now (reverse parts.now) }
{
    let mut lacks = false;
    for part in parts {
        lacks = lacks_behind(present, lacks, part.0, &part.1);
    }
    lacks
}
