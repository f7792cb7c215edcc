//! Selectors in buckets by a word that they ask for, so that few are tried at each node.
ghost use Rattle.std.specs.Prelude.{◌≡◌, ◌<◌, ◌++◌, [], ◌∷◌, List as Seq, map, length, IfOk, IfSome, IsTrue, OnOk};
ghost use Rattle.std.specs.List.{Contains};
ghost use Rattle.viz_base.specs.declared.nodes.Node.{Node};
ghost use Rattle.viz_base.specs.declared.selectors.Test.TheVariants as of_test;
ghost use Rattle.css_cascade.specs.steps.Buckets.{AllStand, IsLast, IsWordIn, IsWordOfLast, Numbered, RepeatsLast, numbered};
ghost use Rattle.css_cascade.specs.steps.Present.{present_in};
ghost use Rattle.css_cascade.specs.steps.Trying.{AreBuckets, StandFor};
ghost use Rattle.css_cascade.specs.steps.Trimming.{rules_of};

use crate::names::{BUCKETS, bucket_of};
use crate::present::{lacks_some, present_in};
use crate::repeats::repeats;
use crate::trimming::Trimmed;
use css_semantics::Ranked;
use std::alloc::Global;
use viz_base::{Compound, Join, List, Mem, Page, Test, Text};

/// A selector of the ruleset of this number.
#[derive(Clone, Copy)]
pub struct Candidate<'a> {
    /// The number of the ruleset.
    pub rules: usize,
    /// The selector, with its specificity.
    pub ranked: &'a Ranked,
}

/// The selectors of rulesets in order, and their numbers in buckets. One that asks for an id, a class or a tag of the
/// element that it matches stands in the bucket of that word. Words may share a bucket: what stands there and doesn't
/// match is tried in vain.
#[derive(Drop)]
pub struct Buckets<'a> {
    /// The selectors, in the order of their rulesets.
    pub candidates: Vec<Candidate<'a>>,
    /// The numbers of the selectors in each bucket.
    pub named: Vec<List<usize>>,
    /// The numbers of the selectors that ask for no such word.
    pub others: List<usize>,
}

/// The first id among tests.
fn id_among(tests: &[Test]) -> Option<&Text>
    ensures { IfSome result (λ id. Contains tests.now (of_test.Id id.now)) }
{
    for test in tests {
        if let Test::Id(id) = test {
            return Some(id);
        }
    }
    None
}

/// The first class among tests.
fn class_among(tests: &[Test]) -> Option<&Text>
    ensures { IfSome result (λ class. Contains tests.now (of_test.Class class.now)) }
{
    for test in tests {
        if let Test::Class(class) = test {
            return Some(class);
        }
    }
    None
}

/// The word by which a simple selector is found: its id, else its class, else its tag.
fn word_in(compound: &Compound) -> Option<&Text>
    ensures { IfSome result (λ word. IsWordIn compound.now word.now) }
{
    let tests = compound.tests.as_slice();
    // Ids are the rarest words of a page and tags the most common, so in this order the fewest are tried.
    match id_among(tests) {
        Some(id) => Some(id),
        None => match class_among(tests) {
            Some(class) => Some(class),
            None => compound.tag.as_ref(),
        },
    }
}

fn last_of(parts: &[(Join, Compound)]) -> Option<&Compound>
    ensures { IfSome result (λ c. IsLast parts.now c.now) }
{
    match parts.split_last() {
        Some(((_, compound), _)) => Some(compound),
        None => None,
    }
}

/// The word by which a selector is found: that of its last simple selector.
fn word_of(parts: &[(Join, Compound)]) -> Option<&Text>
    ensures { IfSome result (λ word. IsWordOfLast parts.now word.now) }
{
    word_in(last_of(parts)?)
}

/// So many buckets with nothing in them.
fn empty_buckets(alloc: Global) -> Result<Vec<List<usize>>, Mem>
    ensures { IfOk result (λ named. length named.items ≡ 8191) }
{
    let mut named = Vec::new(alloc);
    for _at in 0..BUCKETS {
        named.push(List::new(alloc))?;
    }
    Ok(named)
}

impl<'a> Buckets<'a> {
    /// No selectors.
    fn new(alloc: Global) -> Result<Self, Mem>
        ensures { IfOk result (λ b. (b.candidates.items ≡ []) × (length b.named.items ≡ 8191)) }
    {
        Ok(Buckets {
            candidates: Vec::new(alloc),
            named: empty_buckets(alloc)?,
            others: List::new(alloc),
        })
    }

    /// Whether a selector of the ruleset of this number repeats the last one.
    fn repeats_last(&self, rules: usize, ranked: &Ranked) -> bool
        ensures { IsTrue result → RepeatsLast
            (map numbered self.now.candidates.items) rules ranked.now }
    {
        match self.candidates.as_slice().split_last() {
            Some((last, _)) => last.rules == rules && repeats(last.ranked, ranked),
            None => false,
        }
    }

    /// Puts a selector of the ruleset of this number into its bucket.
    fn put(&mut self, rules: usize, ranked: &'a Ranked) -> Result<(), Mem>
        requires { length self.old.named.items ≡ 8191 }
        ensures len { length self.new.named.items ≡ 8191 }
        ensures added { OnOk result (map numbered self.new.candidates.items
            ≡ map numbered self.old.candidates.items ++ (rules, ranked.now) ∷ []) }
        ensures stand { OnOk result (AllStand self.old → AllStand self.new) }
    {
        let number = self.candidates.len();
        self.candidates.push(Candidate { rules, ranked })?;
        match word_of(ranked.selector.parts.as_slice()) {
            Some(word) => self.named[bucket_of(word.as_str())].push(number)?,
            None => self.others.push(number)?,
        }
        Ok(())
    }

    /// Adds a selector of the ruleset of this number, but one that repeats the last or matches no node of a page whose
    /// words these are.
    fn add(&mut self, present: &[bool], rules: usize, ranked: &'a Ranked) -> Result<(), Mem>
        requires { length self.old.named.items ≡ 8191 }
        ensures len { length self.new.named.items ≡ 8191 }
        ensures added { OnOk result ((nodes : Seq Node) (all : Seq Numbered)
            → present.now ≡ present_in nodes
            → StandFor nodes (map numbered self.old.candidates.items) all
            → StandFor nodes (map numbered self.new.candidates.items)
            (all ++ (rules, ranked.now) ∷ [])) }
        ensures stand { OnOk result (AllStand self.old → AllStand self.new) }
    {
        // In `*,*,..` each would be tried at each node; with the same specificity it adds nothing.
        if self.repeats_last(rules, ranked) {
            return Ok(());
        }
        // A sheet that was written for other pages costs each of its selectors once, and not at each node.
        if lacks_some(present, ranked.selector.parts.as_slice()) {
            return Ok(());
        }
        self.put(rules, ranked)?;
        Ok(())
    }

    /// Adds the selectors of the ruleset of this number that may match a node of a page whose words these are.
    fn add_group(&mut self, present: &[bool], rules: usize, group: &'a [Ranked]) -> Result<(), Mem>
        requires { length self.old.named.items ≡ 8191 }
        ensures len { length self.new.named.items ≡ 8191 }
        ensures added { OnOk result ((nodes : Seq Node) (all : Seq Numbered)
            → present.now ≡ present_in nodes
            → StandFor nodes (map numbered self.old.candidates.items) all
            → StandFor nodes (map numbered self.new.candidates.items) (all ++ map
            (λ r. (rules, r)) group.now)) }
        ensures stand { OnOk result (AllStand self.old → AllStand self.new) }
    {
        for ranked in group {
            self.add(present, rules, ranked)?;
        }
        Ok(())
    }
}

/// The selectors of rulesets in buckets, but those that ask for a tag, a class or an id that no element of a page has.
pub fn buckets_of<'a>(
    alloc: Global,
    page: &Page,
    rulesets: &[Trimmed<'a>],
) -> Result<Buckets<'a>, Mem>
    ensures { IfOk result (AreBuckets page.now.nodes (map rules_of rulesets.now)) }
{
    let present = present_in(alloc, page)?;
    let mut buckets = Buckets::new(alloc)?;
    for (rules, trimmed) in rulesets.iter().enumerate() {
        buckets.add_group(present.as_slice(), rules, trimmed.rules.group.as_slice())?;
    }
    Ok(buckets)
}
