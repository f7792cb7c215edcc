//! Tries the selectors that may match a node, and keeps the winners of what those that match say.
ghost use Rattle.std.specs.Prelude.{◌≡◌, ◌++◌, ◌∷◌, ℕ, [], List as Seq, Some, flat_map, get_or, length, map, option_map, IfOk};
ghost use Rattle.std.specs.List.{Contains};
ghost use Rattle.css_semantics.specs.CascadeOrder.{greatest, later_of, spec_cmp};
ghost use Rattle.css_select.specs.steps.Trees.{AreSiblings};
ghost use Rattle.css_cascade.specs.steps.Buckets.{element_buckets, numbered};
ghost use Rattle.css_cascade.specs.steps.Seen.{kept_all, seen};
ghost use Rattle.viz_base.specs.Orders.{Rises};
ghost use Rattle.css_cascade.specs.steps.Trying.{AreAll, AreTried, Behind, IsTried, MayMatch, found, said};

use crate::buckets::{Buckets, Candidate};
use crate::names::element_buckets;
use crate::order::{Applied, keep_found, spec_cmp};
use crate::trimming::Trimmed;
use css_select::{Siblings, matches_beside};
use std::alloc::Global;
use viz_base::{Element, List, Mem, Page, Spec};

/// A ruleset that applies to a node, by its number, with the specificity of a selector that matches.
#[derive(Clone, Copy)]
pub struct Found {
    /// The number of the ruleset.
    pub rules: usize,
    pub spec: Spec,
}

/// The numbers in a bucket.
fn numbers_in(named: &[List<usize>], at: usize) -> &[usize]
    ensures { result.now ≡ get_or named.now at [] }
{
    match named.get(at) {
        Some(bucket) => bucket.as_slice(),
        None => &[],
    }
}

/// The numbers of the selectors that may match an element, in no order.
fn gathered(alloc: Global, buckets: &Buckets<'_>, element: &Element) -> Result<Vec<usize>, Mem>
    ensures { IfOk result (λ numbers. (at : ℕ) → MayMatch buckets.now element.now at
        → Contains numbers.items at) }
{
    let words = element_buckets(alloc, element)?;
    let mut numbers = Vec::new(alloc);
    // Those without a word stand in no bucket and may match any element.
    numbers.extend_from_slice(buckets.others.as_slice())?;
    for word in &words {
        numbers.extend_from_slice(numbers_in(&buckets.named, *word))?;
    }
    Ok(numbers)
}

/// The numbers of the selectors that may match an element, in ascending order, each once.
pub fn numbers_for(
    alloc: Global,
    buckets: &Buckets<'_>,
    element: &Element,
) -> Result<Vec<usize>, Mem>
    ensures rise { IfOk result (λ numbers. Rises 0 numbers.items) }
    ensures all { IfOk result (λ numbers. (at : ℕ) → MayMatch buckets.now element.now at
        → Contains numbers.items at) }
{
    let mut numbers = gathered(alloc, buckets, element)?;
    // Rulesets have to be met in their order again.
    numbers.sort()?;
    numbers.dedup();
    Ok(numbers)
}

/// The later of two specificities, unless the earlier is greater.
fn later_spec(earlier: Spec, later: Spec) -> Spec
    ensures { result ≡ later_of spec_cmp earlier later }
{
    if spec_cmp(earlier, later).is_gt() {
        earlier
    } else {
        later
    }
}

/// Keeps the winners behind what a ruleset says.
fn keep_rules<'a: 'b, 'b>(
    best: &mut Vec<Option<Applied<'b>>>,
    rulesets: &[Trimmed<'a>],
    found: Found,
)
    requires { length best.old.items ≡ 40 }
    ensures len { length best.new.items ≡ 40 }
    ensures kept { map (option_map seen) best.new.items
        ≡ kept_all (map (option_map seen) best.old.items) (said rulesets.now found) }
{
    if let Some(rules) = rulesets.get(found.rules) {
        keep_found(best, found.spec, rules.claims.as_slice());
    }
}

/// Joins what is found with what was found before, if both belong to one ruleset, and else keeps the winners behind
/// the earlier one.
fn join<'a: 'b, 'b>(
    best: &mut Vec<Option<Applied<'b>>>,
    rulesets: &[Trimmed<'a>],
    going: Option<Found>,
    next: Found,
) -> Found
    requires { length best.old.items ≡ 40 }
    ensures len { length best.new.items ≡ 40 }
    ensures goes { (behind : Seq Found) →
        Behind rulesets.now (map (option_map seen) best.new.items) (Some result) behind
        ≡ Behind rulesets.now (map (option_map seen) best.old.items) going (next ∷ behind) }
{
    match going {
        // A ruleset applies once, by the most specific of its selectors that match; they come one after another.
        Some(found) => if found.rules == next.rules {
            Found {
                rules: found.rules,
                spec: later_spec(found.spec, next.spec),
            }
        } else {
            keep_rules(best, rulesets, found);
            next
        },
        None => next,
    }
}

/// Tries a selector at a node.
fn try_one<'a: 'b, 'b>(
    best: &mut Vec<Option<Applied<'b>>>,
    rulesets: &[Trimmed<'a>],
    page: &Page,
    siblings: &Siblings,
    node: u32,
    going: Option<Found>,
    candidate: &Candidate<'_>,
) -> Option<Found>
    requires len { length best.old.items ≡ 40 }
    requires siblings { AreSiblings page.now.nodes siblings.now }
    ensures len { length best.new.items ≡ 40 }
    ensures tried { IsTried page.now.nodes node (numbered candidate.now)
        (Behind rulesets.now (map (option_map seen) best.old.items) going)
        (Behind rulesets.now (map (option_map seen) best.new.items) result) }
{
    let ranked = candidate.ranked;
    if matches_beside(&ranked.selector, page, siblings, node) {
        let next = Found {
            rules: candidate.rules,
            spec: ranked.spec,
        };
        Some(join(best, rulesets, going, next))
    } else {
        going
    }
}

/// Keeps the winners behind what may still come.
fn keep_last<'a: 'b, 'b>(
    best: &mut Vec<Option<Applied<'b>>>,
    rulesets: &[Trimmed<'a>],
    going: Option<Found>,
)
    requires { length best.old.items ≡ 40 }
    ensures len { length best.new.items ≡ 40 }
    ensures kept { map (option_map seen) best.new.items
        ≡ Behind rulesets.now (map (option_map seen) best.old.items) going [] }
{
    if let Some(found) = going {
        keep_rules(best, rulesets, found);
    }
}

/// Keeps the winners of what the rulesets say by those of these selectors that match a node.
pub fn try_all<'a: 'b, 'b>(
    best: &mut Vec<Option<Applied<'b>>>,
    rulesets: &[Trimmed<'a>],
    page: &Page,
    siblings: &Siblings,
    node: u32,
    candidates: &[Candidate<'_>],
    numbers: &[usize],
)
    requires len { length best.old.items ≡ 40 }
    requires siblings { AreSiblings page.now.nodes siblings.now }
    requires rise { Rises 0 numbers.now }
    requires all { AreAll page.now.nodes node (map numbered candidates.now) numbers.now }
    ensures len { length best.new.items ≡ 40 }
    ensures tried { AreTried page.now.nodes node rulesets.now (map numbered candidates.now)
        (map (option_map seen) best.old.items) (map (option_map seen) best.new.items) }
{
    let mut going = None;
    for number in numbers {
        if let Some(candidate) = candidates.get(*number) {
            going = try_one(best, rulesets, page, siblings, node, going, candidate);
        }
    }
    keep_last(best, rulesets, going);
}
