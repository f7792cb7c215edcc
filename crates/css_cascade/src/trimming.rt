//! Rulesets without the claims that can't win, found once for all nodes.
ghost use Rattle.std.specs.Prelude.{map, IfOk};
ghost use Rattle.css_cascade.specs.steps.Trimming.{AreTrimmed, LastsAs};

use crate::order::{claims_among, keep_claims, no_winners};
use css_semantics::{Claim, Ruleset};
use std::alloc::Global;
use viz_base::{Mem, Spec};

/// A ruleset with those of its claims that can win at a node: of each property the one that wins among them, since they
/// all apply by one specificity.
#[derive(Drop)]
pub struct Trimmed<'a> {
    pub rules: &'a Ruleset,
    /// The claims that can win.
    pub claims: Vec<&'a Claim>,
}

/// Any specificity, the same for all claims of a ruleset.
const ANY: Spec = Spec {
    style: 0,
    ids: 0,
    attrs: 0,
    types: 0,
};

/// Those of a ruleset's claims that can win.
fn lasting<'a>(alloc: Global, claims: &'a [Claim]) -> Result<Vec<&'a Claim>, Mem>
    ensures { IfOk result (λ kept. LastsAs (map (λ c. c.now) kept.items) claims.now) }
{
    // Of a thousand declarations of one property one can win. Found once for all nodes to which the ruleset
    // applies.
    let mut best = no_winners(alloc)?;
    keep_claims(&mut best, ANY, claims);
    claims_among(alloc, best.as_slice())
}

/// Rulesets, each with those of its claims that can win.
pub fn trim<'a>(alloc: Global, rulesets: &'a [Ruleset]) -> Result<Vec<Trimmed<'a>>, Mem>
    ensures { IfOk result (λ all. AreTrimmed rulesets.now all.items) }
{
    let mut all = Vec::new(alloc);
    for rules in rulesets {
        let claims = lasting(alloc, rules.claims.as_slice())?;
        all.push(Trimmed { rules, claims })?;
    }
    Ok(all)
}
