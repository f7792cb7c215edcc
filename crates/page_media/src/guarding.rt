//! Formulas that say nothing of worlds with other signs.
ghost use Rattle.std.specs.Prelude.{◌≡◌, [], ◌∷◌, IfOk};
ghost use Rattle.viz_base.specs.Formulas.{has_small_terms, is_bound_in};
ghost use Rattle.viz_base.specs.declared.formulas.Formula.TheVariants.{Implies};
ghost use Rattle.page_media.specs.Guards.{bound_side, guarded, held, says, standing, width_side};

use std::alloc::Global;
use viz_base::{Bound, Boxed, Edge, Feature, Formula, List, Mem, Sign, Summand, Term};

/// A bound of so many units, or of so many millionths of a pixel, is wider than any viewport.
const WIDEST: i64 = 1 << 60;

/// A bound that is no wider than it need be.
fn held(n: i64) -> i64
    ensures { result ≡ held n }
{
    n.clamp(-WIDEST, WIDEST)
}

fn one(alloc: Global, times: i64, edge: Edge) -> Result<Term, Mem>
    ensures { IfOk result (λ term. term
        ≡ record { parts = record { times = times; edge = edge } ∷ [] }) }
{
    let mut parts = List::new(alloc);
    parts.push(Summand { times, edge })?;
    Ok(Term { parts })
}

fn width_side(alloc: Global, bound: Bound) -> Result<Term, Mem>
    ensures { IfOk result (λ term. term ≡ width_side bound) }
{
    match bound {
        Bound::Px(_) => one(alloc, 1, Edge::ViewWidth),
        Bound::Em(_) => one(alloc, 1_000_000, Edge::ViewWidth),
    }
}

fn bound_side(alloc: Global, most: bool, bound: Bound) -> Result<Term, Mem>
    ensures { IfOk result (λ term. term ≡ bound_side most bound) }
{
    match bound {
        Bound::Px(c) => one(alloc, held(c), Edge::One),
        Bound::Em(k) => {
            let mut term = one(alloc, held(k), Edge::ViewSize)?;
            if !most {
                term.parts.push(Summand {
                    times: -999_999,
                    edge: Edge::One,
                })?;
            }
            Ok(term)
        }
    }
}

fn standing(most: bool, sign: bool) -> Sign
    ensures { result ≡ standing most sign }
{
    match (most, sign) {
        (true, true) => Sign::Le,
        (true, false) => Sign::Gt,
        (false, true) => Sign::Ge,
        (false, false) => Sign::Lt,
    }
}

/// The feature has this sign.
fn says(alloc: Global, feature: &Feature, sign: bool) -> Result<Formula, Mem>
    ensures { IfOk result (λ formula. formula ≡ says feature.now sign) }
{
    let width = width_side(alloc, feature.bound)?;
    let bound = bound_side(alloc, feature.most, feature.bound)?;
    Ok(Formula::Cmp(width, standing(feature.most, sign), bound))
}

/// The formula, where the feature has this sign.
fn implied(alloc: Global, feature: &Feature, sign: bool, formula: Formula) -> Result<Formula, Mem>
    ensures { IfOk result (λ all. all ≡ Implies (says feature.now sign) formula) }
{
    let first = Boxed::new(alloc, says(alloc, feature, sign)?)?;
    let second = Boxed::new(alloc, formula)?;
    Ok(Formula::Implies(first, second))
}

/// The formula where the features have these signs, one for each, and true elsewhere; without features it is the
/// formula itself.
pub fn guard(
    alloc: Global,
    features: &List<Feature>,
    signs: &List<bool>,
    formula: Formula,
) -> Result<Formula, Mem>
    ensures given { IfOk result (λ all. all ≡ guarded features.now signs.now formula) }
    ensures bound { IfOk result (λ all. is_bound_in all 0 ≡ is_bound_in formula 0) }
    ensures small { IfOk result (λ all. has_small_terms all ≡ has_small_terms formula) }
{
    let features = features.as_slice();
    let signs = signs.as_slice();
    let mut all = formula;
    for at in 0..features.len().min(signs.len()) {
        all = implied(alloc, &features[at], signs[at], all)?;
    }
    Ok(all)
}
