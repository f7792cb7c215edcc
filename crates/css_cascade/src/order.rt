//! Which of two declarations of a property wins at a node (CSS 2.1, 6.4.1 and 6.4.3).
ghost use Rattle.std.specs.Prelude.{◌≡◌, ◌<◌, map, flat_map, length, option_map, None, IfOk};
ghost use Rattle.css_semantics.specs.CascadeOrder.{applied, cascade_cmp, later_of, place_of, spec_cmp, weight_number};
ghost use Rattle.css_semantics.specs.Properties.{properties};
ghost use Rattle.css_cascade.specs.steps.Seen.{claims_in, kept, kept_all, later_or, seen};

use css_semantics::{Claim, Weight};
use std::alloc::Global;
use std::cmp::Ordering;
use viz_base::{Mem, Prop, Spec};

/// What a declaration says of one property, with the specificity by which it applies to a node.
#[derive(Clone, Copy)]
pub struct Applied<'a> {
    pub spec: Spec,
    pub claim: &'a Claim,
}

/// The place of a property in the table, in the order of which the properties are declared.
fn place_of(prop: Prop) -> usize
    ensures place { result ≡ place_of prop }
    ensures within { result < 40 }
{
    // The variants stand in the order of the table.
    prop as usize
}

/// Which of two specificities is greater (CSS 2.1, 6.4.3).
pub fn spec_cmp(a: Spec, b: Spec) -> Ordering
    ensures { result ≡ spec_cmp a b }
{
    a.style.cmp(&b.style).then(
        a.ids
            .cmp(&b.ids)
            .then(a.attrs.cmp(&b.attrs).then(a.types.cmp(&b.types))),
    )
}

fn weight_number(weight: Weight) -> u8
    ensures { result ≡ weight_number weight }
{
    match weight {
        Weight::Default => 0,
        Weight::Normal => 1,
        Weight::Important => 2,
    }
}

/// Which of two settings is greater, apart from their places (CSS 2.1, 6.4.1).
fn cascade_cmp(a: Applied<'_>, b: Applied<'_>) -> Ordering
    ensures { result ≡ cascade_cmp (seen a.entry) (seen b.entry) }
{
    weight_number(a.claim.weight)
        .cmp(&weight_number(b.claim.weight))
        .then(spec_cmp(a.spec, b.spec))
}

/// Of two the later, unless the earlier is greater.
fn later_of<'a>(earlier: Applied<'a>, later: Applied<'a>) -> Applied<'a>
    ensures { seen result ≡ later_of cascade_cmp (seen earlier.entry) (seen later.entry) }
{
    // Of equals the later one wins, so the order in which settings are met is part of the answer.
    if cascade_cmp(earlier, later).is_gt() {
        earlier
    } else {
        later
    }
}

/// The winner for the property of a setting, behind it.
fn later_or<'a>(best: Option<Applied<'a>>, next: Applied<'a>) -> Applied<'a>
    ensures { seen result ≡ later_or (option_map seen best.entry) (seen next.entry) }
{
    match best {
        Some(found) => later_of(found, next),
        None => next,
    }
}

/// Keeps the winner of each property, at its place in the table, behind one more setting.
fn keep<'a>(best: &mut Vec<Option<Applied<'a>>>, next: Applied<'a>)
    requires { length best.old.items ≡ 40 }
    ensures len { length best.new.items ≡ 40 }
    ensures kept { map (option_map seen) best.new.items
        ≡ kept (map (option_map seen) best.old.items) (seen next.entry) }
{
    let at = place_of(next.claim.prop);
    best[at] = Some(later_or(best[at], next));
}

/// No winner of any property.
pub fn no_winners<'a>(alloc: Global) -> Result<Vec<Option<Applied<'a>>>, Mem>
    ensures len { IfOk result (λ best. length best.items ≡ 40) }
    ensures none { IfOk result (λ best. map (option_map seen) best.items
        ≡ map (λ p. None) properties) }
{
    let mut best = Vec::new(alloc);
    for _slot in 0..40u32 {
        best.push(None)?;
    }
    Ok(best)
}

/// Keeps the winners behind what claims say, with this specificity.
pub fn keep_claims<'a>(best: &mut Vec<Option<Applied<'a>>>, spec: Spec, claims: &'a [Claim])
    requires { length best.old.items ≡ 40 }
    ensures len { length best.new.items ≡ 40 }
    ensures kept { map (option_map seen) best.new.items
        ≡ kept_all (map (option_map seen) best.old.items) (map (applied spec) claims.now) }
{
    for claim in claims {
        keep(best, Applied { spec, claim });
    }
}

/// Keeps the winners behind what claims that stand elsewhere say, with this specificity.
pub fn keep_found<'a: 'b, 'b>(best: &mut Vec<Option<Applied<'b>>>, spec: Spec, claims: &[&'a Claim])
    requires { length best.old.items ≡ 40 }
    ensures len { length best.new.items ≡ 40 }
    ensures kept { map (option_map seen) best.new.items
        ≡ kept_all (map (option_map seen) best.old.items)
        (map (applied spec) (map (λ c. c.now) claims.now)) }
{
    for claim in claims {
        keep(
            best,
            Applied {
                spec,
                claim: *claim,
            },
        );
    }
}

/// The claims of the winners, in the order of the table.
pub fn claims_among<'a>(alloc: Global, best: &[Option<Applied<'a>>]) -> Result<Vec<&'a Claim>, Mem>
    ensures { IfOk result (λ winners. map (λ c. c.now) winners.items
        ≡ flat_map claims_in (map (option_map seen) best.now)) }
{
    let mut winners = Vec::new(alloc);
    for slot in best {
        if let Some(winner) = *slot {
            winners.push(winner.claim)?;
        }
    }
    Ok(winners)
}
