//! Truth over arithmetic that goes on after a halt, for crates whose own work is over such arithmetic too.
ghost use Rattle.std.specs.Prelude.{◌≡◌, length};
ghost use Rattle.viz_calc.specs.State.{WhereOpen};
ghost use Rattle.std.specs.List.{list_any, range_with_len};
ghost use Rattle.viz_calc.specs.Run.{Goes, Blames};
ghost use Rattle.logic_semantics.specs.Truth.{truth_in, truth};
ghost use Rattle.vis_truth.specs.Names.{places_of};
ghost use Rattle.vis_truth.specs.Scenes.{scene_at, agrees, is_witness, IsTame};

use crate::boxes::is_member_at;
use crate::names::Names;
use crate::terms::{comparison, overlap};
use viz_base::{Formula, Rendering, Set};
use viz_calc::Steady;

/// Whether a truth value is the one that is wanted.
fn agrees(wanted: bool, value: bool) -> bool
    ensures { result ≡ agrees wanted value }
{
    if wanted { value } else { !value }
}

/// Whether the box at a place is a member of the set with which the body's truth is the one that is wanted.
#[cycle(truth)]
fn is_witness<S: Steady>(
    calc: &mut S,
    body: &Formula,
    r: &Rendering<S::Num>,
    names: &Names<'_>,
    set: &Set,
    wanted: bool,
    place: usize,
) -> bool
    ensures goes { Goes (S.run calc.old) (S.run calc.new) }
    ensures value { WhereOpen (S.run calc.new).is_open
        (λ e. result ≡ is_witness (scene_at S.at r.now e) set.now body.now wanted
        (places_of names.now) place) }
    ensures cause { Blames (S.run calc.old) (S.run calc.new)
        (IsTame (S.run calc.old).is_open S.at r.now body.now) }
{
    if !is_member_at(set, r, place) {
        return false;
    }
    let inner = Names::Inner(place, &*names);
    let value = holds(calc, body, r, &inner);
    agrees(wanted, value)
}

/// Whether there is a member of the set with which the body's truth is the one that is wanted.
#[cycle(truth)]
fn has_witness<S: Steady>(
    calc: &mut S,
    body: &Formula,
    r: &Rendering<S::Num>,
    names: &Names<'_>,
    set: &Set,
    wanted: bool,
) -> bool
    ensures goes { Goes (S.run calc.old) (S.run calc.new) }
    ensures value { WhereOpen (S.run calc.new).is_open
        (λ e. result ≡ list_any (is_witness (scene_at S.at r.now e) set.now body.now wanted
        (places_of names.now)) (range_with_len 0 (length r.now.boxes))) }
    ensures cause { Blames (S.run calc.old) (S.run calc.new)
        (IsTame (S.run calc.old).is_open S.at r.now body.now) }
{
    for place in 0..r.boxes.len() {
        if is_witness(calc, body, r, names, set, wanted, place) {
            return true;
        }
    }
    false
}

/// Whether a formula is true where the names around it stand for these places.
#[cycle(truth)]
pub fn holds<S: Steady>(calc: &mut S, f: &Formula, r: &Rendering<S::Num>, names: &Names<'_>) -> bool
    ensures goes { Goes (S.run calc.old) (S.run calc.new) }
    ensures value { WhereOpen (S.run calc.new).is_open
        (λ e. result ≡ truth_in (scene_at S.at r.now e) f.now (places_of names.now)) }
    ensures cause { Blames (S.run calc.old) (S.run calc.new)
        (IsTame (S.run calc.old).is_open S.at r.now f.now) }
{
    match f {
        Formula::Const(value) => *value,
        Formula::Forall(set, body) => { !has_witness(calc, body.get(), r, names, set, false) }
        Formula::Exists(set, body) => has_witness(calc, body.get(), r, names, set, true),
        Formula::Implies(a, b) => {
            !holds(calc, a.get(), r, names) || holds(calc, b.get(), r, names)
        }
        Formula::Or(a, b) => { holds(calc, a.get(), r, names) || holds(calc, b.get(), r, names) }
        Formula::And(a, b) => { holds(calc, a.get(), r, names) && holds(calc, b.get(), r, names) }
        Formula::Not(a) => !holds(calc, a.get(), r, names),
        Formula::Cmp(left, sign, right) => comparison(calc, r, names, left, *sign, right),
        Formula::Overlap(a, b) => overlap(calc, r, names, *a, *b),
        Formula::Same(a, b) => names.are_same(*a, *b),
    }
}

/// Whether a formula is true.
pub fn truth<S: Steady>(calc: &mut S, f: &Formula, r: &Rendering<S::Num>) -> bool
    ensures goes { Goes (S.run calc.old) (S.run calc.new) }
    ensures value { WhereOpen (S.run calc.new).is_open
        (λ e. result ≡ truth (scene_at S.at r.now e) f.now) }
    ensures cause { Blames (S.run calc.old) (S.run calc.new)
        (IsTame (S.run calc.old).is_open S.at r.now f.now) }
{
    holds(calc, f, r, &Names::Unbound)
}
