ghost use Rattle.std.specs.Prelude.{◌≡◌, ◌<◌, ◌^◌, ◌++◌, false, length, IsTrue, IfOk, IfSome, OnOk};
ghost use Rattle.std.specs.List.{find, range_with_len};
ghost use Rattle.viz_base.specs.Formulas.{has_small_terms};
ghost use Rattle.logic_semantics.specs.Scenes.{scene_of};
ghost use Rattle.logic_semantics.specs.Truth.{truth_in};
ghost use Rattle.logic_semantics.specs.Blame.{blame, blame_in};
ghost use Rattle.vis_truth.specs.Names.{places_of};
ghost use Rattle.vis_truth.specs.Scenes.{is_witness, IsBoundedRendering};

use crate::boxes::is_member_at;
use crate::names::Names;
use crate::verdicts::truth_in;
use std::alloc::{AllocError, Global};
use viz_base::{Formula, List, Mem, Rendering, Set, World};
use viz_calc::Plain;

/// Whether a formula is true where the names around it stand for these places.
fn holds(f: &Formula, r: &Rendering<i128>, world: World, names: &Names<'_>) -> bool
    requires bounded { IsBoundedRendering r.now }
    requires small { IsTrue (has_small_terms f.now) }
    ensures { result ≡ truth_in (scene_of r.now world) f.now (places_of names.now) }
{
    let mut calc = Plain::new(world);
    match truth_in(&mut calc, f, r, names) {
        Ok(yes) => yes,
        Err(_) => unreachable!(),
    }
}

/// Whether the box at a place is a member of the set with which the body is false.
fn is_failing(
    body: &Formula,
    r: &Rendering<i128>,
    world: World,
    names: &Names<'_>,
    set: &Set,
    place: usize,
) -> bool
    requires bounded { IsBoundedRendering r.now }
    requires small { IsTrue (has_small_terms body.now) }
    ensures { result ≡ is_witness (scene_of r.now world) set.now body.now false
        (places_of names.now) place }
{
    if !is_member_at(set, r, place) {
        return false;
    }
    let inner = Names::Inner(place, &*names);
    !holds(body, r, world, &inner)
}

/// The first member of the set with which the body is false.
fn first_failing(
    body: &Formula,
    r: &Rendering<i128>,
    world: World,
    names: &Names<'_>,
    set: &Set,
) -> Option<usize>
    requires bounded { IsBoundedRendering r.now }
    requires small { IsTrue (has_small_terms body.now) }
    ensures within { IfSome result (λ place. place < length r.now.boxes) }
    ensures value { result ≡ find (is_witness (scene_of r.now world) set.now body.now false
        (places_of names.now)) (range_with_len 0 (length r.now.boxes)) }
{
    for place in 0..r.boxes.len() {
        if is_failing(body, r, world, names, set, place) {
            return Some(place);
        }
    }
    None
}

/// Appends the places of the members that a formula blames.
fn collect(
    f: &Formula,
    r: &Rendering<i128>,
    world: World,
    names: &Names<'_>,
    out: &mut List<u32>,
) -> Result<(), AllocError>
    requires few { length r.now.boxes < 2 ^ 32 }
    requires bounded { IsBoundedRendering r.now }
    requires small { IsTrue (has_small_terms f.now) }
    ensures { OnOk result (out.new ≡ out.old
        ++ blame_in (scene_of r.now world) f.now (places_of names.now)) }
{
    match f {
        Formula::Forall(set, body) => {
            match first_failing(body.get(), r, world, names, set) {
                Some(place) => {
                    out.push(place as u32)?;
                    let inner = Names::Inner(place, &*names);
                    collect(body.get(), r, world, &inner, out)
                }
                None => Ok(()),
            }
        }
        Formula::Implies(a, b) => {
            if holds(a.get(), r, world, names) {
                collect(b.get(), r, world, names, out)
            } else {
                Ok(())
            }
        }
        Formula::And(a, b) => {
            if holds(a.get(), r, world, names) {
                collect(b.get(), r, world, names, out)
            } else {
                collect(a.get(), r, world, names, out)
            }
        }
        _ => Ok(()),
    }
}

/// The places in the rendering of the members that a false formula blames: of `forall` the first member with which its
/// body is false, and whom the body blames; of `and` whom the first false part blames; of `implies` whom the conclusion
/// blames; of all else, and of a true formula, none.
pub fn blame(
    alloc: Global,
    f: &Formula,
    r: &Rendering<i128>,
    world: &World,
) -> Result<List<u32>, Mem>
    requires few { length r.now.boxes < 2 ^ 32 }
    requires bounded { IsBoundedRendering r.now }
    requires small { IsTrue (has_small_terms f.now) }
    ensures { IfOk result (λ blamed. blamed ≡ blame (scene_of r.now world.now) f.now) }
{
    let mut blamed = List::new(alloc);
    collect(f, r, *world, &Names::Unbound, &mut blamed)?;
    Ok(blamed)
}
