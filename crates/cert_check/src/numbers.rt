//! What variables and rows are at one world: by them the world is on a path or isn't.
ghost use Rattle.std.specs.Prelude.{◌≡◌, map, pos, IfOk, IsTrue};
ghost use Rattle.std.specs.Option.{option_map};
ghost use Rattle.viz_base.specs.Worlds.{along};
ghost use Rattle.cert_semantics.specs.Axes.{axes};
ghost use Rattle.cert_check.specs.Numbers.{add_term, computed, sum_on};
ghost use Rattle.cert_check.specs.steps.Grids.{value_in, pass, place_of, are_above_zero, is_above_zero};

use crate::descent::Above;
use cert_semantics::{along, cut_of};
use lin_proof::Row;
use std::alloc::Global;
use viz_base::{Axis, List, Mem, World};

/// What a variable is, which counts 0 where it is not declared.
fn value_in(values: &List<i128>, variable: u32) -> i128
    ensures { result ≡ value_in values.now variable }
{
    match values.get(variable as usize) {
        Some(value) => *value,
        None => 0,
    }
}

/// A sum and one term more, if the product and the sum are in `i128`.
fn add_term(sum: i128, term: (u32, i128), values: &List<i128>) -> Option<i128>
    ensures { result ≡ add_term sum term (value_in values.now) }
{
    // The definition adds in this order too, so both leave 128 bits at the same term.
    let product = term.1.checked_mul(value_in(values, term.0))?;
    sum.checked_add(product)
}

/// A sum that goes on with the terms one after another.
fn sum_on(start: i128, terms: &[(u32, i128)], values: &List<i128>) -> Option<i128>
    ensures { result ≡ sum_on start terms.now (value_in values.now) }
{
    let mut sum = start;
    for term in terms {
        match add_term(sum, *term, values) {
            Some(next) => sum = next,
            None => return None,
        }
    }
    Some(sum)
}

/// A row's value, if each product and each sum on the way is in `i128`: its constant first, and then term by term.
fn computed(row: &Row, values: &List<i128>) -> Option<i128>
    ensures { result ≡ computed row.now (value_in values.now) }
{
    sum_on(row.k, row.terms.as_slice(), values)
}

/// Whether a world is still on the path below one def, split or lemma more. A def adds its floor to the values of the
/// variables; a unit split and a lemma are passed over. None where a number is outside `i128`.
fn pass(form: u8, values: &mut List<i128>, step: &Above, on: bool) -> Result<Option<bool>, Mem>
    requires { IsTrue (is_above_zero step.now) }
    ensures { IfOk result (λ passed.
        option_map (λ still. (values.new, still)) passed ≡ pass form step.now values.old on) }
{
    match step {
        Above::Def(row, by) => {
            let Some(value) = computed(row, values) else {
                return Ok(None);
            };
            values.push(value.div_euclid(*by))?;
            Ok(Some(on))
        }
        Above::First(row) | Above::Second(row) if cut_of(form, row).is_some() => Ok(Some(on)),
        Above::First(row) => Ok(computed(row, values).map(|value| on && 0 <= value)),
        Above::Second(row) => Ok(computed(row, values).map(|value| on && value < 0)),
        Above::Lemma(_) => Ok(Some(on)),
    }
}

/// The numbers of a world on the axes of a form, the values of the first variables.
fn numbers_of(alloc: Global, form: u8, world: World) -> Result<List<i128>, Mem>
    ensures { IfOk result (λ numbers. numbers ≡ map (λ axis. pos (along axis world)) (axes form)) }
{
    let mut values = List::new(alloc);
    values.push(i128::from(along(Axis::Width, world)))?;
    values.push(i128::from(along(Axis::Size, world)))?;
    if form == 2 {
        values.push(i128::from(along(Axis::Height, world)))?;
    }
    Ok(values)
}

/// Whether a world that the unit splits of a path leave is on the path. None where a number of its defs or of its
/// other splits is outside `i128` there.
pub fn place_of(alloc: Global, form: u8, above: &[Above], world: World) -> Result<Option<bool>, Mem>
    requires { IsTrue (are_above_zero above.now) }
    ensures { IfOk result (λ place. place ≡ place_of form above.now world) }
{
    let mut values = numbers_of(alloc, form, world)?;
    let mut on = true;
    for step in above {
        match pass(form, &mut values, step, on)? {
            Some(still) => on = still,
            None => return Ok(None),
        }
    }
    Ok(Some(on))
}
