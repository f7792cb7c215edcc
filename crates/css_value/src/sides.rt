ghost use Rattle.std.specs.Prelude.{◌≡◌, [], ◌∷◌, ◌++◌, OnOk, IfErr};
ghost use Rattle.css_semantics.specs.Values.{setting};
ghost use Rattle.css_semantics.specs.Shorthands.{four, inherited, sides, spread};
ghost use Rattle.viz_base.specs.Answers.{Gives};
ghost use Rattle.css_value.specs.Faults.{refusal_of};
ghost use Rattle.css_value.specs.Sides.{with_four, with_part};
ghost use Rattle.css_value.specs.declared.fault.ValueFault.TheVariants.{Mem};

use crate::fault::ValueFault;
use crate::values::{is_inherit, part_value};
use css_semantics::Part;
use std::alloc::Global;
use viz_base::{List, Prop, Setting, Sides, Value};

/// Adds a setting.
pub fn set(settings: &mut List<Setting>, prop: Prop, value: Value) -> Result<(), ValueFault>
    ensures ok { OnOk result (settings.new ≡ settings.old ++ setting prop value ∷ []) }
    ensures mem { IfErr result (λ fault. fault ≡ Mem) }
{
    settings.push(Setting { prop, value })?;
    Ok(())
}

/// Adds the settings by which these properties inherit.
pub fn inherit(settings: &mut List<Setting>, props: &[Prop]) -> Result<(), ValueFault>
    ensures ok { OnOk result (settings.new ≡ settings.old ++ inherited props.now) }
    ensures mem { IfErr result (λ fault. fault ≡ Mem) }
{
    for prop in props {
        set(settings, *prop, Value::Inherit)?;
    }
    Ok(())
}

/// Adds the setting of a property from a part.
fn set_part(settings: &mut List<Setting>, prop: Prop, part: &Part) -> Result<(), ValueFault>
    ensures { Gives (λ _. settings.new) refusal_of result (with_part settings.old prop part.now) }
{
    let value = part_value(prop, part)?;
    set(settings, prop, value)
}

/// Adds the settings of the sides from a part for each.
fn set_four(
    settings: &mut List<Setting>,
    sides: Sides<Prop>,
    top: &Part,
    right: &Part,
    bottom: &Part,
    left: &Part,
) -> Result<(), ValueFault>
    ensures { Gives (λ _. settings.new) refusal_of result (with_four settings.old sides
        (record { top = top.now; right = right.now; bottom = bottom.now; left = left.now })) }
{
    set_part(settings, sides.top, top)?;
    set_part(settings, sides.right, right)?;
    set_part(settings, sides.bottom, bottom)?;
    set_part(settings, sides.left, left)
}

/// The settings of the sides from a part for each.
#[tactic(auto, using(crate::proofs::SideLemmas::with_four_alone))]
fn four(
    alloc: Global,
    sides: Sides<Prop>,
    top: &Part,
    right: &Part,
    bottom: &Part,
    left: &Part,
) -> Result<List<Setting>, ValueFault>
    ensures { Gives (λ x. x) refusal_of result
        (four sides
        (record { top = top.now; right = right.now; bottom = bottom.now; left = left.now })) }
{
    let mut settings = List::new(alloc);
    set_four(&mut settings, sides, top, right, bottom, left)?;
    Ok(settings)
}

fn spread(alloc: Global, sides: Sides<Prop>, parts: &[Part]) -> Result<List<Setting>, ValueFault>
    ensures { Gives (λ x. x) refusal_of result (spread (four sides) parts.now) }
{
    match parts {
        [all] => four(alloc, sides, all, all, all, all),
        [ends, flanks] => four(alloc, sides, ends, flanks, ends, flanks),
        [top, flanks, bottom] => four(alloc, sides, top, flanks, bottom, flanks),
        [top, right, bottom, left] => four(alloc, sides, top, right, bottom, left),
        _ => Err(ValueFault::Ignored),
    }
}

/// What the value of a shorthand for four sides gives (CSS 2.1, 8.3, 8.4, 8.5.1 and 8.5.3).
pub fn four_sides(
    alloc: Global,
    on: Sides<Prop>,
    parts: &[Part],
) -> Result<List<Setting>, ValueFault>
    ensures { Gives (λ x. x) refusal_of result (sides on parts.now) }
{
    if is_inherit(parts) {
        let mut settings = List::new(alloc);
        inherit(&mut settings, &[on.top, on.right, on.bottom, on.left])?;
        Ok(settings)
    } else {
        spread(alloc, on, parts)
    }
}
