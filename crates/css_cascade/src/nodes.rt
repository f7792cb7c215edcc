//! What a node comes to by its winners: which are refused, whether it is hidden, and what those inside it take.
ghost use Rattle.std.specs.Prelude.{◌≡◌, ◌≤◌, ◌^◌, ◌++◌, map, flat_map, option_map, IfOk, MatchResult};
ghost use Rattle.std.specs.List.{list_any};
ghost use Rattle.std.specs.Option.{option_to_list};
ghost use Rattle.css_semantics.specs.CascadeNodes.{around_root, first_refused, hides, is_above_zero, is_hidden};
ghost use Rattle.css_semantics.specs.CascadeNodes.{is_limit, is_refused, sets_limit, sets_max_height};
ghost use Rattle.css_semantics.specs.CascadeNodes.{sets_min_height, sets_min_width, set_by, settings_by, settings_of};
ghost use Rattle.css_semantics.specs.CascadeNodes.{standing_around, standing_of};

use css_semantics::{AT_NONE, Claim, Standing};
use std::alloc::Global;
use viz_base::{List, Mem, Prop, Setting, Value};

/// A number of a node or of a sheet. Of `2^32` and more it may not fit, which counts as want of memory.
pub fn number(at: usize) -> Result<u32, Mem>
    ensures { MatchResult result (λ n. n ≡ at) (λ _. 2 ^ 32 ≤ at) }
{
    u32::try_from(at).map_err(|_| Mem)
}

/// What the root takes: nothing around it hides it, and `inherit` is the initial value there.
const AROUND_ROOT: Standing = Standing {
    hidden: false,
    min_width: false,
    min_height: false,
    max_height: false,
};

/// Whether a minimum is other than zero, where the parent's is or isn't.
fn is_above_zero(outer: bool, value: &Value) -> bool
    ensures { result ≡ is_above_zero outer value.now }
{
    match value {
        Value::Inherit => outer,
        Value::Px(n) | Value::Em(n) | Value::Pct(n) => *n != 0,
        _ => true,
    }
}

/// Whether a maximum is other than `none`, where the parent's is or isn't.
fn is_limit(outer: bool, value: &Value) -> bool
    ensures { result ≡ is_limit outer value.now }
{
    match value {
        Value::Inherit => outer,
        Value::Word(_) => false,
        _ => true,
    }
}

fn sets_min_width(outer: Standing, prop: Prop, value: &Value) -> bool
    ensures { result ≡ sets_min_width outer prop value.now }
{
    prop == Prop::MinWidth && is_above_zero(outer.min_width, value)
}

fn sets_min_height(outer: Standing, prop: Prop, value: &Value) -> bool
    ensures { result ≡ sets_min_height outer prop value.now }
{
    prop == Prop::MinHeight && is_above_zero(outer.min_height, value)
}

fn sets_max_height(outer: Standing, prop: Prop, value: &Value) -> bool
    ensures { result ≡ sets_max_height outer prop value.now }
{
    prop == Prop::MaxHeight && is_limit(outer.max_height, value)
}

fn sets_limit(outer: Standing, prop: Prop, value: &Value) -> bool
    ensures { result ≡ sets_limit outer prop value.now }
{
    sets_min_width(outer, prop, value)
        || sets_min_height(outer, prop, value)
        || sets_max_height(outer, prop, value)
}

/// Whether the value of a winner is refused.
fn is_refused(replaced: bool, outer: Standing, claim: &Claim) -> bool
    ensures { result ≡ is_refused replaced outer claim.now }
{
    match &claim.value {
        Some(value) => replaced && sets_limit(outer, claim.prop, value),
        None => claim.prop != Prop::Content,
    }
}

/// The first of the winners that is refused.
pub fn first_refused<'a>(
    replaced: bool,
    outer: Standing,
    winners: &[&'a Claim],
) -> Option<&'a Claim>
    ensures { option_map (λ c. c.now) result
        ≡ first_refused replaced outer (map (λ c. c.now) winners.now) }
{
    for winner in winners {
        let claim = *winner;
        if is_refused(replaced, outer, claim) {
            return Some(claim);
        }
    }
    None
}

fn hides(claim: &Claim) -> bool
    ensures { result ≡ hides claim.now }
{
    claim.prop == Prop::Display && matches!(claim.value, Some(Value::Word(AT_NONE)))
}

/// Whether `display: none` is among winners.
pub fn has_hiding(winners: &[&Claim]) -> bool
    ensures { result ≡ list_any hides (map (λ c. c.now) winners.now) }
{
    for winner in winners {
        if hides(winner) {
            return true;
        }
    }
    false
}

/// Whether a node with these winners is hidden (CSS 2.1, 9.2.4).
pub fn is_hidden(outer: Standing, winners: &[&Claim]) -> bool
    ensures { result ≡ is_hidden outer (map (λ c. c.now) winners.now) }
{
    outer.hidden || has_hiding(winners)
}

/// A value of its own.
fn copied(alloc: Global, value: &Value) -> Result<Value, Mem>
    ensures { IfOk result (λ copy. copy ≡ value.now) }
{
    Ok(match value {
        Value::Inherit => Value::Inherit,
        Value::Word(n) => Value::Word(*n),
        Value::Px(n) => Value::Px(*n),
        Value::Em(n) => Value::Em(*n),
        Value::Pct(n) => Value::Pct(*n),
        Value::Number(n) => Value::Number(*n),
        Value::Names(names) => Value::Names(names.clone()?),
        Value::Chars(text) => Value::Chars(text.clone()?),
    })
}

/// What a winner sets, unless it is refused by name.
pub fn set_by(alloc: Global, claim: &Claim) -> Result<Option<Setting>, Mem>
    ensures { IfOk result (λ setting. option_to_list setting
        ≡ set_by claim.now.prop claim.now.value) }
{
    match &claim.value {
        Some(value) => Ok(Some(Setting {
            prop: claim.prop,
            value: copied(alloc, value)?,
        })),
        None => Ok(None),
    }
}

/// What a winner at a node sets, unless it is refused.
fn setting_by(
    alloc: Global,
    replaced: bool,
    outer: Standing,
    claim: &Claim,
) -> Result<Option<Setting>, Mem>
    ensures { IfOk result (λ setting. option_to_list setting
        ≡ settings_by replaced outer claim.now) }
{
    if is_refused(replaced, outer, claim) {
        return Ok(None);
    }
    set_by(alloc, claim)
}

/// What the winners at a node set.
pub fn settings_of(
    alloc: Global,
    replaced: bool,
    outer: Standing,
    winners: &[&Claim],
) -> Result<List<Setting>, Mem>
    ensures { IfOk result (λ settings. settings
        ≡ settings_of replaced outer (map (λ c. c.now) winners.now)) }
{
    let mut settings = List::new(alloc);
    for winner in winners {
        if let Some(setting) = setting_by(alloc, replaced, outer, winner)? {
            settings.push(setting)?;
        }
    }
    Ok(settings)
}

fn has_min_width(outer: Standing, settings: &[Setting]) -> bool
    ensures { result ≡ list_any (λ s. sets_min_width outer s.prop s.value) settings.now }
{
    settings
        .iter()
        .any(|s| sets_min_width(outer, s.prop, &s.value))
}

fn has_min_height(outer: Standing, settings: &[Setting]) -> bool
    ensures { result ≡ list_any (λ s. sets_min_height outer s.prop s.value) settings.now }
{
    settings
        .iter()
        .any(|s| sets_min_height(outer, s.prop, &s.value))
}

fn has_max_height(outer: Standing, settings: &[Setting]) -> bool
    ensures { result ≡ list_any (λ s. sets_max_height outer s.prop s.value) settings.now }
{
    settings
        .iter()
        .any(|s| sets_max_height(outer, s.prop, &s.value))
}

/// What those inside a node take from it.
pub fn standing_of(outer: Standing, hidden: bool, settings: &[Setting]) -> Standing
    ensures { result ≡ standing_of outer hidden settings.now }
{
    Standing {
        hidden,
        min_width: has_min_width(outer, settings),
        min_height: has_min_height(outer, settings),
        max_height: has_max_height(outer, settings),
    }
}

/// What a node takes from its parent.
pub fn standing_around(standings: &[Standing], parent: Option<u32>) -> Standing
    ensures { result ≡ standing_around standings.now parent }
{
    match parent {
        Some(parent) => standings
            .get(parent as usize)
            .copied()
            .unwrap_or(AROUND_ROOT),
        None => AROUND_ROOT,
    }
}
