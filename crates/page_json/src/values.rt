//! What is read from a JSON value.
ghost use Rattle.std.specs.Prelude.{◌≡◌, ◌≤◌, map, option_map, IfSome, MatchResult};
ghost use Rattle.std.specs.Option.{option_copied};
ghost use Rattle.serde_json.specs.Find.{as_str};
ghost use Rattle.serde_json.specs.View.{view};
ghost use Rattle.page_json.specs.Values.{list_of, list_at, pair_of, pair_in, whole, whole_in, ◌of_member◌};

use crate::JobFault;
use serde_json::Value;

/// The elements of a list.
pub(crate) fn list_of(value: &Value) -> Option<&[Value]>
    ensures { option_map (λ s. map view s.now) result ≡ list_of (view value.now) }
{
    match value.as_array() {
        Some(items) => Some(items.as_slice()),
        None => None,
    }
}

/// The elements of a member, none where it is missing.
pub(crate) fn list_at<'a>(value: &'a Value, key: &str) -> Option<&'a [Value]>
    ensures { option_map (λ s. map view s.now) result ≡ list_at key.now (view value.now) }
{
    match value.get(key) {
        Some(member) => list_of(member),
        None => Some(&[]),
    }
}

/// The two whole numbers of a list of two.
fn pair_in(items: &[Value]) -> Option<(u64, u64)>
    ensures { result ≡ pair_in (map view items.now) }
{
    match items {
        [first, second] => Some((first.as_u64()?, second.as_u64()?)),
        _ => None,
    }
}

/// The two whole numbers that a value lists.
pub(crate) fn pair_of(value: &Value) -> Option<(u64, u64)>
    ensures { result ≡ pair_of (view value.now) }
{
    pair_in(list_of(value)?)
}

/// The two whole numbers of a member.
pub(crate) fn pair_at(value: &Value, key: &str) -> Option<(u64, u64)>
    ensures { result ≡ (pair_of of_member key.now) (view value.now) }
{
    pair_of(value.get(key)?)
}

/// The whole number of a member.
pub(crate) fn whole_at(value: &Value, key: &str) -> Option<u64>
    ensures { result ≡ (whole of_member key.now) (view value.now) }
{
    value.get(key).and_then(Value::as_u64)
}

/// The whole number of a member, where it is from `least` to `most`.
pub(crate) fn whole_in(value: &Value, key: &str, least: u32, most: u32) -> Option<u32>
    ensures value { result ≡ (whole_in least most of_member key.now) (view value.now) }
    ensures bounds { IfSome result (λ n. (least ≤ n) × (n ≤ most)) }
{
    let number = whole_at(value, key)?;
    if u64::from(least) <= number && number <= u64::from(most) {
        Some(number as u32)
    } else {
        None
    }
}

/// The text of a member.
pub(crate) fn text_at<'a>(value: &'a Value, key: &str) -> Option<&'a str>
    ensures { option_copied result ≡ (as_str of_member key.now) (view value.now) }
{
    match value.get(key) {
        Some(member) => member.as_str(),
        None => None,
    }
}

/// A place as the number of a font, sheet or node; there is no memory for more.
pub(crate) fn number_of(place: usize) -> Result<u32, JobFault>
    ensures { MatchResult result (λ n. n ≡ place) (λ fault. fault ≡ JobFault.Mem) }
{
    match u32::try_from(place) {
        Ok(number) => Ok(number),
        Err(_) => Err(JobFault::Mem),
    }
}
