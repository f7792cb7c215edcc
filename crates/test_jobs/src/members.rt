use serde_json::Value;
use test_scribe::Fault;

/// The member of a case at a place.
fn member(case: &Value, place: usize) -> Result<&Value, Fault> {
    case.get(place).ok_or(Fault::NoCase)
}

/// The text at a place.
pub fn text_at(case: &Value, place: usize) -> Result<&str, Fault> {
    member(case, place)?.as_str().ok_or(Fault::NoCase)
}

/// The number of 64 bits at a place.
pub fn long_at(case: &Value, place: usize) -> Result<u64, Fault> {
    member(case, place)?.as_u64().ok_or(Fault::NoCase)
}

/// The number of 32 bits at a place.
pub fn number_at(case: &Value, place: usize) -> Result<u32, Fault> {
    u32::try_from(long_at(case, place)?)
        .ok()
        .ok_or(Fault::NoCase)
}
