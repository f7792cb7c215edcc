use crate::faults::Fault;
use crate::scribes::Scribe;
use serde_json::Value;
use std::alloc::Global;
use std::io;

/// A table of cases, each an array of a call's name and what it is called with.
pub trait Table {
    /// Writes the answer to a case of a call of this name.
    fn answer(scribe: &mut Scribe, name: &str, case: &Value);
}

/// The answer to the case that stands in a line of a table.
pub fn answered<T: Table>(alloc: Global, line: io::Result<String>) -> Result<String, Fault> {
    let case = Value::from_str(alloc, line?.as_str())?;
    let mut scribe = Scribe::new(alloc);
    let name = scribe.text_at(&case, 0);
    T::answer(&mut scribe, name, &case);
    scribe.finished()
}
