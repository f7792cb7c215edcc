use crate::faults::Fault;
use itoa::{Buffer, Integer};
use serde_json::Value;
use std::alloc::{AllocError, Global};
use std::fmt::Debug;
use viz_base::List;

/// Reads the members of a case and writes its answer, as JSON. Neither ends early: the first fault is kept and asked
/// for once, at the end, and until then what is missing is read as a default.
#[derive(Drop)]
pub struct Scribe {
    alloc: Global,
    text: String,
    /// Whether a comma stands before the next member.
    is_behind: bool,
    fault: Option<Fault>,
}

/// A text in quotes, as JSON writes it.
fn in_quotes(alloc: Global, text: &str) -> Result<String, AllocError> {
    Value::String(String::from_str(alloc, text)?).to_string(alloc)
}

impl Scribe {
    /// One that has written nothing.
    pub fn new(alloc: Global) -> Scribe {
        Scribe {
            alloc,
            text: String::new(alloc),
            is_behind: false,
            fault: None,
        }
    }

    /// Where it takes memory.
    pub fn alloc(&self) -> Global {
        self.alloc
    }

    /// What is written, or the first fault.
    pub fn finished(self) -> Result<String, Fault> {
        let Scribe { text, fault, .. } = self;
        match fault {
            Some(fault) => Err(fault),
            None => Ok(text),
        }
    }

    /// Keeps a fault, if it is the first.
    pub fn fail(&mut self, fault: Fault) {
        if self.fault.is_none() {
            self.fault = Some(fault);
        }
    }

    /// What a call gives, or nothing where it has a fault, which is kept.
    pub fn kept<T: Drop, E: Into<Fault> + Drop>(&mut self, given: Result<T, E>) -> Option<T> {
        match given {
            Ok(value) => Some(value),
            Err(fault) => {
                self.fail(fault.into());
                None
            }
        }
    }

    /// What stands in a case, or a default where it does not.
    fn found<T: Drop>(&mut self, value: Option<T>, default: T) -> T {
        match value {
            Some(value) => value,
            None => {
                self.fail(Fault::NoCase);
                default
            }
        }
    }

    /// Puts an item at the end of a list.
    pub fn put<T: Drop>(&mut self, list: &mut List<T>, item: T) {
        if list.push(item).is_err() {
            self.fail(Fault::Mem);
        }
    }

    /// Puts an item on a stack.
    pub fn push<T: Drop>(&mut self, stack: &mut Vec<T>, item: T) {
        if stack.push(item).is_err() {
            self.fail(Fault::Mem);
        }
    }

    /// The member at a place of an array.
    pub fn at<'a>(&mut self, value: &'a Value, place: usize) -> &'a Value {
        self.found(value.get(place), value)
    }

    /// A text.
    pub fn text<'a>(&mut self, value: &'a Value) -> &'a str {
        self.found(value.as_str(), "")
    }

    /// The text at a place of an array.
    pub fn text_at<'a>(&mut self, value: &'a Value, place: usize) -> &'a str {
        let member = self.at(value, place);
        self.text(member)
    }

    /// The members of the array at a place of an array.
    pub fn list_at<'a>(&mut self, value: &'a Value, place: usize) -> &'a [Value] {
        match self.at(value, place).as_array() {
            Some(members) => members.as_slice(),
            None => {
                self.fail(Fault::NoCase);
                &[]
            }
        }
    }

    /// Whether something is so.
    pub fn flag(&mut self, value: &Value) -> bool {
        self.found(value.as_bool(), false)
    }

    /// Whether something is so, by what stands at a place of an array.
    pub fn flag_at(&mut self, value: &Value, place: usize) -> bool {
        let member = self.at(value, place);
        self.flag(member)
    }

    /// A whole number.
    pub fn integer(&mut self, value: &Value) -> i64 {
        self.found(value.as_i64(), 0)
    }

    /// The whole number at a place of an array.
    pub fn integer_at(&mut self, value: &Value, place: usize) -> i64 {
        let member = self.at(value, place);
        self.integer(member)
    }

    /// The number of the layout, in 1/64 px, at a place of an array.
    pub fn units_at(&mut self, value: &Value, place: usize) -> i128 {
        i128::from(self.integer_at(value, place))
    }

    /// A number of 32 bits.
    pub fn natural(&mut self, value: &Value) -> u32 {
        let number = self.found(value.as_u64(), 0);
        self.found(u32::try_from(number).ok(), 0)
    }

    /// The number of 32 bits at a place of an array.
    pub fn number_at(&mut self, value: &Value, place: usize) -> u32 {
        let member = self.at(value, place);
        self.natural(member)
    }

    /// The number of 128 bits that is written as a text at a place of an array.
    pub fn wide_at(&mut self, value: &Value, place: usize) -> i128 {
        let text = self.text_at(value, place);
        self.found(text.parse::<i128>().ok(), 0)
    }

    /// Writes this, with no comma.
    pub fn raw(&mut self, text: &str) {
        if self.text.push_str(text).is_err() {
            self.fail(Fault::Mem);
        }
    }

    /// Writes the digits of a number, with no comma.
    fn digits<I: Integer>(&mut self, number: I) {
        let mut buffer = Buffer::new();
        self.raw(buffer.format(number));
    }

    /// Writes the name of a value, with no comma.
    pub fn debug<T: Debug>(&mut self, value: &T) {
        if write!(self.text, "{value:?}").is_err() {
            self.fail(Fault::Mem);
        }
    }

    /// Writes a name and numbers behind it, with no comma.
    pub fn words(&mut self, name: &str, numbers: &[u32]) {
        self.raw(name);
        for number in numbers {
            self.raw(" ");
            self.digits(*number);
        }
    }

    /// Begins a member.
    fn begin(&mut self) {
        if self.is_behind {
            self.raw(",");
        }
        self.is_behind = true;
    }

    /// Begins an array.
    pub fn open(&mut self) {
        self.begin();
        self.raw("[");
        self.is_behind = false;
    }

    /// Ends an array.
    pub fn close(&mut self) {
        self.raw("]");
        self.is_behind = true;
    }

    /// Writes a member as it stands.
    pub fn member(&mut self, text: &str) {
        self.begin();
        self.raw(text);
    }

    /// Writes null.
    pub fn null(&mut self) {
        self.member("null");
    }

    /// Writes whether something is so.
    pub fn truth(&mut self, yes: bool) {
        self.member(if yes { "true" } else { "false" });
    }

    /// Writes a number.
    pub fn number<I: Integer>(&mut self, number: I) {
        self.begin();
        self.digits(number);
    }

    /// Writes numbers.
    pub fn numbers<I: Integer>(&mut self, numbers: &[I]) {
        for number in numbers {
            self.number(*number);
        }
    }

    /// Writes an array of numbers.
    pub fn row<I: Integer>(&mut self, numbers: &[I]) {
        self.open();
        self.numbers(numbers);
        self.close();
    }

    /// Writes a number as a text.
    pub fn wide(&mut self, number: i128) {
        self.member("\"");
        self.digits(number);
        self.raw("\"");
    }

    /// Writes a text that needs no escapes.
    pub fn word(&mut self, text: &str) {
        self.member("\"");
        self.raw(text);
        self.raw("\"");
    }

    /// Writes the name of a value.
    pub fn name<T: Debug>(&mut self, value: &T) {
        self.member("\"");
        self.debug(value);
        self.raw("\"");
    }

    /// Writes a text.
    pub fn quoted(&mut self, text: &str) {
        match in_quotes(self.alloc, text) {
            Ok(text) => self.member(text.as_str()),
            Err(_) => self.fail(Fault::Mem),
        }
    }

    /// Writes an array of a name and numbers.
    pub fn tagged<I: Integer>(&mut self, name: &str, numbers: &[I]) {
        self.open();
        self.word(name);
        self.numbers(numbers);
        self.close();
    }

    /// Writes a refusal: its name, and where.
    pub fn refused(&mut self, name: &str, places: &[u32]) {
        self.member("\"");
        self.words(name, places);
        self.raw("\"");
    }
}
