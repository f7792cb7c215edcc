ghost use Rattle.std.specs.Prelude.{◌≡◌, IfOk};
ghost use Rattle.cert_text.specs.steps.Read.{Reads};
ghost use Rattle.cert_text.specs.steps.Parts.{ends_behind, read_term, with_last, read_terms, read_row, read_part, read_one_part, read_parts, read_fact, read_sum, read_step, read_behind_c, read_steps, read_cases, read_derivation};
ghost use Rattle.cert_text.specs.steps.Whole.{read_reason, read_answer, read_answers};

use crate::cursor::{Cursor, Stop};
use crate::numbers::{natural, signed};
use crate::spelling::MOST_CASES;
use crate::turn::Turn;
use lin_proof::{Answer, Branch, Derivation, Ending, Row, Step, Terms};
use std::alloc::{AllocError, Global};
use viz_base::{Boxed, List};

/// The greatest number of a variable, fact or row.
const MOST: u128 = (1 << 32) - 1;

/// The greatest multiplier or divisor.
pub const MOST_TIMES: u128 = (1 << 127) - 1;

/// The bytes that may stand behind a variable's coefficient: a space or a line's end. No variable follows the greatest
/// one, and a def's row ends in " by ".
fn ends_behind(variable: u32, is_def: bool) -> (u8, u8)
    ensures { result ≡ ends_behind variable is_def }
{
    if is_def {
        (b' ', b' ')
    } else if variable < u32::MAX {
        (b' ', b'\n')
    } else {
        (b'\n', b'\n')
    }
}

/// The next term, from the variable `least` on, or "by ".
fn read_term(
    cursor: &mut Cursor,
    is_def: bool,
    least: u64,
) -> Result<Turn<(u32, i128), Option<(u32, i128)>>, Stop>
    ensures { Reads result (read_term is_def least cursor.old.rest.now) cursor.new.rest.now }
{
    if is_def && (cursor.begins(b'b') || least > u64::from(u32::MAX)) {
        cursor.word(b"by ")?;
        return Ok(Turn::Last(None));
    }
    let (variable, _) = natural(cursor, (b':', b':'), u128::from(least), MOST)?;
    let variable = variable as u32;
    let (coefficient, end) = signed(cursor, ends_behind(variable, is_def), 1)?;
    if end == b'\n' {
        Ok(Turn::Last(Some((variable, coefficient))))
    } else {
        Ok(Turn::More((variable, coefficient)))
    }
}

/// The terms with one more at the end, if there is one.
fn with_last(terms: Terms, last: Option<(u32, i128)>) -> Result<Terms, AllocError>
    ensures { IfOk result (λ all. all ≡ with_last terms last) }
{
    let mut terms = terms;
    if let Some((variable, coefficient)) = last {
        terms.push(variable, coefficient)?;
    }
    Ok(terms)
}

fn read_terms(alloc: Global, cursor: &mut Cursor, is_def: bool) -> Result<Terms, Stop>
    ensures { Reads result (read_terms is_def cursor.old.rest.now) cursor.new.rest.now }
{
    let mut terms = Terms::new(alloc);
    let mut least = 0u64;
    for _turn in 0..cursor.rest.len() {
        match read_term(cursor, is_def, least)? {
            Turn::More(term) => {
                terms = with_last(terms, Some(term))?;
                least = u64::from(term.0) + 1;
            }
            Turn::Last(last) => return Ok(with_last(terms, last)?),
        }
    }
    Err(Stop::Refused)
}

/// A row and what stands behind it: " by " in a def, else the line's end.
pub fn read_row(alloc: Global, cursor: &mut Cursor, is_def: bool) -> Result<Row, Stop>
    ensures { Reads result (read_row is_def cursor.old.rest.now) cursor.new.rest.now }
{
    let (k, end) = signed(cursor, ends_behind(0, is_def), 0)?;
    if end == b'\n' {
        return Ok(Row::constant(alloc, k));
    }
    let terms = read_terms(alloc, cursor, is_def)?;
    Ok(Row { k, terms })
}

/// A multiple of a row, and a space or the line's end behind it; only the line's end where it is the only one.
fn read_part(cursor: &mut Cursor, behind: u8) -> Result<((i128, u32), u8), Stop>
    ensures { Reads result (read_part behind cursor.old.rest.now) cursor.new.rest.now }
{
    let (times, _) = natural(cursor, (b':', b':'), 1, MOST_TIMES)?;
    let (number, end) = natural(cursor, (behind, b'\n'), 0, MOST)?;
    Ok(((times as i128, number as u32), end))
}

fn read_one_part(cursor: &mut Cursor) -> Result<Turn<(i128, u32), (i128, u32)>, Stop>
    ensures { Reads result (read_one_part cursor.old.rest.now) cursor.new.rest.now }
{
    let (part, end) = read_part(cursor, b' ')?;
    if end == b'\n' {
        Ok(Turn::Last(part))
    } else {
        Ok(Turn::More(part))
    }
}

fn read_parts(alloc: Global, cursor: &mut Cursor) -> Result<List<(i128, u32)>, Stop>
    ensures { Reads result (read_parts cursor.old.rest.now) cursor.new.rest.now }
{
    let mut parts = List::new(alloc);
    for _turn in 0..cursor.rest.len() {
        match read_one_part(cursor)? {
            Turn::More(part) => parts.push(part)?,
            Turn::Last(part) => {
                parts.push(part)?;
                return Ok(parts);
            }
        }
    }
    Err(Stop::Refused)
}

fn read_fact(cursor: &mut Cursor) -> Result<Turn<Step, bool>, Stop>
    ensures { Reads result (read_fact cursor.old.rest.now) cursor.new.rest.now }
{
    cursor.word(b"fact ")?;
    let (number, _) = natural(cursor, (b'\n', b'\n'), 0, MOST)?;
    Ok(Turn::More(Step::Fact(number as u32)))
}

fn read_sum(alloc: Global, cursor: &mut Cursor) -> Result<Turn<Step, bool>, Stop>
    ensures { Reads result (read_sum cursor.old.rest.now) cursor.new.rest.now }
{
    cursor.word(b"sum ")?;
    let parts = read_parts(alloc, cursor)?;
    Ok(Turn::More(Step::Sum(parts)))
}

/// A step, or how the steps end: whether in "closed".
fn read_step(alloc: Global, cursor: &mut Cursor, cases: u8) -> Result<Turn<Step, bool>, Stop>
    ensures { Reads result (read_step cases cursor.old.rest.now) cursor.new.rest.now }
{
    if cursor.begins(b'f') {
        return read_fact(cursor);
    }
    if cursor.begins(b's') {
        return read_sum(alloc, cursor);
    }
    cursor.word(b"c")?;
    read_behind_c(cursor, cases)
}

/// What begins with a "c", behind it: a cut, "closed" or "case ", which comes only where cases are left.
fn read_behind_c(cursor: &mut Cursor, cases: u8) -> Result<Turn<Step, bool>, Stop>
    ensures { Reads result (read_behind_c cases cursor.old.rest.now) cursor.new.rest.now }
{
    if cursor.begins(b'u') {
        cursor.word(b"ut ")?;
        let (part, _) = read_part(cursor, b'\n')?;
        return Ok(Turn::More(Step::Cut(part.0, part.1)));
    }
    if cases > 0 && cursor.begins(b'a') {
        cursor.word(b"ase ")?;
        return Ok(Turn::Last(false));
    }
    cursor.word(b"losed\n")?;
    Ok(Turn::Last(true))
}

fn read_steps(alloc: Global, cursor: &mut Cursor, cases: u8) -> Result<(List<Step>, bool), Stop>
    ensures { Reads result (read_steps cases cursor.old.rest.now) cursor.new.rest.now }
{
    let mut steps = List::new(alloc);
    for _turn in 0..cursor.rest.len() {
        match read_step(alloc, cursor, cases)? {
            Turn::More(step) => steps.push(step)?,
            Turn::Last(is_closed) => return Ok((steps, is_closed)),
        }
    }
    Err(Stop::Refused)
}

/// A derivation in which at most so many cases enclose each other.
#[cycle(derivations)]
#[tactic(auto, unfolding(crate::specs::steps::Parts::read_derivation))]
pub fn read_derivation(alloc: Global, cursor: &mut Cursor, cases: u8) -> Result<Derivation, Stop>
    ensures { Reads result (read_derivation cases cursor.old.rest.now) cursor.new.rest.now }
{
    let (steps, is_closed) = read_steps(alloc, cursor, cases)?;
    if is_closed || cases == 0 {
        return Ok(Derivation {
            steps,
            last: Ending::Closed,
        });
    }
    let last = read_cases(alloc, cursor, cases - 1)?;
    Ok(Derivation { steps, last })
}

/// What stands behind "case ", where at most so many cases enclose each other below it.
#[cycle(derivations)]
fn read_cases(alloc: Global, cursor: &mut Cursor, cases: u8) -> Result<Ending, Stop>
    ensures { Reads result (read_cases
        (read_derivation cases) cursor.old.rest.now) cursor.new.rest.now }
{
    let row = read_row(alloc, cursor, false)?;
    let first = read_derivation(alloc, cursor, cases)?;
    let second = read_derivation(alloc, cursor, cases)?;
    Ok(Ending::Cases(Boxed::new(alloc, Branch { row, first, second })?))
}

fn read_reason(alloc: Global, cursor: &mut Cursor, yes: bool) -> Result<Turn<Answer, ()>, Stop>
    ensures { Reads result (read_reason yes cursor.old.rest.now) cursor.new.rest.now }
{
    let row = read_row(alloc, cursor, false)?;
    let why = read_derivation(alloc, cursor, MOST_CASES)?;
    Ok(Turn::More(Answer { yes, row, why }))
}

/// An answer, or the word behind the last one.
fn read_answer(alloc: Global, cursor: &mut Cursor) -> Result<Turn<Answer, ()>, Stop>
    ensures { Reads result (read_answer cursor.old.rest.now) cursor.new.rest.now }
{
    if cursor.begins(b'y') {
        cursor.word(b"yes ")?;
        return read_reason(alloc, cursor, true);
    }
    if cursor.begins(b'n') {
        cursor.word(b"no ")?;
        return read_reason(alloc, cursor, false);
    }
    cursor.word(b"end\n")?;
    Ok(Turn::Last(()))
}

/// The answers at the cursor, up to the line `end`, which is taken too.
pub fn read_answers(alloc: Global, cursor: &mut Cursor) -> Result<List<Answer>, Stop>
    ensures { Reads result (read_answers cursor.old.rest.now) cursor.new.rest.now }
{
    let mut answers = List::new(alloc);
    for _turn in 0..cursor.rest.len() {
        match read_answer(alloc, cursor)? {
            Turn::More(answer) => answers.push(answer)?,
            Turn::Last(()) => return Ok(answers),
        }
    }
    Err(Stop::Refused)
}
