ghost use Rattle.std.specs.Prelude.{◌≡◌, ◌≤◌, length, true, IfOk, MatchResult};
ghost use Rattle.viz_base.specs.declared.limits.TheConstants.{MOST_FORMULA};
ghost use Rattle.viz_base.specs.Formulas.{has_small_terms, is_bound_in};
ghost use Rattle.vis_read.specs.Texts.{IsFault, IsFormulaText};
ghost use Rattle.vis_read.specs.steps.Machine.{ended, formula_read, initial};
ghost use Rattle.vis_read.specs.steps.Verdicts.{Judges, end_with, fault_at, run, verdict};

use crate::faults::{FormulaFault, Stop};
use crate::lexemes::Token;
use crate::places::place;
use crate::reading::Reading;
use crate::steps::{ended, step};
use crate::tokens::tokens;
use std::alloc::Global;
use viz_base::{Formula, List, Page};

/// The fault of a token at a place.
fn fault_at(stop: Stop, at: u32) -> FormulaFault
    ensures { result ≡ fault_at stop at }
{
    match stop {
        Stop::Mem => FormulaFault::Mem,
        Stop::Bad => FormulaFault::Bad(at),
        Stop::Unbound => FormulaFault::Unbound(at),
        Stop::TooDeep => FormulaFault::TooDeep(at),
    }
}

/// Reads all tokens.
fn run(alloc: Global, tokens: List<Token>) -> Result<Reading, FormulaFault>
    ensures { Judges result (run initial tokens) }
{
    let mut reading = Reading::new(alloc);
    for token in tokens.into_vec() {
        match step(alloc, reading, token.lexeme) {
            Ok(next) => reading = next,
            Err(stop) => return Err(fault_at(stop, token.at)),
        }
    }
    Ok(reading)
}

/// What is read, where the text ends.
fn finish(alloc: Global, reading: Reading, end: u32) -> Result<Formula, FormulaFault>
    ensures { Judges result (end_with end (formula_read (ended reading))) }
{
    match ended(alloc, reading) {
        Ok(formula) => Ok(formula),
        Err(stop) => Err(fault_at(stop, end)),
    }
}

/// What the tokens of a text that ends at a place are.
fn read_tokens(alloc: Global, tokens: List<Token>, end: u32) -> Result<Formula, FormulaFault>
    ensures { Judges result (verdict end tokens) }
{
    match run(alloc, tokens) {
        Ok(reading) => finish(alloc, reading, end),
        Err(fault) => Err(fault),
    }
}

/// The formula of visual logic that a text spells, of a page whose elements its strings select.
///
/// `Bad` where it spells none, whatever stands unbound or too deep, at the first token that no formula can have there,
/// at the first byte that begins none, or at the text's end; `Unbound` at the first name that no quantifier around it
/// binds, and `TooDeep` at the first quantifier inside two others, or quantifier, parenthesis or `not` inside 64 such,
/// where that comes first; `Mem` for want of memory, as which a text of `2^32` bytes and more and a page of as many
/// nodes count.
pub fn read_formula(alloc: Global, text: &str, page: &Page) -> Result<Formula, FormulaFault>
    ensures answer { MatchResult result (IsFormulaText page.now.nodes text.now)
        (IsFault page.now.nodes text.now) }
    ensures bound { IfOk result (λ f. is_bound_in f 0 ≡ true) }
    ensures small { length text.now ≤ MOST_FORMULA → IfOk result (λ f. has_small_terms f ≡ true) }
{
    let end = place(text.len())?;
    let tokens = tokens(alloc, text, page)?;
    read_tokens(alloc, tokens, end)
}
