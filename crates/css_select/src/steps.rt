ghost use Rattle.std.specs.Prelude.{◌≡◌, ◌<◌, ◌≤◌, ◌^◌, codes, Err, IfOk, MatchResult, Ok, Some};
ghost use Rattle.css_semantics.specs.SheetsMarks.{text_of};
ghost use Rattle.css_semantics.specs.Names.{same_name};
ghost use Rattle.css_semantics.specs.SelectorTerminals.{compared, comparison, is_value, name_of, pseudo};
ghost use Rattle.viz_base.specs.Answers.{FailsWith, Gives};
ghost use Rattle.css_select.specs.declared.faults.SelFault.TheVariants.{Bad};
ghost use Rattle.css_select.specs.Refusals.{bad_at, refusal_of};
ghost use Rattle.css_select.specs.declared.reading.Place.TheVariants.{Colon, Name, Value};
ghost use Rattle.viz_base.specs.declared.selectors.Test.TheVariants.{Class, Id};
ghost use Rattle.css_select.specs.steps.Machine.{State, at, state_of, step, step_at, step_bracket, step_closing, step_colon, step_colons, step_compound, step_dot, step_element, step_fresh, step_gap, step_generated, step_language, step_language_end, step_name, step_function, step_pseudo, step_sign, step_test, step_value, tagged, tested};

use crate::faults::SelFault;
use crate::names::{compared, comparison, is_lang, is_value, name_of, pseudo, text_of};
use crate::reading::{Place, Reading};
use crate::terminals::terminal;
use css_semantics::{ColonName, Comparison, Terminal, Token};
use std::alloc::Global;
use viz_base::{Join, Mem, Pseudo, Test, Text};

/// A place of the text. In a text of `2^32` bytes and more it may not fit, which counts as want of memory.
pub fn place(at: usize) -> Result<u32, Mem>
    ensures is { MatchResult result (λ n. n ≡ at) (λ _. 2 ^ 32 ≤ at) }
    ensures small { IfOk result (λ n. n < 2 ^ 32) }
{
    u32::try_from(at).map_err(|_| Mem)
}

/// The fault of a token that can't stand where it stands.
fn bad(token: &Token<'_>) -> SelFault
    ensures fails { FailsWith {B = State} (refusal_of result)
        (λ given. Err (bad_at token.now.at) ≡ given) }
    ensures named { token.now.at < 2 ^ 32 → result ≡ Bad token.now.at }
{
    match place(token.at) {
        Ok(at) => SelFault::Bad(at),
        Err(_) => SelFault::Mem,
    }
}

/// Behind a test.
fn with_test(reading: Reading, test: Test) -> Result<Reading, SelFault>
    ensures { Gives state_of refusal_of result (Ok (tested (state_of reading) test)) }
{
    Ok(reading.tested(test)?)
}

/// Behind an id.
fn with_id(alloc: Global, reading: Reading, token: &Token<'_>) -> Result<Reading, SelFault>
    ensures { Gives state_of refusal_of result
        (Ok (tested (state_of reading) (Id (text_of token.now)))) }
{
    match text_of(alloc, token) {
        Ok(name) => with_test(reading, Test::Id(name)),
        Err(_) => Err(reading.given_up(SelFault::Mem)),
    }
}

/// Behind a class.
fn with_class(alloc: Global, reading: Reading, token: &Token<'_>) -> Result<Reading, SelFault>
    ensures { Gives state_of refusal_of result
        (Ok (tested (state_of reading) (Class (text_of token.now)))) }
{
    match text_of(alloc, token) {
        Ok(name) => with_test(reading, Test::Class(name)),
        Err(_) => Err(reading.given_up(SelFault::Mem)),
    }
}

/// Behind a tag.
fn with_tag(alloc: Global, reading: Reading, token: &Token<'_>) -> Result<Reading, SelFault>
    ensures { Gives state_of refusal_of result
        (Ok (tagged (state_of reading) (Some (name_of token.now)))) }
{
    match name_of(alloc, token) {
        Ok(name) => Ok(reading.tagged(Some(name))),
        Err(_) => Err(reading.given_up(SelFault::Mem)),
    }
}

/// Behind an attribute's name.
fn with_name(alloc: Global, reading: Reading, token: &Token<'_>) -> Result<Reading, SelFault>
    ensures { Gives state_of refusal_of result
        (Ok (at (state_of reading) (Name (name_of token.now)))) }
{
    match name_of(alloc, token) {
        Ok(name) => Ok(reading.at(Place::Name(name))),
        Err(_) => Err(reading.given_up(SelFault::Mem)),
    }
}

/// Behind an attribute's value.
fn with_value(
    alloc: Global,
    reading: Reading,
    name: Text,
    how: Comparison,
    token: &Token<'_>,
) -> Result<Reading, SelFault>
    ensures { Gives state_of refusal_of result
        (Ok (at (state_of reading) (Value (compared how name (text_of token.now))))) }
{
    match text_of(alloc, token) {
        Ok(value) => Ok(reading.at(Place::Value(compared(how, name, value)))),
        Err(_) => Err(reading.given_up(SelFault::Mem)),
    }
}

/// Behind a colon.
fn behind_colon(reading: Reading, token: &Token<'_>) -> Result<Reading, SelFault>
    ensures { Gives state_of refusal_of result (Ok (at (state_of reading) (Colon token.now.at))) }
{
    let Ok(colon) = place(token.at) else {
        return Err(reading.given_up(SelFault::Mem));
    };
    Ok(reading.at(Place::Colon(colon)))
}

fn step_test(
    alloc: Global,
    reading: Reading,
    token: &Token<'_>,
    sign: Terminal,
) -> Result<Reading, SelFault>
    ensures { Gives state_of refusal_of result (step_test (state_of reading) token.now sign) }
{
    match sign {
        Terminal::Id => with_id(alloc, reading, token),
        Terminal::Dot => Ok(reading.at(Place::Dot)),
        Terminal::LeftBracket => Ok(reading.at(Place::Bracket)),
        Terminal::Colon => behind_colon(reading, token),
        _ => Err(reading.given_up(bad(token))),
    }
}

fn step_fresh(
    alloc: Global,
    reading: Reading,
    token: &Token<'_>,
    sign: Terminal,
) -> Result<Reading, SelFault>
    ensures { Gives state_of refusal_of result (step_fresh (state_of reading) token.now sign) }
{
    match sign {
        Terminal::Space => Ok(reading.at(Place::Fresh)),
        Terminal::Ident => with_tag(alloc, reading, token),
        Terminal::Star => Ok(reading.tagged(None)),
        sign => step_test(alloc, reading, token, sign),
    }
}

fn step_compound(
    alloc: Global,
    reading: Reading,
    token: &Token<'_>,
    sign: Terminal,
) -> Result<Reading, SelFault>
    ensures { Gives state_of refusal_of result (step_compound (state_of reading) token.now sign) }
{
    match sign {
        Terminal::Space => Ok(reading.at(Place::Gap)),
        Terminal::Greater => Ok(reading.joined(alloc, Join::Child)?),
        Terminal::Plus => Ok(reading.joined(alloc, Join::Next)?),
        Terminal::Comma => Ok(reading.ended(alloc, None)?),
        sign => step_test(alloc, reading, token, sign),
    }
}

fn step_gap(
    alloc: Global,
    reading: Reading,
    token: &Token<'_>,
    sign: Terminal,
) -> Result<Reading, SelFault>
    ensures { Gives state_of refusal_of result (step_gap (state_of reading) token.now sign) }
{
    match sign {
        Terminal::Space => Ok(reading.at(Place::Gap)),
        Terminal::Greater => Ok(reading.joined(alloc, Join::Child)?),
        Terminal::Plus => Ok(reading.joined(alloc, Join::Next)?),
        Terminal::Comma => Ok(reading.ended(alloc, None)?),
        sign => step_fresh(alloc, reading.joined(alloc, Join::Descendant)?, token, sign),
    }
}

fn step_dot(
    alloc: Global,
    reading: Reading,
    token: &Token<'_>,
    sign: Terminal,
) -> Result<Reading, SelFault>
    ensures { Gives state_of refusal_of result (step_dot (state_of reading) token.now sign) }
{
    match sign {
        Terminal::Ident => with_class(alloc, reading, token),
        _ => Err(reading.given_up(bad(token))),
    }
}

fn step_name_behind_colon(
    alloc: Global,
    reading: Reading,
    colon: u32,
    token: &Token<'_>,
) -> Result<Reading, SelFault>
    ensures { Gives state_of refusal_of result
        (step_pseudo (state_of reading) colon token.now (pseudo (text_of token.now))) }
{
    match pseudo(alloc, token) {
        Ok(Some(ColonName::Class(test))) => with_test(reading, test),
        Ok(Some(ColonName::Generated(pseudo))) => Ok(reading.at(Place::Element(Some(pseudo)))),
        Ok(Some(ColonName::Refused)) => Ok(reading.refused(colon, Place::Element(None))),
        Ok(None) => Err(reading.given_up(bad(token))),
        Err(_) => Err(reading.given_up(SelFault::Mem)),
    }
}

fn step_function_behind_colon(
    alloc: Global,
    reading: Reading,
    colon: u32,
    token: &Token<'_>,
) -> Result<Reading, SelFault>
    ensures { Gives state_of refusal_of result (step_function (state_of reading) colon token.now
        (same_name (text_of token.now) (codes "lang"))) }
{
    match is_lang(alloc, token) {
        Ok(true) => Ok(reading.at(Place::Language(colon))),
        Ok(false) => Err(reading.given_up(bad(token))),
        Err(_) => Err(reading.given_up(SelFault::Mem)),
    }
}

fn step_colon(
    alloc: Global,
    reading: Reading,
    colon: u32,
    token: &Token<'_>,
    sign: Terminal,
) -> Result<Reading, SelFault>
    ensures { Gives state_of refusal_of result
        (step_colon (state_of reading) colon token.now sign) }
{
    match sign {
        Terminal::Ident => step_name_behind_colon(alloc, reading, colon, token),
        Terminal::Function => step_function_behind_colon(alloc, reading, colon, token),
        Terminal::Colon => Ok(reading.at(Place::Colons)),
        _ => Err(reading.given_up(bad(token))),
    }
}

fn step_name_behind_colons(
    alloc: Global,
    reading: Reading,
    token: &Token<'_>,
) -> Result<Reading, SelFault>
    ensures { Gives state_of refusal_of result
        (step_generated (state_of reading) token.now (pseudo (text_of token.now))) }
{
    match pseudo(alloc, token) {
        Ok(Some(ColonName::Generated(pseudo))) => Ok(reading.at(Place::Element(Some(pseudo)))),
        Ok(_) => Err(reading.given_up(bad(token))),
        Err(_) => Err(reading.given_up(SelFault::Mem)),
    }
}

fn step_colons(
    alloc: Global,
    reading: Reading,
    token: &Token<'_>,
    sign: Terminal,
) -> Result<Reading, SelFault>
    ensures { Gives state_of refusal_of result (step_colons (state_of reading) token.now sign) }
{
    match sign {
        // Two colons are for generated content alone.
        Terminal::Ident => step_name_behind_colons(alloc, reading, token),
        _ => Err(reading.given_up(bad(token))),
    }
}

fn step_language(
    reading: Reading,
    colon: u32,
    token: &Token<'_>,
    sign: Terminal,
) -> Result<Reading, SelFault>
    ensures { Gives state_of refusal_of result
        (step_language (state_of reading) colon token.now sign) }
{
    match sign {
        Terminal::Space => Ok(reading.at(Place::Language(colon))),
        Terminal::Ident => Ok(reading.at(Place::LanguageEnd(colon))),
        _ => Err(reading.given_up(bad(token))),
    }
}

fn step_language_end(
    reading: Reading,
    colon: u32,
    token: &Token<'_>,
    sign: Terminal,
) -> Result<Reading, SelFault>
    ensures { Gives state_of refusal_of result
        (step_language_end (state_of reading) colon token.now sign) }
{
    match sign {
        Terminal::Space => Ok(reading.at(Place::LanguageEnd(colon))),
        Terminal::RightParen => Ok(reading.refused(colon, Place::Compound)),
        _ => Err(reading.given_up(bad(token))),
    }
}

fn step_element(
    alloc: Global,
    reading: Reading,
    pseudo: Option<Pseudo>,
    token: &Token<'_>,
    sign: Terminal,
) -> Result<Reading, SelFault>
    ensures { Gives state_of refusal_of result
        (step_element (state_of reading) pseudo token.now sign) }
{
    match sign {
        Terminal::Space => Ok(reading.at(Place::Element(pseudo))),
        Terminal::Comma => Ok(reading.ended(alloc, pseudo)?),
        _ => Err(reading.given_up(bad(token))),
    }
}

fn step_bracket(
    alloc: Global,
    reading: Reading,
    token: &Token<'_>,
    sign: Terminal,
) -> Result<Reading, SelFault>
    ensures { Gives state_of refusal_of result (step_bracket (state_of reading) token.now sign) }
{
    match sign {
        Terminal::Space => Ok(reading.at(Place::Bracket)),
        Terminal::Ident => with_name(alloc, reading, token),
        _ => Err(reading.given_up(bad(token))),
    }
}

fn step_sign(
    reading: Reading,
    name: Text,
    token: &Token<'_>,
    sign: Terminal,
) -> Result<Reading, SelFault>
    ensures { Gives state_of refusal_of result
        (step_sign (state_of reading) name token.now (comparison sign)) }
{
    match comparison(sign) {
        Some(how) => Ok(reading.at(Place::Sign(name, how))),
        None => Err(reading.given_up(bad(token))),
    }
}

fn step_name(
    reading: Reading,
    name: Text,
    token: &Token<'_>,
    sign: Terminal,
) -> Result<Reading, SelFault>
    ensures { Gives state_of refusal_of result (step_name (state_of reading) name token.now sign) }
{
    match sign {
        Terminal::Space => Ok(reading.at(Place::Name(name))),
        Terminal::RightBracket => with_test(reading, Test::Has(name)),
        sign => step_sign(reading, name, token, sign),
    }
}

fn step_value(
    alloc: Global,
    reading: Reading,
    name: Text,
    how: Comparison,
    token: &Token<'_>,
    sign: Terminal,
) -> Result<Reading, SelFault>
    ensures { Gives state_of refusal_of result
        (step_value (state_of reading) name how token.now sign) }
{
    match sign {
        Terminal::Space => Ok(reading.at(Place::Sign(name, how))),
        sign => {
            if is_value(sign) {
                with_value(alloc, reading, name, how, token)
            } else {
                Err(reading.given_up(bad(token)))
            }
        }
    }
}

fn step_closing(
    reading: Reading,
    test: Test,
    token: &Token<'_>,
    sign: Terminal,
) -> Result<Reading, SelFault>
    ensures { Gives state_of refusal_of result
        (step_closing (state_of reading) test token.now sign) }
{
    match sign {
        Terminal::Space => Ok(reading.at(Place::Value(test))),
        Terminal::RightBracket => with_test(reading, test),
        _ => Err(reading.given_up(bad(token))),
    }
}

/// Behind one more token.
pub fn step(alloc: Global, reading: Reading, token: &Token<'_>) -> Result<Reading, SelFault>
    ensures { Gives state_of refusal_of result (step (state_of reading) token.now) }
{
    let sign = terminal(token);
    let Reading {
        place,
        group,
        chain,
        compound,
        refused,
    } = reading;
    let rest = Reading {
        place: Place::Fresh,
        group,
        chain,
        compound,
        refused,
    };
    match place {
        Place::Fresh => step_fresh(alloc, rest, token, sign),
        Place::Compound => step_compound(alloc, rest, token, sign),
        Place::Gap => step_gap(alloc, rest, token, sign),
        Place::Dot => step_dot(alloc, rest, token, sign),
        Place::Colon(colon) => step_colon(alloc, rest, colon, token, sign),
        Place::Colons => step_colons(alloc, rest, token, sign),
        Place::Language(colon) => step_language(rest, colon, token, sign),
        Place::LanguageEnd(colon) => step_language_end(rest, colon, token, sign),
        Place::Element(pseudo) => step_element(alloc, rest, pseudo, token, sign),
        Place::Bracket => step_bracket(alloc, rest, token, sign),
        Place::Name(name) => step_name(rest, name, token, sign),
        Place::Sign(name, how) => step_value(alloc, rest, name, how, token, sign),
        Place::Value(test) => step_closing(rest, test, token, sign),
    }
}
