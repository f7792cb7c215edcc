ghost use Rattle.std.specs.Prelude.{◌≡◌, map, IfOk};
ghost use Rattle.std.specs.List.{All};
ghost use Rattle.css_semantics.specs.Specificity.{IsCountable};
ghost use Rattle.viz_base.specs.Answers.{Gives, GivesOneOf};
ghost use Rattle.css_select.specs.Refusals.{refusal_of};
ghost use Rattle.css_semantics.specs.Spelled.{spelled};
ghost use Rattle.css_select.specs.steps.Machine.{initial, may_end, pseudo_at, run, state_of};
ghost use Rattle.css_select.specs.Verdicts.{IsReadingOf, finished, verdict_of};

use crate::faults::SelFault;
use crate::reading::{Place, Reading};
use crate::steps::{place, step};
use crate::terminals::is_comment;
use css_semantics::Token;
use css_token::tokens;
use std::alloc::Global;
use viz_base::{List, Pseudo, Selector};

/// Reads all tokens.
fn run(alloc: Global, tokens: &[Token<'_>]) -> Result<Reading, SelFault>
    ensures { Gives state_of refusal_of result (run initial tokens.now) }
{
    let mut reading = Reading::new(alloc);
    for token in tokens {
        if !is_comment(token.kind) {
            reading = step(alloc, reading, token)?;
        }
    }
    Ok(reading)
}

/// Whether a group may end at a place.
fn may_end(place: &Place) -> bool
    ensures { result ≡ may_end place.now }
{
    matches!(place, Place::Compound | Place::Gap | Place::Element(_))
}

/// The pseudo-element that is read at a place.
fn pseudo_at(place: &Place) -> Option<Pseudo>
    ensures { result ≡ pseudo_at place.now }
{
    match place {
        Place::Element(pseudo) => *pseudo,
        _ => None,
    }
}

/// What is read, where the text ends.
fn finish(reading: Reading, end: u32) -> Result<List<Selector>, SelFault>
    ensures { Gives (map spelled) refusal_of result (finished end (state_of reading)) }
{
    if !may_end(&reading.place) {
        return Err(reading.given_up(SelFault::Bad(end)));
    }
    if let Some(at) = reading.refused {
        return Err(reading.given_up(SelFault::Unsupported(at)));
    }
    let pseudo = pseudo_at(&reading.place);
    Ok(reading.end(pseudo)?)
}

fn read_tokens(alloc: Global, tokens: &[Token<'_>], end: u32) -> Result<List<Selector>, SelFault>
    ensures { Gives (map spelled) refusal_of result (verdict_of end tokens.now) }
{
    let reading = run(alloc, tokens)?;
    finish(reading, end)
}

/// The group of selectors that a text spells (CSS 2.1, chapter 5 and appendix G.1), each with the pseudo-element at its
/// end, which one or two colons begin.
///
/// `Bad` where it spells none, even with the selectors that are refused (`:lang()`, and at a selector's end
/// `:first-line` and `:first-letter`), at the first token that no such group can have there, or at the text's end;
/// `Unsupported` where it spells one with these alone, at the colon of the first of them; `Mem` for want of memory, as
/// which a text of `2^32` bytes and more counts.
pub fn read_selector(alloc: Global, text: &str) -> Result<List<Selector>, SelFault>
    ensures answer { GivesOneOf (map spelled) refusal_of result (IsReadingOf text.now) }
    ensures countable { IfOk result (All (λ s. IsCountable (spelled s))) }
{
    let end = place(text.len())?;
    let tokens = tokens(alloc, text)?;
    read_tokens(alloc, tokens.as_slice(), end)
}
