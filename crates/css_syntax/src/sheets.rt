ghost use Rattle.std.specs.Prelude.{◌≡◌, [], true, Ok, IfOk, OnOk};
ghost use Rattle.std.specs.Result.{IfErr};
ghost use Rattle.viz_base.specs.Answers.{Gives, GivesOneOf};
ghost use Rattle.css_semantics.specs.steps.Sheets.{read_on, statements, with_statement};
ghost use Rattle.css_semantics.specs.SheetsGrammar.{AreDeclarationsOf, IsSheetOf};
ghost use Rattle.css_syntax.specs.Faults.{Refuses, refusal_of, rules_in};

use crate::declarations::declarations;
use crate::statements::statement_item;
use css_semantics::{Statement, Token};
use css_token::{close_by_end, tokens};
use std::alloc::{AllocError, AllocFailed, Global};
use thiserror::Error;
use viz_base::{Decl, List, Mem, Rule, Sheet};

/// Why a text is refused as a style sheet. Places are in bytes of the text.
#[derive(Clone, Copy, Debug, Error)]
pub enum SheetFault {
    #[error("out of memory")]
    Mem,
    /// The place of an `@import` that comes before each ruleset, `@media` and `@page`.
    #[error("import at {0}")]
    Import(u32),
    /// The place of an `@media` that asks for what this profile has not: a parenthesis stands before its block, and an
    /// entry of its media list is outside the grammar.
    #[error("media query at {0}")]
    MediaQuery(u32),
    /// More than 8,192 rules.
    #[error("too many rules")]
    TooManyRules,
}

impl From<Mem> for SheetFault {
    ghost use Rattle.std.specs.Prelude.{◌≡◌};
    ghost use Rattle.css_syntax.specs.declared.sheets.SheetFault.TheVariants.{Mem};

    ghost from_gives = { λ _ fault. fault ≡ Mem };

    fn from(_: Mem) -> Self {
        SheetFault::Mem
    }
}

impl From<AllocError> for SheetFault {
    ghost use Rattle.std.specs.Prelude.{◌≡◌};
    ghost use Rattle.css_syntax.specs.declared.sheets.SheetFault.TheVariants.{Mem};

    ghost from_gives = { λ _ fault. fault ≡ Mem };

    fn from(_: AllocError) -> Self {
        SheetFault::Mem
    }
}

impl<T: Drop> From<AllocFailed<T>> for SheetFault {
    ghost use Rattle.std.specs.Prelude.{◌≡◌};
    ghost use Rattle.css_syntax.specs.declared.sheets.SheetFault.TheVariants.{Mem};

    ghost from_gives = { λ _ fault. fault ≡ Mem };

    fn from(_: AllocFailed<T>) -> Self {
        SheetFault::Mem
    }
}

/// The rules so far, and whether an `@import` may still come.
#[derive(Drop)]
struct Reading {
    rules: Vec<Rule>,
    early: bool,
}

impl Reading {
    /// Goes past a statement, unless it is refused.
    fn take(&mut self, statement: Statement) -> Result<(), SheetFault>
        ensures ok { OnOk result (with_statement self.old.early self.old.rules.items statement
            ≡ Ok (self.new.early, self.new.rules.items)) }
        ensures err { IfErr result (λ fault. Refuses fault
            (with_statement self.old.early self.old.rules.items statement)) }
    {
        match statement {
            Statement::Ruleset(rule) => {
                self.rules.push(rule)?;
                self.early = false;
            }
            Statement::Import(at) => {
                if self.early {
                    return Err(SheetFault::Import(at));
                }
            }
            Statement::Page => self.early = false,
            Statement::MediaQuery(at) => return Err(SheetFault::MediaQuery(at)),
            Statement::Media(held) => {
                self.rules.append(&mut held.into_vec())?;
                self.early = false;
            }
        }
        Ok(())
    }
}

/// The rules that the tokens hold.
fn read_rules<'a>(alloc: Global, tokens: &'a [Token<'a>]) -> Result<Sheet, SheetFault>
    ensures { Gives rules_in refusal_of result (read_on true [] (statements tokens.now)) }
{
    let mut reading = Reading {
        rules: Vec::new(alloc),
        early: true,
    };
    let mut at = 0;
    while at < tokens.len() {
        let (statement, rest) = statement_item(alloc, &tokens[at..])?;
        if let Some(statement) = statement {
            reading.take(statement)?;
        }
        at = tokens.len() - rest.len();
    }
    if reading.rules.len() > 8192 {
        return Err(SheetFault::TooManyRules);
    }
    Ok(Sheet {
        rules: List::from(reading.rules),
    })
}

/// The style sheet that a text spells, with all error recovery (CSS 2.1, 4.1 and 4.2): the rulesets, those of which the
/// selector alone is at fault too, each with the media list that it stands under, and their declarations, of which the
/// property or the value alone may be at fault. Places and lengths are in bytes of the text, which is shorter than
/// `2^32` bytes.
///
/// `Import` and `MediaQuery` for the first statement that is refused, at the place of its keyword; `TooManyRules` for
/// more than 8,192 rules where none is refused; `Mem` for want of memory, as which a place or a length from `2^32` on
/// counts: no clause says when.
pub fn read_sheet(alloc: Global, text: &str) -> Result<Sheet, SheetFault>
    ensures { GivesOneOf rules_in refusal_of result (IsSheetOf text.now) }
{
    let mut tokens = tokens(alloc, text)?.into_vec();
    close_by_end(&mut tokens);
    read_rules(alloc, tokens.as_slice())
}

/// The declarations of a style attribute, read as what stands in a block (CSS 2.1, 4.1.8 and 4.2). Places and lengths
/// are in bytes of the text, which is shorter than `2^32` bytes.
///
/// `Mem` for want of memory, as which a place or a length from `2^32` on counts; no clause says when.
pub fn read_declarations(alloc: Global, text: &str) -> Result<List<Decl>, Mem>
    ensures { IfOk result (AreDeclarationsOf text.now) }
{
    let mut tokens = tokens(alloc, text)?.into_vec();
    close_by_end(&mut tokens);
    declarations(alloc, tokens.as_slice())
}
