//! The style sheets of a job.
ghost use Rattle.std.specs.Prelude.{◌≡◌, ◌≢◌, ◌≤◌, ◌^◌, ◌∷◌, IfErr, IfOk, MatchResult, Ok, Err};
ghost use Rattle.css_semantics.specs.DefaultSheet.{default_text};
ghost use Rattle.css_semantics.specs.SheetsGrammar.{IsSheetOf};
ghost use Rattle.css_semantics.specs.SheetsReading.{Refusal};
ghost use Rattle.page_build.specs.Refusals.{IsSheetRefusal, of_sheet};
ghost use Rattle.page_build.specs.Sheets.{AreRead, AreSheets};

use crate::faults::JobRefusal;
use css_cascade::default_sheet;
use css_syntax::{SheetFault, read_sheet};
use std::alloc::{AllocError, Global};
use viz_base::{List, Sheet, Text};

/// The author's sheet of this number.
fn author_sheet(alloc: Global, number: u32, text: &str) -> Result<Sheet, JobRefusal>
    ensures { MatchResult result (λ sheet. IsSheetOf text.now (Ok sheet.rules))
        (λ refusal. refusal ≢ JobRefusal.Mem
        → (why : Refusal) × IsSheetOf text.now (Err why) × (refusal ≡ of_sheet number why)) }
{
    match read_sheet(alloc, text) {
        Ok(sheet) => Ok(sheet),
        Err(SheetFault::Mem) => Err(JobRefusal::Mem),
        Err(SheetFault::Import(at)) => Err(JobRefusal::Import(number, at)),
        Err(SheetFault::MediaQuery(at)) => Err(JobRefusal::MediaQuery(number, at)),
        Err(SheetFault::TooManyRules) => Err(JobRefusal::TooManyRules(number)),
    }
}

/// A place as a number. Of `2^32` and more it may not fit, which counts as want of memory.
fn number_of(at: usize) -> Result<u32, JobRefusal>
    ensures is { MatchResult result (λ number. number ≡ at) (λ refusal. refusal ≡ JobRefusal.Mem) }
    ensures room { IfErr result (λ _. 2 ^ 32 ≤ at) }
{
    match u32::try_from(at) {
        Ok(number) => Ok(number),
        Err(_) => Err(JobRefusal::Mem),
    }
}

/// The author's sheets.
fn author_sheets(alloc: Global, css: &[Text]) -> Result<Vec<Sheet>, JobRefusal>
    ensures { MatchResult result (λ sheets. AreRead css.now sheets.items)
        (λ refusal. refusal ≢ JobRefusal.Mem → IsSheetRefusal css.now refusal) }
{
    let mut sheets = Vec::new(alloc);
    for number in 0..css.len() {
        let place = number_of(number)?;
        sheets.push(author_sheet(alloc, place, css[number].as_str())?)?;
    }
    Ok(sheets)
}

/// The default sheet, which nothing in it refuses.
fn the_default(alloc: Global) -> Result<Sheet, JobRefusal>
    ensures { MatchResult result (λ sheet. IsSheetOf default_text (Ok sheet.rules))
        (λ refusal. refusal ≡ JobRefusal.Mem) }
{
    match read_sheet(alloc, default_sheet()) {
        Ok(sheet) => Ok(sheet),
        Err(_) => Err(JobRefusal::Mem),
    }
}

/// The default sheet, and the author's behind it.
pub(crate) fn all_sheets(alloc: Global, css: &[Text]) -> Result<Vec<Sheet>, JobRefusal>
    ensures { MatchResult result (λ sheets. AreSheets css.now sheets.items)
        (λ refusal. refusal ≢ JobRefusal.Mem → IsSheetRefusal css.now refusal) }
{
    let mut authors = author_sheets(alloc, css)?;
    let mut all = Vec::new(alloc);
    all.push(the_default(alloc)?)?;
    all.append(&mut authors)?;
    Ok(all)
}

/// The texts of the default sheet and of the author's.
pub(crate) fn all_texts(alloc: Global, css: &[Text]) -> Result<Vec<Text>, AllocError>
    ensures { IfOk result (λ texts. texts.items ≡ default_text ∷ css.now) }
{
    let mut texts = Vec::new(alloc);
    texts.push(Text::from_text(alloc, default_sheet())?)?;
    for text in css {
        texts.push(text.clone()?)?;
    }
    Ok(texts)
}
