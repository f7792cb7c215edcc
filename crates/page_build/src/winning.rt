//! What wins on a job's page.
ghost use Rattle.std.specs.Prelude.{◌≡◌, ◌≢◌, length};
ghost use Rattle.std.specs.Prelude.{IfOk, MatchResult, Ok, Err};
ghost use Rattle.css_semantics.specs.Cascade.{Fault, IsCascade};
ghost use Rattle.css_semantics.specs.PseudoCascade.{IsPseudoCascade};
ghost use Rattle.css_semantics.specs.Winners.{AreWinners};
ghost use Rattle.page_build.specs.Jobs.{AreWinning, IsRefusedPage};
ghost use Rattle.page_build.specs.Refusals.{IsTold};
ghost use Rattle.page_build.specs.Seen.{AreAllWinners, written_on};

use crate::faults::JobRefusal;
use crate::telling::told;
use css_cascade::{cascade, cascade_pseudo};
use std::alloc::Global;
use viz_base::{Cascaded, Page, Pseudo, Sheet, Text};

/// What wins on a page as it is written: at its nodes, at their `:before` and at their `:after`.
#[derive(Drop)]
pub(crate) struct Winning {
    pub own: Cascaded,
    pub before: Cascaded,
    pub after: Cascaded,
}

/// What wins at the nodes of a page with these sheets.
fn winners(
    alloc: Global,
    page: &Page,
    texts: &[Text],
    sheets: &[Sheet],
) -> Result<Cascaded, JobRefusal>
    requires { length texts.now ≡ length sheets.now }
    ensures given { MatchResult result
        (λ c. IsCascade page.now.nodes texts.now sheets.now (Ok c.winners))
        (λ refusal. refusal ≢ JobRefusal.Mem
        → (why : Fault) × IsCascade page.now.nodes texts.now sheets.now (Err why)
        × IsTold page.now.nodes texts.now why refusal) }
    ensures lists { IfOk result (λ c. AreWinners page.now.nodes c.winners) }
{
    match cascade(alloc, page, texts, sheets) {
        Ok(cascaded) => Ok(cascaded),
        Err(fault) => Err(told(alloc, page, texts, fault)),
    }
}

/// What wins at this pseudo-element of each node of a page with these sheets.
fn winners_beside(
    alloc: Global,
    page: &Page,
    texts: &[Text],
    sheets: &[Sheet],
    which: Pseudo,
) -> Result<Cascaded, JobRefusal>
    requires { length texts.now ≡ length sheets.now }
    ensures given { MatchResult result
        (λ c. IsPseudoCascade page.now.nodes texts.now sheets.now which (Ok c.winners))
        (λ refusal. refusal ≢ JobRefusal.Mem
        → (why : Fault) × IsPseudoCascade page.now.nodes texts.now sheets.now which (Err why)
        × IsTold page.now.nodes texts.now why refusal) }
    ensures lists { IfOk result (λ c. AreWinners page.now.nodes c.winners) }
{
    match cascade_pseudo(alloc, page, texts, sheets, which) {
        Ok(cascaded) => Ok(cascaded),
        Err(fault) => Err(told(alloc, page, texts, fault)),
    }
}

/// What wins on a page with these sheets.
pub(crate) fn all_winners(
    alloc: Global,
    page: &Page,
    texts: &[Text],
    sheets: &[Sheet],
) -> Result<Winning, JobRefusal>
    requires { length texts.now ≡ length sheets.now }
    ensures given { MatchResult result
        (λ w. AreWinning texts.now sheets.now (written_on page.now.nodes w))
        (λ refusal. refusal ≢ JobRefusal.Mem
        → IsRefusedPage page.now.nodes texts.now sheets.now refusal) }
    ensures lists { IfOk result (AreAllWinners page.now.nodes) }
{
    let own = winners(alloc, page, texts, sheets)?;
    let before = winners_beside(alloc, page, texts, sheets, Pseudo::Before)?;
    let after = winners_beside(alloc, page, texts, sheets, Pseudo::After)?;
    Ok(Winning { own, before, after })
}
