//! A job's page with its generated content.
ghost use Rattle.std.specs.Prelude.{◌≡◌, ◌≢◌, ℕ, length};
ghost use Rattle.std.specs.Prelude.{IfOk, MatchResult, Ok, Err};
ghost use Rattle.css_semantics.specs.Winners.{AreWinners};
ghost use Rattle.page_pseudo.specs.Growth.{IsGrowth, growth_of};
ghost use Rattle.page_build.specs.Jobs.{HasGrowth, IsRefusedPage};
ghost use Rattle.page_build.specs.Seen.{AreAllWinners, written_on};

use crate::faults::JobRefusal;
use crate::winning::{Winning, all_winners};
use page_pseudo::{Grown, grow};
use std::alloc::Global;
use viz_base::{Page, Sheet, Text};

/// The page with the content that wins on it.
fn grown(alloc: Global, page: &Page, winning: &Winning) -> Result<Grown, JobRefusal>
    requires { AreAllWinners page.now.nodes winning.now }
    ensures given { MatchResult result
        (λ g. IsGrowth (written_on page.now.nodes winning.now) (Ok (growth_of g)))
        (λ refusal. refusal ≢ JobRefusal.Mem
        → (node : ℕ) × IsGrowth (written_on page.now.nodes winning.now) (Err node)
        × (refusal ≡ JobRefusal.Generated node)) }
    ensures lists { IfOk result (λ g. AreWinners g.page.nodes g.cascaded.winners) }
{
    Ok(grow(alloc, page, &winning.own, &winning.before, &winning.after)?)
}

/// The page with its generated content, by these sheets.
pub(crate) fn grown_under(
    alloc: Global,
    page: &Page,
    texts: &[Text],
    sheets: &[Sheet],
) -> Result<Grown, JobRefusal>
    requires { length texts.now ≡ length sheets.now }
    ensures given { MatchResult result
        (λ g. HasGrowth page.now.nodes texts.now sheets.now (Ok (growth_of g)))
        (λ refusal. refusal ≢ JobRefusal.Mem
        → IsRefusedPage page.now.nodes texts.now sheets.now refusal) }
    ensures lists { IfOk result (λ g. AreWinners g.page.nodes g.cascaded.winners) }
{
    let winning = all_winners(alloc, page, texts, sheets)?;
    grown(alloc, page, &winning)
}
