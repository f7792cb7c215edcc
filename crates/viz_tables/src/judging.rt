//! Formulas that are judged before there is any survey.
ghost use Rattle.std.specs.Prelude.{◌≡◌, ◌≢◌, IfOk, MatchOption, MatchResult};
ghost use Rattle.page_build.specs.Jobs.{AreRefusedWith};
ghost use Rattle.viz_tables.specs.Tables.{AreTaken, IsRefusedAt, IsTakenWith, refused_answer, refused_line};

use crate::refusals::refused;
use crate::rules::Rule;
use crate::table::Table;
use page_build::{JobRefusal, build_with};
use std::alloc::Global;
use viz_base::Mem;

/// Whether the job file spells jobs under the formula of a rule.
fn judge(alloc: Global, job: &[u8], rule: &Rule) -> Result<(), JobRefusal>
    ensures { MatchResult result (λ _. IsTakenWith rule.now.formula job.now)
        (λ why. why ≢ JobRefusal.Mem → AreRefusedWith rule.now.formula job.now why) }
{
    build_with(alloc, job, rule.formula.as_str())?;
    Ok(())
}

/// The reply about a rule under whose formula the job file is refused.
fn refused_rule(alloc: Global, line: u64, why: JobRefusal) -> Result<Option<Table>, Mem>
    ensures { IfOk result (λ table. MatchOption table ⊥ (λ t. (why ≢ JobRefusal.Mem)
        × (t.answer ≡ refused_answer why) × (t.output.items ≡ refused_line line why))) }
{
    Ok(Some(refused(alloc, line, why)?))
}

/// The reply about the first rule under whose formula the job file is refused, if there is one.
pub(crate) fn first_refused(alloc: Global, job: &[u8], rules: &[Rule]) -> Result<Option<Table>, Mem>
    ensures { IfOk result (λ table. MatchOption table (AreTaken job.now rules.now)
        (λ t. IsRefusedAt job.now rules.now t.answer t.output.items)) }
{
    for at in 0..rules.len() {
        match judge(alloc, job, &rules[at]) {
            Ok(()) => {}
            Err(why) => return refused_rule(alloc, at as u64, why),
        }
    }
    Ok(None)
}
