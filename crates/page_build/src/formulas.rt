//! The formula of a job's assertion.
ghost use Rattle.std.specs.Prelude.{◌≡◌, ◌≢◌, ◌≤◌, length, true, IfOk, MatchResult};
ghost use Rattle.viz_base.specs.declared.limits.TheConstants.{MOST_FORMULA};
ghost use Rattle.viz_base.specs.Formulas.{has_small_terms, is_bound_in};
ghost use Rattle.vis_read.specs.Texts.{IsFault, IsFormulaText};
ghost use Rattle.vis_read.specs.declared.faults.FormulaFault.{FormulaFault};
ghost use Rattle.page_build.specs.Jobs.{HasAssertion};
ghost use Rattle.page_build.specs.Refusals.{of_formula};

use crate::faults::JobRefusal;
use crate::renumbering::renumbered;
use std::alloc::Global;
use vis_read::read_formula;
use viz_base::{Formula, Page};

/// The formula that the text of an assertion spells, of a page.
pub(crate) fn written(alloc: Global, text: &str, page: &Page) -> Result<Formula, JobRefusal>
    requires { length text.now ≤ MOST_FORMULA }
    ensures given { MatchResult result (IsFormulaText page.now.nodes text.now)
        (λ refusal. refusal ≢ JobRefusal.Mem
        → (fault : FormulaFault) × IsFault page.now.nodes text.now fault
        × (refusal ≡ of_formula fault)) }
    ensures bound { IfOk result (λ formula. is_bound_in formula 0 ≡ true) }
    ensures small { IfOk result (λ formula. has_small_terms formula ≡ true) }
{
    Ok(read_formula(alloc, text, page)?)
}

/// The formula that the text of an assertion spells, of a page, over the page with its generated content.
pub(crate) fn formula_of(
    alloc: Global,
    text: &str,
    page: &Page,
    from: &[Option<u32>],
) -> Result<Formula, JobRefusal>
    requires { length text.now ≤ MOST_FORMULA }
    ensures given { MatchResult result (HasAssertion page.now.nodes text.now from.now)
        (λ refusal. refusal ≢ JobRefusal.Mem
        → (fault : FormulaFault) × IsFault page.now.nodes text.now fault
        × (refusal ≡ of_formula fault)) }
    ensures bound { IfOk result (λ formula. is_bound_in formula 0 ≡ true) }
    ensures small { IfOk result (λ formula. has_small_terms formula ≡ true) }
{
    let formula = written(alloc, text, page)?;
    Ok(renumbered(alloc, from, &formula)?)
}
