//! How the refusal of a cascade is told.
ghost use Rattle.std.specs.Prelude.{◌≡◌, ◌≢◌, ℕ, List as Seq};
ghost use Rattle.std.specs.Prelude.{IfSome, MatchResult, Some};
ghost use Rattle.css_cascade.specs.Faults.{IsPlaced, refusal_of};
ghost use Rattle.css_semantics.specs.Cascade.{Fault};
ghost use Rattle.css_semantics.specs.Sources.{IsValueAt};
ghost use Rattle.page_build.specs.Refusals.{IsTold, shown};

use crate::faults::JobRefusal;
use crate::values::shown;
use css_cascade::{CascadeFault, value_text};
use std::alloc::Global;
use viz_base::{Page, Source, Text};

/// The value that refuses a page, as it is shown.
fn shown_value(
    alloc: Global,
    page: &Page,
    texts: &[Text],
    source: Source,
) -> Result<Text, JobRefusal>
    requires { (value : Seq ℕ) × IsValueAt page.now.nodes texts.now source value }
    ensures { MatchResult result (λ text. (value : Seq ℕ)
        × IsValueAt page.now.nodes texts.now source value × (text ≡ shown value))
        (λ refusal. refusal ≡ JobRefusal.Mem) }
{
    match value_text(page, texts, source) {
        Some(value) => Ok(shown(alloc, value)?),
        None => unreachable!(),
    }
}

/// How the refusal of a cascade is told.
pub(crate) fn told(alloc: Global, page: &Page, texts: &[Text], fault: CascadeFault) -> JobRefusal
    requires { IfSome (refusal_of fault) (IsPlaced page.now.nodes texts.now) }
    ensures given { result ≢ JobRefusal.Mem
        → (why : Fault) × (refusal_of fault ≡ Some why)
        × IsTold page.now.nodes texts.now why result }
    ensures selectors { (sheet at : ℕ) → fault ≡ CascadeFault.Selector sheet at
        → result ≡ JobRefusal.Selector sheet at }
{
    match fault {
        CascadeFault::Mem => JobRefusal::Mem,
        CascadeFault::Selector(sheet, at) => JobRefusal::Selector(sheet, at),
        CascadeFault::Value(node, prop, source) => match shown_value(alloc, page, texts, source) {
            Ok(value) => JobRefusal::Value(node, prop, value),
            Err(refusal) => refusal,
        },
    }
}
