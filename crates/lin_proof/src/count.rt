ghost use Rattle.std.specs.Prelude.{◌≡◌, ◌≤◌, ◌^◌, MatchOption};
ghost use Rattle.lin_proof.specs.Derivations.{lines_in, lines_of, lines_under};

use crate::derivation::{Branch, Derivation, Ending};

/// How many lines a derivation has: its steps, its ends and its rows of cases. None where they are `2^32` or more.
#[cycle(count)]
pub fn line_count(d: &Derivation) -> Option<u32>
    ensures { MatchOption result (2 ^ 32 ≤ lines_of d.now) (λ count. count ≡ lines_of d.now) }
{
    let last = count_end(&d.last)?;
    u32::try_from(d.steps.len()).ok()?.checked_add(last)
}

#[cycle(count)]
fn count_end(end: &Ending) -> Option<u32>
    ensures { MatchOption result (2 ^ 32 ≤ lines_in end.now) (λ count. count ≡ lines_in end.now) }
{
    match end {
        Ending::Closed => Some(1),
        Ending::Cases(branch) => count_cases(branch.get()),
    }
}

#[cycle(count)]
fn count_cases(branch: &Branch) -> Option<u32>
    ensures { MatchOption result (2 ^ 32 ≤ lines_under branch.now)
        (λ count. count ≡ lines_under branch.now) }
{
    let first = line_count(&branch.first)?;
    let second = line_count(&branch.second)?;
    first.checked_add(second)?.checked_add(1)
}
