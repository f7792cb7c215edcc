//! Whether the pseudo-elements of a page have too many characters.
ghost use Rattle.std.specs.Prelude.{◌≡◌, ◌+◌, ◌<◌, IfSome, MatchOption, MatchResult};
ghost use Rattle.page_pseudo.specs.Growth.{refusal_of};
ghost use Rattle.page_pseudo.specs.Limits.{IsTooMuch, IsWithin, made_at};
ghost use Rattle.page_pseudo.specs.steps.Seeds.{written};

use crate::fault::GrowFault;
use crate::numbers::number;
use crate::seeds::{Seeds, winners_at};
use crate::texts::{count, generated};
use viz_base::{Body, MOST_CHARACTERS};

/// The room that is left behind the generated content of a node; none where it is too much.
fn left_behind(room: usize, seeds: Seeds<'_>, at: usize, body: &Body) -> Option<usize>
    ensures { MatchOption result (room < made_at (written seeds.entry) at body.now)
        (λ left. left + made_at (written seeds.entry) at body.now ≡ room) }
{
    // Both at the element, before what is in it.
    let left = room.checked_sub(count(generated(body, winners_at(seeds.before, at))))?;
    left.checked_sub(count(generated(body, winners_at(seeds.after, at))))
}

/// Looks whether too many characters are generated.
pub fn check_room(seeds: Seeds<'_>) -> Result<(), GrowFault>
    ensures { MatchResult result (λ _. IsWithin (written seeds.entry))
        (λ fault. IfSome (refusal_of fault) (IsTooMuch (written seeds.entry))) }
{
    let mut room = MOST_CHARACTERS;
    let nodes = seeds.page.nodes.as_slice();
    for at in 0..nodes.len() {
        match left_behind(room, seeds, at, &nodes[at].body) {
            Some(left) => room = left,
            None => return Err(GrowFault::Generated(number(at)?)),
        }
    }
    Ok(())
}
