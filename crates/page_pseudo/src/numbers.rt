//! The numbers of nodes.
ghost use Rattle.std.specs.Prelude.{◌≡◌, ◌≤◌, ◌^◌, MatchResult};

use viz_base::Mem;

/// A place as the number of a node. Of `2^32` and more it may not fit, which counts as want of memory.
pub fn number(at: usize) -> Result<u32, Mem>
    ensures { MatchResult result (λ n. n ≡ at) (λ _. 2 ^ 32 ≤ at) }
{
    u32::try_from(at).map_err(|_| Mem)
}
