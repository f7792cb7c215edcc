ghost use Rattle.std.specs.Prelude.{◌≡◌, ◌≤◌, ◌^◌, MatchResult};

use viz_base::Mem;

/// A number of 32 bits. One that does not fit, and no other, counts as want of memory.
pub fn place(at: usize) -> Result<u32, Mem>
    ensures { MatchResult result (λ n. n ≡ at) (λ _. 2 ^ 32 ≤ at) }
{
    u32::try_from(at).map_err(|_| Mem)
}
