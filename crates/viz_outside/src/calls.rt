ghost use Rattle.std.specs.Prelude.{◌≡◌, ◌==◌};
ghost use Rattle.std.specs.List.{list_any};

// Whether the number is in the list.
pub(crate) fn lists_call(fails: &[u32], number: u64) -> bool
    ensures { result ≡ list_any (λ n. n == number) fails.now }
{
    fails.iter().any(|n| u64::from(*n) == number)
}
