//! Places by number, for what is found box by box.
ghost use Rattle.std.specs.Prelude.{◌≡◌, None, IfOk, replicate};

use std::alloc::{AllocError, Global};

/// So many places with nothing in them.
pub fn places<T: Drop>(alloc: Global, count: usize) -> Result<Vec<Option<T>>, AllocError>
    ensures { IfOk result (λ places. places.items ≡ replicate count None) }
{
    let mut places = Vec::new(alloc);
    for _ in 0..count {
        places.push(None)?;
    }
    Ok(places)
}
