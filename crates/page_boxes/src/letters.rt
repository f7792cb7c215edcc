//! The characters of texts.
ghost use Rattle.std.specs.Prelude.{◌≡◌, IfOk, chars};

use std::alloc::{AllocError, Global};

/// The characters of a text.
pub fn letters_of(alloc: Global, text: &str) -> Result<Vec<char>, AllocError>
    ensures { IfOk result (λ letters. letters.items ≡ chars text.now) }
{
    let mut letters = Vec::new(alloc);
    for letter in text.chars() {
        letters.push(letter)?;
    }
    Ok(letters)
}
