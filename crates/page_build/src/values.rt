//! The text of a refused value, as it is shown.
ghost use Rattle.std.specs.Prelude.{◌≡◌, ◌<◌, ◌∷◌, ◌++◌, [], take, IfOk, OnOk};
ghost use Rattle.page_build.specs.Refusals.{printable, shown, without_outer_space};

use std::alloc::{AllocError, Global};
use viz_base::Text;

/// The byte where it can be printed, else `?`.
fn printable(byte: u8) -> u8
    ensures is { result ≡ printable byte }
    ensures ascii { result < 128 }
{
    if 0x20 <= byte && byte <= 0x7E {
        byte
    } else {
        b'?'
    }
}

/// Adds a character of ASCII.
fn push_letter(text: &mut Text, letter: u8) -> Result<(), AllocError>
    requires { letter < 128 }
    ensures { OnOk result (text.new ≡ text.old ++ letter ∷ []) }
{
    text.push(char::from(letter))
}

/// The first 64 bytes.
fn front(bytes: &[u8]) -> &[u8]
    ensures { result.now ≡ take 64 bytes.now }
{
    if bytes.len() > 64 {
        &bytes[..64]
    } else {
        bytes
    }
}

/// The bytes without the white space at both ends.
fn without_outer_space(bytes: &[u8]) -> &[u8]
    ensures { result.now ≡ without_outer_space bytes.now }
{
    bytes.trim_ascii()
}

/// The first 64 bytes of a value without the white space at both ends, those that cannot be printed as `?`.
pub(crate) fn shown(alloc: Global, value: &str) -> Result<Text, AllocError>
    ensures { IfOk result (λ text. text ≡ shown value.now) }
{
    let mut text = Text::new(alloc);
    let front = front(without_outer_space(value.as_bytes()));
    for byte in front {
        push_letter(&mut text, printable(*byte))?;
    }
    Ok(text)
}
