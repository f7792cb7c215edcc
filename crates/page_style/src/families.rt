ghost use Rattle.std.specs.Prelude.{◌≡◌, ◌<◌, ◌≤◌, length, IfSome};
ghost use Rattle.css_semantics.specs.ComputedValues.{font_named, first_named};

use css_token::same_name;
use viz_base::{Font, Text};

/// The place of the first font of this name.
fn font_named(fonts: &[Font], name: &str) -> Option<usize>
    ensures is { result ≡ font_named fonts.now name.now }
    ensures there { IfSome result (λ at. at < length fonts.now) }
{
    for at in 0..fonts.len() {
        if same_name(name, fonts[at].name.as_str()) {
            return Some(at);
        }
    }
    None
}

/// The font of the first of these names that a font has, or the first font (CSS 2.1, 15.3).
pub fn first_named(fonts: &[Font], names: &[Text]) -> usize
    ensures is { result ≡ first_named fonts.now names.now }
    ensures there { result ≤ length fonts.now }
{
    for name in names {
        if let Some(at) = font_named(fonts, name.as_str()) {
            return at;
        }
    }
    0
}
