ghost use Rattle.std.specs.Prelude.{◌≡◌, ◌<◌, map, length, IfSome};
ghost use Rattle.std.specs.List.{list_any, position};
ghost use Rattle.css_semantics.specs.Names.{same_name};

use css_token::same_name;

/// Whether the word is one of these.
pub fn is_among(words: &[&str], word: &str) -> bool
    ensures { result ≡ list_any (same_name word.now) (map (λ w. w.now) words.now) }
{
    for known in words {
        if same_name(word, known) {
            return true;
        }
    }
    false
}

/// The place of the word among these.
pub fn place_among(words: &[&str], word: &str) -> Option<u8>
    requires { length words.now < 256 }
    ensures { result ≡ position (same_name word.now) (map (λ w. w.now) words.now) }
{
    for at in 0..words.len() {
        if same_name(word, words[at]) {
            return Some(at as u8);
        }
    }
    None
}
