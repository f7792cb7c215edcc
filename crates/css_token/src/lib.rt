//! Tokens of style sheets (CSS 2.1, 4.1.1), one at a time or all of a text, what they say without escapes, and the
//! brackets that they open and close.
#![tactic(auto)]

pub mod amounts;
mod closing;
mod escapes;
pub mod kinds;
mod letters;
mod marks;
mod matching;
mod scan;
mod sequence;
mod states;

pub use closing::close_by_end;
pub use escapes::unescape;
pub use letters::split_char;
pub use marks::Marks;
pub use matching::{is_character, is_word, same_name};
pub use scan::next;
pub use sequence::{tokens, tokens_exist};
