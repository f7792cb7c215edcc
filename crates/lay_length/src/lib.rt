//! Used lengths, font sizes, line heights and the widths of texts, over any arithmetic; and how large they are on a
//! small page.
#![tactic(auto)]

pub mod fonts;
mod front;
mod laws;
pub mod lengths;
pub mod texts;

pub use front::{ascent, descent, font_size, line_height, text_width, used};
