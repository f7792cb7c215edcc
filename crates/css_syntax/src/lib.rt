//! Style sheets and style attributes, with all error recovery of CSS 2.1, 4.1 and 4.2.
#![tactic(auto)]

mod declarations;
mod media;
mod pieces;
mod rules;
mod sheets;
mod slices;
mod statements;
mod stretches;

pub use rules::copied_media;
pub use sheets::{SheetFault, read_declarations, read_sheet};
