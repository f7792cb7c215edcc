//! What the tokens of a style sheet are and what they spell (CSS 2.1, 4.1 and 4.2), what a selector matches (chapter
//! 5), what the value of a declaration says, and which declaration wins (6.4): definitions that the contracts of other
//! crates cite, and their laws.
#![tactic(auto)]

mod claims;
mod laws;
mod media;
mod parts;
mod places;
mod selectors;
mod sheets;
mod statements;
mod terminals;
mod tokens;
mod value_laws;
mod winners;

pub use claims::{Claim, Origin, Ranked, Ruleset, Standing, Weight};
pub use laws::{
    escapes_by_number, escapes_resolve, ids_are_identifiers, tokens_are_unique, tokens_join,
};
pub use media::{MediaPiece, MediaWord};
pub use parts::{Part, Refusal, Shorthand, Takes};
pub use places::{AT_FIRST, AT_INLINE, AT_MEDIUM_SIZE, AT_MEDIUM_WIDTH, AT_NONE, AT_NORMAL};
pub use selectors::{joins_say_where, specificity_counts, specificity_order};
pub use sheets::{one_list_of_declarations, one_media_list, one_sheet, one_stretch};
pub use statements::Statement;
pub use terminals::{ColonName, Comparison, Terminal};
pub use tokens::Token;
pub use value_laws::{
    fewer_sides, initial_words_at_their_places, one_answer, settings_in_order, values_allowed,
    values_by_the_table,
};
pub use winners::{
    hidden_by_display, hidden_inside, important_overrides, one_specificity, one_winner,
};
