use std::marker::Model;
use viz_base::TokenKind;

/// A piece of a style sheet, and the place of its first byte. Contracts see it without where it lies in memory.
#[derive(Drop)]
pub struct Token<'a> {
    pub kind: TokenKind,
    pub at: usize,
    pub text: &'a str,
}

impl<'a> Model for Token<'a> {
    ghost use Rattle.std.specs.Prelude.{◌≡◌};
    ghost use Rattle.css_semantics.specs.Pieces.{Token as Piece};

    ghost Value = { Piece };

    ghost view = { λ t. record { kind = t.kind; at = t.at; text = t.text.now } };
}
