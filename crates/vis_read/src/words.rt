ghost use Rattle.std.specs.Prelude.{◌≡◌, bytes_eq, IfOk};
ghost use Rattle.vis_read.specs.Words.{connective_of, face_of, kind_of, meaning_of, other_of, pair_of, ring_of, truth_of, word_lexeme};

use crate::lexemes::{Lexeme, Pair, Quantifier};
use std::alloc::{AllocError, Global};
use viz_base::{Face, Kind, Ring, Set, Text};

/// Whether a word is this one.
fn is(word: &str, other: &str) -> bool
    ensures { result ≡ bytes_eq word.now other.now }
{
    word == other
}

fn connective_of(word: &str) -> Option<Lexeme>
    ensures { result ≡ connective_of word.now }
{
    if is(word, "forall") {
        Some(Lexeme::Quantifier(Quantifier::Forall))
    } else if is(word, "exists") {
        Some(Lexeme::Quantifier(Quantifier::Exists))
    } else if is(word, "in") {
        Some(Lexeme::In)
    } else if is(word, "implies") {
        Some(Lexeme::Implies)
    } else if is(word, "or") {
        Some(Lexeme::Or)
    } else if is(word, "and") {
        Some(Lexeme::And)
    } else if is(word, "not") {
        Some(Lexeme::Not)
    } else {
        None
    }
}

fn truth_of(word: &str) -> Option<bool>
    ensures { result ≡ truth_of word.now }
{
    if is(word, "true") {
        Some(true)
    } else if is(word, "false") {
        Some(false)
    } else {
        None
    }
}

fn pair_of(word: &str) -> Option<Pair>
    ensures { result ≡ pair_of word.now }
{
    if is(word, "overlap") {
        Some(Pair::Overlap)
    } else if is(word, "same") {
        Some(Pair::Same)
    } else {
        None
    }
}

fn kind_of(word: &str) -> Option<Kind>
    ensures { result ≡ kind_of word.now }
{
    if is(word, "block") {
        Some(Kind::Block)
    } else if is(word, "anon") {
        Some(Kind::Anon)
    } else if is(word, "float") {
        Some(Kind::Float)
    } else if is(word, "atomic") {
        Some(Kind::Atomic)
    } else if is(word, "replaced") {
        Some(Kind::Replaced)
    } else if is(word, "inline") {
        Some(Kind::Inline)
    } else if is(word, "text") {
        Some(Kind::Chars)
    } else if is(word, "line") {
        Some(Kind::Line)
    } else {
        None
    }
}

fn ring_of(word: &str) -> Option<Ring>
    ensures { result ≡ ring_of word.now }
{
    if is(word, "margin") {
        Some(Ring::Margin)
    } else if is(word, "padding") {
        Some(Ring::Padding)
    } else if is(word, "content") {
        Some(Ring::Content)
    } else {
        None
    }
}

fn face_of(word: &str) -> Option<Face>
    ensures { result ≡ face_of word.now }
{
    if is(word, "left") {
        Some(Face::Left)
    } else if is(word, "top") {
        Some(Face::Top)
    } else if is(word, "right") {
        Some(Face::Right)
    } else if is(word, "bottom") {
        Some(Face::Bottom)
    } else {
        None
    }
}

fn other_of(word: &str) -> Option<Lexeme>
    ensures { result ≡ other_of word.now }
{
    if is(word, "box") {
        Some(Lexeme::Members(Set::Every))
    } else if is(word, "view") {
        Some(Lexeme::View)
    } else if is(word, "width") {
        Some(Lexeme::Width)
    } else if is(word, "height") {
        Some(Lexeme::Height)
    } else {
        None
    }
}

/// What a word means in the grammar, if anything.
fn meaning_of(word: &str) -> Option<Lexeme>
    ensures { result ≡ meaning_of word.now }
{
    if let Some(lexeme) = connective_of(word) {
        Some(lexeme)
    } else if let Some(value) = truth_of(word) {
        Some(Lexeme::Truth(value))
    } else if let Some(pair) = pair_of(word) {
        Some(Lexeme::Pair(pair))
    } else if let Some(kind) = kind_of(word) {
        Some(Lexeme::Members(Set::Of(kind)))
    } else if let Some(ring) = ring_of(word) {
        Some(Lexeme::Ring(ring))
    } else if let Some(face) = face_of(word) {
        Some(Lexeme::Face(face))
    } else {
        other_of(word)
    }
}

/// What a word is in the grammar: a name where it has no meaning.
pub fn word_lexeme(alloc: Global, word: &str) -> Result<Lexeme, AllocError>
    ensures { IfOk result (λ lexeme. lexeme ≡ word_lexeme word.now) }
{
    match meaning_of(word) {
        Some(lexeme) => Ok(lexeme),
        None => Ok(Lexeme::Name(Text::from_text(alloc, word)?)),
    }
}
