ghost use Rattle.std.specs.Prelude.{◌≡◌, ◌<◌, [], ◌∷◌, length, None, Some, IfOk, MatchOption, OnOk};
ghost use Rattle.css_semantics.specs.MediaLists.{direction, is_medium, is_shown};
ghost use Rattle.css_semantics.specs.SheetsMarks.{ends_entry};
ghost use Rattle.css_semantics.specs.steps.MediaLists.{after_comma, and_feature, comma_item, entries, entry_of, entry_with, feature_at, feature_entry, further, later_entries, medium_entry, read_entry, with_front};
ghost use Rattle.css_semantics.specs.steps.Sheets.{at_head};
ghost use Rattle.css_semantics.specs.steps.Stretches.{behind, front};
ghost use Rattle.css_syntax.specs.Lists.{joined, listed, named, named_behind, with_entry};

use crate::pieces::pieces;
use crate::slices::is_all_gap;
use crate::stretches::{Stop, split};
use css_semantics::{MediaPiece, MediaWord, Token};
use std::alloc::Global;
use viz_base::{Feature, List, MediaEntry, Mem};

/// Whether a word can name a medium.
fn is_medium(word: MediaWord) -> bool
    ensures { result ≡ is_medium word }
{
    !matches!(
        word,
        MediaWord::Only | MediaWord::Not | MediaWord::And | MediaWord::Or
    )
}

/// Whether the page is shown on the medium that a word names.
fn is_shown(word: MediaWord) -> bool
    ensures { result ≡ is_shown word }
{
    matches!(word, MediaWord::Shown)
}

/// Whether the feature that a word names asks for at most a width, if it names one.
fn direction(word: MediaWord) -> Option<bool>
    ensures { result ≡ direction word }
{
    match word {
        MediaWord::MinWidth => Some(false),
        MediaWord::MaxWidth => Some(true),
        _ => None,
    }
}

/// The feature that the pieces begin with, and what follows it.
fn feature_at(pieces: &[MediaPiece]) -> Option<(Feature, &[MediaPiece])>
    ensures { MatchOption result (feature_at pieces.now ≡ None)
        (λ p. feature_at pieces.now ≡ Some (p.0, p.1.now)) }
{
    match pieces {
        [
            MediaPiece::Open,
            MediaPiece::Word(name),
            MediaPiece::Colon,
            MediaPiece::Width(bound),
            MediaPiece::Close,
            rest @ ..,
        ] => {
            let most = direction(*name)?;
            Some((
                Feature {
                    most,
                    bound: *bound,
                },
                rest,
            ))
        }
        _ => None,
    }
}

/// The feature behind an `and` that the pieces begin with, and what follows it.
fn and_feature(pieces: &[MediaPiece]) -> Option<(Feature, &[MediaPiece])>
    ensures { MatchOption result (and_feature pieces.now ≡ None)
        (λ p. and_feature pieces.now ≡ Some (p.0, p.1.now)) }
{
    match pieces {
        [MediaPiece::Word(MediaWord::And), rest @ ..] => feature_at(rest),
        _ => None,
    }
}

/// The features with those behind them, each behind an `and`, if nothing else is there.
fn further(features: List<Feature>, pieces: &[MediaPiece]) -> Result<Option<List<Feature>>, Mem>
    ensures { IfOk result (λ all. all ≡ with_front features (further pieces.now)) }
{
    let mut features = features;
    let mut rest = pieces;
    while !rest.is_empty() {
        let Some((feature, after)) = and_feature(rest) else {
            return Ok(None);
        };
        features.push(feature)?;
        rest = after;
    }
    Ok(Some(features))
}

/// The entry with these features, if there are any.
fn entry_with(negated: bool, on: bool, features: Option<List<Feature>>) -> Option<MediaEntry>
    ensures { result ≡ entry_with negated on features }
{
    let features = features?;
    Some(MediaEntry {
        negated,
        on,
        features,
    })
}

/// The entry of a medium and the features behind it.
fn medium_entry(
    alloc: Global,
    negated: bool,
    name: MediaWord,
    rest: &[MediaPiece],
) -> Result<Option<MediaEntry>, Mem>
    ensures { IfOk result (λ entry. entry ≡ medium_entry negated name rest.now) }
{
    if !is_medium(name) {
        return Ok(None);
    }
    let features = further(List::new(alloc), rest)?;
    Ok(entry_with(negated, is_shown(name), features))
}

/// The entry of a feature and those behind it.
fn feature_entry(alloc: Global, pieces: &[MediaPiece]) -> Result<Option<MediaEntry>, Mem>
    ensures { IfOk result (λ entry. entry ≡ feature_entry pieces.now) }
{
    let Some((feature, rest)) = feature_at(pieces) else {
        return Ok(None);
    };
    let mut features = List::new(alloc);
    features.push(feature)?;
    Ok(entry_with(false, true, further(features, rest)?))
}

/// Whether there is a `not`, the word that may name a medium, and what follows it.
type Named<'a> = (bool, MediaWord, &'a [MediaPiece]);

/// The word behind `only` or `not`, or this word itself where none is.
fn named_behind(negated: bool, word: MediaWord, pieces: &[MediaPiece]) -> Named<'_>
    ensures { (result.0, result.1, result.2.now) ≡ named_behind negated word pieces.now }
{
    match pieces.split_first() {
        Some((MediaPiece::Word(name), rest)) => (negated, *name, rest),
        _ => (false, word, pieces),
    }
}

/// The word that names the medium of the pieces, if they begin with a word.
fn named(pieces: &[MediaPiece]) -> Option<Named<'_>>
    ensures { MatchOption result (named pieces.now ≡ None)
        (λ p. named pieces.now ≡ Some (p.0, p.1, p.2.now)) }
{
    match pieces.split_first() {
        Some((MediaPiece::Word(word), rest)) => match word {
            MediaWord::Only => Some(named_behind(false, *word, rest)),
            MediaWord::Not => Some(named_behind(true, *word, rest)),
            _ => Some((false, *word, rest)),
        },
        _ => None,
    }
}

/// The entry that the pieces are, if they are one.
fn entry_of(alloc: Global, pieces: &[MediaPiece]) -> Result<Option<MediaEntry>, Mem>
    ensures { IfOk result (λ entry. entry ≡ entry_of pieces.now) }
{
    match named(pieces) {
        Some((negated, name, rest)) => medium_entry(alloc, negated, name, rest),
        None => feature_entry(alloc, pieces),
    }
}

/// What the tokens between two commas say, if they are in the grammar.
fn read_entry<'a>(alloc: Global, tokens: &'a [Token<'a>]) -> Result<Option<MediaEntry>, Mem>
    ensures { IfOk result (λ entry. entry ≡ read_entry tokens.now) }
{
    entry_of(alloc, pieces(alloc, tokens)?.as_slice())
}

/// A media list: its entries, those outside the grammar as entries that are met nowhere, and whether all are in it.
#[derive(Drop)]
pub struct MediaList {
    pub entries: List<MediaEntry>,
    pub is_known: bool,
}

impl MediaList {
    /// Adds an entry at the end.
    fn put(&mut self, alloc: Global, entry: Option<MediaEntry>) -> Result<(), Mem>
        ensures { OnOk result (self.new ≡ with_entry self.old entry) }
    {
        match entry {
            Some(entry) => self.entries.push(entry)?,
            None => {
                self.is_known = false;
                self.entries.push(MediaEntry {
                    negated: false,
                    on: false,
                    features: List::new(alloc),
                })?;
            }
        }
        Ok(())
    }
}

/// The entry that begins the tokens and what stands behind it.
fn entry_piece<'a>(
    alloc: Global,
    tokens: &'a [Token<'a>],
) -> Result<(Option<MediaEntry>, &'a [Token<'a>]), Mem>
    ensures { IfOk result (λ p. (p.0 ≡ read_entry (front ends_entry tokens.now))
        × (p.1.now ≡ behind ends_entry tokens.now)) }
{
    let (piece, rest) = split(alloc, tokens, Stop::Entry)?;
    Ok((read_entry(alloc, piece)?, rest))
}

/// The entry behind the comma that begins the tokens, and what stands behind it.
fn comma_item<'a>(
    alloc: Global,
    tokens: &'a [Token<'a>],
) -> Result<(Option<MediaEntry>, &'a [Token<'a>]), Mem>
    requires { 0 < length tokens.now }
    ensures { IfOk result (λ p. (p.0 ∷ [] ≡ at_head comma_item tokens.now)
        × (p.1.now ≡ at_head after_comma tokens.now)) }
{
    match tokens.split_first() {
        Some((_, after)) => entry_piece(alloc, after),
        None => Ok((None, tokens)),
    }
}

/// Adds to a list what stands behind its first entry: commas, with an entry behind each.
fn later_entries<'a>(
    alloc: Global,
    list: MediaList,
    tokens: &'a [Token<'a>],
) -> Result<MediaList, Mem>
    ensures { IfOk result (λ all. all ≡ joined list (later_entries tokens.now)) }
{
    let mut list = list;
    let mut at = 0;
    while at < tokens.len() {
        let (entry, rest) = comma_item(alloc, &tokens[at..])?;
        list.put(alloc, entry)?;
        at = tokens.len() - rest.len();
    }
    Ok(list)
}

/// The media list that stands in a prelude (CSS 2.1, 7.2.1; Media Queries 3, chapters 2 to 4).
pub fn media_list<'a>(alloc: Global, prelude: &'a [Token<'a>]) -> Result<MediaList, Mem>
    ensures { IfOk result (λ list. list ≡ listed (entries prelude.now)) }
{
    let mut list = MediaList {
        entries: List::new(alloc),
        is_known: true,
    };
    if is_all_gap(prelude) {
        return Ok(list);
    }
    let (entry, rest) = entry_piece(alloc, prelude)?;
    list.put(alloc, entry)?;
    later_entries(alloc, list, rest)
}
