ghost use Rattle.std.specs.Prelude.{◌≡◌, ◌<◌, ◌≤◌, ◌^◌, ◌∷◌, length, IfSome, MatchOption};
ghost use Rattle.std.specs.List.{position, prefix_len};
ghost use Rattle.vis_read.specs.Pieces.{BeginsWithNone, is_mark, is_quote, is_word_byte};
ghost use Rattle.vis_read.specs.steps.Next.{IsCut};
ghost use Rattle.vis_read.specs.steps.Scan.{begins_with_equal, digits_on, mark_at, number_at, one_more, piece_at, quoted_at, sign_or, unequal_or_none, with_unit};

use viz_base::Sign;

/// The greatest number.
const MOST: u64 = 2_147_483_647;

/// A kind of pieces of a text.
#[derive(Clone, Copy)]
pub enum Piece {
    Word,
    /// A number without a unit.
    Number(u32),
    /// A number of pixels.
    Pixels(u32),
    /// A string between double quotes.
    Quoted,
    Sign(Sign),
    /// Another mark, which is this byte.
    Mark(u8),
}

fn is_word_byte(byte: u8) -> bool
    ensures { result ≡ is_word_byte byte }
{
    byte.is_ascii_lowercase() || byte.is_ascii_digit()
}

fn is_mark(byte: u8) -> bool
    ensures { result ≡ is_mark byte }
{
    byte == b'('
        || byte == b')'
        || byte == b','
        || byte == b':'
        || byte == b'.'
        || byte == b'+'
        || byte == b'-'
        || byte == b'*'
}

/// How many letters and digits stand first.
fn word_len(bytes: &[u8]) -> usize
    ensures within { result ≤ length bytes.now }
    ensures value { result ≡ prefix_len is_word_byte bytes.now }
{
    for at in 0..bytes.len() {
        if !is_word_byte(bytes[at]) {
            return at;
        }
    }
    bytes.len()
}

/// The place of the first double quote.
fn quote_at(bytes: &[u8]) -> Option<usize>
    ensures within { IfSome result (λ at. at < length bytes.now) }
    ensures value { result ≡ position is_quote bytes.now }
{
    for at in 0..bytes.len() {
        if bytes[at] == b'"' {
            return Some(at);
        }
    }
    None
}

/// The number with one digit more, where the byte is a digit and that number is not too great.
fn one_more(number: u32, byte: u8) -> Option<u32>
    ensures { result ≡ one_more number byte }
{
    if !byte.is_ascii_digit() {
        return None;
    }
    let next = u64::from(number) * 10 + u64::from(byte - b'0');
    if next <= MOST {
        Some(next as u32)
    } else {
        None
    }
}

/// The number that more digits make of one, and how many there are.
fn digits_on(first: u32, bytes: &[u8]) -> (u32, usize)
    ensures within { result.1 ≤ length bytes.now }
    ensures value { result ≡ digits_on first bytes.now }
{
    let mut number = first;
    for at in 0..bytes.len() {
        match one_more(number, bytes[at]) {
            Some(next) => number = next,
            None => return (number, at),
        }
    }
    (number, bytes.len())
}

/// A number of so many bytes, or, with its unit, of two more.
fn with_unit(number: u32, len: usize, rest: &[u8]) -> (Piece, usize)
    requires { len ≤ 2 ^ 63 }
    ensures { result ≡ with_unit number len rest.now }
{
    if rest.starts_with(b"px") {
        (Piece::Pixels(number), len + 2)
    } else {
        (Piece::Number(number), len)
    }
}

/// A number that begins with a digit.
fn number_at(first: u8, bytes: &[u8]) -> (Piece, usize)
    requires { 48 ≤ first }
    ensures { result ≡ number_at first bytes.now }
{
    if first == b'0' {
        return with_unit(0, 1, bytes);
    }
    let (number, len) = digits_on(u32::from(first - b'0'), bytes);
    with_unit(number, len + 1, &bytes[len..])
}

fn begins_with_equal(bytes: &[u8]) -> bool
    ensures { result ≡ begins_with_equal bytes.now }
{
    match bytes.split_first() {
        Some((byte, _)) => *byte == b'=',
        None => false,
    }
}

fn sign_or(is_both: bool, both: Sign, one: Sign) -> Option<(Piece, usize)>
    ensures { result ≡ sign_or is_both both one }
{
    if is_both {
        Some((Piece::Sign(both), 2))
    } else {
        Some((Piece::Sign(one), 1))
    }
}

fn mark_at(first: u8, bytes: &[u8]) -> Option<(Piece, usize)>
    ensures { result ≡ mark_at first bytes.now }
{
    if first == b'<' {
        sign_or(begins_with_equal(bytes), Sign::Le, Sign::Lt)
    } else if first == b'>' {
        sign_or(begins_with_equal(bytes), Sign::Ge, Sign::Gt)
    } else if first == b'=' {
        Some((Piece::Sign(Sign::Eq), 1))
    } else if first == b'!' {
        if begins_with_equal(bytes) {
            Some((Piece::Sign(Sign::Ne), 2))
        } else {
            None
        }
    } else if is_mark(first) {
        Some((Piece::Mark(first), 1))
    } else {
        None
    }
}

fn quoted_at(bytes: &[u8]) -> Option<(Piece, usize)>
    ensures { result ≡ quoted_at bytes.now }
{
    let len = quote_at(bytes)?;
    Some((Piece::Quoted, len + 2))
}

fn piece_at(first: u8, bytes: &[u8]) -> Option<(Piece, usize)>
    ensures { result ≡ piece_at first bytes.now }
{
    if first.is_ascii_lowercase() {
        Some((Piece::Word, word_len(bytes) + 1))
    } else if first.is_ascii_digit() {
        Some(number_at(first, bytes))
    } else if first == b'"' {
        quoted_at(bytes)
    } else {
        mark_at(first, bytes)
    }
}

/// The longest piece that begins with a byte and goes on with others: its kind, and how many bytes it has.
pub fn longest(first: u8, bytes: &[u8]) -> Option<(Piece, usize)>
    ensures { MatchOption result (BeginsWithNone (first ∷ bytes.now)) (IsCut (first ∷ bytes.now)) }
{
    piece_at(first, bytes)
}
