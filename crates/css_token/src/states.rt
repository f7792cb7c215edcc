ghost use Rattle.std.specs.Prelude.{◌≡◌, Some};
ghost use Rattle.css_token.specs.steps.Scan.{goes_on, holds_lines, kind_in_row, kind_of, kind_of_row, mark_of, step, step_begin, step_end, step_line, step_mark, step_plain, step_row, step_sign, step_start, step_unit};

use crate::letters::{
    is_digit, is_hex, is_l, is_name, is_newline, is_quoted, is_r, is_range, is_space, is_start,
    is_u, is_url,
};
use viz_base::TokenKind;

/// What a string stands between.
#[derive(Clone, Copy)]
pub enum Quote {
    Double,
    Single,
}

/// What a row of characters and escapes is part of.
#[derive(Clone, Copy)]
pub enum Row {
    Word,
    AtWord,
    Name,
    Measure,
    Quoted(Quote),
    Address,
    QuotedAddress(Quote),
}

/// Where in its row the scanner is: behind a backslash, where so many hexadecimal digits may still come, behind a
/// carriage return to which a line feed belongs, or at none of these.
#[derive(Clone, Copy)]
pub enum Going {
    Plain,
    Backslash,
    Digits(u8),
    Return,
}

/// What the scanner has read of a piece.
#[derive(Clone, Copy)]
pub enum State {
    Begin,

    /// A piece that nothing goes on with.
    End(TokenKind),

    Within(Row, Going),
    U,
    Ur,
    Url,
    UPlus,
    RangeFirst(u8),
    RangeDash,
    RangeSecond(u8),
    Dash,
    DashDash,
    At,
    AtDash,
    HashMark,
    Whole,
    Point,
    Fraction,
    NumberDash,
    Solidus,
    InComment,
    Star,
    Less,
    LessBang,
    LessBangDash,
    Tilde,
    Bar,
    Spaces,

    /// Behind `url(` and white space.
    AddressStart,

    /// Behind the address of a `url(`.
    AddressEnd,
}

fn mark_of(quote: Quote) -> char
    ensures { result ≡ mark_of quote }
{
    match quote {
        Quote::Double => '"',
        Quote::Single => '\'',
    }
}

fn goes_on(row: Row, letter: char) -> bool
    ensures { result ≡ goes_on row letter }
{
    match row {
        Row::Word | Row::AtWord | Row::Name | Row::Measure => is_name(letter),
        Row::Quoted(quote) | Row::QuotedAddress(quote) => is_quoted(mark_of(quote), letter),
        Row::Address => is_url(letter),
    }
}

fn holds_lines(row: Row) -> bool
    ensures { result ≡ holds_lines row }
{
    match row {
        Row::Quoted(_) | Row::QuotedAddress(_) => true,
        Row::Word | Row::AtWord | Row::Name | Row::Measure | Row::Address => false,
    }
}

fn kind_in_row(row: Row) -> TokenKind
    ensures { result ≡ kind_in_row row }
{
    match row {
        Row::Word => TokenKind::Ident,
        Row::AtWord => TokenKind::AtKeyword,
        Row::Name => TokenKind::Hash,
        Row::Measure => TokenKind::Dimension,
        Row::Quoted(_) => TokenKind::BadString,
        Row::Address | Row::QuotedAddress(_) => TokenKind::BadUri,
    }
}

fn kind_of_row(row: Row, going: Going) -> Option<TokenKind>
    ensures { result ≡ kind_of_row row going }
{
    match going {
        Going::Backslash => {
            if holds_lines(row) {
                Some(kind_in_row(row))
            } else {
                None
            }
        }
        Going::Plain | Going::Digits(_) | Going::Return => Some(kind_in_row(row)),
    }
}

/// Of which kind what has been read is, if it is of one.
pub fn kind_of(state: State) -> Option<TokenKind>
    ensures { result ≡ kind_of state }
{
    match state {
        State::End(kind) => Some(kind),
        State::Within(row, going) => kind_of_row(row, going),
        State::U | State::Ur | State::Url => Some(TokenKind::Ident),
        State::RangeFirst(_) | State::RangeSecond(_) => Some(TokenKind::UnicodeRange),
        State::Whole | State::Fraction => Some(TokenKind::Number),
        State::InComment | State::Star => Some(TokenKind::BadComment),
        State::Spaces => Some(TokenKind::Space),
        State::AddressStart | State::AddressEnd => Some(TokenKind::BadUri),
        State::Begin
        | State::UPlus
        | State::RangeDash
        | State::Dash
        | State::DashDash
        | State::At
        | State::AtDash
        | State::HashMark
        | State::Point
        | State::NumberDash
        | State::Solidus
        | State::Less
        | State::LessBang
        | State::LessBangDash
        | State::Tilde
        | State::Bar => None,
    }
}

fn step_end(row: Row, letter: char) -> Option<State>
    ensures { result ≡ step_end row letter }
{
    match row {
        Row::Word => (letter == '(').then_some(State::End(TokenKind::Function)),
        Row::AtWord | Row::Name | Row::Measure => None,
        Row::Quoted(quote) => (letter == mark_of(quote)).then_some(State::End(TokenKind::Str)),
        Row::Address => {
            if is_space(letter) {
                Some(State::AddressEnd)
            } else {
                (letter == ')').then_some(State::End(TokenKind::Uri))
            }
        }
        Row::QuotedAddress(quote) => (letter == mark_of(quote)).then_some(State::AddressEnd),
    }
}

fn step_plain(row: Row, letter: char) -> Option<State>
    ensures { result ≡ step_plain row letter }
{
    if letter == '\\' {
        Some(State::Within(row, Going::Backslash))
    } else if goes_on(row, letter) {
        Some(State::Within(row, Going::Plain))
    } else {
        step_end(row, letter)
    }
}

fn step_line(row: Row, letter: char) -> Option<State>
    ensures { result ≡ step_line row letter }
{
    if !holds_lines(row) {
        None
    } else if letter == '\r' {
        Some(State::Within(row, Going::Return))
    } else {
        Some(State::Within(row, Going::Plain))
    }
}

fn step_row(row: Row, going: Going, letter: char) -> Option<State>
    ensures { result ≡ step_row row going letter }
{
    match going {
        Going::Plain => step_plain(row, letter),
        Going::Backslash => {
            if is_hex(letter) {
                Some(State::Within(row, Going::Digits(5)))
            } else if is_newline(letter) {
                step_line(row, letter)
            } else {
                Some(State::Within(row, Going::Plain))
            }
        }
        Going::Digits(left) => {
            if is_hex(letter) && left > 0 {
                Some(State::Within(row, Going::Digits(left - 1)))
            } else if letter == '\r' {
                Some(State::Within(row, Going::Return))
            } else if is_space(letter) {
                Some(State::Within(row, Going::Plain))
            } else {
                step_plain(row, letter)
            }
        }
        Going::Return => {
            if letter == '\n' {
                Some(State::Within(row, Going::Plain))
            } else {
                step_plain(row, letter)
            }
        }
    }
}

fn step_start(row: Row, letter: char) -> Option<State>
    ensures { result ≡ step_start row letter }
{
    if is_start(letter) {
        Some(State::Within(row, Going::Plain))
    } else if letter == '\\' {
        Some(State::Within(row, Going::Backslash))
    } else {
        None
    }
}

fn step_unit(letter: char) -> Option<State>
    ensures { result ≡ step_unit letter }
{
    match letter {
        '%' => Some(State::End(TokenKind::Percentage)),
        '-' => Some(State::NumberDash),
        _ => step_start(Row::Measure, letter),
    }
}

fn step_mark(letter: char) -> Option<State>
    ensures { result ≡ step_mark letter }
{
    match letter {
        ':' => Some(State::End(TokenKind::Colon)),
        ';' => Some(State::End(TokenKind::Semicolon)),
        '{' => Some(State::End(TokenKind::LeftBrace)),
        '}' => Some(State::End(TokenKind::RightBrace)),
        '(' => Some(State::End(TokenKind::LeftParen)),
        ')' => Some(State::End(TokenKind::RightParen)),
        '[' => Some(State::End(TokenKind::LeftBracket)),
        ']' => Some(State::End(TokenKind::RightBracket)),
        _ => None,
    }
}

fn step_sign(letter: char) -> Option<State>
    ensures { result ≡ step_sign letter }
{
    match letter {
        '.' => Some(State::Point),
        '-' => Some(State::Dash),
        '"' => Some(State::Within(Row::Quoted(Quote::Double), Going::Plain)),
        '\'' => Some(State::Within(Row::Quoted(Quote::Single), Going::Plain)),
        '#' => Some(State::HashMark),
        '@' => Some(State::At),
        '/' => Some(State::Solidus),
        '<' => Some(State::Less),
        '~' => Some(State::Tilde),
        '|' => Some(State::Bar),
        _ => step_mark(letter),
    }
}

fn step_begin(letter: char) -> Option<State>
    ensures { result ≡ step_begin letter }
{
    if is_u(letter) {
        Some(State::U)
    } else if is_start(letter) {
        Some(State::Within(Row::Word, Going::Plain))
    } else if letter == '\\' {
        Some(State::Within(Row::Word, Going::Backslash))
    } else if is_space(letter) {
        Some(State::Spaces)
    } else if is_digit(letter) {
        Some(State::Whole)
    } else {
        step_sign(letter)
    }
}

fn step_u(letter: char) -> Option<State>
    ensures { result ≡ step State.U letter }
{
    if letter == '+' {
        Some(State::UPlus)
    } else if is_r(letter) {
        Some(State::Ur)
    } else {
        step_plain(Row::Word, letter)
    }
}

fn step_ur(letter: char) -> Option<State>
    ensures { result ≡ step State.Ur letter }
{
    if is_l(letter) {
        Some(State::Url)
    } else {
        step_plain(Row::Word, letter)
    }
}

fn step_url(letter: char) -> Option<State>
    ensures { result ≡ step State.Url letter }
{
    if letter == '(' {
        Some(State::AddressStart)
    } else {
        step_plain(Row::Word, letter)
    }
}

fn step_range_first(left: u8, letter: char) -> Option<State>
    ensures { result ≡ step (State.RangeFirst left) letter }
{
    if is_range(letter) && left > 0 {
        Some(State::RangeFirst(left - 1))
    } else {
        (letter == '-').then_some(State::RangeDash)
    }
}

fn step_range_second(left: u8, letter: char) -> Option<State>
    ensures { result ≡ step (State.RangeSecond left) letter }
{
    if is_hex(letter) && left > 0 {
        Some(State::RangeSecond(left - 1))
    } else {
        None
    }
}

fn step_whole(letter: char) -> Option<State>
    ensures { result ≡ step State.Whole letter }
{
    if is_digit(letter) {
        Some(State::Whole)
    } else if letter == '.' {
        Some(State::Point)
    } else {
        step_unit(letter)
    }
}

fn step_fraction(letter: char) -> Option<State>
    ensures { result ≡ step State.Fraction letter }
{
    if is_digit(letter) {
        Some(State::Fraction)
    } else {
        step_unit(letter)
    }
}

fn step_dash(letter: char) -> Option<State>
    ensures { result ≡ step State.Dash letter }
{
    if letter == '-' {
        Some(State::DashDash)
    } else {
        step_start(Row::Word, letter)
    }
}

fn step_at(letter: char) -> Option<State>
    ensures { result ≡ step State.At letter }
{
    if letter == '-' {
        Some(State::AtDash)
    } else {
        step_start(Row::AtWord, letter)
    }
}

fn step_comment(letter: char) -> State
    ensures { Some result ≡ step State.InComment letter }
{
    if letter == '*' {
        State::Star
    } else {
        State::InComment
    }
}

fn step_star(letter: char) -> State
    ensures { Some result ≡ step State.Star letter }
{
    if letter == '/' {
        State::End(TokenKind::Comment)
    } else {
        step_comment(letter)
    }
}

fn step_address(letter: char) -> Option<State>
    ensures { result ≡ step State.AddressStart letter }
{
    if is_space(letter) {
        Some(State::AddressStart)
    } else if letter == '"' {
        Some(State::Within(Row::QuotedAddress(Quote::Double), Going::Plain))
    } else if letter == '\'' {
        Some(State::Within(Row::QuotedAddress(Quote::Single), Going::Plain))
    } else {
        step_plain(Row::Address, letter)
    }
}

fn step_address_end(letter: char) -> Option<State>
    ensures { result ≡ step State.AddressEnd letter }
{
    if is_space(letter) {
        Some(State::AddressEnd)
    } else {
        (letter == ')').then_some(State::End(TokenKind::Uri))
    }
}

/// The state behind one more character, if the piece may go on with it.
pub fn step(state: State, letter: char) -> Option<State>
    ensures { result ≡ step state letter }
{
    match state {
        State::Begin => step_begin(letter),
        State::End(_) => None,
        State::Within(row, going) => step_row(row, going, letter),
        State::U => step_u(letter),
        State::Ur => step_ur(letter),
        State::Url => step_url(letter),
        State::UPlus => is_range(letter).then_some(State::RangeFirst(5)),
        State::RangeFirst(left) => step_range_first(left, letter),
        State::RangeDash => is_hex(letter).then_some(State::RangeSecond(5)),
        State::RangeSecond(left) => step_range_second(left, letter),
        State::Dash => step_dash(letter),
        State::DashDash => (letter == '>').then_some(State::End(TokenKind::Cdc)),
        State::At => step_at(letter),
        State::AtDash => step_start(Row::AtWord, letter),
        State::HashMark => step_plain(Row::Name, letter),
        State::Whole => step_whole(letter),
        State::Point => is_digit(letter).then_some(State::Fraction),
        State::Fraction => step_fraction(letter),
        State::NumberDash => step_start(Row::Measure, letter),
        State::Solidus => (letter == '*').then_some(State::InComment),
        State::InComment => Some(step_comment(letter)),
        State::Star => Some(step_star(letter)),
        State::Less => (letter == '!').then_some(State::LessBang),
        State::LessBang => (letter == '-').then_some(State::LessBangDash),
        State::LessBangDash => (letter == '-').then_some(State::End(TokenKind::Cdo)),
        State::Tilde => (letter == '=').then_some(State::End(TokenKind::Includes)),
        State::Bar => (letter == '=').then_some(State::End(TokenKind::DashMatch)),
        State::Spaces => is_space(letter).then_some(State::Spaces),
        State::AddressStart => step_address(letter),
        State::AddressEnd => step_address_end(letter),
    }
}
