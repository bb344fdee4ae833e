// Classes of characters, and what begins at a place of a text.

ghost use Rattle.std.specs.Prelude.{◌≡◌};
ghost use Rattle.sx_lexer.specs.Characters.{begins, begins_mark, is_digit, is_hexadecimal, is_line_end, is_operator, is_space, mark_of, runs, starts, starts_name};

use sx_token::Mark;
use unicode_ident::{is_xid_continue, is_xid_start};

/// What begins at a place of a text: what decides which token, space or fault stands there.
#[derive(Clone, Copy, Debug, PartialEq, Eq)]
pub enum Begins {
    /// The end of the text.
    Nothing,
    /// A character of space.
    Space,
    /// `//`
    LineComment,
    /// `/*`
    BlockComment,
    /// A decimal digit.
    Digit,
    /// `"`
    Quote,
    /// An operator character that begins no comment.
    Operator,
    /// A mark.
    Mark(Mark),
    /// A character that a name may begin with.
    Letter,
    /// A character that begins nothing.
    Other,
}

/// A kind of run of characters.
#[derive(Clone, Copy, Debug, PartialEq, Eq)]
pub enum RunKind {
    /// Characters that may continue a name.
    Word,
    /// Operator characters, up to a comment.
    Operator,
    /// The rest of a line.
    Line,
    /// Hexadecimal digits.
    Hexadecimal,
}

/// Space, tab, line feed, vertical tab, form feed or carriage return.
pub fn is_space(c: char) -> bool
    ensures { result ≡ is_space c }
{
    c == ' ' || ('\t' <= c && c <= '\r')
}

/// Line feed or carriage return.
pub fn is_line_end(c: char) -> bool
    ensures { result ≡ is_line_end c }
{
    c == '\n' || c == '\r'
}

/// A decimal digit.
pub fn is_digit(c: char) -> bool
    ensures { result ≡ is_digit c }
{
    '0' <= c && c <= '9'
}

/// A hexadecimal digit.
pub fn is_hexadecimal(c: char) -> bool
    ensures { result ≡ is_hexadecimal c }
{
    is_digit(c) || ('a' <= c && c <= 'f') || ('A' <= c && c <= 'F')
}

/// A character that operators are spelled with.
pub fn is_operator(c: char) -> bool
    ensures { result ≡ is_operator c }
{
    matches!(
        c,
        '/' | '=' | '-' | '+' | '!' | '*' | '%' | '<' | '>' | '&' | '|' | '^' | '~' | '?'
    )
}

/// The mark that the character is.
pub fn mark_of(c: char) -> Option<Mark>
    ensures { result ≡ mark_of c }
{
    match c {
        '(' => Some(Mark::OpenRound),
        ')' => Some(Mark::CloseRound),
        '{' => Some(Mark::OpenBrace),
        '}' => Some(Mark::CloseBrace),
        '[' => Some(Mark::OpenSquare),
        ']' => Some(Mark::CloseSquare),
        ',' => Some(Mark::Comma),
        ':' => Some(Mark::Colon),
        ';' => Some(Mark::Semicolon),
        '.' => Some(Mark::Dot),
        '@' => Some(Mark::At),
        _ => None,
    }
}

/// Whether the place begins with the character.
pub fn starts(c: char, chars: &[char]) -> bool
    ensures { result ≡ starts c chars.now }
{
    match chars {
        [] => false,
        [first, ..] => *first == c,
    }
}

/// What begins at a character that is neither space, digit, quote nor operator.
fn begins_other(c: char) -> Begins
    ensures { result ≡ begins_mark c (mark_of c) }
{
    match mark_of(c) {
        Some(mark) => Begins::Mark(mark),
        None if is_xid_start(c) || c == '_' => Begins::Letter,
        None => Begins::Other,
    }
}

/// What begins at the place.
pub fn what_begins(chars: &[char]) -> Begins
    ensures { result ≡ begins chars.now }
{
    match chars {
        [] => Begins::Nothing,
        [first, rest @ ..] => {
            let c = *first;
            if is_space(c) {
                Begins::Space
            } else if is_digit(c) {
                Begins::Digit
            } else if c == '"' {
                Begins::Quote
            } else if !is_operator(c) {
                begins_other(c)
            } else if c == '/' && starts('/', rest) {
                Begins::LineComment
            } else if c == '/' && starts('*', rest) {
                Begins::BlockComment
            } else {
                Begins::Operator
            }
        }
    }
}

/// Whether a run of the kind goes on at the place.
pub fn runs(kind: RunKind, chars: &[char]) -> bool
    ensures { result ≡ runs kind chars.now }
{
    match kind {
        RunKind::Operator => matches!(what_begins(chars), Begins::Operator),
        RunKind::Word => match chars {
            [] => false,
            [c, ..] => is_xid_continue(*c),
        },
        RunKind::Line => match chars {
            [] => false,
            [c, ..] => !is_line_end(*c),
        },
        RunKind::Hexadecimal => match chars {
            [] => false,
            [c, ..] => is_hexadecimal(*c),
        },
    }
}
