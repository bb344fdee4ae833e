// What a token is, and where it stands.

use crate::spellings::{Mark, Operator, Word};
use sx_span::Span;

/// What a token is.
#[derive(Clone, Copy, Debug, PartialEq, Eq)]
pub enum Kind {
    /// The name at this index of the names.
    Name(u32),
    /// A lone `_`.
    Underscore,
    /// A word of the language.
    Keyword(Word),
    /// A word of Swift that stands nowhere in this language.
    Reserved,
    /// An integer literal of at most 2^63 - 1.
    Int(u64),
    /// The integer literal 2^63, which stands only behind a minus.
    IntMin,
    /// The text literal at this index of the texts.
    Text(u32),
    /// An operator.
    Op(Operator),
    /// A mark.
    Mark(Mark),
}

/// A token and what stands around it.
#[derive(Clone, Copy, Debug, PartialEq, Eq)]
pub struct Token {
    pub kind: Kind,
    /// The bytes of the token.
    pub span: Span,
    /// Whether a line end, or the start of the text, stands between the token before and this one.
    pub line_before: bool,
    /// Whether space, a comment, the start of the text or one of `( [ { , ; :` stands right before.
    pub space_before: bool,
    /// Whether space, a comment, the end of the text or one of `) ] } , ; :` stands right behind.
    pub space_after: bool,
}
