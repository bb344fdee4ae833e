// Why a text has no list of tokens.

ghost use Rattle.std.specs.Prelude.{◌≡◌};

use std::alloc::{AllocError, AllocFailed};

/// A kind of lexical fault.
#[derive(Clone, Copy, Debug, PartialEq, Eq)]
pub enum LexKind {
    /// A number without a digit where one must stand, with a digit outside its base, or with a
    /// character of a name right behind it.
    BadNumber,
    /// A number of more than 2^63.
    BigLiteral,
    /// A backslash in a text literal that begins no escape.
    BadEscape,
    /// A text literal that does not end on its line.
    OpenString,
    /// `"""`
    MultilineString,
    /// A run of operator characters that spells no operator.
    UnknownOperator,
    /// A block comment that does not end.
    OpenComment,
    /// A character that begins nothing.
    StrayCharacter,
}

/// Why a text has no list of tokens, and at which byte, counted from 0.
#[derive(Clone, Copy, Debug, PartialEq, Eq)]
pub enum LexStop {
    /// The text is not UTF-8. The place is the length of its longest prefix that is.
    Encoding(u32),
    /// The first lexical fault: at the start of a number, of a literal, of a run of operator
    /// characters or of a comment, at a backslash, or at a stray character.
    Lexical(LexKind, u32),
    /// There are more than 65,536 tokens. The place is the start of the first one too many.
    TooManyTokens(u32),
    /// There is not enough memory.
    NoMemory,
}

impl From<AllocError> for LexStop {
    ghost use Rattle.sx_lexer.specs.declared.faults.LexStop.TheVariants.{NoMemory};

    ghost from_gives = { λ _ e. e ≡ NoMemory };

    fn from(_: AllocError) -> LexStop {
        LexStop::NoMemory
    }
}

impl<T: Drop> From<AllocFailed<T>> for LexStop {
    ghost use Rattle.sx_lexer.specs.declared.faults.LexStop.TheVariants.{NoMemory};

    ghost from_gives = { λ _ e. e ≡ NoMemory };

    fn from(_: AllocFailed<T>) -> LexStop {
        LexStop::NoMemory
    }
}
