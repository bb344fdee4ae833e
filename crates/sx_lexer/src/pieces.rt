// What stands between two places of a text.

use sx_token::{Mark, Operator, Word};

/// A token but for the lists of names and texts: a name or a text literal tells no index here, and
/// a text literal is no piece.
#[derive(Clone, Copy, Debug, PartialEq, Eq)]
pub enum Piece {
    Name,
    Underscore,
    Keyword(Word),
    Reserved,
    Int(u64),
    IntMin,
    Op(Operator),
    Mark(Mark),
}
