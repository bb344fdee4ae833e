// What counts as space beside a token.

ghost use Rattle.std.specs.Prelude.{◌≡◌};
ghost use Rattle.sx_lexer.specs.Characters.{begins};
ghost use Rattle.sx_lexer.specs.Lexis.{closes_mark, is_space_after, is_space_behind_piece, opens_mark};

use crate::characters::{Begins, what_begins};
use crate::pieces::Piece;
use sx_token::Mark;

/// Whether the mark counts as space to what stands before it.
fn closes(mark: Mark) -> bool
    ensures { result ≡ closes_mark mark }
{
    match mark {
        Mark::CloseRound
        | Mark::CloseSquare
        | Mark::CloseBrace
        | Mark::Comma
        | Mark::Semicolon
        | Mark::Colon => true,
        _ => false,
    }
}

/// Whether the mark counts as space to what stands behind it.
fn opens(mark: Mark) -> bool
    ensures { result ≡ opens_mark mark }
{
    match mark {
        Mark::OpenRound
        | Mark::OpenSquare
        | Mark::OpenBrace
        | Mark::Comma
        | Mark::Semicolon
        | Mark::Colon => true,
        _ => false,
    }
}

/// Whether what begins at the place counts as space to the token before it.
pub fn is_space_after(chars: &[char]) -> bool
    ensures { result ≡ is_space_after (begins chars.now) }
{
    match what_begins(chars) {
        Begins::Nothing | Begins::Space | Begins::LineComment | Begins::BlockComment => true,
        Begins::Mark(mark) => closes(mark),
        _ => false,
    }
}

/// Whether the piece counts as space to the token right behind it.
pub fn is_space_behind(piece: Piece) -> bool
    ensures { result ≡ is_space_behind_piece piece }
{
    match piece {
        Piece::Mark(mark) => opens(mark),
        _ => false,
    }
}
