// What stands next in a text.

ghost use Rattle.std.specs.Prelude.{◌≡◌, ◌≤◌, length, ◌&&◌, IfOk};
ghost use Rattle.sx_lexer.specs.Characters.{begins, starts};
ghost use Rattle.sx_lexer.specs.Lexis.{after};
ghost use Rattle.sx_lexer.specs.Found.{Follows, IsFound};
ghost use Rattle.sx_lexer.specs.declared.characters.Begins.TheVariants as begin;

use crate::characters::{Begins, RunKind, is_line_end, starts, what_begins};
use crate::comments::comment_end;
use crate::faults::LexKind;
use crate::numbers::number;
use crate::operators::operator;
use crate::pieces::Piece;
use crate::place::{Place, between, past, step};
use crate::texts::{Spelling, is_closed, spelled};
use crate::words::word_piece;
use std::alloc::{AllocError, Global};

/// What stands at a place, and the place behind it, or that of a fault.
#[derive(Drop)]
pub enum Found<'a> {
    /// The end of the text.
    Nothing,
    /// A character of space or a comment, and whether it holds a line end.
    Space(Place<'a>, bool),
    /// A token that is no text literal.
    Token(Piece, Place<'a>),
    /// A text literal that stands for these bytes.
    Text(Vec<u8>, Place<'a>),
    /// A lexical fault.
    Fault(LexKind, Place<'a>),
}

/// The word that begins at the place.
fn word<'a>(start: Place<'a>, behind: Place<'a>) -> Found<'a>
    requires begins { begins start.rest.now ≡ begin.Letter }
    requires follows { Follows start behind }
    ensures { IsFound start.entry.rest.now result }
{
    let end = past(RunKind::Word, behind);
    Found::Token(word_piece(between(start, end)), end)
}

/// The number that begins at the place.
fn numeral<'a>(start: Place<'a>, behind: Place<'a>) -> Found<'a>
    requires begins { begins start.rest.now ≡ begin.Digit }
    requires follows { Follows start behind }
    ensures { IsFound start.entry.rest.now result }
{
    let end = past(RunKind::Word, behind);
    match number(between(start, end)) {
        Ok(piece) => Found::Token(piece, end),
        Err(kind) => Found::Fault(kind, start),
    }
}

/// The operator that begins at the place.
fn sign<'a>(start: Place<'a>, behind: Place<'a>) -> Found<'a>
    requires begins { begins start.rest.now ≡ begin.Operator }
    requires follows { Follows start behind }
    ensures { IsFound start.entry.rest.now result }
{
    let end = past(RunKind::Operator, behind);
    match operator(between(start, end)) {
        Some(operator) => Found::Token(Piece::Op(operator), end),
        None => Found::Fault(LexKind::UnknownOperator, start),
    }
}

/// The comment to the end of the line.
fn line_comment<'a>(start: Place<'a>, behind: Place<'a>) -> Found<'a>
    requires begins { begins start.rest.now ≡ begin.LineComment }
    requires follows { Follows start behind }
    ensures { IsFound start.entry.rest.now result }
{
    Found::Space(past(RunKind::Line, behind), false)
}

/// The place one character on.
fn second(behind: Place<'_>) -> Place<'_>
    ensures next { result.rest.now ≡ after behind.entry.rest.now }
    ensures shorter { length result.rest.now ≤ length behind.entry.rest.now }
{
    match step(behind) {
        None => behind,
        Some((_, inside)) => inside,
    }
}

/// The block comment that begins at the place.
fn block_comment<'a>(start: Place<'a>, behind: Place<'a>) -> Found<'a>
    requires begins { begins start.rest.now ≡ begin.BlockComment }
    requires follows { Follows start behind }
    ensures { IsFound start.entry.rest.now result }
{
    match comment_end(second(behind)) {
        Some((end, line)) => Found::Space(end, line),
        None => Found::Fault(LexKind::OpenComment, start),
    }
}

/// Whether two quotes stand at the place.
fn is_multiline(behind: Place<'_>) -> bool
    ensures { result ≡ (starts 34 behind.entry.rest.now && starts 34 (after behind.entry.rest.now)) }
{
    match step(behind) {
        None => false,
        Some((c, second)) => c == '"' && starts('"', second.rest),
    }
}

/// The text literal that begins at the place.
fn text<'a>(alloc: Global, start: Place<'a>, behind: Place<'a>) -> Result<Found<'a>, AllocError>
    requires begins { begins start.rest.now ≡ begin.Quote }
    requires follows { Follows start behind }
    ensures { IfOk result (IsFound start.entry.rest.now) }
{
    if is_multiline(behind) {
        return Ok(Found::Fault(LexKind::MultilineString, start));
    }
    if !is_closed(behind) {
        return Ok(Found::Fault(LexKind::OpenString, start));
    }
    match spelled(alloc, behind)? {
        Spelling::Text(value, end) => Ok(Found::Text(value, end)),
        Spelling::Bad(place) => Ok(Found::Fault(LexKind::BadEscape, place)),
    }
}

/// What stands at the place.
pub fn next(alloc: Global, start: Place<'_>) -> Result<Found<'_>, AllocError>
    ensures { IfOk result (IsFound start.entry.rest.now) }
{
    let Some((c, behind)) = step(start) else {
        return Ok(Found::Nothing);
    };
    match what_begins(start.rest) {
        Begins::Nothing => Ok(Found::Nothing),
        Begins::Space => Ok(Found::Space(behind, is_line_end(c))),
        Begins::LineComment => Ok(line_comment(start, behind)),
        Begins::BlockComment => Ok(block_comment(start, behind)),
        Begins::Digit => Ok(numeral(start, behind)),
        Begins::Quote => text(alloc, start, behind),
        Begins::Operator => Ok(sign(start, behind)),
        Begins::Mark(mark) => Ok(Found::Token(Piece::Mark(mark), behind)),
        Begins::Letter => Ok(word(start, behind)),
        Begins::Other => Ok(Found::Fault(LexKind::StrayCharacter, start)),
    }
}
