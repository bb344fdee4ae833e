// The tokens of a text.

ghost use Rattle.std.specs.Prelude.{◌≡◌, ◌≤◌, length, IfOk, IfErr};
ghost use Rattle.std.specs.Str.{chars};
ghost use Rattle.sx_lexer.specs.Lexis.{behind_mark};
ghost use Rattle.sx_lexer.specs.Answers.{Answers};
ghost use Rattle.sx_lexer.specs.Gathered.{AreTokens, Finishes, IsFinishStop};

use crate::faults::LexStop;
use crate::gathering::{Gathered, gather};
use crate::lines::line_starts;
use crate::place::{Place, step};
use std::alloc::{AllocError, Global};
use sx_token::Tokens;

/// The number of tokens that a text may have.
const MOST_TOKENS: usize = 65_536;

/// The place behind a byte order mark at the start.
fn behind_mark(start: Place<'_>) -> Place<'_>
    ensures rest { result.rest.now ≡ behind_mark start.entry.rest.now }
    ensures fewer_bytes { length result.bytes.now ≤ length start.entry.bytes.now }
{
    match step(start) {
        Some(('\u{FEFF}', behind)) => behind,
        _ => start,
    }
}

/// The tokens with the lines of a text of `end` bytes, unless there are too many.
fn finish(
    alloc: Global,
    gathered: Gathered<'_>,
    lines: Vec<u32>,
    end: u32,
) -> Result<Tokens, LexStop>
    requires { AreTokens gathered.list.items (length gathered.texts.items) gathered.names lines.items end }
    ensures tokens { IfOk result (Finishes gathered.entry lines end) }
    ensures stop { IfErr result (IsFinishStop gathered.entry.list.items) }
{
    if gathered.list.len() > MOST_TOKENS {
        let first = gathered.list[MOST_TOKENS];
        return Err(LexStop::TooManyTokens(first.span.start));
    }
    let names = gathered.names.to_vecs(alloc)?;
    Ok(Tokens {
        list: gathered.list,
        texts: gathered.texts,
        names,
        lines,
        end,
    })
}

/// The characters of a text.
fn characters_of(alloc: Global, text: &str) -> Result<Vec<char>, AllocError>
    ensures { IfOk result (λ v. v.items ≡ chars text.now) }
{
    text.chars().collect(alloc)
}

/// The tokens of a text that is told as characters too.
fn lex_characters(alloc: Global, text: &[u8], characters: &str) -> Result<Tokens, LexStop>
    requires within { length text.now ≤ 262144 }
    requires same { characters.now ≡ text.now }
    ensures { Answers text.now result }
{
    let lines = line_starts(alloc, text)?;
    let chars = characters_of(alloc, characters)?;
    let whole = Place {
        rest: chars.as_slice(),
        bytes: text,
    };
    let end = text.len() as u32;
    match gather(alloc, behind_mark(whole), end) {
        Ok(gathered) => finish(alloc, gathered, lines, end),
        Err(stop) => Err(stop),
    }
}

/// The tokens of a text, or why it has none.
///
/// A text that is not UTF-8 is refused as such wherever its first bad byte stands; then the first
/// lexical fault decides; then the number of tokens. Takes time in proportion to the text.
pub fn lex(alloc: Global, text: &[u8]) -> Result<Tokens, LexStop>
    requires { length text.now ≤ 262144 }
    ensures { Answers text.now result }
{
    match str::from_utf8(text) {
        Ok(characters) => lex_characters(alloc, text, characters),
        Err(fault) => Err(LexStop::Encoding(fault.valid_up_to() as u32)),
    }
}
