//! Texts of prints, a line each.
ghost use Rattle.std.specs.Prelude.{◌≡◌, ◌≢◌, ◌<◌, ◌≤◌, ℕ, List, length, map, slice_index, take, IfOk, IfSome, IfNone, IsTrue, ◌↔◌, ◌++◌};
ghost use Rattle.swiftx.specs.Prints.{IsPlain, IsLiteral, StartsWith, EndsLine, opening, closing};
ghost use Rattle.swiftx.specs.Found.{HasFound};

use std::alloc::{AllocError, Global};

/// The greatest size of a text, in bytes.
const MOST_BYTES: usize = 262_144;

/// The greatest number of lines of a text of prints.
const MOST_LINES: usize = 16_384;

/// The literals that a text of prints prints, in order; None where it is no text of prints.
///
/// Takes memory for the list alone, in proportion to the number of lines, and time in proportion to the text.
pub fn literals_of<'a>(alloc: Global, text: &'a [u8]) -> Result<Option<Vec<&'a [u8]>>, AllocError>
    ensures { IfOk result (λ found. HasFound text.now found) }
{
    if text.len() > MOST_BYTES {
        return Ok(None);
    }
    let mut literals = Vec::new(alloc);
    let mut rest = text;
    while !rest.is_empty() {
        if literals.len() == MOST_LINES {
            return Ok(None);
        }
        let Some((literal, behind)) = first_line(rest) else {
            return Ok(None);
        };
        literals.push(literal)?;
        rest = behind;
    }
    Ok(Some(literals))
}

// The literal of the first line, and what stands behind the line.
fn first_line(text: &[u8]) -> Option<(&[u8], &[u8])>
    ensures some { IfSome result (λ line. StartsWith text.now line.0.now line.1.now) }
    ensures none { IfNone result ((literal rest : List ℕ) → StartsWith text.now literal rest → ⊥) }
{
    let quoted = behind_opening(text)?;
    let (literal, closed) = quoted.split_at(plain_size(quoted));
    let tail = behind_closing(closed)?;
    let rest = behind_line_feed(tail)?;
    Some((literal, rest))
}

// What stands behind the word, the bracket and the quote.
fn behind_opening(text: &[u8]) -> Option<&[u8]>
    ensures some { IfSome result (λ rest. text.now ≡ opening ++ rest.now) }
    ensures none { IfNone result ((rest : List ℕ) → text.now ≢ opening ++ rest) }
{
    text.strip_prefix(b"print(\"")
}

// What stands behind the quote and the bracket.
fn behind_closing(text: &[u8]) -> Option<&[u8]>
    ensures some { IfSome result (λ rest. text.now ≡ closing ++ rest.now) }
    ensures none { IfNone result ((rest : List ℕ) → text.now ≢ closing ++ rest) }
{
    text.strip_prefix(b"\")")
}

// What stands behind the line feed, which may be missing at the end.
fn behind_line_feed(tail: &[u8]) -> Option<&[u8]>
    ensures some { IfSome result (λ rest. EndsLine tail.now rest.now) }
    ensures none { IfNone result ((rest : List ℕ) → EndsLine tail.now rest → ⊥) }
{
    if tail.is_empty() {
        return Some(tail);
    }
    tail.strip_prefix(b"\n")
}

// How many bytes at the start may stand in a literal.
fn plain_size(bytes: &[u8]) -> usize
    ensures fits { result ≤ length bytes.now }
    ensures plain { IsLiteral (take result bytes.now) }
    ensures end { result < length bytes.now → IsPlain (slice_index bytes.now result) → ⊥ }
{
    for (i, byte) in bytes.iter().enumerate() {
        if !is_plain(*byte) {
            return i;
        }
    }
    bytes.len()
}

fn is_plain(byte: u8) -> bool
    ensures { IsTrue result ↔ IsPlain byte }
{
    (b' '..=b'~').contains(&byte) && byte != b'"' && byte != b'\\'
}
