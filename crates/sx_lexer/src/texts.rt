// Text literals.

ghost use Rattle.std.specs.Prelude.{◌≡◌, true, false, IfOk};
ghost use Rattle.sx_lexer.specs.Scans.{is_closed};
ghost use Rattle.sx_lexer.specs.Found.{IsSpelling};

use crate::characters::is_line_end;
use crate::escapes::escape;
use crate::place::{Place, step};
use std::alloc::{AllocError, Global};

/// Whether the text that is open at the place ends on its line.
pub fn is_closed(start: Place<'_>) -> bool
    ensures { result ≡ is_closed false start.entry.rest.now }
{
    let mut place = start;
    let mut escaped = false;
    while let Some((c, next)) = step(place) {
        if is_line_end(c) {
            return false;
        }
        let ends = !escaped & (c == '"');
        if ends {
            return true;
        }
        escaped = !escaped & (c == '\\');
        place = next;
    }
    false
}

/// What a text stands for and the place behind it, or its first backslash that begins no escape.
#[derive(Drop)]
pub enum Spelling<'a> {
    Text(Vec<u8>, Place<'a>),
    Bad(Place<'a>),
}

/// Reads the text that is open at the place and ends on its line.
pub fn spelled<'a>(alloc: Global, start: Place<'a>) -> Result<Spelling<'a>, AllocError>
    requires closed { is_closed false start.rest.now ≡ true }
    ensures { IfOk result (IsSpelling start.entry.rest.now) }
{
    let mut text = String::new(alloc);
    let mut place = start;
    while let Some((c, next)) = step(place) {
        if c == '"' {
            return Ok(Spelling::Text(text.into_bytes(), next));
        }
        if c == '\\' {
            let Some((value, behind)) = escape(next) else {
                return Ok(Spelling::Bad(place));
            };
            text.push(value)?;
            place = behind;
        } else {
            text.push(c)?;
            place = next;
        }
    }
    unreachable!()
}
