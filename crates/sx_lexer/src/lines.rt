// The places at which the lines of a text start.

ghost use Rattle.std.specs.Prelude.{◌≡◌, ◌<◌, length, IfOk};
ghost use Rattle.sx_span.specs.Lines.{line_starts};

use crate::bytes::split_first;
use std::alloc::{AllocError, Global};
use sx_span::ends_line;

/// The places at which the lines of a text start: 0, and the place behind each line end.
pub fn line_starts(alloc: Global, text: &[u8]) -> Result<Vec<u32>, AllocError>
    requires { length text.now < 4294967295 }
    ensures { IfOk result (λ v. v.items ≡ line_starts text.now) }
{
    let mut starts = Vec::new(alloc);
    starts.push(0)?;
    let mut place: u32 = 0;
    let mut rest = text;
    while let Some((byte, behind)) = split_first(rest) {
        place += 1;
        if ends_line(byte, behind) {
            starts.push(place)?;
        }
        rest = behind;
    }
    Ok(starts)
}
