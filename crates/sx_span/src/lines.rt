// The lines of a text, and the line and column of a place.

ghost use Rattle.std.specs.Prelude.{◌≡◌, ◌≤◌, ◌<◌, ◌∷◌, [], length, nat_le, true, false, MatchOption};
ghost use Rattle.std.specs.List.Sorted.{IsNonDecreasing, IsPartitionPoint};
ghost use Rattle.sx_span.specs.Lines.{AreLines, ends_line, line_col_of, line_starts};

use crate::places::LineCol;

/// Whether a line ends behind the byte `byte`, where `rest` follows it: the byte is an LF, or a CR
/// that no LF follows.
pub fn ends_line(byte: u8, rest: &[u8]) -> bool
    ensures { result ≡ ends_line byte rest.now }
{
    match byte {
        b'\n' => true,
        b'\r' => !matches!(rest, [b'\n', ..]),
        _ => false,
    }
}

/// The first byte, and those behind it.
fn split_first(bytes: &[u8]) -> Option<(u8, &[u8])>
    ensures { MatchOption result (bytes.now ≡ []) (λ split. bytes.now ≡ split.0 ∷ split.1.now) }
{
    match bytes {
        [] => None,
        [byte, rest @ ..] => Some((*byte, rest)),
    }
}

/// The line and column of the place `at` of the text, which may be its end. Takes time in
/// proportion to `at`.
#[tactic(auto, using(crate::proofs::Starts::none_counts, crate::proofs::Starts::none_last))]
pub fn line_col(text: &[u8], at: u32) -> LineCol
    requires within { at ≤ length text.now }
    requires counts { at < 4294967295 }
    ensures { result ≡ line_col_of (line_starts text.now) at }
{
    let mut line: u32 = 1;
    let mut start: u32 = 0;
    let mut place: u32 = 0;
    let mut rest = text;
    while let Some((byte, behind)) = split_first(rest) {
        if place == at {
            break;
        }
        place += 1;
        if ends_line(byte, behind) {
            line += 1;
            start = place;
        }
        rest = behind;
    }
    LineCol {
        line,
        column: at - start + 1,
    }
}

/// How many of the places, which rise, are at most `at`.
fn count_up_to(places: &[u32], at: u32) -> usize
    requires { IsNonDecreasing places.now }
    ensures bound { result ≤ length places.now }
    ensures point { IsPartitionPoint (λ p. nat_le p at ≡ true) (λ p. nat_le p at ≡ false) places.now result }
{
    places.partition_point(|place| *place <= at)
}

/// The line and column of the place `at` of a text whose lines start at the places `lines`. The
/// line is the number of these that are at most `at`, and the column counts from the last of them.
/// Takes time in proportion to the logarithm of the number of lines.
pub fn line_of(lines: &Vec<u32>, at: u32) -> LineCol
    requires lines { AreLines lines.now.items }
    requires counts { at < 4294967295 }
    ensures { result ≡ line_col_of lines.now.items at }
{
    let starts = lines.as_slice();
    let line = count_up_to(starts, at);
    LineCol {
        line: line as u32,
        column: at - starts[line - 1] + 1,
    }
}
