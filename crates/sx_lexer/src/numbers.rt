// Numbers.

ghost use Rattle.std.specs.Prelude.{◌≡◌, ◌*◌, ◌+◌, ◌^◌, ◌≤◌, min, IfSome};
ghost use Rattle.sx_lexer.specs.Words.{are_digits, base_of, digit, number, number_in, sized, value_after};

use crate::bytes::split_first;
use crate::faults::LexKind;
use crate::pieces::Piece;

/// The value of a digit, or 36.
pub fn digit(byte: u8) -> u8
    ensures value { result ≡ digit byte }
    ensures small { result ≤ 36 }
{
    match byte {
        b'0'..=b'9' => byte - b'0',
        b'a'..=b'f' => byte - b'a' + 10,
        b'A'..=b'F' => byte - b'A' + 10,
        _ => 36,
    }
}

/// Whether the bytes are digits of the base and underscores.
fn are_digits(base: u8, mut bytes: &[u8]) -> bool
    ensures { result ≡ are_digits base bytes.entry.now }
{
    while let [byte, rest @ ..] = bytes {
        if *byte != b'_' && digit(*byte) >= base {
            return false;
        }
        bytes = rest;
    }
    true
}

/// One more than the greatest number that a token can stand for.
const TOO_BIG: u64 = (1 << 63) + 1;

/// The number that the digits and one more stand for, or the bound where that is more.
fn joined(base: u8, sum: u64, byte: u8) -> u64
    requires most { base ≤ 16 }
    ensures { result ≡ min (sum * base + digit byte) (2 ^ 63 + 1) }
{
    let more = sum
        .saturating_mul(u64::from(base))
        .saturating_add(u64::from(digit(byte)));
    more.min(TOO_BIG)
}

/// What the digits stand for, or the bound where that is more.
pub fn value(base: u8, mut bytes: &[u8]) -> u64
    requires least { 2 ≤ base }
    requires most { base ≤ 16 }
    ensures { result ≡ min (value_after base 0 bytes.entry.now) (2 ^ 63 + 1) }
{
    let mut sum: u64 = 0;
    while let Some((byte, rest)) = split_first(bytes) {
        if byte != b'_' {
            sum = joined(base, sum, byte);
        }
        bytes = rest;
    }
    sum
}

/// The piece that a number of this value is.
fn sized(value: u64) -> Result<Piece, LexKind>
    ensures { result ≡ sized value }
{
    if value < 1 << 63 {
        Ok(Piece::Int(value))
    } else if value == 1 << 63 {
        Ok(Piece::IntMin)
    } else {
        Err(LexKind::BigLiteral)
    }
}

/// The piece that a number without its prefix is.
fn number_in(base: u8, bytes: &[u8]) -> Result<Piece, LexKind>
    requires least { 2 ≤ base }
    requires most { base ≤ 16 }
    ensures { result ≡ number_in base bytes.now }
{
    match bytes {
        [first, rest @ ..] if digit(*first) < base && are_digits(base, rest) => {
            sized(value(base, bytes))
        }
        _ => Err(LexKind::BadNumber),
    }
}

/// The base that stands behind the 0 of a prefix.
fn base_of(byte: u8) -> Option<u8>
    ensures value { result ≡ base_of byte }
    ensures least { IfSome result (λ b. 2 ≤ b) }
    ensures most { IfSome result (λ b. b ≤ 16) }
{
    match byte {
        b'x' => Some(16),
        b'o' => Some(8),
        b'b' => Some(2),
        _ => None,
    }
}

/// The piece that a number is, from its first digit to the end of its word.
pub fn number(bytes: &[u8]) -> Result<Piece, LexKind>
    ensures { result ≡ number bytes.now }
{
    match bytes {
        [b'0', second, rest @ ..] => match base_of(*second) {
            Some(base) => number_in(base, rest),
            None => number_in(10, bytes),
        },
        _ => number_in(10, bytes),
    }
}
