// Escapes in text literals.

ghost use Rattle.std.specs.Prelude.{◌≡◌, true, false, ◌≤◌, ◌<◌, length, IfSome, MatchOption, Some, None};
ghost use Rattle.sx_lexer.specs.Lexis.{bracketed, escape, is_scalar_text, simple_escape, unicode_escape};
ghost use Rattle.sx_lexer.specs.Words.{value_after};

use crate::characters::RunKind;
use crate::numbers::value;
use crate::place::{Place, between, past, step};

/// The character that a backslash and this character stand for.
fn simple_escape(c: char) -> Option<char>
    ensures { result ≡ simple_escape c }
{
    match c {
        '0' => Some('\0'),
        't' => Some('\t'),
        'n' => Some('\n'),
        'r' => Some('\r'),
        '"' => Some('"'),
        '\\' => Some('\\'),
        '\'' => Some('\''),
        _ => None,
    }
}

/// The character that one to eight hexadecimal digits stand for.
fn scalar(digits: &[u8]) -> Option<char>
    ensures { MatchOption result (is_scalar_text digits.now ≡ false) (λ v. (is_scalar_text digits.now ≡ true) × (v ≡ value_after 16 0 digits.now)) }
{
    if digits.is_empty() || digits.len() > 8 {
        return None;
    }
    let code = value(16, digits);
    if code > 0x10_FFFF {
        return None;
    }
    char::from_u32(code as u32)
}

/// The character of an escape whose digits stand between the places, and the place behind it.
fn bracketed<'a>(digits: Place<'a>, end: Place<'a>) -> Option<(char, Place<'a>)>
    requires order { length end.bytes.now ≤ length digits.bytes.now }
    ensures value { MatchOption result (bracketed digits.entry.rest.now end.entry.rest.now ≡ None) (λ x. bracketed digits.entry.rest.now end.entry.rest.now ≡ Some (x.0, x.1.rest.now)) }
    ensures shorter { IfSome result (λ x. length x.1.rest.now < length end.entry.rest.now) }
{
    let Some((c, behind)) = step(end) else {
        return None;
    };
    if c != '}' {
        return None;
    }
    match scalar(between(digits, end)) {
        None => None,
        Some(value) => Some((value, behind)),
    }
}

/// What stands behind a backslash and a `u`.
fn unicode_escape(start: Place<'_>) -> Option<(char, Place<'_>)>
    ensures value { MatchOption result (unicode_escape start.entry.rest.now ≡ None) (λ x. unicode_escape start.entry.rest.now ≡ Some (x.0, x.1.rest.now)) }
    ensures shorter { IfSome result (λ x. length x.1.rest.now < length start.entry.rest.now) }
{
    let Some((c, digits)) = step(start) else {
        return None;
    };
    if c != '{' {
        return None;
    }
    bracketed(digits, past(RunKind::Hexadecimal, digits))
}

/// What stands behind a backslash: the character that it stands for, and the place behind it.
#[tactic(auto, unfolding(crate::specs::Lexis::escape))]
pub fn escape(start: Place<'_>) -> Option<(char, Place<'_>)>
    ensures value { MatchOption result (escape start.entry.rest.now ≡ None) (λ x. escape start.entry.rest.now ≡ Some (x.0, x.1.rest.now)) }
    ensures shorter { IfSome result (λ x. length x.1.rest.now < length start.entry.rest.now) }
{
    let Some((c, next)) = step(start) else {
        return None;
    };
    if c == 'u' {
        return unicode_escape(next);
    }
    match simple_escape(c) {
        None => None,
        Some(value) => Some((value, next)),
    }
}
