// Places of a text.

ghost use Rattle.std.specs.Prelude.{◌≡◌, ◌≤◌, ◌+◌, ◌∷◌, [], length, IfSome, MatchOption};
ghost use Rattle.std.specs.Str.{encode_utf8_all};
ghost use Rattle.sx_lexer.specs.Characters.{between, Run};

use crate::characters::{RunKind, runs};

/// A place of a text: the characters that follow it, and the same in bytes of UTF-8.
#[derive(Clone, Copy)]
pub struct Place<'a> {
    pub rest: &'a [char],
    pub bytes: &'a [u8],

    pub ghost same: { bytes.now ≡ encode_utf8_all rest.now },
}

/// The first character after the place, and the place after it.
pub fn step(place: Place<'_>) -> Option<(char, Place<'_>)>
    ensures step { MatchOption result (place.entry.rest.now ≡ []) (λ x. place.entry.rest.now ≡ x.0 ∷ x.1.rest.now) }
    ensures shorter { IfSome result (λ x. length place.entry.rest.now ≡ length x.1.rest.now + 1) }
    ensures fewer_bytes { IfSome result (λ x. length x.1.bytes.now ≤ length place.entry.bytes.now) }
{
    match place.rest {
        [] => None,
        [c, rest @ ..] => {
            let bytes = &place.bytes[c.len_utf8()..];
            Some((*c, Place { rest, bytes }))
        }
    }
}

/// The place up to which a run of the kind goes.
pub fn past(kind: RunKind, start: Place<'_>) -> Place<'_>
    ensures run { Run kind start.entry.rest.now result.rest.now }
    ensures shorter { length result.rest.now ≤ length start.entry.rest.now }
    ensures fewer_bytes { length result.bytes.now ≤ length start.entry.bytes.now }
{
    let mut place = start;
    while let Some((_, next)) = step(place) {
        if !runs(kind, place.rest) {
            return place;
        }
        place = next;
    }
    place
}

/// The bytes between two places.
pub fn between<'a>(start: Place<'a>, end: Place<'_>) -> &'a [u8]
    requires order { length end.bytes.now ≤ length start.bytes.now }
    ensures { result.now ≡ between start.entry.rest.now end.entry.rest.now }
{
    &start.bytes[..start.bytes.len() - end.bytes.len()]
}
