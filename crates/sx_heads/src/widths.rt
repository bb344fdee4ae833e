// How many words parameters take.

ghost use Rattle.std.specs.Prelude.{◌≡◌, ◌+◌, nat_le};
ghost use Rattle.sx_bodies.specs.Literals.{total};
ghost use Rattle.sx_heads.specs.Widths as widths;
ghost use Rattle.sx_types.specs.Words.{most_words};

use crate::parameters::HeadParameter;
use sx_bodies::words_in;
use sx_typed::Marker;
use sx_types::{Ty, Types};

/// The most words that a parameter list may have.
const MOST_WORDS: u64 = 1024;

/// Whether a parameter list with its `self` has at most 1,024 words. The function is a member of
/// the owner, if there is one.
pub fn is_narrow_head(
    types: &Types,
    mutating: bool,
    owner: Option<Ty>,
    parameters: &[HeadParameter],
) -> bool
    ensures { result ≡ widths.is_narrow_head types.now mutating owner parameters.now }
{
    are_parameters_narrow(types, self_words(types, mutating, owner), parameters)
}

/// Whether so many words and those of the parameters are at most 1,024.
pub fn are_parameters_narrow(types: &Types, before: u32, mut parameters: &[HeadParameter]) -> bool
    ensures { result ≡ nat_le (before + total (widths.parameter_words types.now) parameters.entry.now) most_words }
{
    let mut words = u64::from(before);
    if words > MOST_WORDS {
        return false;
    }
    'parameters: while let [parameter, rest @ ..] = parameters {
        words += u64::from(parameter_words(types, parameter));
        if words > MOST_WORDS {
            return false;
        }
        parameters = rest;
    }
    true
}

fn parameter_words(types: &Types, parameter: &HeadParameter) -> u32
    ensures { result ≡ widths.parameter_words types.now parameter.now }
{
    match parameter.parameter.marker {
        Marker::Plain | Marker::Escaping => words_in(types, parameter.parameter.ty),
        Marker::InOut | Marker::Borrowing => 1,
    }
}

/// The words of the `self` of a member: a reference, the structure that it may modify, or a copy
/// of it.
pub fn self_words(types: &Types, mutating: bool, owner: Option<Ty>) -> u32
    ensures { result ≡ widths.self_words types.now mutating owner }
{
    match owner {
        None => 0,
        Some(Ty::Struct(number)) => {
            if mutating {
                1
            } else {
                words_in(types, Ty::Struct(number))
            }
        }
        Some(_) => 1,
    }
}
