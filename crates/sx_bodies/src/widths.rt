// How many words the parameters and the captures of a closure literal take.

ghost use Rattle.std.specs.Prelude.{◌≡◌};
ghost use Rattle.sx_bodies.specs.Literals as literals;

use sx_typed::Mention;
use sx_types::{FunctionParameter, Ty, Types};

/// The most words that they may take.
const MOST_WORDS: u64 = 1024;

/// Whether the parameters don't take too many words.
pub fn are_parameters_narrow(types: &Types, mut parameters: &[FunctionParameter]) -> bool
    ensures { result ≡ literals.are_narrow (literals.parameter_words types.now) parameters.entry.now }
{
    let mut words: u64 = 0;
    'parameters: while let [parameter, rest @ ..] = parameters {
        words += u64::from(parameter_words(types, *parameter));
        if words > MOST_WORDS {
            return false;
        }
        parameters = rest;
    }
    true
}

fn parameter_words(types: &Types, parameter: FunctionParameter) -> u32
    ensures { result ≡ literals.parameter_words types.now parameter }
{
    if parameter.inout {
        1
    } else {
        words_in(types, parameter.ty)
    }
}

/// Whether what is mentioned doesn't take too many words.
pub fn are_mentions_narrow(types: &Types, mut mentions: &[Mention]) -> bool
    ensures { result ≡ literals.are_narrow (literals.mention_words types.now) mentions.entry.now }
{
    let mut words: u64 = 0;
    'mentions: while let [mention, rest @ ..] = mentions {
        words += u64::from(mention_words(types, *mention));
        if words > MOST_WORDS {
            return false;
        }
        mentions = rest;
    }
    true
}

/// How many words a closure literal keeps of what it mentions.
pub fn mention_words(types: &Types, mention: Mention) -> u32
    ensures { result ≡ literals.mention_words types.now mention }
{
    match mention {
        Mention::Constant(_, ty) => words_in(types, ty),
        Mention::Variable(_) | Mention::InOut(_) => 1,
    }
}

/// How many words a value of the type takes, and none where that can't be told.
pub fn words_in(types: &Types, ty: Ty) -> u32
    ensures { result ≡ literals.words_in types.now ty }
{
    match ty {
        Ty::Void => 0,
        Ty::Int | Ty::Bool | Ty::Array | Ty::Class(_) => 1,
        Ty::Func(_) => 2,
        Ty::Struct(number) => told_words(types, number),
    }
}

fn told_words(types: &Types, number: u32) -> u32
    ensures { result ≡ literals.or_zero (literals.told_words types.now number) }
{
    match types.structures.get(number as usize) {
        Some(structure) => structure.words.unwrap_or(0),
        None => 0,
    }
}
