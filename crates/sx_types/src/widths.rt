// How many words a value takes.

ghost use Rattle.std.specs.Prelude.{◌≡◌, Some};
ghost use Rattle.sx_types.specs.Words.{IsNarrow, StructuresAddUp, ValuesTakeWords, words_of};

use crate::types::{Structure, Ty, Types};

/// How many words a value of the type takes.
pub fn words(types: &Types, ty: Ty) -> u32
    requires narrow { IsNarrow types.now.structures ty }
    ensures { words_of types.now.structures ty ≡ Some result }
{
    match ty {
        Ty::Void => 0,
        Ty::Int | Ty::Bool | Ty::Array | Ty::Class(_) => 1,
        Ty::Func(_) => 2,
        Ty::Struct(number) => match types.structures.get(number as usize) {
            Some(
                Structure {
                    words: Some(words),
                    ..
                },
            ) => *words,
            _ => unreachable!(),
        },
    }
}

/// The words of a structure are those of its stored properties together, and at least one.
pub fn structures_add_up()
    ensures { StructuresAddUp }
{}

/// A value takes at least one word, unless its type is `Void`.
pub fn values_take_words()
    ensures { ValuesTakeWords }
{}
