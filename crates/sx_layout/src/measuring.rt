// Structures with their words, and the words of stored properties together.

ghost use Rattle.std.specs.Prelude.{◌≡◌, ◌<◌, ◌≤◌, ◌^◌, length, OnOk, IfSome, option_and_then};
ghost use Rattle.sx_types.specs.Words.{AreCounted, most_words, words_by};
ghost use Rattle.sx_layout.specs.Measured.{AreMeasured, with_words, words_together, words_told};

use crate::walking::widths;
use sqlite_items::Items;
use std::alloc::{AllocError, Global};
use sx_types::{Field, Structure, Ty};

/// Writes to each structure its words, whatever stood there. It takes time in proportion to the
/// structures and their stored properties. After want of memory some structures are lost.
pub fn measure(alloc: Global, structures: &mut Items<Structure>) -> Result<(), AllocError>
    ensures { OnOk result (AreMeasured structures.old structures.new) }
{
    let widths = widths(alloc, structures.as_slice())?;
    write_words(alloc, structures, &widths)
}

/// Writes these words to the structures, in their order.
fn write_words(
    alloc: Global,
    structures: &mut Items<Structure>,
    widths: &[Option<u32>],
) -> Result<(), AllocError>
    requires { length widths.now ≡ length structures.old }
    ensures { OnOk result (structures.new ≡ with_words structures.old widths.now) }
{
    let mut reversed = Items::new(alloc);
    while let Some(structure) = structures.pop() {
        reversed.push(structure)?;
    }
    for words in widths {
        if let Some(structure) = reversed.pop() {
            structures.push(Structure {
                name: structure.name,
                stored: structure.stored,
                words: *words,
            })?;
        }
    }
    Ok(())
}

/// The words of these stored properties together, or `None` where those of one can't be told or
/// are too many. The sum itself may be as large as it comes to.
pub fn width(structures: &[Structure], stored: &[Field]) -> Option<u32>
    requires counted { AreCounted structures.now }
    requires few { length stored.now < 2 ^ 22 }
    ensures { result ≡ words_together structures.now stored.now }
{
    let mut words = 0;
    for field in stored {
        match property_words(structures, field.ty) {
            None => return None,
            Some(more) => words += more,
        }
    }
    Some(words)
}

/// The words of a stored property of this type.
fn property_words(structures: &[Structure], ty: Option<Ty>) -> Option<u32>
    requires { AreCounted structures.now }
    ensures words { result ≡ option_and_then (words_by (words_told structures.now)) ty }
    ensures few { IfSome result (λ n. n ≤ most_words) }
{
    match ty {
        None => None,
        Some(ty) => match ty {
            Ty::Struct(number) => structure_words(structures, number as usize),
            Ty::Void => Some(0),
            Ty::Int | Ty::Bool | Ty::Array | Ty::Class(_) => Some(1),
            Ty::Func(_) => Some(2),
        },
    }
}

/// The words that stand with this structure.
fn structure_words(structures: &[Structure], number: usize) -> Option<u32>
    requires { AreCounted structures.now }
    ensures words { result ≡ words_told structures.now number }
    ensures few { IfSome result (λ n. n ≤ most_words) }
{
    match structures.get(number) {
        None => None,
        Some(structure) => structure.words,
    }
}
