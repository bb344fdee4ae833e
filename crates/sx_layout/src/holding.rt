// Which structures hold themselves.

ghost use Rattle.std.specs.Prelude.{◌≡◌, ◌↔◌, ◌++◌, ◌∷◌, ◌<◌, ◌+◌, length, slice_get, Some, None, IsTrue, IfOk, OnOk, MatchOption};
ghost use Rattle.sx_layout.specs.Holding.{Holds, TellHolders};
ghost use Rattle.sx_layout.specs.Measured.{AreWidths};
ghost use Rattle.sx_layout.specs.Searching.{IsPartMarked, IsPartUnmarked, MarksPart};

use crate::walking::widths;
use std::alloc::{AllocError, Global};
use sx_types::{Structure, Ty};

/// For each structure, whether it holds itself in its stored properties or in what they hold. It
/// takes time in proportion to the structures and their stored properties where all words can be
/// told, and otherwise to their product with the number of structures whose words can't.
pub fn holding_themselves(alloc: Global, structures: &[Structure]) -> Result<Vec<bool>, AllocError>
    ensures { IfOk result (λ told. TellHolders structures.now told.items) }
{
    let widths = widths(alloc, structures)?;
    let mut told = Vec::new(alloc);
    for number in 0..structures.len() {
        let holds = holds_itself(alloc, structures, &widths, number)?;
        told.push(holds)?;
    }
    Ok(told)
}

/// Whether this structure holds itself.
fn holds_itself(
    alloc: Global,
    structures: &[Structure],
    widths: &[Option<u32>],
    number: usize,
) -> Result<bool, AllocError>
    requires widths { AreWidths structures.now widths.now }
    requires number { number < length structures.now }
    ensures { IfOk result (λ holds. IsTrue holds ↔ Holds structures.now number number) }
{
    match widths[number] {
        Some(_) => Ok(false),
        None => search(alloc, structures, widths, number),
    }
}

/// Whether this structure, whose words aren't told, holds itself.
fn search(
    alloc: Global,
    structures: &[Structure],
    widths: &[Option<u32>],
    root: usize,
) -> Result<bool, AllocError>
    requires widths { AreWidths structures.now widths.now }
    requires root { root < length structures.now }
    ensures { IfOk result (λ holds. IsTrue holds ↔ Holds structures.now root root) }
{
    let mut held = vec![in alloc; false; structures.len()]?;
    let marks = held.as_mut_slice();
    let mut opened = Vec::new(alloc);
    opened.push(root)?;
    while let Some(number) = opened.pop() {
        let stored = structures[number].stored.as_slice();
        for field in stored {
            mark(widths, marks, &mut opened, field.ty)?;
        }
    }
    Ok(marks[root])
}

/// Marks and opens the structure of a stored property of this type, unless it is marked or its
/// words are told.
fn mark(
    widths: &[Option<u32>],
    marks: &mut [bool],
    opened: &mut Vec<usize>,
    ty: Option<Ty>,
) -> Result<(), AllocError>
    requires { length marks.old ≡ length widths.now }
    ensures { OnOk result (MarksPart widths.now ty marks.old opened.old.items marks.new opened.new.items) }
{
    match unmarked_part(widths, marks, ty) {
        None => Ok(()),
        Some(number) => {
            marks[number] = true;
            opened.push(number)?;
            Ok(())
        }
    }
}

/// The structure of a stored property of this type, unless it is marked or its words are told.
fn unmarked_part(widths: &[Option<u32>], marks: &[bool], ty: Option<Ty>) -> Option<usize>
    requires { length marks.now ≡ length widths.now }
    ensures { MatchOption result (IsPartMarked widths.now marks.now ty) (IsPartUnmarked marks.now ty) }
{
    match ty {
        None => None,
        Some(ty) => match ty {
            Ty::Struct(number) => unmarked(widths, marks, number as usize),
            _ => None,
        },
    }
}

/// This structure, unless it is marked or its words are told.
fn unmarked(widths: &[Option<u32>], marks: &[bool], number: usize) -> Option<usize>
    requires { length marks.now ≡ length widths.now }
    ensures { MatchOption result
        (IsPartMarked widths.now marks.now (Some (Ty.Struct number)))
        (IsPartUnmarked marks.now (Some (Ty.Struct number))) }
{
    if number < widths.len() && widths[number].is_none() && !marks[number] {
        Some(number)
    } else {
        None
    }
}
