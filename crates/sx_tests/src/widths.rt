// Structures in chains and circles, and such that are too wide.

ghost use Rattle.std.specs.Prelude.{◌≡◌};

use sqlite_items::Items;
use std::alloc::{AllocError, Global};
use sx_layout::{holding_themselves, measure, width};
use sx_types::{Field, Structure, Ty};

fn field(ty: Option<Ty>) -> Field
    ensures { result.ty ≡ ty }
{
    Field { name: 0, ty }
}

fn structure(alloc: Global, types: &[Option<Ty>]) -> Result<Structure, AllocError> {
    let mut stored = Items::new(alloc);
    for ty in types {
        stored.push(field(*ty))?;
    }
    Ok(Structure {
        name: 0,
        stored,
        words: Some(7),
    })
}

fn words(structures: &Items<Structure>, number: usize) -> Option<u32> {
    match structures.get(number) {
        None => None,
        Some(structure) => structure.words,
    }
}

fn chain(alloc: Global) -> Result<(Option<u32>, Option<u32>, Option<u32>), AllocError> {
    let mut structures = Items::new(alloc);
    structures.push(structure(alloc, &[Some(Ty::Struct(1)), Some(Ty::Int)])?)?;
    structures.push(structure(alloc, &[Some(Ty::Func(0)), Some(Ty::Struct(2))])?)?;
    structures.push(structure(alloc, &[Some(Ty::Void)])?)?;
    measure(alloc, &mut structures)?;
    Ok((
        words(&structures, 0),
        words(&structures, 1),
        words(&structures, 2),
    ))
}

#[test]
fn adds_up_along_a_chain(rt: HostRuntime) {
    assert!(rt; chain(rt.alloc()) == Ok((Some(4), Some(3), Some(1))));
}

/// Structures 0 and 1 hold each other, 2 leads to them, 3 is whole, in 4 a declaration has
/// failed, and 5 holds a structure that isn't there.
fn circle(alloc: Global) -> Result<Items<Structure>, AllocError> {
    let mut structures = Items::new(alloc);
    structures.push(structure(alloc, &[Some(Ty::Int), Some(Ty::Struct(1))])?)?;
    structures.push(structure(alloc, &[Some(Ty::Struct(3)), Some(Ty::Struct(0))])?)?;
    structures.push(structure(alloc, &[Some(Ty::Struct(0))])?)?;
    structures.push(structure(alloc, &[Some(Ty::Class(0))])?)?;
    structures.push(structure(alloc, &[Some(Ty::Int), None])?)?;
    structures.push(structure(alloc, &[Some(Ty::Struct(9))])?)?;
    Ok(structures)
}

fn told_in_circle(alloc: Global) -> Result<Vec<bool>, AllocError> {
    let mut structures = circle(alloc)?;
    measure(alloc, &mut structures)?;
    let mut told = Vec::new(alloc);
    for number in 0..6 {
        told.push(words(&structures, number).is_some())?;
    }
    Ok(told)
}

fn holders_in_circle(alloc: Global) -> Result<Vec<bool>, AllocError> {
    let structures = circle(alloc)?;
    holding_themselves(alloc, structures.as_slice())
}

#[test]
fn tells_no_words_of_what_leads_to_a_circle(rt: HostRuntime) {
    match told_in_circle(rt.alloc()) {
        Ok(told) => assert!(rt;
            told.as_slice() == [false, false, false, true, false, false].as_slice()
        ),
        Err(_) => assert!(rt; false),
    }
}

#[test]
fn finds_the_structures_of_a_circle(rt: HostRuntime) {
    match holders_in_circle(rt.alloc()) {
        Ok(told) => assert!(rt;
            told.as_slice() == [true, true, false, false, false, false].as_slice()
        ),
        Err(_) => assert!(rt; false),
    }
}

/// Each structure but the last holds two of the next one.
fn doubled(alloc: Global) -> Result<(Option<u32>, Option<u32>), AllocError> {
    let mut structures = Items::new(alloc);
    for next in 1..12 {
        let ty = Some(Ty::Struct(next));
        structures.push(structure(alloc, &[ty, ty])?)?;
    }
    structures.push(structure(alloc, &[Some(Ty::Bool)])?)?;
    measure(alloc, &mut structures)?;
    Ok((words(&structures, 0), words(&structures, 1)))
}

#[test]
fn tells_no_words_past_the_most(rt: HostRuntime) {
    assert!(rt; doubled(rt.alloc()) == Ok((None, Some(1024))));
}

/// Each structure but the last holds the next one.
fn long_chain(alloc: Global) -> Result<Option<u32>, AllocError> {
    let mut structures = Items::new(alloc);
    for next in 1..10_000 {
        structures.push(structure(alloc, &[Some(Ty::Struct(next))])?)?;
    }
    structures.push(structure(alloc, &[Some(Ty::Func(0))])?)?;
    measure(alloc, &mut structures)?;
    Ok(words(&structures, 0))
}

#[test]
fn follows_a_long_chain(rt: HostRuntime) {
    assert!(rt; long_chain(rt.alloc()) == Ok(Some(2)));
}

fn together(alloc: Global) -> Result<(Option<u32>, Option<u32>, Option<u32>), AllocError> {
    let mut structures = circle(alloc)?;
    measure(alloc, &mut structures)?;
    let whole = [
        field(Some(Ty::Struct(3))),
        field(Some(Ty::Func(0))),
        field(Some(Ty::Void)),
    ];
    let circular = [field(Some(Ty::Int)), field(Some(Ty::Struct(0)))];
    Ok((
        width(structures.as_slice(), whole.as_slice()),
        width(structures.as_slice(), circular.as_slice()),
        width(structures.as_slice(), [].as_slice()),
    ))
}

#[test]
fn adds_up_stored_properties(rt: HostRuntime) {
    assert!(rt; together(rt.alloc()) == Ok((Some(3), None, Some(0))));
}
