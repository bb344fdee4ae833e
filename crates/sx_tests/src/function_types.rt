// A structure with two properties, and two function types.

ghost use Rattle.std.specs.Prelude.{IfOk, length, ◌<◌, ◌^◌};
ghost use Rattle.sx_types.specs.Words.{IsNarrow};
ghost use Rattle.sx_types.specs.declared.types.Ty.TheVariants.{Struct};

use sqlite_items::Items;
use std::alloc::{AllocError, Global};
use sx_types::{
    Field, FunctionParameter, FunctionType, FunctionTypes, Listed, Structure, Ty, Types, words,
};

#[tactic(auto, using(crate::proofs::Small::counted_alone), unfolding(sx_types::specs::Words::structure_within))]
fn handler(alloc: Global) -> Result<Types, AllocError>
    ensures { IfOk result (λ types. IsNarrow types.structures (Struct 0)) }
{
    let mut stored = Items::new(alloc);
    stored.push(Field {
        name: 0,
        ty: Some(Ty::Int),
    })?;
    stored.push(Field {
        name: 1,
        ty: Some(Ty::Func(0)),
    })?;
    let mut structures = Items::new(alloc);
    structures.push(Structure {
        name: 2,
        stored,
        words: Some(3),
    })?;
    Ok(Types {
        structures,
        classes: Items::new(alloc),
        functions: FunctionTypes::new(alloc),
    })
}

#[test]
fn adds_up_the_words_of_a_structure(rt: HostRuntime) {
    match handler(rt.alloc()) {
        Ok(types) => {
            assert_eq!(rt; words(&types, Ty::Struct(0)), 3);
            assert_eq!(rt; words(&types, Ty::Class(0)), 1);
            assert_eq!(rt; words(&types, Ty::Func(0)), 2);
            assert_eq!(rt; words(&types, Ty::Void), 0);
        }
        Err(_) => assert!(rt; false),
    }
}

fn action(alloc: Global, inout: bool) -> Result<FunctionType, AllocError> {
    let mut parameters = Items::new(alloc);
    parameters.push(FunctionParameter { inout, ty: Ty::Int })?;
    Ok(FunctionType {
        parameters: Listed::new(parameters),
        result: Ty::Void,
    })
}

fn numbers(alloc: Global) -> Result<(u32, u32, u32), AllocError> {
    let mut types = FunctionTypes::new(alloc);
    let plain = types.number_of(action(alloc, false)?)?;
    let inout = types.number_of(action(alloc, true)?)?;
    let again = types.number_of(action(alloc, false)?)?;
    Ok((plain, inout, again))
}

#[test]
fn numbers_function_types_as_they_are_first_seen(rt: HostRuntime) {
    assert!(rt; numbers(rt.alloc()) == Ok((0, 1, 0)));
}
