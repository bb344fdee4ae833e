// Programs without structures.

ghost use Rattle.sx_typed.specs.Functions.{RiseByNode};

use sqlite_items::Items;
use std::alloc::Global;
use sx_typed::{Block, Function, Global as StoredGlobal, Typed};
use sx_types::{FunctionTypes, Types};

#[tactic(auto, using(crate::proofs::Small::none_counted))]
fn no_types(alloc: Global) -> Types {
    Types {
        structures: Items::new(alloc),
        classes: Items::new(alloc),
        functions: FunctionTypes::new(alloc),
    }
}

/// A program of these stored globals, these functions and these statements at its top.
pub(crate) fn program(
    alloc: Global,
    globals: Items<StoredGlobal>,
    functions: Items<Function>,
    top: Block,
) -> Typed
    requires { RiseByNode functions }
{
    Typed {
        types: no_types(alloc),
        structures: Items::new(alloc),
        classes: Items::new(alloc),
        globals,
        functions,
        top,
        initialisers: Items::new(alloc),
        locals: Items::new(alloc),
        texts: Vec::new(alloc),
        names: Vec::new(alloc),
        lines: Vec::new(alloc),
        places: Vec::new(alloc),
    }
}
