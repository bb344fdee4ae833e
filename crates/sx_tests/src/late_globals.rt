// A global that is reached too soon, through a function, and one that isn't.

ghost use Rattle.std.specs.Prelude.{IfOk};
ghost use Rattle.sx_typed.specs.Functions.{RiseByNode};

use crate::programs::program;
use sqlite_items::Items;
use std::alloc::{AllocError, Global};
use sx_late::{LateReach, late};
use sx_span::Node;
use sx_typed::{
    Block, Expr, Form, Function, FunctionKind, Global as StoredGlobal, GlobalMention, Statement,
    StatementForm, Typed,
};
use sx_types::Ty;

fn int(form: Form) -> Expr {
    Expr {
        node: Node(0),
        site: 0,
        ty: Ty::Int,
        form,
    }
}

fn global(number: u32) -> Expr {
    int(Form::GlobalConstant(GlobalMention {
        global: number,
        before: None,
    }))
}

fn statement(form: StatementForm) -> Statement {
    Statement { site: 0, form }
}

// A function at node 3 whose body gives the value of the global.
fn functions(alloc: Global, number: u32) -> Result<Items<Function>, AllocError>
    ensures { IfOk result RiseByNode }
{
    let mut body = Items::new(alloc);
    body.push(statement(StatementForm::Return(Some(global(number)))))?;
    let mut functions = Items::new(alloc);
    functions.push(Function {
        kind: FunctionKind::Function,
        node: Node(3),
        owner: None,
        parameters: Items::new(alloc),
        result: Ty::Int,
        body,
        mentions: Items::new(alloc),
    })?;
    Ok(functions)
}

// Global 0 has a number as its initial value, and global 1 what the function gives.
fn top(alloc: Global) -> Result<Block, AllocError> {
    let mut top = Items::new(alloc);
    top.push(statement(StatementForm::Global(0, int(Form::Int(7)))))?;
    let call = int(Form::Call(Node(3), Items::new(alloc)));
    top.push(statement(StatementForm::Global(1, call)))?;
    Ok(top)
}

fn stored(node: u32, name: u32) -> StoredGlobal {
    StoredGlobal {
        node: Node(node),
        name,
        ty: Ty::Int,
        constant: true,
    }
}

// The two globals.
fn globals(alloc: Global) -> Result<Items<StoredGlobal>, AllocError> {
    let mut globals = Items::new(alloc);
    globals.push(stored(1, 0))?;
    globals.push(stored(2, 1))?;
    Ok(globals)
}

// The program whose function gives the value of the global.
fn reaching(alloc: Global, number: u32) -> Result<Typed, AllocError> {
    let globals = globals(alloc)?;
    let functions = functions(alloc, number)?;
    Ok(program(alloc, globals, functions, top(alloc)?))
}

fn is_at(found: Option<LateReach>, statement: usize, global: u32) -> bool {
    match found {
        Some(late) => late.statement == statement && late.global == global,
        None => false,
    }
}

#[test]
fn a_global_is_late_through_a_function(rt: HostRuntime) -> Result<(), AllocError> {
    let alloc = rt.alloc();
    let own = late(alloc, &reaching(alloc, 1)?)?;
    assert!(rt; is_at(own, 1, 1));
    let earlier = late(alloc, &reaching(alloc, 0)?)?;
    assert!(rt; earlier.is_none());
    Ok(())
}
