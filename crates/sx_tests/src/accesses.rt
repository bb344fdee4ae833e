// Accesses that conflict and that don't, functions by their nodes, and observers.

ghost use Rattle.std.specs.Prelude.{◌≡◌, ◌<◌, IfOk};
ghost use Rattle.sx_typed.specs.Functions.{RiseByNode};

use crate::programs::program;
use sqlite_items::Items;
use std::alloc::{AllocError, Global};
use sx_span::Node;
use sx_typed::{
    Access, Function, FunctionKind, Marker, Observers, Parameter, Root, Typed, conflict,
};
use sx_types::Ty;

fn access(alloc: Global, root: Root, field: u32, modifies: bool) -> Result<Access, AllocError> {
    let mut fields = Items::new(alloc);
    fields.push(field)?;
    Ok(Access {
        root,
        fields,
        modifies,
        site: 0,
    })
}

fn conflict_at(alloc: Global, root: Root, field: u32, modifies: bool) -> Result<bool, AllocError> {
    let first = access(alloc, root, 0, true)?;
    let second = access(alloc, root, field, modifies)?;
    Ok(conflict(&first, &second))
}

#[test]
fn fields_of_a_local_are_apart(rt: HostRuntime) {
    let alloc = rt.alloc();
    assert!(rt; conflict_at(alloc, Root::Local(1), 0, false) == Ok(true));
    assert!(rt; conflict_at(alloc, Root::Local(1), 1, true) == Ok(false));
}

#[test]
fn fields_of_a_global_are_one_variable(rt: HostRuntime) {
    let alloc = rt.alloc();
    assert!(rt; conflict_at(alloc, Root::Global(1), 1, false) == Ok(true));
}

fn conflict_between(
    alloc: Global,
    first: Root,
    second: Root,
    modifies: bool,
) -> Result<bool, AllocError> {
    let first = access(alloc, first, 0, modifies)?;
    let second = access(alloc, second, 0, false)?;
    Ok(conflict(&first, &second))
}

#[test]
fn reads_and_other_variables_are_no_conflict(rt: HostRuntime) {
    let alloc = rt.alloc();
    assert!(rt; conflict_between(alloc, Root::Boxed(1), Root::Boxed(1), false) == Ok(false));
    assert!(rt; conflict_between(alloc, Root::Boxed(1), Root::Boxed(2), true) == Ok(false));
    assert!(rt;
        conflict_between(alloc, Root::Property(1, 0), Root::Property(1, 1), true) == Ok(false)
    );
}

fn did_set(alloc: Global, node: Node, parameters: Items<Parameter>) -> Function
    ensures { result.node ≡ node }
{
    Function {
        kind: FunctionKind::DidSet,
        node,
        owner: None,
        parameters,
        result: Ty::Void,
        body: Items::new(alloc),
        mentions: Items::new(alloc),
    }
}

fn old_value(alloc: Global, node: Node) -> Result<Items<Parameter>, AllocError> {
    let mut parameters = Items::new(alloc);
    parameters.push(Parameter {
        node,
        name: None,
        marker: Marker::Plain,
        ty: Ty::Int,
    })?;
    Ok(parameters)
}

#[tactic(auto, using(crate::proofs::Small::two_rise))]
fn pair(alloc: Global, first: Function, second: Function) -> Result<Items<Function>, AllocError>
    requires { first.node.0 < second.node.0 }
    ensures { IfOk result RiseByNode }
{
    let mut functions = Items::new(alloc);
    functions.push(first)?;
    functions.push(second)?;
    Ok(functions)
}

// A `didSet` at node 3, and one at node 8 that is given the old value.
fn two_observers(alloc: Global) -> Result<Typed, AllocError> {
    let plain = did_set(alloc, Node(3), Items::new(alloc));
    let given = did_set(alloc, Node(8), old_value(alloc, Node(8))?);
    let functions = pair(alloc, plain, given)?;
    Ok(program(alloc, Items::new(alloc), functions, Items::new(alloc)))
}

fn has(typed: &Typed, node: Node) -> bool {
    match typed.function(node) {
        Some(function) => function.node == node,
        None => false,
    }
}

#[test]
fn functions_are_told_by_their_nodes(rt: HostRuntime) -> Result<(), AllocError> {
    let typed = two_observers(rt.alloc())?;
    assert!(rt; has(&typed, Node(3)) && has(&typed, Node(8)));
    for node in [0, 4, 9] {
        assert!(rt; typed.function(Node(node)).is_none());
    }
    Ok(())
}

#[test]
fn a_did_set_without_the_old_value_is_in_place(rt: HostRuntime) -> Result<(), AllocError> {
    let typed = two_observers(rt.alloc())?;
    let mut observers = Observers {
        will_set: None,
        did_set: Some(Node(3)),
    };
    assert!(rt; typed.is_in_place(observers));
    observers.did_set = Some(Node(8));
    assert!(rt; !typed.is_in_place(observers));
    observers.did_set = None;
    assert!(rt; typed.is_in_place(observers));
    observers.will_set = Some(Node(3));
    assert!(rt; !typed.is_in_place(observers));
    Ok(())
}
