// Programs.

ghost use Rattle.std.specs.Prelude.{◌≡◌, ◌∷◌, Err, IfOk, IsTrue, None, length, map};
ghost use Rattle.sx_check_decl.specs.Captures as captures;
ghost use Rattle.sx_check_decl.specs.Items.{Paired};
ghost use Rattle.sx_check_decl.specs.Program.{Checked, IsTyped, Tells, TellsCrowded, TellsLate, bytes_of};
ghost use Rattle.sx_late.specs.Reaching.{IsFirstLate};
ghost use Rattle.sx_scope.specs.Verdict.{typed};
ghost use Rattle.sx_typed.specs.Functions.{RiseByNode};

use crate::captures::crowded;
use crate::items::Program;
use crate::locals::variables_of;
use crate::looks::{at_start, judge_program};
use crate::settling::settled;
use crate::special::{own_names, special_names};
use sqlite_items::Items;
use std::alloc::{AllocError, Global};
use sx_late::{LateReach, late};
use sx_scope::{TypeStop, Walk};
use sx_span::Node;
use sx_tree::Tree;
use sx_typed::{Function, Typed};
use sx_types::Types;

/// The typed tree of a program, or why its names and types are refused.
///
/// `NoMemory` is answered, too, where the nodes of the functions don't rise, which can't arise.
pub fn check(alloc: Global, tree: &Tree) -> Result<Typed, TypeStop>
    ensures { Checked tree.now result }
{
    let special = special_names(tree.names.as_slice())?;
    let own = own_names(tree.names.as_slice())?;
    let mut settled = settled(alloc, special, tree.items.as_slice())?;
    let mut walk = at_start(alloc);
    let program = judge_program(alloc, &mut settled, own, &mut walk, tree.items.as_slice())?;
    finished(alloc, tree, settled.declarations.types, program, walk)
}

/// The typed tree of a program, unless its literals capture too much or a statement of the
/// outermost level reaches a global too late.
fn finished(
    alloc: Global,
    tree: &Tree,
    types: Types,
    program: Program,
    walk: Walk,
) -> Result<Typed, TypeStop>
    requires { Paired program }
    ensures { Tells tree.now types result (typed program walk) }
{
    match narrow(&types, walk.literals.as_slice()) {
        Ok(()) => completed(alloc, tree, types, program, walk),
        Err(stop) => Err(stop),
    }
}

/// Refuses closure literals that capture too many words together.
fn narrow(types: &Types, functions: &[Function]) -> Result<(), TypeStop>
    ensures { TellsCrowded types.now functions.now result }
{
    match crowded(types, functions) {
        None => Ok(()),
        Some(node) => Err(TypeStop::TooWide(node)),
    }
}

/// The typed tree of a program whose literals don't capture too much.
fn completed(
    alloc: Global,
    tree: &Tree,
    types: Types,
    program: Program,
    walk: Walk,
) -> Result<Typed, TypeStop>
    requires { Paired program }
    ensures { captures.crowded types walk.literals ≡ None → Tells tree.now types result (typed program walk) }
{
    let (typed, starts) = typed_tree(alloc, tree, types, program, walk)?;
    unless_late(alloc, starts, typed)
}

/// The typed tree of a program, and the nodes at which the statements of the outermost level start.
fn typed_tree(
    alloc: Global,
    tree: &Tree,
    types: Types,
    program: Program,
    walk: Walk,
) -> Result<(Typed, Items<Node>), AllocError>
    ensures typed { IfOk result (λ r. IsTyped tree.now types program walk r.0) }
    ensures starts { IfOk result (λ r. r.1 ≡ program.starts) }
{
    let texts = copied(alloc, tree.texts.as_slice())?;
    let names = copied(alloc, tree.names.as_slice())?;
    let lines = Vec::from_slice(alloc, tree.lines.as_slice())?;
    let places = Vec::from_slice(alloc, tree.places.as_slice())?;
    let functions = in_order(walk.literals.into_items())?;
    let locals = variables_of(alloc, program.top.as_slice(), functions.as_slice())?;
    let Program {
        top,
        starts,
        globals,
        structures,
        classes,
    } = program;
    let typed = Typed {
        types,
        structures,
        classes,
        globals,
        functions,
        top,
        initialisers: Items::new(alloc),
        locals,
        texts,
        names,
        lines,
        places,
    };
    Ok((typed, starts))
}

/// The typed tree, unless a statement of the outermost level reaches a global too late. The
/// statements start at these nodes.
fn unless_late(alloc: Global, starts: Items<Node>, typed: Typed) -> Result<Typed, TypeStop>
    requires { length starts ≡ length typed.top }
    ensures { TellsLate starts typed result }
{
    match late(alloc, &typed)? {
        None => Ok(typed),
        Some(reach) => Err(late_stop(starts.as_slice(), &typed, reach)),
    }
}

/// What is told where this statement is the first to reach a global too late.
fn late_stop(starts: &[Node], typed: &Typed, reach: LateReach) -> TypeStop
    requires starts { length starts.now ≡ length typed.now.top }
    requires late { IsFirstLate typed.now reach }
    ensures { TellsLate starts.now typed.now (Err result) }
{
    let globals = typed.globals.as_slice();
    TypeStop::Late {
        at: starts[reach.statement],
        global: globals[reach.global as usize].node,
    }
}

fn copied(alloc: Global, mut lists: &[Vec<u8>]) -> Result<Vec<Vec<u8>>, AllocError>
    ensures { IfOk result (λ c. map bytes_of c.items ≡ map bytes_of lists.entry.now) }
{
    let mut copies = Vec::new(alloc);
    'lists: while let Some((list, rest)) = lists.split_first() {
        copies.push(Vec::from_slice(alloc, list.as_slice())?)?;
        lists = rest;
    }
    Ok(copies)
}

/// The functions, which stand in the order of their nodes.
fn in_order(functions: Items<Function>) -> Result<Items<Function>, AllocError>
    ensures functions { IfOk result (λ f. f ≡ functions) }
    ensures rise { IfOk result (λ f. RiseByNode f) }
{
    if rise(functions.as_slice()) {
        Ok(functions)
    } else {
        Err(AllocError)
    }
}

/// Whether each node is less than the next.
fn rise(mut functions: &[Function]) -> bool
    ensures { IsTrue result → RiseByNode functions.entry.now }
{
    'functions: while let Some((first, others)) = functions.split_first() {
        if !is_before(first, others) {
            return false;
        }
        functions = others;
    }
    true
}

/// Whether the node of a function is less than that of the first of the others, if there is one.
fn is_before(first: &Function, others: &[Function]) -> bool
    ensures { IsTrue result → RiseByNode others.now → RiseByNode (first.now ∷ others.now) }
{
    match others {
        [] => true,
        [second, ..] => first.node.0 < second.node.0,
    }
}
