// Accessors and observers.

ghost use Rattle.std.specs.Prelude.{◌≡◌, ◌++◌, IfOk, length, map};
ghost use Rattle.sx_functions.specs.Accessors as judged;
ghost use Rattle.sx_functions.specs.Functions.{parameter_of};
ghost use Rattle.sx_functions.specs.Places as places;
ghost use Rattle.sx_scope.specs.Verdict.{Answers, ◌▷◌, both, found, moved, typed};

use crate::own::{modifies, narrow_accessor, own_name, own_narrow, own_parameter, takes};
use crate::parts::{add_function, parameters_of};
use crate::places::{body_place, body_value, is_return_missing, leave};
use sqlite_items::Items;
use std::alloc::{AllocError, Global};
use sx_heads::HeadParameter;
use sx_scope::{Declarations, Found, Gives, Known, TypeKind, TypeStop, Walk, both, demand, joined};
use sx_span::Node;
use sx_tree::{Accessor, AccessorKind};
use sx_typed::{Block, Function, FunctionKind, Marker, Parameter};
use sx_types::Ty;

/// What accessors and observers stand with.
#[derive(Drop)]
pub struct Accessed {
    /// The structure or class that it is a member of.
    pub owner: Option<Ty>,
    /// The node of the property, global or subscript.
    pub node: Node,
    /// What is known of its type.
    pub ty: Known,
    /// The parameters of a subscript.
    pub parameters: Items<HeadParameter>,
    /// How many locals were in scope before these.
    pub from: usize,
}

/// The numbers of the names that parameters of accessors and observers have where none is
/// written, if the text has them.
#[derive(Clone, Copy)]
pub struct OwnNames {
    /// `newValue`
    pub new_value: Option<u32>,
    /// `oldValue`
    pub old_value: Option<u32>,
}

/// Whether it takes a parameter, and the statements of its body.
type AccessorParts = (bool, Block);

type JudgedParts = Result<Found<AccessorParts>, TypeStop>;

/// Accessors and observers one after another. They go among the functions of the walk, each before
/// the closure literals that stand in it.
pub fn accessors(
    alloc: Global,
    declarations: &Declarations,
    walk: &mut Walk,
    names: OwnNames,
    accessed: &Accessed,
    accessors: &[Accessor],
) -> Result<Found<()>, TypeStop>
    ensures { Answers result walk.new (judged.run_accessors declarations.now names accessed.now (typed tt walk.old) accessors.now) }
{
    let mut remaining = accessors;
    let mut all = Found::Typed(());
    'remaining: while let Some((first, rest)) = remaining.split_first() {
        let found = accessor(alloc, declarations, walk, names, accessed, first)?;
        all = nothing_more(all, found);
        remaining = rest;
    }
    Ok(all)
}

/// What is found at two parts that give nothing.
fn nothing_more(first: Found<()>, second: Found<()>) -> Found<()>
    ensures { (v : _) (w : _) → found result w ≡ both (found first v) (λ _. found second w) ▷ judged.nothing_more }
{
    match both(first, second) {
        Found::Typed(_) => Found::Typed(()),
        Found::Untold => Found::Untold,
        Found::Depends => Found::Depends,
    }
}

/// An accessor or observer.
fn accessor(
    alloc: Global,
    declarations: &Declarations,
    walk: &mut Walk,
    names: OwnNames,
    accessed: &Accessed,
    accessor: &Accessor,
) -> Result<Found<()>, TypeStop>
    ensures { Answers result walk.new (judged.accessor declarations.now names accessed.now accessor.now walk.old) }
{
    let node = walk.take_node()?;
    accessor_at(alloc, declarations, walk, names, accessed, accessor, node)
}

/// The accessor or observer at this node.
fn accessor_at(
    alloc: Global,
    declarations: &Declarations,
    walk: &mut Walk,
    names: OwnNames,
    accessed: &Accessed,
    accessor: &Accessor,
    node: Node,
) -> Result<Found<()>, TypeStop>
    ensures { Answers result walk.new (moved (places.left walk.old) (judged.accessor_parts declarations.now names accessed.now accessor.now node walk.old ▷ judged.returning declarations.now accessed.now accessor.now node) ▷ judged.accessor_added names accessed.now accessor.now node (length walk.old.literals)) }
{
    let before = walk.literals.len();
    let parts = left_parts(alloc, declarations, walk, names, accessed, accessor, node)?;
    found_added(alloc, walk, names, accessed, accessor, node, before, parts)
}

/// The parts of an accessor or observer. Behind them its locals are out of scope.
fn left_parts(
    alloc: Global,
    declarations: &Declarations,
    walk: &mut Walk,
    names: OwnNames,
    accessed: &Accessed,
    accessor: &Accessor,
    node: Node,
) -> JudgedParts
    ensures { Answers result walk.new (moved (places.left walk.old) (judged.accessor_parts declarations.now names accessed.now accessor.now node walk.old ▷ judged.returning declarations.now accessed.now accessor.now node)) }
{
    let locals = walk.locals.len();
    let mentions = walk.mentions.len();
    let parts = returning_parts(alloc, declarations, walk, names, accessed, accessor, node);
    leave(walk, locals, mentions);
    parts
}

/// The parts of an accessor or observer that gives a value where it has to.
fn returning_parts(
    alloc: Global,
    declarations: &Declarations,
    walk: &mut Walk,
    names: OwnNames,
    accessed: &Accessed,
    accessor: &Accessor,
    node: Node,
) -> JudgedParts
    ensures { Answers result walk.new (judged.accessor_parts declarations.now names accessed.now accessor.now node walk.old ▷ judged.returning declarations.now accessed.now accessor.now node) }
{
    let parts = accessor_parts(alloc, declarations, walk, names, accessed, accessor, node)?;
    found_returning(declarations, walk, accessed, accessor, node, parts)
}

/// Whether it takes a parameter, and the statements of its body.
fn accessor_parts(
    alloc: Global,
    declarations: &Declarations,
    walk: &mut Walk,
    names: OwnNames,
    accessed: &Accessed,
    accessor: &Accessor,
    node: Node,
) -> JudgedParts
    ensures { Answers result walk.new (judged.accessor_parts declarations.now names accessed.now accessor.now node walk.old) }
{
    let before = walk.mentions.len();
    let parts = own_and_body(alloc, declarations, walk, names, accessed, accessor, node)?;
    found_took(declarations, walk, accessed, accessor, node, before, parts)
}

/// Its own parameter, and its body.
fn own_and_body(
    alloc: Global,
    declarations: &Declarations,
    walk: &mut Walk,
    names: OwnNames,
    accessed: &Accessed,
    accessor: &Accessor,
    node: Node,
) -> Result<Found<((), Block)>, TypeStop>
    ensures { Answers result walk.new (both (judged.own_parameter declarations.now names accessed.now accessor.now node walk.old ▷ judged.own_narrow declarations.now accessed.now accessor.now node) (judged.accessor_body declarations.now accessed.now accessor.now)) }
{
    let own = narrow_own(declarations, walk, names, accessed, accessor, node)?;
    let body = accessor_body(alloc, declarations, walk, accessed, accessor);
    joined(own, body)
}

/// Its own parameter, where its parameters haven't surely too many words.
fn narrow_own(
    declarations: &Declarations,
    walk: &mut Walk,
    names: OwnNames,
    accessed: &Accessed,
    accessor: &Accessor,
    node: Node,
) -> Result<Found<()>, TypeStop>
    ensures { Answers result walk.new (judged.own_parameter declarations.now names accessed.now accessor.now node walk.old ▷ judged.own_narrow declarations.now accessed.now accessor.now node) }
{
    match own_parameter(declarations, walk, names, accessed, accessor, node)? {
        Found::Typed(()) => own_narrow(declarations, walk, accessed, accessor, node),
        Found::Untold => Ok(Found::Untold),
        Found::Depends => Ok(Found::Depends),
    }
}

/// The body of an accessor or observer.
fn accessor_body(
    alloc: Global,
    declarations: &Declarations,
    walk: &mut Walk,
    accessed: &Accessed,
    accessor: &Accessor,
) -> Result<Found<Block>, TypeStop>
    ensures { Answers result walk.new (judged.accessor_body declarations.now accessed.now accessor.now walk.old) }
{
    let place = body_place(
        accessed.owner,
        modifies(accessor.kind),
        observed_in(accessed.node, accessor.kind),
        gives_in(accessed.ty, accessor.kind),
    );
    body_value(alloc, declarations, walk, place, &accessor.body)
}

/// The property or global that it observes.
fn observed_in(node: Node, kind: AccessorKind) -> Option<Node>
    ensures { result ≡ judged.observed_in node kind }
{
    match kind {
        AccessorKind::WillSet | AccessorKind::DidSet => Some(node),
        AccessorKind::Get | AccessorKind::Set => None,
    }
}

/// What its body gives: a getter gives the value, and every other accessor or observer nothing.
fn gives_in(known: Known, kind: AccessorKind) -> Gives
    ensures { result ≡ judged.gives_in known kind }
{
    match kind {
        AccessorKind::Get => gives_known(known),
        AccessorKind::Set | AccessorKind::WillSet | AccessorKind::DidSet => Gives::Type(Ty::Void),
    }
}

fn gives_known(known: Known) -> Gives
    ensures { result ≡ judged.gives_known known }
{
    match known {
        Known::Type(ty) => Gives::Type(ty),
        Known::Failed | Known::Untold | Known::Circular => Gives::Unknown,
    }
}

/// What is found at an accessor or observer, of whose body the mentions from this index on are.
fn found_took(
    declarations: &Declarations,
    walk: &Walk,
    accessed: &Accessed,
    accessor: &Accessor,
    node: Node,
    before: usize,
    parts: Found<((), Block)>,
) -> JudgedParts
    ensures { Answers result walk.now (found parts walk.now ▷ judged.took declarations.now accessed.now accessor.now node before) }
{
    match parts {
        Found::Typed((_, body)) => {
            took(declarations, walk, accessed, accessor, node, before, body)
        }
        Found::Untold => Ok(Found::Untold),
        Found::Depends => Ok(Found::Depends),
    }
}

/// Whether it takes a parameter, of whose body the mentions from this index on are.
fn took(
    declarations: &Declarations,
    walk: &Walk,
    accessed: &Accessed,
    accessor: &Accessor,
    node: Node,
    before: usize,
    body: Block,
) -> JudgedParts
    ensures { Answers result walk.now (judged.took declarations.now accessed.now accessor.now node before (tt, body) walk.now) }
{
    let takes = takes(accessor, node, walk.mentions.as_slice(), before);
    match narrow_accessor(declarations, walk, accessed, accessor, node, takes)? {
        Found::Typed(()) => Ok(Found::Typed((takes, body))),
        Found::Untold => Ok(Found::Untold),
        Found::Depends => Ok(Found::Depends),
    }
}

/// What is found at an accessor or observer, which fails where it should give a value and doesn't.
fn found_returning(
    declarations: &Declarations,
    walk: &Walk,
    accessed: &Accessed,
    accessor: &Accessor,
    node: Node,
    parts: Found<AccessorParts>,
) -> JudgedParts
    ensures { Answers result walk.now (found parts walk.now ▷ judged.returning declarations.now accessed.now accessor.now node) }
{
    match parts {
        Found::Typed(parts) => returning(declarations, walk, accessed, accessor, node, parts),
        Found::Untold => Ok(Found::Untold),
        Found::Depends => Ok(Found::Depends),
    }
}

/// The parts of an accessor or observer, which fails where its body has to give a value and reaches
/// its end.
fn returning(
    declarations: &Declarations,
    walk: &Walk,
    accessed: &Accessed,
    accessor: &Accessor,
    node: Node,
    parts: AccessorParts,
) -> JudgedParts
    ensures { Answers result walk.now (judged.returning declarations.now accessed.now accessor.now node parts walk.now) }
{
    let gives = gives_in(accessed.ty, accessor.kind);
    let lacking = is_return_missing(declarations, gives, accessor.body.statements.as_slice());
    demand(walk, !lacking, TypeKind::MissingReturn, node)?;
    Ok(Found::Typed(parts))
}

fn kind_of(kind: AccessorKind) -> FunctionKind
    ensures { result ≡ judged.kind_of kind }
{
    match kind {
        AccessorKind::Get => FunctionKind::Getter,
        AccessorKind::Set => FunctionKind::Setter,
        AccessorKind::WillSet => FunctionKind::WillSet,
        AccessorKind::DidSet => FunctionKind::DidSet,
    }
}

fn type_known(known: Known) -> Ty
    ensures { result ≡ judged.type_known known }
{
    match known {
        Known::Type(ty) => ty,
        Known::Failed | Known::Untold | Known::Circular => Ty::Void,
    }
}

fn result_in(known: Known, kind: AccessorKind) -> Ty
    ensures { result ≡ judged.result_in known kind }
{
    match kind {
        AccessorKind::Get => type_known(known),
        AccessorKind::Set | AccessorKind::WillSet | AccessorKind::DidSet => Ty::Void,
    }
}

/// The parameters of an accessor or observer, with its own if it takes one.
fn all_parameters(
    alloc: Global,
    names: OwnNames,
    accessed: &Accessed,
    accessor: &Accessor,
    node: Node,
    takes: bool,
) -> Result<Items<Parameter>, AllocError>
    ensures { IfOk result (λ ps. ps ≡ map parameter_of accessed.now.parameters ++ judged.own_parameters names accessed.now accessor.now node takes) }
{
    let mut parameters = parameters_of(alloc, accessed.parameters.as_slice())?;
    if takes {
        parameters.push(Parameter {
            node,
            name: own_name(names, accessor),
            marker: Marker::Escaping,
            ty: type_known(accessed.ty),
        })?;
    }
    Ok(parameters)
}

/// Adds an accessor or observer, if it is typed, before the functions of the walk from this index
/// on.
fn found_added(
    alloc: Global,
    walk: &mut Walk,
    names: OwnNames,
    accessed: &Accessed,
    accessor: &Accessor,
    node: Node,
    before: usize,
    parts: Found<AccessorParts>,
) -> Result<Found<()>, TypeStop>
    ensures { Answers result walk.new (found parts walk.old ▷ judged.accessor_added names accessed.now accessor.now node before) }
{
    match parts {
        Found::Typed(parts) => {
            accessor_added(alloc, walk, names, accessed, accessor, node, before, parts)
        }
        Found::Untold => Ok(Found::Untold),
        Found::Depends => Ok(Found::Depends),
    }
}

/// Adds an accessor or observer before the functions of the walk from this index on.
fn accessor_added(
    alloc: Global,
    walk: &mut Walk,
    names: OwnNames,
    accessed: &Accessed,
    accessor: &Accessor,
    node: Node,
    before: usize,
    parts: AccessorParts,
) -> Result<Found<()>, TypeStop>
    ensures { Answers result walk.new (judged.accessor_added names accessed.now accessor.now node before parts walk.old) }
{
    let (takes, body) = parts;
    let parameters = all_parameters(alloc, names, accessed, accessor, node, takes)?;
    let function = Function {
        kind: kind_of(accessor.kind),
        node,
        owner: accessed.owner,
        parameters,
        result: result_in(accessed.ty, accessor.kind),
        body,
        mentions: Items::new(alloc),
    };
    add_function(walk, before, function)
}
