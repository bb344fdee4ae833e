// Subscripts.

ghost use Rattle.std.specs.Prelude.{◌≡◌, IfOk, Some};
ghost use Rattle.sx_heads.specs.Heads.{checked_head};
ghost use Rattle.sx_heads.specs.declared.parameters.ParameterList.TheVariants as lists;
ghost use Rattle.sx_functions.specs.Places as places;
ghost use Rattle.sx_members.specs.Members as members;
ghost use Rattle.sx_members.specs.Variables.{accessed};
ghost use Rattle.sx_scope.specs.Verdict.{Answers, ◌▷◌, moved, typed_part};

use crate::members::JudgedMember;
use sqlite_items::Items;
use std::alloc::{AllocError, Global};
use sx_functions::{Accessed, OwnNames, accessors, leave};
use sx_heads::{HeadParameter, JudgedHead, ParameterList, checked_head};
use sx_scope::{Declarations, Found, Known, TypeKind, TypeStop, Walk, demand, is_void, joined};
use sx_span::Node;
use sx_tree::Subscript;
use sx_types::Ty;

/// The head of a subscript that is the only one: its parameters and its type.
type HeadParts = ((), (Items<HeadParameter>, Ty));

/// A subscript of the owner, which has `another` before it or not.
pub(crate) fn subscript(
    alloc: Global,
    declarations: &Declarations,
    walk: &mut Walk,
    names: OwnNames,
    owner: Option<Ty>,
    another: bool,
    subscript: &Subscript,
) -> JudgedMember
    ensures { Answers result walk.new (members.subscript declarations.now names owner another subscript.now walk.old) }
{
    let node = walk.take_node()?;
    match left_parts(
        alloc,
        declarations,
        walk,
        names,
        owner,
        another,
        node,
        subscript,
    )? {
        Found::Typed(_) => Ok(Found::Typed(None)),
        Found::Untold => Ok(Found::Untold),
        Found::Depends => Ok(Found::Depends),
    }
}

/// The parts of a subscript. Behind them its parameters are out of scope.
fn left_parts(
    alloc: Global,
    declarations: &Declarations,
    walk: &mut Walk,
    names: OwnNames,
    owner: Option<Ty>,
    another: bool,
    node: Node,
    subscript: &Subscript,
) -> Result<Found<(HeadParts, ())>, TypeStop>
    ensures { Answers result walk.new (moved (places.left walk.old) (members.subscript_parts declarations.now names owner another node subscript.now walk.old)) }
{
    let locals = walk.locals.len();
    let mentions = walk.mentions.len();
    let parts = subscript_parts(
        alloc,
        declarations,
        walk,
        names,
        owner,
        another,
        node,
        subscript,
    );
    leave(walk, locals, mentions);
    parts
}

/// The head of a subscript, and its accessors.
fn subscript_parts(
    alloc: Global,
    declarations: &Declarations,
    walk: &mut Walk,
    names: OwnNames,
    owner: Option<Ty>,
    another: bool,
    node: Node,
    subscript: &Subscript,
) -> Result<Found<(HeadParts, ())>, TypeStop>
    ensures { Answers result walk.new (members.subscript_parts declarations.now names owner another node subscript.now walk.old) }
{
    let from = walk.locals.len();
    let head = subscript_head(alloc, declarations, walk, another, node, subscript)?;
    let accessed = accessed_by(alloc, owner, node, from, &head)?;
    let list = subscript.accessors.as_slice();
    let accessors = accessors(alloc, declarations, walk, names, &accessed, list);
    joined(head, accessors)
}

/// What the accessors of a subscript stand with, before which so many locals were in scope.
fn accessed_by(
    alloc: Global,
    owner: Option<Ty>,
    node: Node,
    from: usize,
    head: &Found<HeadParts>,
) -> Result<Accessed, AllocError>
    ensures { IfOk result (λ a. a ≡ accessed owner node (members.known_of_head (typed_part head.now)) (members.parameters_of (typed_part head.now)) from) }
{
    let parameters = parameters_of(alloc, head)?;
    Ok(Accessed {
        owner,
        node,
        ty: known_of_head(head),
        parameters,
        from,
    })
}

/// What is known of the type of a subscript.
fn known_of_head(head: &Found<HeadParts>) -> Known
    ensures { result ≡ members.known_of_head (typed_part head.now) }
{
    match head {
        Found::Typed((_, (_, ty))) => Known::Type(*ty),
        Found::Untold | Found::Depends => Known::Failed,
    }
}

/// The parameters of a subscript that are known.
fn parameters_of(alloc: Global, head: &Found<HeadParts>) -> Result<Items<HeadParameter>, AllocError>
    ensures { IfOk result (λ ps. ps ≡ members.parameters_of (typed_part head.now)) }
{
    match head {
        Found::Typed((_, (parameters, _))) => Items::from_slice(alloc, parameters.as_slice()),
        Found::Untold | Found::Depends => Ok(Items::new(alloc)),
    }
}

/// The head of a subscript, which must be the only one.
fn subscript_head(
    alloc: Global,
    declarations: &Declarations,
    walk: &mut Walk,
    another: bool,
    node: Node,
    subscript: &Subscript,
) -> Result<Found<HeadParts>, TypeStop>
    ensures { Answers result walk.new (members.subscript_head declarations.now another node subscript.now walk.old) }
{
    let only = demand(walk, !another, TypeKind::Duplicate, node)?;
    let head = fitting_head(alloc, declarations, walk, node, subscript);
    joined(only, head)
}

/// The head of a subscript, which must give a value.
fn fitting_head(
    alloc: Global,
    declarations: &Declarations,
    walk: &mut Walk,
    node: Node,
    subscript: &Subscript,
) -> JudgedHead
    ensures { Answers result walk.new (checked_head declarations.now lists.OfSubscript subscript.now.parameters (Some subscript.now.result) walk.old ▷ members.result_fits node) }
{
    let list = ParameterList::OfSubscript;
    let parameters = subscript.parameters.as_slice();
    let result_type = Some(&subscript.result);
    match checked_head(alloc, declarations, walk, list, parameters, result_type)? {
        Found::Typed(head) => result_fits(walk, node, head),
        Found::Untold => Ok(Found::Untold),
        Found::Depends => Ok(Found::Depends),
    }
}

fn result_fits(walk: &Walk, node: Node, head: (Items<HeadParameter>, Ty)) -> JudgedHead
    ensures { Answers result walk.now (members.result_fits node head walk.now) }
{
    let void = is_void(head.1);
    if void {
        walk.fails(TypeKind::Mismatch, node)
    } else {
        Ok(Found::Typed(head))
    }
}
