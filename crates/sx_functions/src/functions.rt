// Functions and methods.

ghost use Rattle.std.specs.Prelude.{◌≡◌};
ghost use Rattle.sx_functions.specs.Functions as functions;
ghost use Rattle.sx_functions.specs.Places as places;
ghost use Rattle.sx_heads.specs.Heads.{checked_head};
ghost use Rattle.sx_heads.specs.declared.parameters.ParameterList.TheVariants as lists;
ghost use Rattle.sx_scope.specs.Verdict.{Answers, ◌▷◌, both, moved, typed_part};

use crate::parts::{add_function, demand_narrow, parameters_of};
use crate::places::{body_place, body_value, is_return_missing, leave, new_name};
use indexmap::IndexSet;
use sqlite_items::Items;
use std::alloc::Global;
use sx_heads::{HeadParameter, JudgedHead, ParameterList, checked_head, is_narrow_head};
use sx_scope::{Declarations, Found, Gives, TypeKind, TypeStop, Walk, demand, joined};
use sx_span::Node;
use sx_tree::Function;
use sx_typed::{Block, FunctionKind};
use sx_types::Ty;

/// A head, its parameters and its result, and the statements of the body.
type FunctionParts = ((Items<HeadParameter>, Ty), Block);

type JudgedParts = Result<Found<FunctionParts>, TypeStop>;

/// A function, or a method of the owner, beside declarations with these names. It goes among the
/// functions of the walk, before the closure literals that stand in it.
pub fn function(
    alloc: Global,
    declarations: &Declarations,
    walk: &mut Walk,
    owner: Option<Ty>,
    seen: &IndexSet<u32>,
    function: &Function,
) -> Result<Found<()>, TypeStop>
    ensures { Answers result walk.new (functions.function declarations.now owner seen.now.keys function.now walk.old) }
{
    let node = walk.take_node()?;
    let before = walk.literals.len();
    match left_parts(alloc, declarations, walk, owner, seen, node, function)? {
        Found::Typed(parts) => function_added(alloc, walk, owner, node, function, before, parts),
        Found::Untold => Ok(Found::Untold),
        Found::Depends => Ok(Found::Depends),
    }
}

/// The parts of a function. Behind them its locals are out of scope.
fn left_parts(
    alloc: Global,
    declarations: &Declarations,
    walk: &mut Walk,
    owner: Option<Ty>,
    seen: &IndexSet<u32>,
    node: Node,
    function: &Function,
) -> JudgedParts
    ensures { Answers result walk.new (moved (places.left walk.old) (both (places.new_name declarations.now seen.now.keys function.now.name.number node walk.old) (functions.function_parts declarations.now owner node function.now) ▷ functions.returning declarations.now node function.now)) }
{
    let locals = walk.locals.len();
    let mentions = walk.mentions.len();
    let parts = returning_parts(alloc, declarations, walk, owner, seen, node, function);
    leave(walk, locals, mentions);
    parts
}

/// The parts of a function whose name is new, and whose body gives a value where it has to.
fn returning_parts(
    alloc: Global,
    declarations: &Declarations,
    walk: &mut Walk,
    owner: Option<Ty>,
    seen: &IndexSet<u32>,
    node: Node,
    function: &Function,
) -> JudgedParts
    ensures { Answers result walk.new (both (places.new_name declarations.now seen.now.keys function.now.name.number node walk.old) (functions.function_parts declarations.now owner node function.now) ▷ functions.returning declarations.now node function.now) }
{
    match named_parts(alloc, declarations, walk, owner, seen, node, function)? {
        Found::Typed((_, parts)) => returning(declarations, walk, node, function, parts),
        Found::Untold => Ok(Found::Untold),
        Found::Depends => Ok(Found::Depends),
    }
}

/// The name of a function, and its parts.
fn named_parts(
    alloc: Global,
    declarations: &Declarations,
    walk: &mut Walk,
    owner: Option<Ty>,
    seen: &IndexSet<u32>,
    node: Node,
    function: &Function,
) -> Result<Found<((), FunctionParts)>, TypeStop>
    ensures { Answers result walk.new (both (places.new_name declarations.now seen.now.keys function.now.name.number node walk.old) (functions.function_parts declarations.now owner node function.now)) }
{
    let name = new_name(declarations, walk, seen, function.name.number, node)?;
    let parts = function_parts(alloc, declarations, walk, owner, node, function);
    joined(name, parts)
}

/// The head of a function, and its body.
fn function_parts(
    alloc: Global,
    declarations: &Declarations,
    walk: &mut Walk,
    owner: Option<Ty>,
    node: Node,
    function: &Function,
) -> JudgedParts
    ensures { Answers result walk.new (functions.function_parts declarations.now owner node function.now walk.old) }
{
    let head = narrow_head(alloc, declarations, walk, owner, node, function)?;
    let gives = given_by(&head);
    let place = body_place(owner, function.mutating, None, gives);
    let body = body_value(alloc, declarations, walk, place, &function.body);
    joined(head, body)
}

/// The head of a function, which fails at the function where it has too many words.
fn narrow_head(
    alloc: Global,
    declarations: &Declarations,
    walk: &mut Walk,
    owner: Option<Ty>,
    node: Node,
    function: &Function,
) -> JudgedHead
    ensures { Answers result walk.new (checked_head declarations.now lists.OfFunction function.now.parameters function.now.result walk.old ▷ functions.narrow_head declarations.now owner node function.now) }
{
    let parameters = function.parameters.as_slice();
    let result_type = function.result.as_ref();
    match checked_head(
        alloc,
        declarations,
        walk,
        ParameterList::OfFunction,
        parameters,
        result_type,
    )? {
        Found::Typed(head) => narrow(declarations, walk, owner, node, function, head),
        Found::Untold => Ok(Found::Untold),
        Found::Depends => Ok(Found::Depends),
    }
}

fn narrow(
    declarations: &Declarations,
    walk: &Walk,
    owner: Option<Ty>,
    node: Node,
    function: &Function,
    head: (Items<HeadParameter>, Ty),
) -> JudgedHead
    ensures { Answers result walk.now (functions.narrow_head declarations.now owner node function.now head walk.now) }
{
    let narrow = is_narrow_head(
        &declarations.types,
        function.mutating,
        owner,
        head.0.as_slice(),
    );
    demand_narrow(walk, narrow, node)?;
    Ok(Found::Typed(head))
}

/// What a body gives whose head is found.
fn given_by(head: &Found<(Items<HeadParameter>, Ty)>) -> Gives
    ensures { result ≡ functions.given_by (typed_part head.now) }
{
    match head {
        Found::Typed((_, ty)) => Gives::Type(*ty),
        Found::Untold | Found::Depends => Gives::Unknown,
    }
}

/// The parts of a function, which fails where its body has to give a value and reaches its end.
fn returning(
    declarations: &Declarations,
    walk: &Walk,
    node: Node,
    function: &Function,
    parts: FunctionParts,
) -> JudgedParts
    ensures { Answers result walk.now (functions.returning declarations.now node function.now (tt, parts) walk.now) }
{
    let gives = Gives::Type(parts.0.1);
    let lacking = is_return_missing(declarations, gives, function.body.statements.as_slice());
    demand(walk, !lacking, TypeKind::MissingReturn, node)?;
    Ok(Found::Typed(parts))
}

fn kind_of(owner: Option<Ty>, mutating: bool) -> FunctionKind
    ensures { result ≡ functions.kind_of owner mutating }
{
    match owner {
        None => FunctionKind::Function,
        Some(_) => {
            if mutating {
                FunctionKind::MutatingMethod
            } else {
                FunctionKind::Method
            }
        }
    }
}

/// Adds a function before the functions of the walk from this index on.
fn function_added(
    alloc: Global,
    walk: &mut Walk,
    owner: Option<Ty>,
    node: Node,
    function: &Function,
    before: usize,
    parts: FunctionParts,
) -> Result<Found<()>, TypeStop>
    ensures { Answers result walk.new (functions.function_added owner node function.now before parts walk.old) }
{
    let ((head, result_type), body) = parts;
    let parameters = parameters_of(alloc, head.as_slice())?;
    let typed = sx_typed::Function {
        kind: kind_of(owner, function.mutating),
        node,
        owner,
        parameters,
        result: result_type,
        body,
        mentions: Items::new(alloc),
    };
    add_function(walk, before, typed)
}
