// Statements.

ghost use Rattle.std.specs.Prelude.{◌≡◌, ◌==◌, IfOk, OnOk, drop};
ghost use Rattle.std.specs.List.{list_any};
ghost use Rattle.sx_bodies.specs.Statements as statements;
ghost use Rattle.sx_scope.specs.Verdict.{Answers, found, need, typed, typed_part};

use std::alloc::{AllocError, Global};
use sx_scope::{
    Asked, Declarations, Found, Gives, Judged, Known, Local, Place, Symbol, TypeKind, TypeStop,
    Walk, into_path, is_modifiable, is_void,
};
use sx_span::Node;
use sx_tree::Assignment;
use sx_typed::{Arithmetic, Expr, Lvalue, StatementForm};
use sx_types::Ty;

/// Whether a name may be declared beside the locals from this index on.
pub fn is_fresh(declarations: &Declarations, walk: &Walk, from: usize, name: u32) -> bool
    ensures { result ≡ statements.is_fresh declarations.now from name walk.now }
{
    !(is_reserved(declarations, name) || is_taken(walk.locals.as_slice(), from, name))
}

/// Whether a name has a meaning of its own, which no declaration can take.
pub fn is_reserved(declarations: &Declarations, name: u32) -> bool
    ensures { result ≡ statements.is_reserved declarations.now name }
{
    match declarations.symbols.get(name) {
        Some(Symbol::BasicType | Symbol::Print) => true,
        _ => false,
    }
}

fn is_taken(locals: &[Local], from: usize, name: u32) -> bool
    ensures { result ≡ list_any (λ l. l.name == name) (drop from locals.now) }
{
    locals.iter().skip(from).any(|local| local.name == name)
}

/// Brings a local into scope, unless one of those from this index on has its name.
pub fn declare(walk: &mut Walk, from: usize, local: Local) -> Result<(), AllocError>
    ensures { OnOk result (walk.new ≡ statements.unless_taken from local walk.old) }
{
    if !is_taken(walk.locals.as_slice(), from, local.name) {
        walk.locals.push(local)?;
    }
    Ok(())
}

/// Where an initial value stands that may give its declaration a type.
pub fn giving_in(place: Place, written: bool, node: Node) -> Place
    ensures { result ≡ statements.giving_in place written node }
{
    match (written, place.giving) {
        (false, None) => Place {
            giving: Some(node),
            ..place
        },
        _ => place,
    }
}

/// What is asked of an initial value by the written type, if there is one.
pub fn asked_by_written(written: &Found<Option<Ty>>) -> Asked
    ensures { result ≡ statements.asked_by_written (typed_part written.now) }
{
    match written {
        Found::Typed(None) => Asked::Nothing,
        Found::Typed(Some(Ty::Void)) => Asked::Unknown,
        Found::Typed(Some(ty)) => Asked::Type(*ty),
        Found::Untold | Found::Depends => Asked::Unknown,
    }
}

/// What is asked of the one expression of a body.
pub fn asked_to_give(gives: Gives) -> Asked
    ensures { result ≡ statements.asked_to_give gives }
{
    match gives {
        Gives::Nothing => Asked::Nothing,
        Gives::Unknown => Asked::Unknown,
        Gives::Type(ty) => Asked::Type(ty),
    }
}

/// An initial value, whose declaration fails at this node where its type is `Void`.
pub fn declared_with(walk: &Walk, node: Node, written: Option<Ty>, value: Expr) -> Judged
    ensures { Answers result walk.now (statements.declared_with node (tt, (written, value)) walk.now) }
{
    let ty = match written {
        Some(ty) => ty,
        None => value.ty,
    };
    demand(walk, !is_void(ty), TypeKind::Mismatch, node, value)
}

/// A value at which this must hold of the node.
fn demand(walk: &Walk, holds: bool, kind: TypeKind, node: Node, value: Expr) -> Judged
    ensures { Answers result walk.now (need holds kind node (typed value) walk.now) }
{
    if holds {
        Ok(Found::Typed(value))
    } else {
        Err(TypeStop::Typing(kind, node))
    }
}

/// The written type of a local, which fails at this node where it is `Void`.
pub fn not_void_written(
    walk: &Walk,
    node: Node,
    written: Option<Ty>,
) -> Result<Found<Option<Ty>>, TypeStop>
    ensures { Answers result walk.now (statements.not_void_written node written walk.now) }
{
    let holds = !is_void_option(written);
    if holds {
        Ok(Found::Typed(written))
    } else {
        Err(TypeStop::Typing(TypeKind::Mismatch, node))
    }
}

fn is_void_option(written: Option<Ty>) -> bool
    ensures { result ≡ statements.is_void_option written }
{
    match written {
        Some(ty) => is_void(ty),
        None => false,
    }
}

/// The written type of a local, where it stands.
pub fn stated_type(written: &Found<Option<Ty>>) -> Option<Ty>
    ensures { (w : _) → result ≡ statements.stated_type (found written.now w) }
{
    match written {
        Found::Typed(ty) => *ty,
        Found::Untold | Found::Depends => None,
    }
}

/// What is known of the type of a local, by its written type and what is found at its initial value.
/// A written type stands, whatever the value depends on.
pub fn known_local(written: Option<Ty>, value: &Found<Expr>) -> Known
    ensures { (w : _) → result ≡ statements.known_local written (found value.now w) }
{
    match value {
        Found::Typed(value) => Known::Type(value.ty),
        Found::Untold => written_known(written, Known::Untold),
        Found::Depends => written_known(written, Known::Failed),
    }
}

fn written_known(written: Option<Ty>, known: Known) -> Known
    ensures { result ≡ statements.written_known written known }
{
    match written {
        Some(ty) => Known::Type(ty),
        None => known,
    }
}

/// The declaration of a local.
pub fn local_form(constant: bool, node: Node, name: u32, value: Expr) -> StatementForm
    ensures { result ≡ statements.local_form constant node name value }
{
    if constant {
        StatementForm::Constant(node, value)
    } else {
        StatementForm::Local(sx_typed::Local { node, name }, value)
    }
}

/// What is asked of a left side.
pub fn asked_of_left(assignment: Assignment) -> Asked
    ensures { result ≡ statements.asked_of_left assignment }
{
    match assignment {
        Assignment::Store => Asked::Nothing,
        _ => Asked::Type(Ty::Int),
    }
}

/// What is asked of a right side, by what is found on the left.
pub fn asked_of_right(assignment: Assignment, left: &Found<Expr>) -> Asked
    ensures { result ≡ statements.asked_of_right assignment (typed_part left.now) }
{
    match assignment {
        Assignment::Store => sx_calls::asked_by(left),
        _ => Asked::Type(Ty::Int),
    }
}

/// A left side, which fails at its node where it can't be modified.
pub fn assignable(walk: &Walk, left: Expr) -> Judged
    ensures { Answers result walk.now (statements.assignable left walk.now) }
{
    let node = left.node;
    demand(
        walk,
        is_modifiable(&left),
        TypeKind::NotAssignable,
        node,
        left,
    )
}

/// An assignment of a value to the path of the left side.
pub fn assignment_form(
    alloc: Global,
    assignment: Assignment,
    left: Expr,
    value: Expr,
) -> Result<StatementForm, AllocError>
    ensures { IfOk result (λ f. f ≡ statements.assigned_form assignment left value) }
{
    let path = into_path(alloc, left)?;
    Ok(assigned_form(assignment, path, value))
}

fn assigned_form(assignment: Assignment, path: Lvalue, value: Expr) -> StatementForm
    ensures { result ≡ statements.assignment_form assignment path value }
{
    match assignment {
        Assignment::Store => StatementForm::Assign(path, value),
        Assignment::Add => StatementForm::Compound(Arithmetic::Add, path, value),
        Assignment::Subtract => StatementForm::Compound(Arithmetic::Subtract, path, value),
        Assignment::Multiply => StatementForm::Compound(Arithmetic::Multiply, path, value),
        Assignment::Divide => StatementForm::Compound(Arithmetic::Divide, path, value),
        Assignment::Remainder => StatementForm::Compound(Arithmetic::Remainder, path, value),
    }
}
