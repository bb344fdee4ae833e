// Declarations of locals.

ghost use Rattle.std.specs.Prelude.{◌≡◌, is_some};
ghost use Rattle.sx_bodies.specs.Statements as bodies;
ghost use Rattle.sx_check_expr.specs.Deeper.{JudgesExprs};
ghost use Rattle.sx_check_expr.specs.Judge.{judged_expr};
ghost use Rattle.sx_scope.specs.Verdict.{Answers, ◌▷◌, both_by, found};
ghost use Rattle.sx_scope.specs.WrittenTypes.{judged_option};
ghost use Rattle.sx_scope.specs.declared.walk.Use.TheVariants as uses;

use crate::deeper::{JudgedStatement, judge_expr};
use crate::room::unless_full;
use std::alloc::Global;
use sx_bodies::{
    asked_by_written, declare, declared_with, giving_in, is_fresh, known_local, local_form,
    not_void_written, stated_type,
};
use sx_scope::{
    Asked, Declarations, Found, Judged, LocalKind, Place, TypeKind, TypeStop, Use, Walk, joined,
    type_option,
};
use sx_span::Node;
use sx_tree::{Expr, Local, WrittenType};
use sx_typed::Statement;
use sx_types::Ty;

/// The declaration of a local, whose name comes into scope behind it.
pub(crate) fn local_statement<E: Fn(&mut Walk, Place, Asked, Use, &Expr) -> Judged>(
    alloc: Global,
    declarations: &Declarations,
    exprs: &E,
    walk: &mut Walk,
    place: Place,
    site: u32,
    local: &Local,
) -> JudgedStatement
    requires { JudgesExprs declarations.now (E.pre exprs.now) (E.post exprs.now) }
    ensures { Answers result walk.new (bodies.local_statement declarations.now local.now.constant local.now.name.number site (is_some local.now.ty) (judged_option declarations.now local.now.ty) (judged_expr declarations.now local.now.value) place walk.old) }
{
    let node = walk.take_node()?;
    let name = local.name.number;
    match declared_value(alloc, declarations, exprs, walk, place, node, local)? {
        Found::Typed(value) => Ok(Found::Typed(Statement {
            site,
            form: local_form(local.constant, node, name, value),
        })),
        Found::Untold => Ok(Found::Untold),
        Found::Depends => Ok(Found::Depends),
    }
}

/// The initial value of a local, whose name may be declared here. Behind it the local is in scope.
fn declared_value<E: Fn(&mut Walk, Place, Asked, Use, &Expr) -> Judged>(
    alloc: Global,
    declarations: &Declarations,
    exprs: &E,
    walk: &mut Walk,
    place: Place,
    node: Node,
    local: &Local,
) -> Judged
    requires { JudgesExprs declarations.now (E.pre exprs.now) (E.post exprs.now) }
    ensures { Answers result walk.new (bodies.declares place local.now.name.number local.now.constant node (bodies.local_stated declarations.now place local.now.name.number (judged_option declarations.now local.now.ty) node walk.old) (bodies.local_value declarations.now place local.now.name.number (is_some local.now.ty) (judged_option declarations.now local.now.ty) (judged_expr declarations.now local.now.value) node walk.old)) }
{
    if is_fresh(declarations, walk, place.outside_block, local.name.number) {
        fresh_local(alloc, declarations, exprs, walk, place, node, local)
    } else {
        Err(TypeStop::Typing(TypeKind::Duplicate, node))
    }
}

/// The initial value of a local. Behind it the local is in scope, with its written type where that
/// stands.
fn fresh_local<E: Fn(&mut Walk, Place, Asked, Use, &Expr) -> Judged>(
    alloc: Global,
    declarations: &Declarations,
    exprs: &E,
    walk: &mut Walk,
    place: Place,
    node: Node,
    local: &Local,
) -> Judged
    requires { JudgesExprs declarations.now (E.pre exprs.now) (E.post exprs.now) }
    ensures { Answers result walk.new (bodies.declares place local.now.name.number local.now.constant node (bodies.stated_type (judged_option declarations.now local.now.ty walk.old ▷ bodies.not_void_written node)) (both_by (judged_option declarations.now local.now.ty walk.old ▷ bodies.not_void_written node) (λ t. (judged_expr declarations.now local.now.value).value (bodies.giving_in place (is_some local.now.ty) node) (bodies.asked_by_written t) uses.Kept) ▷ (λ x. bodies.declared_with node (tt, x)))) }
{
    let written = written_type(alloc, declarations, walk, node, &local.ty)?;
    let stated = stated_type(&written);
    let value = value_with(declarations, exprs, walk, place, node, local, written)?;
    let declared = sx_scope::Local {
        name: local.name.number,
        node,
        kind: local_kind(local.constant),
        known: known_local(stated, &value),
        lent: false,
    };
    unless_full(value, declare(walk, place.outside_block, declared))
}

fn local_kind(constant: bool) -> LocalKind
    ensures { result ≡ bodies.local_kind_of constant }
{
    if constant {
        LocalKind::Constant
    } else {
        LocalKind::Variable
    }
}

/// The initial value of a local, behind its written type.
fn value_with<E: Fn(&mut Walk, Place, Asked, Use, &Expr) -> Judged>(
    declarations: &Declarations,
    exprs: &E,
    walk: &mut Walk,
    place: Place,
    node: Node,
    local: &Local,
    written: Found<Option<Ty>>,
) -> Judged
    requires { JudgesExprs declarations.now (E.pre exprs.now) (E.post exprs.now) }
    ensures { Answers result walk.new (both_by (found written walk.old) (λ t. (judged_expr declarations.now local.now.value).value (bodies.giving_in place (is_some local.now.ty) node) (bodies.asked_by_written t) uses.Kept) ▷ (λ x. bodies.declared_with node (tt, x))) }
{
    match type_and_value(declarations, exprs, walk, place, node, local, written)? {
        Found::Typed((written, value)) => declared_with(walk, node, written, value),
        Found::Untold => Ok(Found::Untold),
        Found::Depends => Ok(Found::Depends),
    }
}

/// The written type of a local, if it has one, beside its initial value.
fn type_and_value<E: Fn(&mut Walk, Place, Asked, Use, &Expr) -> Judged>(
    declarations: &Declarations,
    exprs: &E,
    walk: &mut Walk,
    place: Place,
    node: Node,
    local: &Local,
    written: Found<Option<Ty>>,
) -> Result<Found<(Option<Ty>, sx_typed::Expr)>, TypeStop>
    requires { JudgesExprs declarations.now (E.pre exprs.now) (E.post exprs.now) }
    ensures { Answers result walk.new (both_by (found written walk.old) (λ t. (judged_expr declarations.now local.now.value).value (bodies.giving_in place (is_some local.now.ty) node) (bodies.asked_by_written t) uses.Kept)) }
{
    let inside = giving_in(place, local.ty.is_some(), node);
    let asked = asked_by_written(&written);
    let value = judge_expr(
        declarations,
        exprs,
        walk,
        inside,
        asked,
        Use::Kept,
        &local.value,
    );
    joined(written, value)
}

/// The written type of a local, if it has one.
fn written_type(
    alloc: Global,
    declarations: &Declarations,
    walk: &mut Walk,
    node: Node,
    ty: &Option<WrittenType>,
) -> Result<Found<Option<Ty>>, TypeStop>
    ensures { Answers result walk.new (judged_option declarations.now ty.now walk.old ▷ bodies.not_void_written node) }
{
    match type_option(alloc, declarations, walk, ty)? {
        Found::Typed(written) => not_void_written(walk, node, written),
        Found::Untold => Ok(Found::Untold),
        Found::Depends => Ok(Found::Depends),
    }
}
