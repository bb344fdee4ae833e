// Operands: values of basic types, `self`, names, and what stands in brackets or behind a sign.

ghost use Rattle.sx_check_expr.specs.Deeper.{JudgesExprs};
ghost use Rattle.sx_check_expr.specs.Judge as judge;
ghost use Rattle.sx_check_expr.specs.Judge.{judged_expr};
ghost use Rattle.sx_calls.specs.Operators.{given};
ghost use Rattle.sx_scope.specs.Names as names;
ghost use Rattle.sx_scope.specs.Paths.{an_expr};
ghost use Rattle.sx_scope.specs.Verdict.{Answers};
ghost use Rattle.sx_scope.specs.Walks.{numbered};
ghost use Rattle.sx_scope.specs.declared.walk.Use.TheVariants as uses;

use crate::deeper::judge_expr;
use sqlite_items::Boxed;
use std::alloc::Global;
use sx_calls::give;
use sx_scope::{Asked, Declarations, Found, Judged, Place, Use, Walk, name_value, self_value};
use sx_span::Node;
use sx_tree::Expr;
use sx_types::Ty;

/// A value of a basic type.
pub(crate) fn constant(
    walk: &mut Walk,
    asked: Asked,
    site: u32,
    ty: Ty,
    form: sx_typed::Form,
) -> Judged
    ensures { Answers result walk.new (numbered (λ n. given n asked (an_expr n site ty form)) walk.old) }
{
    let node = walk.take_node()?;
    let value = sx_typed::Expr {
        node,
        site,
        ty,
        form,
    };
    give(walk, node, asked, value)
}

/// A name where a value stands.
pub(crate) fn named(
    alloc: Global,
    declarations: &Declarations,
    walk: &mut Walk,
    place: Place,
    asked: Asked,
    used: Use,
    site: u32,
    name: u32,
) -> Judged
    ensures { Answers result walk.new (numbered (λ n. names.name_value declarations.now place asked used n site name) walk.old) }
{
    let node = walk.take_node()?;
    name_value(
        alloc,
        declarations,
        walk,
        place,
        asked,
        used,
        node,
        site,
        name,
    )
}

/// The word `self`.
pub(crate) fn self_word(
    alloc: Global,
    declarations: &Declarations,
    walk: &mut Walk,
    place: Place,
    asked: Asked,
    site: u32,
) -> Judged
    ensures { Answers result walk.new (numbered (λ n. names.self_value declarations.now place asked n site) walk.old) }
{
    let node = walk.take_node()?;
    self_value(alloc, declarations, walk, place, asked, node, site)
}

/// An expression in brackets, of which is asked what is asked of the whole.
pub(crate) fn bracketed_value<E: Fn(&mut Walk, Place, Asked, Use, &Expr) -> Judged>(
    alloc: Global,
    declarations: &Declarations,
    exprs: &E,
    walk: &mut Walk,
    place: Place,
    asked: Asked,
    site: u32,
    inner: &Expr,
) -> Judged
    requires { JudgesExprs declarations.now (E.pre exprs.now) (E.post exprs.now) }
    ensures { Answers result walk.new (judge.bracketed_value (judged_expr declarations.now inner.now) site place asked uses.Kept walk.old) }
{
    let node = walk.take_node()?;
    match judge_expr(declarations, exprs, walk, place, asked, Use::Kept, inner)? {
        Found::Typed(inner) => bracketed(alloc, walk, node, site, inner),
        Found::Untold => Ok(Found::Untold),
        Found::Depends => Ok(Found::Depends),
    }
}

fn bracketed(alloc: Global, walk: &Walk, node: Node, site: u32, inner: sx_typed::Expr) -> Judged
    ensures { Answers result walk.now (judge.bracketed node site inner walk.now) }
{
    let ty = inner.ty;
    let form = sx_typed::Form::Bracketed(Boxed::new(alloc, inner)?);
    Ok(Found::Typed(sx_typed::Expr {
        node,
        site,
        ty,
        form,
    }))
}

/// An integer behind a minus.
pub(crate) fn negated_value<E: Fn(&mut Walk, Place, Asked, Use, &Expr) -> Judged>(
    alloc: Global,
    declarations: &Declarations,
    exprs: &E,
    walk: &mut Walk,
    place: Place,
    asked: Asked,
    site: u32,
    inner: &Expr,
) -> Judged
    requires { JudgesExprs declarations.now (E.pre exprs.now) (E.post exprs.now) }
    ensures { Answers result walk.new (judge.negated_value (judged_expr declarations.now inner.now) site place asked uses.Kept walk.old) }
{
    let node = walk.take_node()?;
    let integer = Asked::Type(Ty::Int);
    match judge_expr(declarations, exprs, walk, place, integer, Use::Kept, inner)? {
        Found::Typed(inner) => negated(alloc, walk, asked, node, site, inner),
        Found::Untold => Ok(Found::Untold),
        Found::Depends => Ok(Found::Depends),
    }
}

fn negated(
    alloc: Global,
    walk: &Walk,
    asked: Asked,
    node: Node,
    site: u32,
    inner: sx_typed::Expr,
) -> Judged
    ensures { Answers result walk.now (judge.negated node site asked inner walk.now) }
{
    let form = sx_typed::Form::Negate(Boxed::new(alloc, inner)?);
    let value = sx_typed::Expr {
        node,
        site,
        ty: Ty::Int,
        form,
    };
    give(walk, node, asked, value)
}

/// A truth value behind `!`.
pub(crate) fn inverted_value<E: Fn(&mut Walk, Place, Asked, Use, &Expr) -> Judged>(
    alloc: Global,
    declarations: &Declarations,
    exprs: &E,
    walk: &mut Walk,
    place: Place,
    asked: Asked,
    site: u32,
    inner: &Expr,
) -> Judged
    requires { JudgesExprs declarations.now (E.pre exprs.now) (E.post exprs.now) }
    ensures { Answers result walk.new (judge.inverted_value (judged_expr declarations.now inner.now) site place asked uses.Kept walk.old) }
{
    let node = walk.take_node()?;
    let truth = Asked::Type(Ty::Bool);
    match judge_expr(declarations, exprs, walk, place, truth, Use::Kept, inner)? {
        Found::Typed(inner) => inverted(alloc, walk, asked, node, site, inner),
        Found::Untold => Ok(Found::Untold),
        Found::Depends => Ok(Found::Depends),
    }
}

fn inverted(
    alloc: Global,
    walk: &Walk,
    asked: Asked,
    node: Node,
    site: u32,
    inner: sx_typed::Expr,
) -> Judged
    ensures { Answers result walk.now (judge.inverted node site asked inner walk.now) }
{
    let form = sx_typed::Form::Not(Boxed::new(alloc, inner)?);
    let value = sx_typed::Expr {
        node,
        site,
        ty: Ty::Bool,
        form,
    };
    give(walk, node, asked, value)
}
