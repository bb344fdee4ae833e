// Expressions, by their forms.

ghost use Rattle.std.specs.Prelude.{option_map};
ghost use Rattle.sx_check_expr.specs.Deeper.{JudgesExprs, JudgesStatements};
ghost use Rattle.sx_check_expr.specs.Judge.{judged_closure, judged_expr, judged_form, named};
ghost use Rattle.sx_scope.specs.Verdict.{Answers};

use crate::calls::named_call;
use crate::deeper::JudgedStatement;
use crate::elements::array_value;
use crate::links::chain_value;
use crate::literals::literal;
use crate::operands;
use crate::postfix::postfix_value;
use std::alloc::Global;
use sx_scope::{Asked, Declarations, Judged, Place, Use, Walk};
use sx_tree::{Closure, Expr, ExprForm, Statement};
use sx_typed::Form;
use sx_types::Ty;

/// An expression, where `exprs` judges those in it, and `rows` the statements.
pub fn expr<
    E: Fn(&mut Walk, Place, Asked, Use, &Expr) -> Judged,
    S: Fn(&mut Walk, Place, &Statement) -> JudgedStatement,
>(
    alloc: Global,
    declarations: &Declarations,
    exprs: &E,
    rows: &S,
    walk: &mut Walk,
    place: Place,
    asked: Asked,
    used: Use,
    expr: &Expr,
) -> Judged
    requires exprs { JudgesExprs declarations.now (E.pre exprs.now) (E.post exprs.now) }
    requires rows { JudgesStatements declarations.now (S.pre rows.now) (S.post rows.now) }
    ensures { Answers result walk.new ((judged_expr declarations.now expr.now).value place asked used walk.old) }
{
    let site = expr.span.start;
    form_value(
        alloc,
        declarations,
        exprs,
        rows,
        walk,
        place,
        asked,
        used,
        site,
        &expr.form,
    )
}

fn form_value<
    E: Fn(&mut Walk, Place, Asked, Use, &Expr) -> Judged,
    S: Fn(&mut Walk, Place, &Statement) -> JudgedStatement,
>(
    alloc: Global,
    declarations: &Declarations,
    exprs: &E,
    rows: &S,
    walk: &mut Walk,
    place: Place,
    asked: Asked,
    used: Use,
    site: u32,
    form: &ExprForm,
) -> Judged
    requires exprs { JudgesExprs declarations.now (E.pre exprs.now) (E.post exprs.now) }
    requires rows { JudgesStatements declarations.now (S.pre rows.now) (S.post rows.now) }
    ensures { Answers result walk.new ((judged_form declarations.now form.now site).value place asked used walk.old) }
{
    match form {
        ExprForm::Int(value) => {
            operands::constant(walk, asked, site, Ty::Int, Form::Int(*value))
        }
        ExprForm::LeastInt => operands::constant(walk, asked, site, Ty::Int, Form::LeastInt),
        ExprForm::Bool(value) => {
            operands::constant(walk, asked, site, Ty::Bool, Form::Bool(*value))
        }
        ExprForm::PrintText(text) => {
            operands::constant(walk, asked, site, Ty::Void, Form::PrintText(*text))
        }
        ExprForm::Named(name, closure) => {
            named_value(
                alloc,
                declarations,
                exprs,
                rows,
                walk,
                place,
                asked,
                used,
                site,
                *name,
                closure,
            )
        }
        ExprForm::SelfWord => { operands::self_word(alloc, declarations, walk, place, asked, site) }
        ExprForm::Bracketed(inner) => {
            operands::bracketed_value(
                alloc,
                declarations,
                exprs,
                walk,
                place,
                asked,
                site,
                inner.get(),
            )
        }
        ExprForm::Negate(inner) => {
            operands::negated_value(
                alloc,
                declarations,
                exprs,
                walk,
                place,
                asked,
                site,
                inner.get(),
            )
        }
        ExprForm::Not(inner) => {
            operands::inverted_value(
                alloc,
                declarations,
                exprs,
                walk,
                place,
                asked,
                site,
                inner.get(),
            )
        }
        ExprForm::Chain(first, links) => {
            chain_value(
                alloc,
                declarations,
                exprs,
                walk,
                place,
                asked,
                site,
                first.get(),
                links.as_slice(),
            )
        }
        ExprForm::Postfix(operand, parts) => {
            postfix_value(
                alloc,
                declarations,
                exprs,
                rows,
                walk,
                place,
                asked,
                site,
                operand.get(),
                parts.as_slice(),
            )
        }
        ExprForm::Closure(closure) => {
            literal(
                alloc,
                declarations,
                exprs,
                rows,
                walk,
                place,
                asked,
                used,
                closure,
            )
        }
        ExprForm::Array(elements) => {
            array_value(
                alloc,
                declarations,
                exprs,
                walk,
                place,
                asked,
                site,
                elements.as_slice(),
            )
        }
    }
}

/// A name, which is called where a closure literal stands behind it.
fn named_value<
    E: Fn(&mut Walk, Place, Asked, Use, &Expr) -> Judged,
    S: Fn(&mut Walk, Place, &Statement) -> JudgedStatement,
>(
    alloc: Global,
    declarations: &Declarations,
    exprs: &E,
    rows: &S,
    walk: &mut Walk,
    place: Place,
    asked: Asked,
    used: Use,
    site: u32,
    name: u32,
    closure: &Option<Closure>,
) -> Judged
    requires exprs { JudgesExprs declarations.now (E.pre exprs.now) (E.post exprs.now) }
    requires rows { JudgesStatements declarations.now (S.pre rows.now) (S.post rows.now) }
    ensures { Answers result walk.new ((named declarations.now name (option_map (judged_closure declarations.now) closure.now) site).value place asked used walk.old) }
{
    match closure {
        None => { operands::named(alloc, declarations, walk, place, asked, used, site, name) }
        Some(_) => {
            named_call(
                alloc,
                declarations,
                exprs,
                rows,
                walk,
                place,
                asked,
                site,
                name,
                closure,
            )
        }
    }
}
