// Calls.

ghost use Rattle.std.specs.Prelude.{◌≡◌, [], IfOk};
ghost use Rattle.sx_calls.specs.Calls as calls;
ghost use Rattle.sx_check_expr.specs.Arguments.{judged_arguments};
ghost use Rattle.sx_check_expr.specs.Deeper.{JudgesExprs, JudgesStatements};
ghost use Rattle.sx_check_expr.specs.Judge as judge;
ghost use Rattle.sx_check_expr.specs.Judge.{judged_expr};
ghost use Rattle.sx_scope.specs.Names.{called_name};
ghost use Rattle.sx_scope.specs.Verdict.{◌▷◌, Answers, both, found, typed, typed_part};
ghost use Rattle.sx_scope.specs.Walks.{numbered};

use crate::arguments::{run_arguments, shapes_of};
use crate::deeper::{JudgedStatement, judge_expr};
use std::alloc::{AllocError, Global};
use sx_calls::{Pairing, Passed, called, pair};
use sx_scope::{
    Asked, Callee, Declarations, Found, Judged, JudgedCallee, Place, Use, Walk, both, callable,
    called_name,
};
use sx_span::Node;
use sx_tree::{Argument, Closure, Expr, ExprForm, Statement};

/// A call of what is found to be called.
pub(crate) fn call_value<
    E: Fn(&mut Walk, Place, Asked, Use, &Expr) -> Judged,
    S: Fn(&mut Walk, Place, &Statement) -> JudgedStatement,
>(
    alloc: Global,
    declarations: &Declarations,
    exprs: &E,
    rows: &S,
    walk: &mut Walk,
    place: Place,
    asked: Asked,
    node: Node,
    site: u32,
    arguments: &[Argument],
    closure: &Option<Closure>,
    callee: Found<Callee>,
) -> Judged
    requires exprs { JudgesExprs declarations.now (E.pre exprs.now) (E.post exprs.now) }
    requires rows { JudgesStatements declarations.now (S.pre rows.now) (S.post rows.now) }
    ensures { Answers result walk.new (calls.call_value declarations.now place asked node site (judged_arguments declarations.now arguments.now closure.now) (found callee walk.old)) }
{
    let pairing = pair_written(alloc, declarations, &callee, arguments, closure)?;
    run_call(
        alloc,
        declarations,
        exprs,
        rows,
        walk,
        place,
        asked,
        node,
        site,
        arguments,
        closure,
        callee,
        pairing,
    )
}

/// What the arguments of a call are for.
fn pair_written(
    alloc: Global,
    declarations: &Declarations,
    callee: &Found<Callee>,
    arguments: &[Argument],
    closure: &Option<Closure>,
) -> Result<Pairing, AllocError>
    ensures { IfOk result (λ p. p ≡ calls.pairing declarations.now (typed_part callee.now) (calls.shapes declarations.now (judged_arguments declarations.now arguments.now closure.now))) }
{
    let shapes = shapes_of(alloc, arguments, closure)?;
    pair(alloc, declarations, callee, shapes.as_slice())
}

fn run_call<
    E: Fn(&mut Walk, Place, Asked, Use, &Expr) -> Judged,
    S: Fn(&mut Walk, Place, &Statement) -> JudgedStatement,
>(
    alloc: Global,
    declarations: &Declarations,
    exprs: &E,
    rows: &S,
    walk: &mut Walk,
    place: Place,
    asked: Asked,
    node: Node,
    site: u32,
    arguments: &[Argument],
    closure: &Option<Closure>,
    callee: Found<Callee>,
    pairing: Pairing,
) -> Judged
    requires exprs { JudgesExprs declarations.now (E.pre exprs.now) (E.post exprs.now) }
    requires rows { JudgesStatements declarations.now (S.pre rows.now) (S.post rows.now) }
    ensures { Answers result walk.new (calls.run_call declarations.now place asked node site (judged_arguments declarations.now arguments.now closure.now) (found callee walk.old) pairing) }
{
    let slots = pairing.slots.as_slice();
    match run_arguments(
        alloc,
        declarations,
        exprs,
        rows,
        walk,
        place,
        slots,
        arguments,
        closure,
    ) {
        Ok(passed) => {
            let counted = pairing.counted;
            called_found(
                alloc,
                declarations,
                walk,
                asked,
                node,
                site,
                counted,
                callee,
                passed,
            )
        }
        Err(stop) => Err(stop),
    }
}

/// A call, by what is found of what is called and of its arguments.
fn called_found(
    alloc: Global,
    declarations: &Declarations,
    walk: &Walk,
    asked: Asked,
    node: Node,
    site: u32,
    counted: bool,
    callee: Found<Callee>,
    passed: Found<Passed>,
) -> Judged
    ensures { Answers result walk.now (both (found callee walk.now) (λ _. found passed walk.now) ▷ calls.called declarations.now asked node site counted) }
{
    match both(callee, passed) {
        Found::Typed((callee, passed)) => {
            called(
                alloc,
                declarations,
                walk,
                asked,
                node,
                site,
                counted,
                callee,
                passed,
            )
        }
        Found::Untold => Ok(Found::Untold),
        Found::Depends => Ok(Found::Depends),
    }
}

/// A name that is called with this closure literal behind it alone.
pub(crate) fn named_call<
    E: Fn(&mut Walk, Place, Asked, Use, &Expr) -> Judged,
    S: Fn(&mut Walk, Place, &Statement) -> JudgedStatement,
>(
    alloc: Global,
    declarations: &Declarations,
    exprs: &E,
    rows: &S,
    walk: &mut Walk,
    place: Place,
    asked: Asked,
    site: u32,
    name: u32,
    closure: &Option<Closure>,
) -> Judged
    requires exprs { JudgesExprs declarations.now (E.pre exprs.now) (E.post exprs.now) }
    requires rows { JudgesStatements declarations.now (S.pre rows.now) (S.post rows.now) }
    ensures { Answers result walk.new (numbered (λ n w. calls.call_value declarations.now place asked n site (judged_arguments declarations.now [] closure.now) (numbered (λ m. called_name declarations.now place m site name) w)) walk.old) }
{
    let node = walk.take_node()?;
    let callee = callee_named(alloc, declarations, walk, place, site, name)?;
    call_value(
        alloc,
        declarations,
        exprs,
        rows,
        walk,
        place,
        asked,
        node,
        site,
        &[],
        closure,
        callee,
    )
}

/// A name alone, where it is called.
fn callee_named(
    alloc: Global,
    declarations: &Declarations,
    walk: &mut Walk,
    place: Place,
    site: u32,
    name: u32,
) -> JudgedCallee
    ensures { Answers result walk.new (numbered (λ n. called_name declarations.now place n site name) walk.old) }
{
    let node = walk.take_node()?;
    called_name(alloc, declarations, walk, place, node, site, name)
}

/// What stands before the arguments of a call.
pub(crate) fn callee<E: Fn(&mut Walk, Place, Asked, Use, &Expr) -> Judged>(
    alloc: Global,
    declarations: &Declarations,
    exprs: &E,
    walk: &mut Walk,
    place: Place,
    site: u32,
    operand: &Expr,
) -> JudgedCallee
    requires { JudgesExprs declarations.now (E.pre exprs.now) (E.post exprs.now) }
    ensures { Answers result walk.new (judge.callee declarations.now place site (judged_expr declarations.now operand.now) walk.old) }
{
    match name_alone(operand) {
        Some(name) => callee_named(alloc, declarations, walk, place, site, name),
        None => {
            let asked = Asked::Nothing;
            let value = judge_expr(declarations, exprs, walk, place, asked, Use::Kept, operand)?;
            called_value(walk, value)
        }
    }
}

/// The name that an expression is, where it is one alone.
fn name_alone(expr: &Expr) -> Option<u32>
    ensures { (d : _) → result ≡ (judged_expr d expr.now).name }
{
    match &expr.form {
        ExprForm::Named(name, None) => Some(*name),
        _ => None,
    }
}

/// What is found of a value that is called.
pub(crate) fn called_value(walk: &Walk, value: Found<sx_typed::Expr>) -> JudgedCallee
    ensures { Answers result walk.now (found value walk.now ▷ judge.called_value) }
{
    match value {
        Found::Typed(value) => callable(walk, value.node, value),
        Found::Untold => Ok(Found::Untold),
        Found::Depends => Ok(Found::Depends),
    }
}
