// Statements, by their forms.

ghost use Rattle.std.specs.Prelude.{[], ◌∷◌};
ghost use Rattle.sx_bodies.specs.Statements as bodies;
ghost use Rattle.sx_check_expr.specs.Deeper.{JudgesExprs, JudgesStatements};
ghost use Rattle.sx_check_expr.specs.Judge.{judged_block, judged_else, judged_expr, judged_statement};
ghost use Rattle.sx_scope.specs.Verdict.{Answers, ◌▷◌, both, both_by, typed};
ghost use Rattle.sx_scope.specs.declared.walk.Asked.TheVariants as asks;
ghost use Rattle.sx_scope.specs.declared.walk.Use.TheVariants as uses;
ghost use Rattle.sx_types.specs.declared.types.Ty.TheVariants as ty;

use crate::blocks::{block, one};
use crate::deeper::{JudgedStatement, JudgedStatements, judge_expr, judge_statement};
use crate::locals::local_statement;
use crate::returns::return_statement;
use sqlite_items::Items;
use std::alloc::Global;
use sx_bodies::{asked_of_left, asked_of_right, assignable, assignment_form};
use sx_scope::{Asked, Declarations, Found, Judged, Place, TypeKind, TypeStop, Use, Walk, joined};
use sx_tree::{Assignment, Block, Else, Expr, Statement, StatementForm};
use sx_types::Ty;

/// A statement, where `exprs` judges the expressions in it, and `rows` the statements.
pub(crate) fn statement<
    E: Fn(&mut Walk, Place, Asked, Use, &Expr) -> Judged,
    S: Fn(&mut Walk, Place, &Statement) -> JudgedStatement,
>(
    alloc: Global,
    declarations: &Declarations,
    exprs: &E,
    rows: &S,
    walk: &mut Walk,
    place: Place,
    statement: &Statement,
) -> JudgedStatement
    requires exprs { JudgesExprs declarations.now (E.pre exprs.now) (E.post exprs.now) }
    requires rows { JudgesStatements declarations.now (S.pre rows.now) (S.post rows.now) }
    ensures { Answers result walk.new ((judged_statement declarations.now statement.now).value place walk.old) }
{
    let site = statement.span.start;
    match &statement.form {
        StatementForm::Expr(expr) => {
            expr_statement(declarations, exprs, walk, place, site, expr)
        }
        StatementForm::Assign(assignment, left, value) => assignment_statement(
            alloc,
            declarations,
            exprs,
            walk,
            place,
            site,
            *assignment,
            left,
            value,
        ),
        StatementForm::If(condition, block, otherwise) => if_statement(
            alloc,
            declarations,
            exprs,
            rows,
            walk,
            place,
            site,
            condition,
            block,
            otherwise,
        ),
        StatementForm::While(condition, block) => while_statement(
            alloc,
            declarations,
            exprs,
            rows,
            walk,
            place,
            site,
            condition,
            block,
        ),
        StatementForm::Return(value) => {
            return_statement(declarations, exprs, walk, place, site, value)
        }
        StatementForm::Break => leaving(walk, place, site, sx_typed::StatementForm::Break),
        StatementForm::Continue => leaving(walk, place, site, sx_typed::StatementForm::Continue),
        StatementForm::Local(local) => {
            local_statement(alloc, declarations, exprs, walk, place, site, local)
        }
    }
}

/// An expression that stands as a statement.
fn expr_statement<E: Fn(&mut Walk, Place, Asked, Use, &Expr) -> Judged>(
    declarations: &Declarations,
    exprs: &E,
    walk: &mut Walk,
    place: Place,
    site: u32,
    expr: &Expr,
) -> JudgedStatement
    requires { JudgesExprs declarations.now (E.pre exprs.now) (E.post exprs.now) }
    ensures { Answers result walk.new (bodies.expr_statement (judged_expr declarations.now expr.now) site place walk.old) }
{
    walk.take_node()?;
    match judge_expr(
        declarations,
        exprs,
        walk,
        place,
        Asked::Nothing,
        Use::Kept,
        expr,
    )? {
        Found::Typed(expr) => Ok(Found::Typed(sx_typed::Statement {
            site,
            form: sx_typed::StatementForm::Expr(expr),
        })),
        Found::Untold => Ok(Found::Untold),
        Found::Depends => Ok(Found::Depends),
    }
}

/// An assignment.
fn assignment_statement<E: Fn(&mut Walk, Place, Asked, Use, &Expr) -> Judged>(
    alloc: Global,
    declarations: &Declarations,
    exprs: &E,
    walk: &mut Walk,
    place: Place,
    site: u32,
    assignment: Assignment,
    left: &Expr,
    value: &Expr,
) -> JudgedStatement
    requires { JudgesExprs declarations.now (E.pre exprs.now) (E.post exprs.now) }
    ensures { Answers result walk.new (bodies.assignment assignment (judged_expr declarations.now left.now) (judged_expr declarations.now value.now) site place walk.old) }
{
    walk.take_node()?;
    match sides(declarations, exprs, walk, place, assignment, left, value)? {
        Found::Typed((left, value)) => assigned(alloc, site, assignment, left, value),
        Found::Untold => Ok(Found::Untold),
        Found::Depends => Ok(Found::Depends),
    }
}

/// Both sides of an assignment.
fn sides<E: Fn(&mut Walk, Place, Asked, Use, &Expr) -> Judged>(
    declarations: &Declarations,
    exprs: &E,
    walk: &mut Walk,
    place: Place,
    assignment: Assignment,
    left: &Expr,
    value: &Expr,
) -> Result<Found<(sx_typed::Expr, sx_typed::Expr)>, TypeStop>
    requires { JudgesExprs declarations.now (E.pre exprs.now) (E.post exprs.now) }
    ensures { Answers result walk.new (both_by ((judged_expr declarations.now left.now).value place (bodies.asked_of_left assignment) uses.Modified walk.old ▷ bodies.assignable) (λ left. (judged_expr declarations.now value.now).value place (bodies.asked_of_right assignment left) uses.Kept)) }
{
    let left = left_side(declarations, exprs, walk, place, assignment, left)?;
    let asked = asked_of_right(assignment, &left);
    let value = judge_expr(declarations, exprs, walk, place, asked, Use::Kept, value);
    joined(left, value)
}

/// The left side of an assignment.
fn left_side<E: Fn(&mut Walk, Place, Asked, Use, &Expr) -> Judged>(
    declarations: &Declarations,
    exprs: &E,
    walk: &mut Walk,
    place: Place,
    assignment: Assignment,
    left: &Expr,
) -> Judged
    requires { JudgesExprs declarations.now (E.pre exprs.now) (E.post exprs.now) }
    ensures { Answers result walk.new ((judged_expr declarations.now left.now).value place (bodies.asked_of_left assignment) uses.Modified walk.old ▷ bodies.assignable) }
{
    let asked = asked_of_left(assignment);
    match judge_expr(declarations, exprs, walk, place, asked, Use::Modified, left)? {
        Found::Typed(left) => assignable(walk, left),
        Found::Untold => Ok(Found::Untold),
        Found::Depends => Ok(Found::Depends),
    }
}

/// An assignment whose sides are typed.
fn assigned(
    alloc: Global,
    site: u32,
    assignment: Assignment,
    left: sx_typed::Expr,
    value: sx_typed::Expr,
) -> JudgedStatement
    ensures { (w : _) → Answers result w (bodies.assigned assignment site (left, value) w) }
{
    let form = assignment_form(alloc, assignment, left, value)?;
    Ok(Found::Typed(sx_typed::Statement { site, form }))
}

/// An `if`.
fn if_statement<
    E: Fn(&mut Walk, Place, Asked, Use, &Expr) -> Judged,
    S: Fn(&mut Walk, Place, &Statement) -> JudgedStatement,
>(
    alloc: Global,
    declarations: &Declarations,
    exprs: &E,
    rows: &S,
    walk: &mut Walk,
    place: Place,
    site: u32,
    condition: &Expr,
    block: &Block,
    otherwise: &Else,
) -> JudgedStatement
    requires exprs { JudgesExprs declarations.now (E.pre exprs.now) (E.post exprs.now) }
    requires rows { JudgesStatements declarations.now (S.pre rows.now) (S.post rows.now) }
    ensures { Answers result walk.new (bodies.if_statement (judged_expr declarations.now condition.now) (judged_block declarations.now block.now) (judged_else declarations.now otherwise.now) site place walk.old) }
{
    walk.take_node()?;
    match branches(
        alloc,
        declarations,
        exprs,
        rows,
        walk,
        place,
        condition,
        block,
        otherwise,
    )? {
        Found::Typed(((condition, block), behind)) => Ok(Found::Typed(sx_typed::Statement {
            site,
            form: sx_typed::StatementForm::If(condition, block, behind),
        })),
        Found::Untold => Ok(Found::Untold),
        Found::Depends => Ok(Found::Depends),
    }
}

/// The parts of an `if`.
fn branches<
    E: Fn(&mut Walk, Place, Asked, Use, &Expr) -> Judged,
    S: Fn(&mut Walk, Place, &Statement) -> JudgedStatement,
>(
    alloc: Global,
    declarations: &Declarations,
    exprs: &E,
    rows: &S,
    walk: &mut Walk,
    place: Place,
    condition: &Expr,
    block: &Block,
    otherwise: &Else,
) -> Result<Found<((sx_typed::Expr, sx_typed::Block), sx_typed::Block)>, TypeStop>
    requires exprs { JudgesExprs declarations.now (E.pre exprs.now) (E.post exprs.now) }
    requires rows { JudgesStatements declarations.now (S.pre rows.now) (S.post rows.now) }
    ensures { Answers result walk.new (both (both ((judged_expr declarations.now condition.now).value place (asks.Type ty.Bool) uses.Kept walk.old) (bodies.block place (judged_block declarations.now block.now))) (bodies.else_block place (judged_else declarations.now otherwise.now))) }
{
    let parts = guarded(
        alloc,
        declarations,
        exprs,
        rows,
        walk,
        place,
        place,
        condition,
        block,
    )?;
    let behind = else_block(alloc, declarations, rows, walk, place, otherwise);
    joined(parts, behind)
}

/// A condition, and the block behind it, which stands at the place `inside`.
fn guarded<
    E: Fn(&mut Walk, Place, Asked, Use, &Expr) -> Judged,
    S: Fn(&mut Walk, Place, &Statement) -> JudgedStatement,
>(
    alloc: Global,
    declarations: &Declarations,
    exprs: &E,
    rows: &S,
    walk: &mut Walk,
    place: Place,
    inside: Place,
    condition: &Expr,
    statements: &Block,
) -> Result<Found<(sx_typed::Expr, sx_typed::Block)>, TypeStop>
    requires exprs { JudgesExprs declarations.now (E.pre exprs.now) (E.post exprs.now) }
    requires rows { JudgesStatements declarations.now (S.pre rows.now) (S.post rows.now) }
    ensures { Answers result walk.new (both ((judged_expr declarations.now condition.now).value place (asks.Type ty.Bool) uses.Kept walk.old) (bodies.block inside (judged_block declarations.now statements.now))) }
{
    let asked = Asked::Type(Ty::Bool);
    let condition = judge_expr(
        declarations,
        exprs,
        walk,
        place,
        asked,
        Use::Kept,
        condition,
    )?;
    let statements = block(alloc, declarations, rows, walk, inside, statements);
    joined(condition, statements)
}

/// What follows the block of an `if`, as a block.
fn else_block<S: Fn(&mut Walk, Place, &Statement) -> JudgedStatement>(
    alloc: Global,
    declarations: &Declarations,
    rows: &S,
    walk: &mut Walk,
    place: Place,
    otherwise: &Else,
) -> JudgedStatements
    requires { JudgesStatements declarations.now (S.pre rows.now) (S.post rows.now) }
    ensures { Answers result walk.new (bodies.else_block place (judged_else declarations.now otherwise.now) walk.old) }
{
    match otherwise {
        Else::Absent => Ok(Found::Typed(Items::new(alloc))),
        Else::Block(statements) => block(alloc, declarations, rows, walk, place, statements),
        Else::ElseIf(statement) => {
            else_if(alloc, declarations, rows, walk, place, statement.get())
        }
    }
}

/// The `if` of an `else if`, as a block.
fn else_if<S: Fn(&mut Walk, Place, &Statement) -> JudgedStatement>(
    alloc: Global,
    declarations: &Declarations,
    rows: &S,
    walk: &mut Walk,
    place: Place,
    statement: &Statement,
) -> JudgedStatements
    requires { JudgesStatements declarations.now (S.pre rows.now) (S.post rows.now) }
    ensures { Answers result walk.new ((judged_statement declarations.now statement.now).value place walk.old ▷ (λ s. typed (s ∷ []))) }
{
    match judge_statement(declarations, rows, walk, place, statement)? {
        Found::Typed(statement) => Ok(Found::Typed(one(alloc, statement)?)),
        Found::Untold => Ok(Found::Untold),
        Found::Depends => Ok(Found::Depends),
    }
}

/// A `while`.
fn while_statement<
    E: Fn(&mut Walk, Place, Asked, Use, &Expr) -> Judged,
    S: Fn(&mut Walk, Place, &Statement) -> JudgedStatement,
>(
    alloc: Global,
    declarations: &Declarations,
    exprs: &E,
    rows: &S,
    walk: &mut Walk,
    place: Place,
    site: u32,
    condition: &Expr,
    block: &Block,
) -> JudgedStatement
    requires exprs { JudgesExprs declarations.now (E.pre exprs.now) (E.post exprs.now) }
    requires rows { JudgesStatements declarations.now (S.pre rows.now) (S.post rows.now) }
    ensures { Answers result walk.new (bodies.while_statement (judged_expr declarations.now condition.now) (judged_block declarations.now block.now) site place walk.old) }
{
    walk.take_node()?;
    let inside = Place {
        in_loop: true,
        ..place
    };
    match guarded(
        alloc,
        declarations,
        exprs,
        rows,
        walk,
        place,
        inside,
        condition,
        block,
    )? {
        Found::Typed((condition, block)) => Ok(Found::Typed(sx_typed::Statement {
            site,
            form: sx_typed::StatementForm::While(condition, block),
        })),
        Found::Untold => Ok(Found::Untold),
        Found::Depends => Ok(Found::Depends),
    }
}

/// A `break` or `continue`.
fn leaving(
    walk: &mut Walk,
    place: Place,
    site: u32,
    form: sx_typed::StatementForm,
) -> JudgedStatement
    ensures { Answers result walk.new (bodies.leaving form site place walk.old) }
{
    let node = walk.take_node()?;
    if place.in_loop {
        Ok(Found::Typed(sx_typed::Statement { site, form }))
    } else {
        walk.fails(TypeKind::BreakOutside, node)
    }
}
