// Expressions and statements, with all that they hold. Here the circle closes.

ghost use Rattle.sx_bodies.specs.Statements as bodies;
ghost use Rattle.sx_check_expr.specs.Judge.{judged_block, judged_expr, judged_statement, judged_statements};
ghost use Rattle.sx_scope.specs.Verdict.{Answers};

use crate::deeper::{JudgedStatement, JudgedStatements};
use crate::{blocks, exprs, statements};
use std::alloc::Global;
use sx_scope::{Asked, Declarations, Judged, Place, TypeStop, Use, Walk};
use sx_tree::{Block, Expr, Statement};

/// An expression, in which others stand at most so deep.
#[cycle(knot)]
fn expr_at(
    alloc: Global,
    declarations: &Declarations,
    depth: u32,
    walk: &mut Walk,
    place: Place,
    asked: Asked,
    used: Use,
    expr: &Expr,
) -> Judged
    ensures { Answers result walk.new ((judged_expr declarations.now expr.now).value place asked used walk.old) }
{
    let Some(fewer) = depth.checked_sub(1) else {
        return Err(TypeStop::NoMemory);
    };
    let exprs = |walk: &mut Walk, place: Place, asked: Asked, used: Use, expr: &Expr| -> Judged
        ensures { Answers result walk.new ((judged_expr declarations.entry.now expr.now).value place asked used walk.old) }
    { expr_at(alloc, declarations, fewer, walk, place, asked, used, expr) };
    let rows = |walk: &mut Walk, place: Place, statement: &Statement| -> JudgedStatement
        ensures { Answers result walk.new ((judged_statement declarations.entry.now statement.now).value place walk.old) }
    { statement_at(alloc, declarations, fewer, walk, place, statement) };
    exprs::expr(
        alloc,
        declarations,
        &exprs,
        &rows,
        walk,
        place,
        asked,
        used,
        expr,
    )
}

/// A statement, in which others stand at most so deep.
#[cycle(knot)]
fn statement_at(
    alloc: Global,
    declarations: &Declarations,
    depth: u32,
    walk: &mut Walk,
    place: Place,
    statement: &Statement,
) -> JudgedStatement
    ensures { Answers result walk.new ((judged_statement declarations.now statement.now).value place walk.old) }
{
    let Some(fewer) = depth.checked_sub(1) else {
        return Err(TypeStop::NoMemory);
    };
    let exprs = |walk: &mut Walk, place: Place, asked: Asked, used: Use, expr: &Expr| -> Judged
        ensures { Answers result walk.new ((judged_expr declarations.entry.now expr.now).value place asked used walk.old) }
    { expr_at(alloc, declarations, fewer, walk, place, asked, used, expr) };
    let rows = |walk: &mut Walk, place: Place, statement: &Statement| -> JudgedStatement
        ensures { Answers result walk.new ((judged_statement declarations.entry.now statement.now).value place walk.old) }
    { statement_at(alloc, declarations, fewer, walk, place, statement) };
    statements::statement(alloc, declarations, &exprs, &rows, walk, place, statement)
}

/// An expression at a place, of which something is asked: what it is, or the first node in it
/// that fails.
pub fn expr(
    alloc: Global,
    declarations: &Declarations,
    walk: &mut Walk,
    place: Place,
    asked: Asked,
    used: Use,
    expr: &Expr,
) -> Judged
    ensures { Answers result walk.new ((judged_expr declarations.now expr.now).value place asked used walk.old) }
{
    expr_at(
        alloc,
        declarations,
        u32::MAX,
        walk,
        place,
        asked,
        used,
        expr,
    )
}

/// A statement at a place: what it is, or the first node in it that fails.
pub fn statement(
    alloc: Global,
    declarations: &Declarations,
    walk: &mut Walk,
    place: Place,
    statement: &Statement,
) -> JudgedStatement
    ensures { Answers result walk.new ((judged_statement declarations.now statement.now).value place walk.old) }
{
    statement_at(alloc, declarations, u32::MAX, walk, place, statement)
}

/// A block at a place: what it holds, or the first node in it that fails.
pub fn block(
    alloc: Global,
    declarations: &Declarations,
    walk: &mut Walk,
    place: Place,
    block: &Block,
) -> JudgedStatements
    ensures { Answers result walk.new (bodies.block place (judged_block declarations.now block.now) walk.old) }
{
    let rows = |walk: &mut Walk, place: Place, statement: &Statement| -> JudgedStatement
        ensures { Answers result walk.new ((judged_statement declarations.entry.now statement.now).value place walk.old) }
    { statement_at(alloc, declarations, u32::MAX, walk, place, statement) };
    blocks::block(alloc, declarations, &rows, walk, place, block)
}

/// A body at a place: what it holds, or the first node in it that fails. Where it gives a value
/// and is one expression, it gives that.
pub fn body(
    alloc: Global,
    declarations: &Declarations,
    walk: &mut Walk,
    place: Place,
    statements: &[Statement],
) -> JudgedStatements
    ensures { Answers result walk.new (bodies.body place (judged_statements declarations.now statements.now) walk.old) }
{
    let exprs = |walk: &mut Walk, place: Place, asked: Asked, used: Use, expr: &Expr| -> Judged
        ensures { Answers result walk.new ((judged_expr declarations.entry.now expr.now).value place asked used walk.old) }
    {
        expr_at(
            alloc,
            declarations,
            u32::MAX,
            walk,
            place,
            asked,
            used,
            expr,
        )
    };
    let rows = |walk: &mut Walk, place: Place, statement: &Statement| -> JudgedStatement
        ensures { Answers result walk.new ((judged_statement declarations.entry.now statement.now).value place walk.old) }
    { statement_at(alloc, declarations, u32::MAX, walk, place, statement) };
    blocks::body(alloc, declarations, &exprs, &rows, walk, place, statements)
}
