// Statements one after another, blocks and bodies.

ghost use Rattle.std.specs.Prelude.{◌≡◌, IfOk, Some, [], ◌∷◌};
ghost use Rattle.sx_bodies.specs.Statements as bodies;
ghost use Rattle.sx_check_expr.specs.Deeper.{JudgesExprs, JudgesStatements};
ghost use Rattle.sx_check_expr.specs.Judge.{judged_block, judged_expr, judged_statements};
ghost use Rattle.sx_scope.specs.Verdict.{Answers, ◌▷◌, both, found, typed};
ghost use Rattle.sx_scope.specs.Walks.{numbered};
ghost use Rattle.sx_scope.specs.declared.walk.Use.TheVariants as uses;
ghost use Rattle.sx_typed.specs.declared.code.StatementForm.TheVariants as forms;

use crate::deeper::{JudgedStatement, JudgedStatements, judge_expr, judge_statement};
use crate::ends::single;
use sqlite_items::Items;
use std::alloc::{AllocError, Global};
use sx_bodies::asked_to_give;
use sx_scope::{Asked, Declarations, Found, Judged, Place, Use, Walk};
use sx_tree::{Block, Expr, Statement};
use sx_typed::StatementForm;

/// Statements one after another, where `rows` judges each.
fn run_statements<S: Fn(&mut Walk, Place, &Statement) -> JudgedStatement>(
    alloc: Global,
    declarations: &Declarations,
    rows: &S,
    walk: &mut Walk,
    place: Place,
    mut statements: &[Statement],
) -> JudgedStatements
    requires { JudgesStatements declarations.now (S.pre rows.now) (S.post rows.now) }
    ensures { Answers result walk.new (bodies.run_statements place (typed [] walk.old) (judged_statements declarations.now statements.entry.now)) }
{
    let mut all = Found::Typed(Items::new(alloc));
    'statements: while let Some((first, rest)) = statements.split_first() {
        let statement = judge_statement(declarations, rows, walk, place, first)?;
        all = added(all, statement)?;
        statements = rest;
    }
    Ok(all)
}

/// Statements, and one more behind them.
fn added(
    all: Found<sx_typed::Block>,
    statement: Found<sx_typed::Statement>,
) -> Result<Found<sx_typed::Block>, AllocError>
    ensures { IfOk result (λ f. (v : _) (w : _) → found f w ≡ both (found all v) (λ _. found statement w) ▷ bodies.statement_added) }
{
    match sx_scope::both(all, statement) {
        Found::Typed((mut all, statement)) => {
            all.push(statement)?;
            Ok(Found::Typed(all))
        }
        Found::Untold => Ok(Found::Untold),
        Found::Depends => Ok(Found::Depends),
    }
}

/// Statements in a scope of their own.
fn scoped<S: Fn(&mut Walk, Place, &Statement) -> JudgedStatement>(
    alloc: Global,
    declarations: &Declarations,
    rows: &S,
    walk: &mut Walk,
    place: Place,
    statements: &[Statement],
) -> JudgedStatements
    requires { JudgesStatements declarations.now (S.pre rows.now) (S.post rows.now) }
    ensures { Answers result walk.new (bodies.scoped place (judged_statements declarations.now statements.now) walk.old) }
{
    let outside = walk.locals.len();
    let inside = Place {
        outside_block: outside,
        ..place
    };
    let all = run_statements(alloc, declarations, rows, walk, inside, statements)?;
    walk.locals.truncate(outside);
    Ok(all)
}

/// A block.
pub(crate) fn block<S: Fn(&mut Walk, Place, &Statement) -> JudgedStatement>(
    alloc: Global,
    declarations: &Declarations,
    rows: &S,
    walk: &mut Walk,
    place: Place,
    block: &Block,
) -> JudgedStatements
    requires { JudgesStatements declarations.now (S.pre rows.now) (S.post rows.now) }
    ensures { Answers result walk.new (bodies.block place (judged_block declarations.now block.now) walk.old) }
{
    walk.take_node()?;
    let statements = block.statements.as_slice();
    scoped(alloc, declarations, rows, walk, place, statements)
}

/// A body. Where it gives a value and is one expression, it gives that.
pub(crate) fn body<
    E: Fn(&mut Walk, Place, Asked, Use, &Expr) -> Judged,
    S: Fn(&mut Walk, Place, &Statement) -> JudgedStatement,
>(
    alloc: Global,
    declarations: &Declarations,
    exprs: &E,
    rows: &S,
    walk: &mut Walk,
    place: Place,
    statements: &[Statement],
) -> JudgedStatements
    requires exprs { JudgesExprs declarations.now (E.pre exprs.now) (E.post exprs.now) }
    requires rows { JudgesStatements declarations.now (S.pre rows.now) (S.post rows.now) }
    ensures { Answers result walk.new (bodies.body place (judged_statements declarations.now statements.now) walk.old) }
{
    match single(place.gives, statements) {
        Some((site, expr)) => given_by(alloc, declarations, exprs, walk, place, site, expr),
        None => scoped(alloc, declarations, rows, walk, place, statements),
    }
}

/// The one expression of a body, which gives its value.
fn given_by<E: Fn(&mut Walk, Place, Asked, Use, &Expr) -> Judged>(
    alloc: Global,
    declarations: &Declarations,
    exprs: &E,
    walk: &mut Walk,
    place: Place,
    site: u32,
    expr: &Expr,
) -> JudgedStatements
    requires { JudgesExprs declarations.now (E.pre exprs.now) (E.post exprs.now) }
    ensures { Answers result walk.new (numbered (λ n w. (judged_expr declarations.now expr.now).value place (bodies.asked_to_give place.gives) uses.Kept w ▷ bodies.given_back site) walk.old) }
{
    walk.take_node()?;
    let asked = asked_to_give(place.gives);
    match judge_expr(declarations, exprs, walk, place, asked, Use::Kept, expr)? {
        Found::Typed(value) => Ok(Found::Typed(given_back(alloc, site, value)?)),
        Found::Untold => Ok(Found::Untold),
        Found::Depends => Ok(Found::Depends),
    }
}

/// A body that gives this value.
fn given_back(
    alloc: Global,
    site: u32,
    value: sx_typed::Expr,
) -> Result<sx_typed::Block, AllocError>
    ensures { IfOk result (λ b. b ≡ bodies.statement site (forms.Return (Some value)) ∷ []) }
{
    one(
        alloc,
        sx_typed::Statement {
            site,
            form: StatementForm::Return(Some(value)),
        },
    )
}

/// One statement, as a block.
pub(crate) fn one(
    alloc: Global,
    statement: sx_typed::Statement,
) -> Result<sx_typed::Block, AllocError>
    ensures { IfOk result (λ b. b ≡ statement ∷ []) }
{
    let mut all = Items::new(alloc);
    all.push(statement)?;
    Ok(all)
}
