// Parts of a tree that are handed in, with the numbers of their nodes.

ghost use Rattle.std.specs.Prelude.{◌≡◌, length};
ghost use Rattle.sx_scope.specs.Verdict.{Answers};
ghost use Rattle.sx_functions.specs.Places.{body_value};
ghost use Rattle.sx_tree.specs.Nodes.{block_places, expr_places, statement_places};
ghost use Rattle.sx_check_code.specs.Checks as checks;
ghost use Rattle.sx_check_code.specs.Checks.{FailInOrder, Tells};
ghost use Rattle.sx_check_code.specs.Told.{told};

use crate::scope::{Scope, asked_by, place_in, walk_in};
use std::alloc::Global;
use sx_check_expr::{JudgedStatements, body, expr};
use sx_scope::{Declarations, Found, Place, TypeStop, Use, Walk};
use sx_span::Node;
use sx_tree::{Block, Expr, Statement};
use sx_types::Ty;

/// The expression of this node, for which a type may be expected.
pub fn checked_expression(
    alloc: Global,
    declarations: &Declarations,
    scope: &Scope,
    node: Node,
    expression: &Expr,
    expected: Option<Ty>,
) -> Result<Option<sx_typed::Expr>, TypeStop>
    ensures told { Tells result (checks.expression declarations.now scope.now node expression.now expected) }
    ensures order { FailInOrder node (length (expr_places expression.now)) (checks.expression declarations.now scope.now node expression.now expected) }
{
    let mut walk = walk_in(alloc, scope, node)?;
    let judged = expr(
        alloc,
        declarations,
        &mut walk,
        place_in(scope),
        asked_by(expected),
        Use::Kept,
        expression,
    );
    told(judged)
}

/// The statements of the body of this node.
pub fn checked_body(
    alloc: Global,
    declarations: &Declarations,
    scope: &Scope,
    node: Node,
    block: &Block,
) -> Result<Option<sx_typed::Block>, TypeStop>
    ensures told { Tells result (checks.body declarations.now scope.now node block.now) }
    ensures order { FailInOrder node (length (block_places block.now)) (checks.body declarations.now scope.now node block.now) }
{
    let mut walk = walk_in(alloc, scope, node)?;
    let judged = body_of(alloc, declarations, &mut walk, place_in(scope), block);
    told(judged)
}

/// A body, which is a node.
fn body_of(
    alloc: Global,
    declarations: &Declarations,
    walk: &mut Walk,
    place: Place,
    block: &Block,
) -> JudgedStatements
    ensures { Answers result walk.new (body_value declarations.now place block.now walk.old) }
{
    walk.take_node()?;
    body(
        alloc,
        declarations,
        walk,
        place,
        block.statements.as_slice(),
    )
}

/// The statement of this node.
pub fn checked_statement(
    alloc: Global,
    declarations: &Declarations,
    scope: &Scope,
    node: Node,
    statement: &Statement,
) -> Result<Option<sx_typed::Statement>, TypeStop>
    ensures told { Tells result (checks.statement declarations.now scope.now node statement.now) }
    ensures order { FailInOrder node (length (statement_places statement.now)) (checks.statement declarations.now scope.now node statement.now) }
{
    let mut walk = walk_in(alloc, scope, node)?;
    let judged = sx_check_expr::statement(
        alloc,
        declarations,
        &mut walk,
        place_in(scope),
        statement,
    );
    told(judged)
}

/// What is told of what is answered.
fn told<A: Drop>(answered: Result<Found<A>, TypeStop>) -> Result<Option<A>, TypeStop>
    ensures { result ≡ told answered }
{
    match answered? {
        Found::Typed(typed) => Ok(Some(typed)),
        Found::Untold => Err(TypeStop::NoMemory),
        Found::Depends => Ok(None),
    }
}
