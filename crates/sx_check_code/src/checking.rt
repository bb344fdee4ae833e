// Expressions, bodies and statements by themselves, by the numbers of their nodes.

ghost use Rattle.std.specs.Prelude.{length};
ghost use Rattle.sx_tree.specs.Nodes.{block_places, expr_places, statement_places};
ghost use Rattle.sx_check_code.specs.Checks as checks;
ghost use Rattle.sx_check_code.specs.Checks.{FailInOrder, IsBlock, IsExpression, IsStatement, Tells};

use crate::parts::{checked_body, checked_expression, checked_statement};
use crate::scope::Scope;
use std::alloc::Global;
use sx_nodes::{Code, code_at};
use sx_scope::{Declarations, TypeStop};
use sx_span::Node;
use sx_tree::Tree;
use sx_types::Ty;

/// The expression of this node, for which a type may be expected, as what is declared and what it
/// sees have it; none, exactly where no node in it fails and it depends on a declaration that has
/// failed; or why it is refused, at the failing node in it with the least number.
///
/// Memory runs out too where it hangs on a type that the scope doesn't tell.
pub fn check_expression(
    alloc: Global,
    tree: &Tree,
    declarations: &Declarations,
    scope: &Scope,
    node: Node,
    expected: Option<Ty>,
) -> Result<Option<sx_typed::Expr>, TypeStop>
    requires { (e : _) × IsExpression tree.now.items node e }
    ensures told { (e : _) → IsExpression tree.now.items node e → Tells result (checks.expression declarations.now scope.now node e expected) }
    ensures order { (e : _) → IsExpression tree.now.items node e → FailInOrder node (length (expr_places e)) (checks.expression declarations.now scope.now node e expected) }
{
    let found = code_at(alloc, tree, node)?;
    if let Some(code) = &found {
        if let Code::Expression(expression) = code {
            return checked_expression(alloc, declarations, scope, node, expression, expected);
        }
    }
    // What stands there is an expression.
    Err(TypeStop::NoMemory)
}

/// The statements of the body of this node, which stands in no loop, as what is declared and what it
/// sees have them; none, exactly where no node in it fails and it depends on a declaration that has
/// failed; or why it is refused, at the failing node in it with the least number.
///
/// Memory runs out too where it hangs on a type that the scope doesn't tell.
pub fn check_block(
    alloc: Global,
    tree: &Tree,
    declarations: &Declarations,
    scope: &Scope,
    node: Node,
) -> Result<Option<sx_typed::Block>, TypeStop>
    requires { (b : _) × IsBlock tree.now.items node b }
    ensures told { (b : _) → IsBlock tree.now.items node b → Tells result (checks.body declarations.now scope.now node b) }
    ensures order { (b : _) → IsBlock tree.now.items node b → FailInOrder node (length (block_places b)) (checks.body declarations.now scope.now node b) }
{
    let found = code_at(alloc, tree, node)?;
    if let Some(code) = &found {
        if let Code::Block(block) = code {
            return checked_body(alloc, declarations, scope, node, block);
        }
    }
    // What stands there is a block.
    Err(TypeStop::NoMemory)
}

/// The statement of this node, as what is declared and what it sees have it; none, exactly where no
/// node in it fails and it depends on a declaration that has failed; or why it is refused, at the
/// failing node in it with the least number.
///
/// Memory runs out too where it hangs on a type that the scope doesn't tell.
pub fn check_statement(
    alloc: Global,
    tree: &Tree,
    declarations: &Declarations,
    scope: &Scope,
    node: Node,
) -> Result<Option<sx_typed::Statement>, TypeStop>
    requires { (s : _) × IsStatement tree.now.items node s }
    ensures told { (s : _) → IsStatement tree.now.items node s → Tells result (checks.statement declarations.now scope.now node s) }
    ensures order { (s : _) → IsStatement tree.now.items node s → FailInOrder node (length (statement_places s)) (checks.statement declarations.now scope.now node s) }
{
    let found = code_at(alloc, tree, node)?;
    if let Some(code) = &found {
        if let Code::Statement(statement) = code {
            return checked_statement(alloc, declarations, scope, node, statement);
        }
    }
    // What stands there is a statement.
    Err(TypeStop::NoMemory)
}
