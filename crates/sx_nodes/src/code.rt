// What may stand under a number.

use sx_tree::{Block, Expr, Statement};

/// An expression, a block or a statement of a tree.
#[derive(Drop)]
pub enum Code {
    Expression(Expr),
    Block(Block),
    Statement(Statement),
}
