//! Statements, blocks and closure literals, and with them whole expressions.
//!
//! Here the circle of expressions, closures and statements is closed (`code.rt`): one function
//! reads what a level holds, and hands the readers itself, with fewer levels left.
#![tactic(auto)]

mod blocks;
mod code;
mod literals;
mod signatures;
mod statements;

pub use blocks::separator;
pub use code::{block, block_items, expr, statement};
