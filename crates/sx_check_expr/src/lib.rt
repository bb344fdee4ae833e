//! Expressions, statements and bodies: what they are, with all that they hold.
#![tactic(auto)]

mod arguments;
mod blocks;
mod calls;
mod deeper;
mod elements;
mod ends;
mod exprs;
mod indices;
mod knot;
mod links;
mod literals;
mod locals;
mod operands;
mod postfix;
mod returns;
mod room;
mod statements;

pub use deeper::{JudgedStatement, JudgedStatements};
pub use ends::lacks_return;
pub use knot::{block, body, expr, statement};
