//! The expressions, blocks and statements of a tree by the numbers of their nodes.
#![tactic(auto)]

mod code;
mod copies;
mod laws;
mod own;
mod pieces;
mod search;
mod stacks;

pub use code::Code;
pub use laws::one_code_a_node;
pub use search::code_at;
