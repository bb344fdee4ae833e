//! Expressions, bodies and statements that are checked by themselves, by what is declared and by
//! what they see of what stands around them.
#![tactic(auto)]

mod checking;
mod parts;
mod scope;

pub use checking::{check_block, check_expression, check_statement};
pub use scope::Scope;
