//! Which statement of the outermost level reaches a stored global that is declared at or after it.
//!
//! Reaching is by what is mentioned: a statement mentions the functions, closure literals and
//! globals in it, and a function mentions those in its body.
#![tactic(auto)]

mod bodies;
mod expressions;
mod mentions;
mod reaching;

pub use mentions::{Mentioned, Purpose};
pub use reaching::{LateReach, late};
