//! How wide structures are, and which of them hold themselves.
#![tactic(auto)]

mod holding;
mod measuring;
mod walking;

pub use holding::holding_themselves;
pub use measuring::{measure, width};
