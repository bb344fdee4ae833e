//! Programs: names and types, both ways, from a tree to the typed tree.
#![tactic(auto)]

mod captures;
mod checking;
mod fields;
mod items;
mod locals;
mod looks;
mod settling;
mod special;

pub use checking::check;
pub use items::{Blame, JudgedProgram, Program, Settled, TypedItem};
pub use looks::declarations_of;
