//! What a tree declares: the nodes of its declarations, and the function types that it needs.
#![tactic(auto)]

mod code;
mod declarations;
mod outline;
mod types;
mod visit;

pub use outline::{ItemNodes, MemberNodes, Outline, outline_of};
