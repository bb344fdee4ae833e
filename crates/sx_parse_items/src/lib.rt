//! Declarations with all that they hold, and whole programs.
//!
//! Nothing here leads back to itself: a program holds items, a type's item holds members, a member
//! holds accessors, and accessors hold blocks, which the crate below reads.
#![tactic(auto)]

mod accessors;
mod ends;
mod items;
mod members;
mod variables;

pub use items::program;
