//! What is declared outside of bodies, as far as names and written types tell it.
#![tactic(auto)]

mod members;
mod named;
mod names;
mod tables;

pub use named::named_types;
pub use names::{Numbers, SpecialNames, bare_declarations, behind_item, type_numbered};
pub use tables::declare;
