//! Functions, methods, accessors and observers: what they are, with their bodies.
#![tactic(auto)]

mod accessing;
mod functions;
mod own;
mod parts;
mod places;

pub use accessing::{Accessed, OwnNames, accessors};
pub use functions::function;
pub use places::{body_place, leave, new_name};
