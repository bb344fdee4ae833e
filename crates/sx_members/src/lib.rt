//! Globals, properties and subscripts, structures and classes: what they are, with all that they hold.
#![tactic(auto)]

mod members;
mod subscripts;
mod types;
mod variables;

pub use members::NamedProperty;
pub use types::{TypeFault, type_declaration};
pub use variables::{TypedVariable, given_value, outer_place, variable};
