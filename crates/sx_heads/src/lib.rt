//! Heads of declarations: the types in them, what they break, and what calls and mentions see.
#![tactic(auto)]

mod apart;
mod heads;
mod parameters;
mod signatures;
mod variables;
mod widths;

pub use heads::{JudgedHead, checked_head, typed_head};
pub use parameters::{HeadParameter, ParameterList};
pub use signatures::{signature, subscript};
pub use variables::{accessor_node, accessors_of, is_computed, is_observed, lacks_value, variable};
pub use widths::{are_parameters_narrow, is_narrow_head, self_words};
