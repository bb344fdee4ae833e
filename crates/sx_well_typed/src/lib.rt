//! What is well typed: expressions, statements and bodies, as a relation by cases, and the laws that
//! they are judged typed exactly where this is derived.
#![tactic(auto)]

mod laws;

pub use laws::{
    typed_bodies_are_derived, typed_expressions_are_derived, typed_statements_are_derived,
};
