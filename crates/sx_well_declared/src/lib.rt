//! What is well declared: heads, functions, accessors, globals, properties, subscripts, structures,
//! classes and whole programs, as relations by cases over what is well typed in them, and the laws that
//! they are judged typed exactly where this is derived.
#![tactic(auto)]

mod laws;

pub use laws::{
    accessors_are_derived, function_bodies_are_derived, functions_are_derived, heads_are_derived,
    items_are_derived, members_are_derived, programs_are_derived, subscripts_are_derived,
    trees_are_derived, types_are_derived, variables_are_derived,
};
