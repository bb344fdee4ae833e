//! Heads of declarations: the part before the first `=` or `{`.
//!
//! A reader stands on the lexemes that are left and answers what they begin with and what follows
//! it. Its contract says that it answers what `run` of the grammar gives for its production, with
//! so many levels left. Recursion is in nesting alone: lists are loops.
#![tactic(auto)]

mod cursor;
mod declaration;
mod heads;
mod lexing;
mod parameter_lists;
mod stop;
mod types;

pub use cursor::{
    misfit, name, name_of, one_of, opened, opened_here, starts_below, starts_here, starts_with,
    starts_with_name,
};
pub use declaration::{ParseStop, parse_declaration};
pub use heads::{
    FunctionRest, ResultType, function_head, head, mutating_head, result_type, subscript_head,
    type_head, variable_head,
};
pub use lexing::lexemes;
pub use parameter_lists::{parameters, subscript_parameters};
pub use stop::Stop;
pub use types::{arrow, type_parameter, typed, written_type};
