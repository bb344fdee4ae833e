//! Statements and closure literals: what their parts ask of each other, and what they are.
#![tactic(auto)]

mod captures;
mod literals;
mod signatures;
mod statements;
mod widths;

pub use captures::close;
pub use literals::{gives_by, inside_literal, literal_made, untold_literal};
pub use signatures::{parameters, result_type};
pub use statements::{
    asked_by_written, asked_of_left, asked_of_right, asked_to_give, assignable, assignment_form,
    declare, declared_with, giving_in, is_fresh, is_reserved, known_local, local_form,
    not_void_written, stated_type,
};
pub use widths::{mention_words, words_in};
