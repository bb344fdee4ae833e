//! The parser: from the tokens of a text to its tree, or the first fault.
//!
//! `specs/Answer.antt` says what [`parse`] answers: the tree that the grammar gives the text, or
//! where the longest front of the text ends, or which token opens a level too much.
#![tactic(auto)]

mod fronts;
mod parsing;
mod texts;

pub use parsing::parse;
