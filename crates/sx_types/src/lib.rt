//! The types of a program, and how many words their values take.
//!
//! A type is told by a number: that of its structure or class in the order of the text, or that of
//! its function type, each once in the order in which they are first seen.
#![tactic(auto)]

mod functions;
mod listed;
mod types;
mod widths;

pub use functions::FunctionTypes;
pub use listed::Listed;
pub use types::{Class, Field, FunctionParameter, FunctionType, Structure, Ty, Types};
pub use widths::{structures_add_up, values_take_words, words};
