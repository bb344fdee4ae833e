//! The compiler's front: from the bytes of a text to its typed tree, or the first rule that it
//! breaks.
//!
//! The rules come in one order, and the first that is broken decides: the length of the text, its
//! encoding, its lexis, the number of its tokens, its grammar and its nesting, its names, types and
//! widths, and the globals that are reached too late.
#![tactic(auto)]

mod fault;
mod front;
mod typing;

pub use fault::{CompileStop, Fault, fault_line};
pub use front::{tree_of, typed_of};
