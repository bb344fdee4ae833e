//! The tokens of a source text.
//!
//! A token has a kind, the bytes where it stands and what stands before and behind it. The names
//! and the text literals of a text stand in lists beside its tokens.
#![tactic(auto)]

mod kinds;
mod spellings;
mod token_list;

pub use kinds::{Kind, Token};
pub use spellings::{Mark, Operator, Word};
pub use token_list::Tokens;
