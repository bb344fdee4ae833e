//! From the bytes of a source text to its tokens.
//!
//! The lexical structure is Swift's (The Swift Programming Language, "Lexical Structure"), cut down
//! to a profile: `specs/Lexis.antt` defines which tokens and which first fault a text has, and
//! [`lex`] answers exactly these. Names are those of Unicode's identifiers (UAX #31).
#![tactic(auto)]

mod bytes;
mod characters;
mod comments;
mod escapes;
mod faults;
mod gathering;
mod laws;
mod lexer;
mod lines;
mod names;
mod next;
mod numbers;
mod operators;
mod pieces;
mod place;
mod spacing;
mod tables;
mod texts;
mod words;

pub use faults::{LexKind, LexStop};
pub use laws::{answers_agree, exactly_one_answer};
pub use lexer::lex;
