//! The grammar of the language: which lists of tokens are programs, and the tree of each.
//!
//! The grammar is data. `specs/Grammar.antt` says what a grammar is, what it derives (`Whole`) and
//! what a front is, with the levels that are open at its end (`Front`); `specs/Rules.antt` has the
//! productions, one a definition, each with the part of the tree that it stands for.
//! `specs/Classes.antt` numbers the sorts of tokens: a production asks for classes of tokens, and a
//! class is a sort and whether a line end stands before the token.
//!
//! A level is an open bracket, an `else if` behind the first arm of its chain, or an arrow whose
//! result type is being read. A token that opens one stands before a rule that ends with the token
//! that closes it, or with the type or the chain.
//!
//! `specs/Answer.antt` says what reading has to answer: the value of the longest front where it is
//! whole, or else the token behind it, and which tokens open a level too much.
#![tactic(auto)]

mod laws;
mod lexemes;

pub use laws::{at_most_one_head, at_most_one_tree};
pub use lexemes::{Lexeme, Mode, Sort};
