//! Expressions, statements and blocks take as many nodes as they have places, and their failing nodes stand in the order of the nodes.
#![tactic(auto)]

mod laws;

pub use laws::code_takes_its_places;
