//! The code that has a number has its nodes from that number on in the tree's list of places: one numbering counts nodes,
//! tells where their faults stand, and finds code.
#![tactic(auto)]

mod laws;

pub use laws::code_has_its_places;
