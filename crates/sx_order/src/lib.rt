//! In what order the failing nodes of a judgement stand: their numbers rise as the walk goes on, and lie between the node that
//! it began at and the one behind it. So the first failing node is the one with the least number. In the same order stand the nodes
//! of the functions and closure literals that the walk finds.
#![tactic(auto)]

mod laws;

pub use laws::written_types_take_their_places;
