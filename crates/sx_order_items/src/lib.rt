//! In what order the failing nodes of declarations and of a whole program stand: their numbers rise, and lie between the node that
//! the walk began at and the one behind it, by as many nodes as each part has places. So do the nodes of the functions of a
//! program.
#![tactic(auto)]

mod laws;

pub use laws::{
    failing_nodes_rise, first_failing_node_is_least, functions_rise, programs_keep_nodes,
};
