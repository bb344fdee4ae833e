//! What holds of texts: a text has one answer, and its fault of names and types stands at the failing node with the least number.
#![tactic(auto)]

mod laws;

pub use laws::{answers_agree, faults_are_told, first_fault_is_least, texts_have_no_initialisers};
