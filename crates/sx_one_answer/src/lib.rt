//! A tree has one answer: its typed tree, or what it is refused by.
#![tactic(auto)]

mod laws;

pub use laws::{answers_agree, programs_are_decided};
