//! The machine over bytes at the items of a program: each branch, jump and address is met.
#![tactic(auto)]

mod following;
mod items;
mod memory;
mod straight;

pub use following::walks_are_followed;
pub use items::{addresses_are_met, branches_are_met, instructions_are_met, jumps_are_met};
pub use memory::{code_stays, first_is_fetched};
pub use straight::straight_is_followed;
