//! Operators, calls and subscripts: what their parts ask of each other, and what they are.
#![tactic(auto)]

mod calls;
mod conditions;
mod operators;
mod pairing;
mod passed;
mod passing;
mod subscripts;

pub use calls::called;
pub use operators::{asked_by, give, left_asked, left_fitting, operated, right_asked};
pub use pairing::pair;
pub use passed::{Pairing, Passed, Shape, Slot, Wanted};
pub use passing::{add_argument, asked_in, settled, use_in};
pub use subscripts::{index_types, indexed_value};
