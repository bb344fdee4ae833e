//! The types that initial values give.
#![tactic(auto)]

mod givings;
mod judging;
mod rounds;
mod settling;
mod taking;

pub use settling::settle;
