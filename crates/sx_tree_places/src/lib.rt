//! The places of the nodes of a text's tree lie in the text.
#![tactic(auto)]

mod laws;

pub use laws::places_lie_in_the_text;
