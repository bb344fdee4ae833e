//! Places in a source text: spans, lines and columns, sites and the numbers of tree nodes.
//!
//! Places and lengths are counted in bytes. A line ends at LF, at CR LF or at a CR alone.
#![tactic(auto)]

mod lines;
mod places;

pub use lines::{ends_line, line_col, line_of};
pub use places::{LineCol, Node, Site, Span};
