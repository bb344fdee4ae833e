//! Expressions, up to the tokens that open a level.
//!
//! A reader stands on the lexemes that are left and answers what they begin with and what follows
//! it, or where it stops. Its contract says that it answers what `run` of the grammar gives for its
//! production, with so many levels left.
//!
//! Expressions hold closures, closures hold statements, and statements hold expressions. That
//! circle goes through tokens that open a level alone, so it is cut there: each reader takes
//! another one, `deeper`, for what a level holds (`levels.rt`), and the crate above ties the knot
//! in one function that calls itself with fewer levels left.
#![tactic(auto)]

mod arguments;
mod closures;
mod expressions;
mod levels;
mod operands;

pub use arguments::{argument_list, indices};
pub use closures::{any_closure, trailing};
pub use expressions::{
    and_links, chained, expr, or_links, product_links, relation_link, sum_links,
};
pub use levels::{FirstBracket, Inside, Level, Taken, bracket, read_level};
pub use operands::{parts_behind, postfix, postfixed};
