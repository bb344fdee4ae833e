//! The tree of a program, as its text is written.
//!
//! Chains of binary operators of one level, and chains of parts behind an operand, are lists. The
//! types lead back to themselves through `Items` and `Boxed` alone, so contracts see a tree as
//! plain data.
//!
//! **Nodes.** Declarations, parameters, accessors, blocks, statements, expressions, arguments and
//! types are nodes. They are numbered from 0 by the place of their first token, outer before inner,
//! so that a node comes right before all that stands in it. The definition `places` in
//! `specs/Nodes.antt` lists, for each node in this order, where its faults stand: a part of the
//! tree takes as many numbers as it has entries there, and a node is found by counting.
//! - In a chain of operators each operator makes a node with all that stands to its left in the
//!   chain. They all start at the first operand: the whole chain comes first, then what is left
//!   without its last operator, and so on, and then the operands in order.
//! - Each part behind an operand makes a node in the same way, a trailing closure behind a name or
//!   a member another one, for the call. After these come the operand and what stands in the parts.
//! - A trailing closure is an argument: it makes a node for the argument and one for the closure.
#![tactic(auto)]

mod code;
mod declarations;
mod nodes;
mod operators;
mod tree;
mod written_types;

pub use code::{
    Argument, Block, Closure, Else, Expr, ExprForm, Link, Local, Part, Statement, StatementForm,
};
pub use declarations::{
    Accessor, AccessorKind, Function, FunctionHead, Head, Initialiser, Item, Marker, Member,
    Parameter, Subscript, SubscriptHead, TypeDeclaration, TypeHead, TypeKind, Variable,
    VariableHead,
};
pub use nodes::{FaultOf, NoMemory};
pub use operators::{Assignment, BinaryOperator};
pub use tree::{Tree, fault_place, parameter_fault_place};
pub use written_types::{ClosureParameter, Name, Signature, TypeForm, TypeParameter, WrittenType};
