//! The typed tree of a program, and the storage that it names.
//!
//! In the tree each name is settled: a variable or function is told by the node of its declaration,
//! and globals and types by their numbers. Closure literals, accessors and initialisers are
//! functions like all others. A path has a head and components, which say of each property and
//! subscript how it is stored or computed.
//!
//! The types lead back to themselves through `Items` and `Boxed` alone, so contracts see a tree as
//! plain data.
#![tactic(auto)]

mod code;
mod program;
mod storage;

pub use code::{
    Accessors, Argument, Arithmetic, Block, Component, ComponentForm, Expr, Form, Given,
    GlobalMention, Head, HeadForm, Local, Lvalue, Observers, Operator, Statement, StatementForm,
};
pub use program::{
    Function, FunctionKind, Global, Kinds, Marker, Mention, Parameter, Property, TypeDeclaration,
    Typed, WrittenInitialiser,
};
pub use storage::{
    Access, Root, conflict, conflicts_are_symmetric, different_fields_never_conflict, is_dynamic,
    reads_never_conflict,
};
