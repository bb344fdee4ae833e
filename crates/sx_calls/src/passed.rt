// Arguments, and what they are for.

use sqlite_items::Items;
use sx_scope::TypeKind;
use sx_typed::{Argument, Expr, Given};
use sx_types::Ty;

/// How an argument is written.
#[derive(Clone, Copy)]
pub struct Shape {
    /// The number of its label's name.
    pub label: Option<u32>,
    /// The place of its `&`.
    pub ampersand: Option<u32>,
    /// Whether it is a closure literal behind the call, which has no label.
    pub trailing: bool,
}

/// What is asked of an argument.
#[derive(Clone, Copy)]
pub struct Wanted {
    /// The number of its label's name.
    pub label: Option<u32>,
    pub inout: bool,
    pub ty: Ty,
    /// Whether it is a function that may not be kept.
    pub lent: bool,
}

/// What an argument is for.
#[derive(Clone, Copy)]
pub enum Slot {
    /// For nothing: it is judged by itself, and its value doesn't count.
    Loose,
    /// For a parameter.
    For(Wanted),
    /// For the stored property with this number.
    Property(u32, Wanted),
    /// It is judged by itself, and then fails so.
    Failing(TypeKind),
    /// For a property whose type isn't known.
    Unknown,
    /// For `print`.
    Printed,
}

/// What the arguments of a call are for, in their order, and whether no parameter and no argument
/// is left over.
#[derive(Drop)]
pub struct Pairing {
    pub slots: Items<Slot>,
    pub counted: bool,
}

/// The arguments of a call that are for something.
#[derive(Drop)]
pub struct Passed {
    /// For parameters, in their order.
    pub arguments: Items<Argument>,
    /// For stored properties, in their order.
    pub given: Items<Given>,
    /// For `print`.
    pub printed: Option<Expr>,
}
