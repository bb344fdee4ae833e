// What is declared outside of bodies.

use crate::table::Table;
use sqlite_items::Items;
use sx_span::Node;
use sx_typed::{Accessors, Marker, Observers};
use sx_types::{Ty, Types};

/// What is known of the type of a global, a property or a local.
#[derive(Clone, Copy)]
pub enum Known {
    Type(Ty),
    /// Its declaration has failed.
    Failed,
    /// Nothing tells it: that of a literal's parameter, or of a declaration whose initial value
    /// isn't judged yet.
    Untold,
    /// Initial values that need each other's types in a circle would have to tell it. The
    /// declaration has failed.
    Circular,
}

/// How a global or a property is stored or computed.
#[derive(Clone, Copy)]
pub enum Storage {
    /// A stored global declared with `let`, by its number.
    Constant(u32),
    /// Stored, without observers: the number of the global, or of the property in its type.
    Stored(u32),
    /// Stored, with observers.
    Observed(u32, Observers),
    Computed(Accessors),
}

/// What tells the type of a global or a property.
#[derive(Clone, Copy)]
pub enum VariableType {
    /// It is written.
    Written(Known),
    /// Its initial value gives it, since none is written: the number of the declaration among those
    /// that are given their types so.
    Given(u32),
}

/// A global or a property.
#[derive(Clone, Copy)]
pub struct Variable {
    pub node: Node,
    pub ty: VariableType,
    pub storage: Storage,
}

/// A parameter, as a call sees it.
#[derive(Clone, Copy)]
pub struct SignatureParameter {
    pub label: Option<u32>,
    pub marker: Marker,
    pub ty: Ty,
}

/// A function or method, as a call sees it.
#[derive(Drop)]
pub struct Signature {
    pub node: Node,
    pub mutating: bool,
    /// Whether its declaration has failed. It then has no parameters here.
    pub failed: bool,
    pub parameters: Items<SignatureParameter>,
    pub result: Ty,
    /// The number of its function type, where it may be taken as a value.
    pub value: Option<u32>,
}

/// A subscript.
#[derive(Drop)]
pub struct Subscript {
    pub node: Node,
    /// Whether its declaration has failed. It then has no parameters here.
    pub failed: bool,
    pub parameters: Items<Ty>,
    pub ty: Ty,
    pub accessors: Accessors,
}

/// A member that has a name.
#[derive(Clone, Copy)]
pub enum Member {
    Property(Variable),
    /// The number of the method among the functions.
    Method(u32),
}

/// A stored property, as an initialiser sees it.
#[derive(Clone, Copy)]
pub struct StoredProperty {
    pub name: u32,
    pub ty: VariableType,
    pub has_default: bool,
}

/// A structure or class.
#[derive(Drop)]
pub struct DeclaredType {
    pub node: Node,
    /// Whether its declaration has failed.
    pub failed: bool,
    /// Whether one of its stored properties has failed by its name, since another has it.
    pub lacks_property: bool,
    /// The members by their names; of two with one name the first.
    pub members: Table<Member>,
    pub subscript: Option<Subscript>,
    /// The stored properties in the order of the text.
    pub stored: Items<StoredProperty>,
}

/// What a name means at the outermost level.
#[derive(Clone, Copy)]
pub enum Symbol {
    /// `Int`, `Bool` or `Void`.
    BasicType,
    /// `print`
    Print,
    /// The number of the function among the functions.
    Function(u32),
    /// A structure or class.
    Type(Ty),
    Variable(Variable),
}

/// What a name means where a type is written.
#[derive(Clone, Copy)]
pub enum TypeName {
    Type(Ty),
    /// Types of this name have been declared, and all have failed.
    Failed,
}

/// What is declared outside of bodies, and what is known of it.
#[derive(Drop)]
pub struct Declarations {
    /// How many nodes the tree has.
    pub nodes: u32,
    pub types: Types,
    /// The types by their names.
    pub type_names: Table<TypeName>,
    /// The declarations of the outermost level by their names; of two with one name the first.
    pub symbols: Table<Symbol>,
    /// The structures and classes, in the order of those in `types`.
    pub structures: Items<DeclaredType>,
    pub classes: Items<DeclaredType>,
    /// The functions and methods, by their numbers.
    pub functions: Items<Signature>,
    /// What is known of the types that initial values give, by the numbers of their declarations.
    pub given: Items<Known>,
}
