// The declarations of a program.

use crate::code::{Block, Expr, Statement};
use crate::written_types::{Name, WrittenType};
use sqlite_items::Items;
use sx_span::Span;

/// How an argument is passed to a parameter.
#[derive(Clone, Copy, Debug, PartialEq, Eq)]
pub enum Marker {
    /// By value.
    Plain,
    /// `inout`
    InOut,
    /// By value, and a function that is kept: `@escaping`.
    Escaping,
    /// Read in its place for the whole call. No text gives this marker yet.
    Borrowing,
}

/// A parameter. Its label is its name where one name is written, and none where `_` stands before
/// the name. The parameters of a subscript have no label.
#[derive(Drop)]
pub struct Parameter {
    pub span: Span,
    pub label: Option<Name>,
    pub name: Name,
    pub marker: Marker,
    pub ty: WrittenType,
}

/// A function or method, from `mutating` or `func` on.
#[derive(Drop)]
pub struct Function {
    pub span: Span,
    pub mutating: bool,
    pub name: Name,
    pub parameters: Items<Parameter>,
    pub result: Option<WrittenType>,
    pub body: Block,
}

/// When an accessor runs.
#[derive(Clone, Copy, Debug, PartialEq, Eq)]
pub enum AccessorKind {
    Get,
    Set,
    WillSet,
    DidSet,
}

/// An accessor or observer. A plain block in the place of accessors is a getter that starts at
/// its `{`.
#[derive(Drop)]
pub struct Accessor {
    pub span: Span,
    pub kind: AccessorKind,
    /// The written name of its parameter.
    pub parameter: Option<Name>,
    pub body: Block,
}

/// A global or a property, declared with `let`, a constant, or `var`. Its accessors and observers
/// stand in the order of the text.
#[derive(Drop)]
pub struct Variable {
    pub span: Span,
    pub constant: bool,
    pub name: Name,
    pub ty: Option<WrittenType>,
    pub value: Option<Expr>,
    pub accessors: Items<Accessor>,
}

/// A subscript. Its accessors stand in the order of the text.
#[derive(Drop)]
pub struct Subscript {
    pub span: Span,
    pub parameters: Items<Parameter>,
    pub result: WrittenType,
    pub accessors: Items<Accessor>,
}

/// A written initialiser. No text gives one yet.
#[derive(Drop)]
pub struct Initialiser {
    pub span: Span,
    pub parameters: Items<Parameter>,
    pub body: Block,
}

/// A member of a structure or class.
#[derive(Drop)]
pub enum Member {
    Property(Variable),
    Method(Function),
    Subscript(Subscript),
    Initialiser(Initialiser),
}

/// Whether a declared type is a structure or a class.
#[derive(Clone, Copy, Debug, PartialEq, Eq)]
pub enum TypeKind {
    Structure,
    Class,
}

/// A structure or class.
#[derive(Drop)]
pub struct TypeDeclaration {
    pub span: Span,
    pub kind: TypeKind,
    pub name: Name,
    pub members: Items<Member>,
}

/// An item of a program.
#[derive(Drop)]
pub enum Item {
    Function(Function),
    Type(TypeDeclaration),
    Global(Variable),
    Statement(Statement),
}

/// The part of a declaration before its first `=` or `{`: its words, name, parameters and types.
#[derive(Drop)]
pub enum Head {
    Function(FunctionHead),
    Type(TypeHead),
    Variable(VariableHead),
    Subscript(SubscriptHead),
}

/// The head of a function or method, from `mutating` or `func` on.
#[derive(Drop)]
pub struct FunctionHead {
    pub span: Span,
    pub mutating: bool,
    pub name: Name,
    pub parameters: Items<Parameter>,
    pub result: Option<WrittenType>,
}

/// The head of a structure or class.
#[derive(Clone, Copy, Debug, PartialEq, Eq)]
pub struct TypeHead {
    pub span: Span,
    pub kind: TypeKind,
    pub name: Name,
}

/// The head of a global, property or local, declared with `let`, a constant, or `var`.
#[derive(Drop)]
pub struct VariableHead {
    pub span: Span,
    pub constant: bool,
    pub name: Name,
    pub ty: Option<WrittenType>,
}

/// The head of a subscript.
#[derive(Drop)]
pub struct SubscriptHead {
    pub span: Span,
    pub parameters: Items<Parameter>,
    pub result: WrittenType,
}
