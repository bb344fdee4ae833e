// Names, written types and the signatures of closures.

use sqlite_items::{Boxed, Items};
use sx_span::Span;

/// A name where it is written: its index in the names of the tree, and its bytes.
#[derive(Clone, Copy, Debug, PartialEq, Eq)]
pub struct Name {
    pub number: u32,
    pub span: Span,
}

/// A written type and its bytes.
#[derive(Drop)]
#[cycle(types)]
pub struct WrittenType {
    pub span: Span,
    pub form: TypeForm,
}

/// How a type is written.
#[derive(Drop)]
#[cycle(types)]
pub enum TypeForm {
    /// A name: its index in the names of the tree.
    Named(u32),
    /// `()`
    Unit,
    /// A type in round brackets.
    Bracketed(Boxed<WrittenType>),
    /// The types of the parameters, and the result behind the arrow.
    Function(Items<TypeParameter>, Boxed<WrittenType>),
    /// An array of the type with this name. No text gives this form yet.
    Array(Name),
}

/// A parameter of a function type.
#[derive(Drop)]
#[cycle(types)]
pub struct TypeParameter {
    pub inout: bool,
    pub ty: WrittenType,
}

/// A parameter in the signature of a closure.
#[derive(Drop)]
pub struct ClosureParameter {
    pub name: Name,
    pub inout: bool,
    pub ty: WrittenType,
}

/// What stands before the `in` of a closure.
#[derive(Drop)]
pub enum Signature {
    /// Nothing, and no `in`.
    Absent,
    /// Names without types.
    Names(Items<Name>),
    /// Parameters with types, and the type of the result.
    Typed(Items<ClosureParameter>, Option<WrittenType>),
}
