// The types of a program.

ghost use Rattle.sx_types.specs.Words.{AreCounted};

use crate::functions::FunctionTypes;
use crate::listed::Listed;
use sqlite_items::Items;

/// A type. Structures, classes and function types are told by their numbers in `Types`.
#[derive(Clone, Copy, Debug, PartialEq, Eq, Hash)]
pub enum Ty {
    Int,
    Bool,
    Void,
    /// An array of `Int`. No text gives this type yet.
    Array,
    Struct(u32),
    Class(u32),
    Func(u32),
}

/// A parameter of a function type.
#[derive(Clone, Copy, Debug, PartialEq, Eq, Hash)]
pub struct FunctionParameter {
    pub inout: bool,
    pub ty: Ty,
}

/// A function type.
#[derive(Debug, PartialEq, Eq, Hash, Drop)]
pub struct FunctionType {
    pub parameters: Listed<FunctionParameter>,
    pub result: Ty,
}

/// A stored property of a structure or class.
#[derive(Clone, Copy, Debug, PartialEq, Eq)]
pub struct Field {
    /// Its index in the names of the program.
    pub name: u32,
    /// Its type, or `None` where its declaration has failed.
    pub ty: Option<Ty>,
}

/// A structure with its stored properties in the order of the text.
#[derive(Drop)]
pub struct Structure {
    /// Its index in the names of the program.
    pub name: u32,
    pub stored: Items<Field>,
    /// How many words a value takes. `None` where that can't be told, because a property has
    /// failed or the structure holds itself, and where there are more than 1,024.
    pub words: Option<u32>,
}

/// A class with its stored properties in the order of the text.
#[derive(Drop)]
pub struct Class {
    /// Its index in the names of the program.
    pub name: u32,
    pub stored: Items<Field>,
}

/// The structures and classes of a program, in the order of the text, and its function types.
#[derive(Drop)]
pub struct Types {
    pub structures: Items<Structure>,
    pub classes: Items<Class>,
    pub functions: FunctionTypes,

    pub ghost counted: { AreCounted structures },
}
