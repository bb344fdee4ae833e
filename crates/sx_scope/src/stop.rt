// Why a text is refused by its names and types.

use std::alloc::{AllocError, AllocFailed};
use sx_span::Node;

/// A condition on names and types that a node of a tree breaks.
#[derive(Clone, Copy, Debug, PartialEq, Eq)]
pub enum TypeKind {
    /// No declaration, member or type has this name.
    UnknownName,
    /// The name is declared twice in one scope, type or parameter list, or is one of those that
    /// can't be declared.
    Duplicate,
    /// The type isn't the one that is asked for.
    Mismatch,
    /// What stands on a left side or behind `&` can't be modified.
    NotAssignable,
    /// A type, a method or `print` isn't called, or a function that takes functions is taken as a
    /// value.
    NotAValue,
    /// What is called is no function.
    NotCallable,
    /// There are more or fewer arguments than parameters.
    ArgumentCount,
    /// The label of an argument isn't that of its parameter.
    ArgumentLabel,
    /// `&` stands at a parameter that isn't in-out, or doesn't at one that is.
    Ampersand,
    /// A parameter that doesn't escape is kept.
    EscapingUse,
    /// A closure that may be kept mentions an in-out parameter, or the `self` of a body that
    /// mutates it.
    InoutCaptured,
    /// A body that gives a value reaches its end.
    MissingReturn,
    /// A structure holds itself.
    RecursiveStruct,
    /// `break` or `continue` stands in no loop, or `return` in no body.
    BreakOutside,
    /// Nothing tells the type of a closure literal.
    NoContext,
    /// A mutating method is called on what can't be modified.
    MutatingOnValue,
    /// An initial value that gives a type mentions a declaration that has none yet.
    NeedsType,
    /// A property of a class has no initial value.
    MissingDefault,
}

/// Why a tree isn't typed.
#[derive(Clone, Copy)]
pub enum TypeStop {
    /// The first failing node, and the first of its conditions that is broken.
    Typing(TypeKind, Node),
    /// The first failing node, which breaks no other condition: it has too many words.
    TooWide(Node),
    /// No node fails, but this statement or initial value reaches a global that is declared at or
    /// after it.
    Late { at: Node, global: Node },
    /// Memory ran out, or the numbers of nodes did.
    NoMemory,
}

impl From<AllocError> for TypeStop {
    ghost use Rattle.std.specs.Prelude.{◌≡◌};
    ghost use Rattle.sx_scope.specs.declared.stop.TypeStop.TheVariants.{NoMemory};

    ghost from_gives = { λ _ e. e ≡ NoMemory };

    fn from(_: AllocError) -> TypeStop {
        TypeStop::NoMemory
    }
}

impl<T: Drop> From<AllocFailed<T>> for TypeStop {
    ghost use Rattle.std.specs.Prelude.{◌≡◌};
    ghost use Rattle.sx_scope.specs.declared.stop.TypeStop.TheVariants.{NoMemory};

    ghost from_gives = { λ _ e. e ≡ NoMemory };

    fn from(_: AllocFailed<T>) -> TypeStop {
        TypeStop::NoMemory
    }
}
