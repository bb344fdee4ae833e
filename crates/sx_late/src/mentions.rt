// What is mentioned, and what a part of a path uses.

ghost use Rattle.std.specs.Prelude.{◌≡◌, ◌++◌, ◌∷◌, [], OnOk};
ghost use Rattle.sx_late.specs.Mentions.{accessor_mentions, before_last, declaration_of, function_mention, if_there, initialiser_mentions, observer_mentions, purpose_before};
ghost use Rattle.std.specs.Option.{option_copied};

use sqlite_items::Items;
use std::alloc::AllocError;
use sx_span::Node;
use sx_typed::{Accessors, Observers, TypeDeclaration, Typed};
use sx_types::Ty;

/// What a text mentions.
#[derive(Clone, Copy)]
pub enum Mentioned {
    /// A function, an accessor or observer, an initialiser or a closure literal, told by its node.
    Function(Node),
    /// A stored global, told by its number.
    Global(u32),
}

/// What a path is evaluated for.
#[derive(Clone, Copy)]
pub enum Purpose {
    /// Its value is read.
    Read,
    /// It is assigned to.
    Store,
    /// It is modified in any other way.
    Modify,
}

/// What a part of a path is evaluated for that has others behind it.
pub fn before_last(purpose: Purpose) -> Purpose
    ensures { result ≡ before_last purpose }
{
    match purpose {
        Purpose::Read => Purpose::Read,
        Purpose::Store | Purpose::Modify => Purpose::Modify,
    }
}

/// What a part of a path is evaluated for, with these parts behind it.
pub fn purpose_before<T>(parts: &[T], purpose: Purpose) -> Purpose
    ensures { result ≡ purpose_before parts.now purpose }
{
    if parts.is_empty() {
        purpose
    } else {
        before_last(purpose)
    }
}

/// Adds a mention of the function with this node.
pub fn put_function(mentions: &mut Items<Mentioned>, node: Node) -> Result<(), AllocError>
    ensures { OnOk result (mentions.new ≡ mentions.old ++ function_mention node) }
{
    mentions.push(Mentioned::Function(node))
}

/// Adds a mention of the function with this node, where there is one.
fn put_if_there(mentions: &mut Items<Mentioned>, node: Option<Node>) -> Result<(), AllocError>
    ensures { OnOk result (mentions.new ≡ mentions.old ++ if_there function_mention node) }
{
    match node {
        Some(node) => put_function(mentions, node),
        None => Ok(()),
    }
}

/// Adds the accessors that a part of a path uses.
pub fn put_accessors(
    mentions: &mut Items<Mentioned>,
    accessors: Accessors,
    purpose: Purpose,
) -> Result<(), AllocError>
    ensures { OnOk result (mentions.new ≡ mentions.old ++ accessor_mentions accessors purpose) }
{
    match purpose {
        Purpose::Read => put_function(mentions, accessors.getter),
        Purpose::Store => put_if_there(mentions, accessors.setter),
        Purpose::Modify => {
            put_function(mentions, accessors.getter)?;
            put_if_there(mentions, accessors.setter)
        }
    }
}

/// Adds the observers that a part of a path uses.
pub fn put_observers(
    mentions: &mut Items<Mentioned>,
    observers: Observers,
    purpose: Purpose,
) -> Result<(), AllocError>
    ensures { OnOk result (mentions.new ≡ mentions.old ++ observer_mentions observers purpose) }
{
    match purpose {
        Purpose::Read => Ok(()),
        Purpose::Store | Purpose::Modify => {
            put_if_there(mentions, observers.will_set)?;
            put_if_there(mentions, observers.did_set)
        }
    }
}

/// The structure or class of this type.
pub fn declaration_of(typed: &Typed, ty: Ty) -> Option<&TypeDeclaration>
    ensures { option_copied result ≡ declaration_of typed.now ty }
{
    match ty {
        Ty::Struct(number) => typed.structures.get(number as usize),
        Ty::Class(number) => typed.classes.get(number as usize),
        Ty::Int | Ty::Bool | Ty::Void | Ty::Array | Ty::Func(_) => None,
    }
}

/// Adds a mention of the initialiser of this type.
pub fn put_initialiser(
    mentions: &mut Items<Mentioned>,
    typed: &Typed,
    ty: Ty,
) -> Result<(), AllocError>
    ensures { OnOk result (mentions.new ≡ mentions.old ++ initialiser_mentions typed.now ty) }
{
    match declaration_of(typed, ty) {
        Some(declaration) => put_function(mentions, declaration.node),
        None => Ok(()),
    }
}
