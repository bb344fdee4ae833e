// The parameters that accessors and observers have of their own.

ghost use Rattle.std.specs.Prelude.{◌≡◌, cond, drop, nat_le};
ghost use Rattle.std.specs.List.{list_any};
ghost use Rattle.sx_functions.specs.Accessors as judged;
ghost use Rattle.sx_scope.specs.Verdict.{Answers};
ghost use Rattle.sx_types.specs.Words.{most_words};

use crate::accessing::{Accessed, OwnNames};
use crate::parts::demand_narrow;
use sx_bodies::{declare, is_fresh, words_in};
use sx_heads::{are_parameters_narrow, self_words};
use sx_scope::{Declarations, Found, Known, Local, LocalKind, TypeKind, TypeStop, Walk};
use sx_span::Node;
use sx_tree::{Accessor, AccessorKind};
use sx_typed::Mention;
use sx_types::Types;

/// Whether it may modify the `self` of a structure.
pub(crate) fn modifies(kind: AccessorKind) -> bool
    ensures { result ≡ judged.modifies kind }
{
    !matches!(kind, AccessorKind::Get)
}

/// The number of the name of its parameter, if it has one and the text has the name.
pub(crate) fn own_name(names: OwnNames, accessor: &Accessor) -> Option<u32>
    ensures { result ≡ judged.own_name names accessor.now }
{
    match &accessor.parameter {
        Some(name) => Some(name.number),
        None => unwritten_name(names, accessor.kind),
    }
}

fn unwritten_name(names: OwnNames, kind: AccessorKind) -> Option<u32>
    ensures { result ≡ judged.unwritten_name names kind }
{
    match kind {
        AccessorKind::Get => None,
        AccessorKind::Set | AccessorKind::WillSet => names.new_value,
        AccessorKind::DidSet => names.old_value,
    }
}

/// The parameter of an accessor or observer. It comes into scope.
pub(crate) fn own_parameter(
    declarations: &Declarations,
    walk: &mut Walk,
    names: OwnNames,
    accessed: &Accessed,
    accessor: &Accessor,
    node: Node,
) -> Result<Found<()>, TypeStop>
    ensures { Answers result walk.new (judged.own_parameter declarations.now names accessed.now accessor.now node walk.old) }
{
    if modifies(accessor.kind) {
        own_declared(
            declarations,
            walk,
            accessed,
            node,
            own_name(names, accessor),
        )
    } else {
        Ok(Found::Typed(()))
    }
}

fn own_declared(
    declarations: &Declarations,
    walk: &mut Walk,
    accessed: &Accessed,
    node: Node,
    name: Option<u32>,
) -> Result<Found<()>, TypeStop>
    ensures { Answers result walk.new (judged.own_declared declarations.now accessed.now node name walk.old) }
{
    let Some(name) = name else {
        return Ok(Found::Typed(()));
    };
    if !is_fresh(declarations, walk, accessed.from, name) {
        return walk.fails(TypeKind::Duplicate, node);
    }
    let local = Local {
        name,
        node,
        kind: LocalKind::Constant,
        known: accessed.ty,
        lent: false,
    };
    declare(walk, accessed.from, local)?;
    Ok(Found::Typed(()))
}

/// Whether an accessor or observer has a parameter, in whose body the mentions from this index on
/// are: a `didSet` takes the old value where it names or mentions it.
pub(crate) fn takes(accessor: &Accessor, node: Node, mentions: &[Mention], before: usize) -> bool
    ensures { result ≡ judged.takes accessor.now node (drop before mentions.now) }
{
    takes_surely(accessor) || (modifies(accessor.kind) && mentions_own(node, mentions, before))
}

fn mentions_own(node: Node, mentions: &[Mention], before: usize) -> bool
    ensures { result ≡ list_any (judged.is_own node) (drop before mentions.now) }
{
    mentions
        .iter()
        .skip(before)
        .any(|mention| is_own(node, *mention))
}

/// Whether it has a parameter, whatever its body mentions.
fn takes_surely(accessor: &Accessor) -> bool
    ensures { result ≡ judged.takes_surely accessor.now }
{
    match accessor.kind {
        AccessorKind::Get => false,
        AccessorKind::DidSet => accessor.parameter.is_some(),
        AccessorKind::Set | AccessorKind::WillSet => true,
    }
}

/// Whether the parameter of the accessor with this node is mentioned.
fn is_own(node: Node, mention: Mention) -> bool
    ensures { result ≡ judged.is_own node mention }
{
    match mention {
        Mention::Constant(mentioned, _)
        | Mention::Variable(mentioned)
        | Mention::InOut(mentioned) => mentioned.0 == node.0,
    }
}

/// The parameter of an accessor or observer, which fails where those that it surely takes have too
/// many words.
pub(crate) fn own_narrow(
    declarations: &Declarations,
    walk: &Walk,
    accessed: &Accessed,
    accessor: &Accessor,
    node: Node,
) -> Result<Found<()>, TypeStop>
    ensures { Answers result walk.now (judged.own_narrow declarations.now accessed.now accessor.now node tt walk.now) }
{
    narrow_accessor(
        declarations,
        walk,
        accessed,
        accessor,
        node,
        takes_surely(accessor),
    )
}

/// An accessor or observer, which fails where its parameters have too many words. `takes` tells
/// whether it takes its own.
pub(crate) fn narrow_accessor(
    declarations: &Declarations,
    walk: &Walk,
    accessed: &Accessed,
    accessor: &Accessor,
    node: Node,
    takes: bool,
) -> Result<Found<()>, TypeStop>
    ensures { Answers result walk.now (judged.narrow_accessor declarations.now accessed.now accessor.now node takes walk.now) }
{
    let narrow = is_narrow_accessor(&declarations.types, accessed, accessor, takes);
    demand_narrow(walk, narrow, node)
}

fn is_narrow_accessor(types: &Types, accessed: &Accessed, accessor: &Accessor, takes: bool) -> bool
    ensures { result ≡ nat_le (judged.accessor_words types.now accessed.now accessor.now takes) most_words }
{
    let own = own_words(types, accessed.ty, takes);
    let this = self_words(types, modifies(accessor.kind), accessed.owner);
    match this.checked_add(own) {
        Some(before) => are_parameters_narrow(types, before, accessed.parameters.as_slice()),
        None => false,
    }
}

/// The words of its own parameter, if it takes it.
fn own_words(types: &Types, known: Known, takes: bool) -> u32
    ensures { result ≡ cond takes (judged.known_words types.now known) 0 }
{
    if takes { known_words(types, known) } else { 0 }
}

fn known_words(types: &Types, known: Known) -> u32
    ensures { result ≡ judged.known_words types.now known }
{
    match known {
        Known::Type(ty) => words_in(types, ty),
        Known::Failed | Known::Untold | Known::Circular => 0,
    }
}
