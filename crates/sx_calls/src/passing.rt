// How arguments are met and passed.

ghost use Rattle.std.specs.Prelude.{◌≡◌, IfOk, OnOk};
ghost use Rattle.sx_calls.specs.Calls as calls;
ghost use Rattle.sx_scope.specs.Verdict.{◌▷◌, Answers, found};
ghost use Rattle.sx_typed.specs.Layers.{form_of};

use crate::conditions::{fails, unless_broken};
use crate::passed::{Passed, Shape, Slot, Wanted};
use std::alloc::{AllocError, Global};
use sx_scope::{Asked, Found, Judged, TypeKind, TypeStop, Use, Walk, into_path, is_modifiable};
use sx_span::Node;
use sx_typed::{Argument, Expr, Form, Given};

/// What is asked of an argument, by what it is for.
pub fn asked_in(slot: Slot) -> Asked
    ensures { result ≡ calls.asked_in slot }
{
    match slot {
        Slot::For(wanted) | Slot::Property(_, wanted) => Asked::Type(wanted.ty),
        Slot::Printed => Asked::Printable,
        Slot::Loose | Slot::Failing(_) | Slot::Unknown => Asked::Unknown,
    }
}

/// What happens to the value of an argument, by what it is for.
pub fn use_in(slot: Slot, shape: Shape) -> Use
    ensures { result ≡ calls.use_in slot shape }
{
    match slot {
        Slot::For(wanted) => use_of(shape, wanted.lent),
        Slot::Property(_, _) | Slot::Printed => use_of(shape, false),
        Slot::Loose | Slot::Failing(_) | Slot::Unknown => Use::Unpaired,
    }
}

fn use_of(shape: Shape, lent: bool) -> Use
    ensures { result ≡ calls.use_of shape lent }
{
    if shape.ampersand.is_some() {
        Use::Modified
    } else if lent {
        Use::Lent
    } else {
        Use::Kept
    }
}

/// An argument with this node that was found, by what it is for: its value where that counts.
pub fn settled(
    walk: &Walk,
    slot: Slot,
    node: Node,
    shape: Shape,
    value: Found<Expr>,
) -> Result<Found<Option<Expr>>, TypeStop>
    ensures { Answers result walk.now (calls.settled slot node (calls.met_found slot node shape (found value walk.now))) }
{
    match met_found(walk, slot, node, shape, value) {
        Ok(value) => settled_value(walk, slot, node, value),
        Err(stop) => Err(stop),
    }
}

fn met_found(walk: &Walk, slot: Slot, node: Node, shape: Shape, value: Found<Expr>) -> Judged
    ensures { Answers result walk.now (calls.met_found slot node shape (found value walk.now)) }
{
    match value {
        Found::Typed(value) => met_in(walk, slot, node, shape, value),
        Found::Untold => Ok(Found::Untold),
        Found::Depends => Ok(Found::Depends),
    }
}

/// An argument, which fails where it breaks a condition of what it is for.
fn met_in(walk: &Walk, slot: Slot, node: Node, shape: Shape, value: Expr) -> Judged
    ensures { Answers result walk.now (calls.met_in slot node shape value walk.now) }
{
    let assignable = is_assignable(shape, &value);
    met(walk, assignable, broken_in(slot, shape), node, value)
}

/// Whether an operand may stand behind `&`, where one stands before it.
fn is_assignable(shape: Shape, value: &Expr) -> bool
    ensures { result ≡ calls.is_assignable shape value.now }
{
    shape.ampersand.is_none() || is_modifiable(value)
}

fn met(walk: &Walk, assignable: bool, broken: Option<TypeKind>, node: Node, value: Expr) -> Judged
    ensures { Answers result walk.now (calls.met assignable broken node value walk.now) }
{
    if assignable {
        unless_broken(walk, broken, node, value)
    } else {
        fails(walk, TypeKind::NotAssignable, value.node)
    }
}

/// The first condition of what it is for that the form of an argument breaks.
fn broken_in(slot: Slot, shape: Shape) -> Option<TypeKind>
    ensures { result ≡ calls.broken_in slot shape }
{
    match slot {
        Slot::For(wanted) | Slot::Property(_, wanted) => broken_for(shape, wanted),
        Slot::Printed => broken_printed(shape),
        Slot::Loose | Slot::Failing(_) | Slot::Unknown => None,
    }
}

fn broken_for(shape: Shape, wanted: Wanted) -> Option<TypeKind>
    ensures { result ≡ calls.broken_for shape wanted }
{
    if !shape.trailing && !is_same_label(shape.label, wanted.label) {
        Some(TypeKind::ArgumentLabel)
    } else if shape.ampersand.is_some() != wanted.inout {
        Some(TypeKind::Ampersand)
    } else {
        None
    }
}

fn broken_printed(shape: Shape) -> Option<TypeKind>
    ensures { result ≡ calls.broken_printed shape }
{
    if shape.label.is_some() {
        Some(TypeKind::ArgumentLabel)
    } else if shape.ampersand.is_some() {
        Some(TypeKind::Ampersand)
    } else {
        None
    }
}

fn is_same_label(first: Option<u32>, second: Option<u32>) -> bool
    ensures { result ≡ calls.same_label first second }
{
    match (first, second) {
        (Some(first), Some(second)) => first == second,
        (None, None) => true,
        _ => false,
    }
}

/// The value of an argument that was met, where it counts.
fn settled_value(
    walk: &Walk,
    slot: Slot,
    node: Node,
    value: Found<Expr>,
) -> Result<Found<Option<Expr>>, TypeStop>
    ensures { Answers result walk.now (calls.settled slot node (found value walk.now)) }
{
    if !is_loose(slot) {
        return Ok(some_value(value));
    }
    match value {
        Found::Typed(_) | Found::Untold => loose(walk, slot, node),
        Found::Depends => Ok(Found::Depends),
    }
}

/// Whether an argument is judged by itself.
fn is_loose(slot: Slot) -> bool
    ensures { result ≡ calls.is_loose slot }
{
    matches!(slot, Slot::Loose | Slot::Failing(_) | Slot::Unknown)
}

fn some_value(value: Found<Expr>) -> Found<Option<Expr>>
    ensures { (w : _) → found result w ≡ found value w ▷ calls.some_value }
{
    match value {
        Found::Typed(value) => Found::Typed(Some(value)),
        Found::Untold => Found::Untold,
        Found::Depends => Found::Depends,
    }
}

/// What becomes of an argument that is judged by itself: its value doesn't count.
fn loose(walk: &Walk, slot: Slot, node: Node) -> Result<Found<Option<Expr>>, TypeStop>
    ensures { Answers result walk.now (calls.loose slot node tt walk.now) }
{
    match slot {
        Slot::Failing(kind) => fails(walk, kind, node),
        Slot::Unknown => Ok(Found::Untold),
        _ => Ok(Found::Typed(None)),
    }
}

/// Passes an argument that was found.
pub fn add_argument(
    alloc: Global,
    passed: &mut Passed,
    slot: Slot,
    shape: Shape,
    value: Option<Expr>,
) -> Result<(), AllocError>
    ensures { OnOk result (passed.new ≡ calls.with_argument slot shape passed.old value) }
{
    match value {
        Some(value) => add_value(alloc, passed, slot, shape, value),
        None => Ok(()),
    }
}

fn add_value(
    alloc: Global,
    passed: &mut Passed,
    slot: Slot,
    shape: Shape,
    value: Expr,
) -> Result<(), AllocError>
    ensures { OnOk result (passed.new ≡ calls.with_value slot shape passed.old value) }
{
    match slot {
        Slot::For(wanted) => {
            let argument = passed_as(alloc, shape.ampersand, wanted.lent, value)?;
            passed.arguments.push(argument)
        }
        Slot::Property(property, _) => passed.given.push(Given { property, value }),
        _ => {
            passed.printed = Some(value);
            Ok(())
        }
    }
}

/// An argument for a parameter: the path behind its `&`, or its value.
fn passed_as(
    alloc: Global,
    ampersand: Option<u32>,
    lent: bool,
    value: Expr,
) -> Result<Argument, AllocError>
    ensures { IfOk result (λ a. a ≡ calls.passed_as ampersand lent value) }
{
    match ampersand {
        Some(place) => Ok(Argument::InOut(place, into_path(alloc, value)?)),
        None => Ok(passed_by(lent, value)),
    }
}

/// A value, where a closure literal that may not be kept is told by its node.
fn passed_by(lent: bool, value: Expr) -> Argument
    ensures { result ≡ calls.passed_by lent value (form_of value) }
{
    match &value.form {
        Form::Closure(node) if lent => Argument::Literal(*node),
        _ => Argument::Value(value),
    }
}
