// Structures and classes.

ghost use Rattle.std.specs.Prelude.{◌≡◌, ◌++◌, ◌∷◌, IfOk, OnOk, Some, drop, map, reverse, take};
ghost use Rattle.sx_bodies.specs.Literals.{with_literal};
ghost use Rattle.sx_functions.specs.Places.{new_name};
ghost use Rattle.sx_members.specs.Members as members;
ghost use Rattle.sx_scope.specs.Verdict.{Answers, ◌▷◌};

use crate::members::{NamedProperty, stored_properties};
use indexmap::IndexSet;
use sqlite_items::Items;
use std::alloc::{AllocError, Global};
use sx_functions::{OwnNames, new_name};
use sx_scope::{Declarations, Found, Stack, TypeKind, TypeStop, Walk, joined};
use sx_span::Node;
use sx_typed::{Function, FunctionKind, Marker, Parameter, Property, TypeDeclaration};
use sx_types::Ty;

/// What a structure or class fails by at its name, but for the name itself.
#[derive(Clone, Copy)]
pub enum TypeFault {
    /// A structure that holds itself.
    Recursive,
    /// It has too many words.
    Wide,
}

/// The structure or class that is this type, beside declarations with these names. `given` is the
/// number of declarations before it whose initial values give their types. Its functions go among
/// those of the walk.
pub fn type_declaration(
    alloc: Global,
    declarations: &Declarations,
    walk: &mut Walk,
    names: OwnNames,
    stops: &[Option<TypeStop>],
    seen: &IndexSet<u32>,
    fault: Option<TypeFault>,
    given: u32,
    ty: Ty,
    written: &sx_tree::TypeDeclaration,
) -> Result<Found<TypeDeclaration>, TypeStop>
    ensures { Answers result walk.new (members.type_declaration declarations.now names stops.now seen.now.keys fault given ty written.now walk.old) }
{
    let node = walk.take_node()?;
    let before = walk.literals.len();
    match type_parts(
        alloc,
        declarations,
        walk,
        names,
        stops,
        seen,
        fault,
        given,
        ty,
        node,
        written,
    )? {
        Found::Typed((_, properties)) => type_made(alloc, walk, ty, node, before, properties),
        Found::Untold => Ok(Found::Untold),
        Found::Depends => Ok(Found::Depends),
    }
}

/// The name of a structure or class, and its stored properties.
fn type_parts(
    alloc: Global,
    declarations: &Declarations,
    walk: &mut Walk,
    names: OwnNames,
    stops: &[Option<TypeStop>],
    seen: &IndexSet<u32>,
    fault: Option<TypeFault>,
    given: u32,
    ty: Ty,
    node: Node,
    written: &sx_tree::TypeDeclaration,
) -> Result<Found<((), Items<NamedProperty>)>, TypeStop>
    ensures { Answers result walk.new (members.type_parts declarations.now names stops.now seen.now.keys fault given ty node written.now walk.old) }
{
    let name = unfaulted_name(declarations, walk, seen, fault, node, written.name.number)?;
    let list = written.members.as_slice();
    let properties = stored_properties(alloc, declarations, walk, names, stops, ty, given, list);
    joined(name, properties)
}

/// The name of a structure or class, which must be new, where it fails by no other fault.
fn unfaulted_name(
    declarations: &Declarations,
    walk: &Walk,
    seen: &IndexSet<u32>,
    fault: Option<TypeFault>,
    node: Node,
    name: u32,
) -> Result<Found<()>, TypeStop>
    ensures { Answers result walk.now (new_name declarations.now seen.now.keys name node walk.now ▷ members.unfaulted_name fault node) }
{
    match new_name(declarations, walk, seen, name, node)? {
        Found::Typed(()) => unfaulted(walk, fault, node),
        Found::Untold => Ok(Found::Untold),
        Found::Depends => Ok(Found::Depends),
    }
}

fn unfaulted(walk: &Walk, fault: Option<TypeFault>, node: Node) -> Result<Found<()>, TypeStop>
    ensures { Answers result walk.now (members.unfaulted fault node walk.now) }
{
    match fault {
        None => Ok(Found::Typed(())),
        Some(fault) => faulted(walk, fault, node),
    }
}

fn faulted(walk: &Walk, fault: TypeFault, node: Node) -> Result<Found<()>, TypeStop>
    ensures { Answers result walk.now (members.unfaulted (Some fault) node walk.now) }
{
    match fault {
        TypeFault::Recursive => walk.fails(TypeKind::RecursiveStruct, node),
        TypeFault::Wide => Err(TypeStop::TooWide(node)),
    }
}

/// A structure or class with these stored properties. Its initialiser goes before the functions of
/// the walk from this index on.
fn type_made(
    alloc: Global,
    walk: &mut Walk,
    ty: Ty,
    node: Node,
    before: usize,
    properties: Items<NamedProperty>,
) -> Result<Found<TypeDeclaration>, TypeStop>
    ensures { Answers result walk.new (members.type_made ty node before (tt, properties) walk.old) }
{
    let parameters = initialiser_parameters(alloc, ty, properties.as_slice())?;
    add_initialiser(alloc, walk, ty, node, before, parameters)?;
    let stored = without_names(alloc, properties)?;
    Ok(Found::Typed(TypeDeclaration { node, stored }))
}

/// The parameters of an initialiser: the stored properties of a structure, which may be kept.
fn initialiser_parameters(
    alloc: Global,
    ty: Ty,
    properties: &[NamedProperty],
) -> Result<Items<Parameter>, AllocError>
    ensures { IfOk result (λ ps. ps ≡ members.initialiser_parameters ty properties.now) }
{
    match ty {
        Ty::Struct(_) => property_parameters(alloc, properties),
        _ => Ok(Items::new(alloc)),
    }
}

fn property_parameters(
    alloc: Global,
    mut properties: &[NamedProperty],
) -> Result<Items<Parameter>, AllocError>
    ensures { IfOk result (λ ps. ps ≡ map members.initialiser_parameter properties.entry.now) }
{
    let mut parameters = Items::new(alloc);
    'properties: while let Some((first, rest)) = properties.split_first() {
        parameters.push(Parameter {
            node: first.property.node,
            name: Some(first.name),
            marker: Marker::Escaping,
            ty: first.property.ty,
        })?;
        properties = rest;
    }
    Ok(parameters)
}

/// Adds the initialiser of a type before the functions of the walk from this index on.
fn add_initialiser(
    alloc: Global,
    walk: &mut Walk,
    ty: Ty,
    node: Node,
    before: usize,
    parameters: Items<Parameter>,
) -> Result<(), AllocError>
    ensures { OnOk result (walk.new ≡ with_literal before (members.initialiser_with ty node parameters) walk.old) }
{
    let initialiser = Function {
        kind: FunctionKind::Initialiser,
        node,
        owner: Some(ty),
        parameters,
        result: ty,
        body: Items::new(alloc),
        mentions: Items::new(alloc),
    };
    insert(&mut walk.literals, before, initialiser)
}

fn insert(
    functions: &mut Stack<Function>,
    before: usize,
    function: Function,
) -> Result<(), AllocError>
    ensures { OnOk result (functions.new ≡ take before functions.old ++ function ∷ drop before functions.old) }
{
    let at = before.min(functions.len());
    functions.insert(at, function)
}

/// Stored properties without the numbers of their names.
fn without_names(alloc: Global, named: Items<NamedProperty>) -> Result<Items<Property>, AllocError>
    ensures { IfOk result (λ ps. ps ≡ map members.property_of named) }
{
    turned(alloc, turned_without_names(alloc, named)?)
}

/// Stored properties without the numbers of their names, from the last to the first.
fn turned_without_names(
    alloc: Global,
    mut named: Items<NamedProperty>,
) -> Result<Items<Property>, AllocError>
    ensures { IfOk result (λ ps. ps ≡ reverse (map members.property_of named)) }
{
    let mut properties = Items::new(alloc);
    'named: while let Some(last) = named.pop() {
        properties.push(last.property)?;
    }
    Ok(properties)
}

/// These properties from the last to the first.
fn turned(alloc: Global, mut properties: Items<Property>) -> Result<Items<Property>, AllocError>
    ensures { IfOk result (λ ps. ps ≡ reverse properties) }
{
    let mut turned = Items::new(alloc);
    'properties: while let Some(last) = properties.pop() {
        turned.push(last)?;
    }
    Ok(turned)
}
