// Members of structures and classes.

ghost use Rattle.std.specs.Prelude.{◌≡◌, [], IfErr, IfOk, OnOk, cond, None, Some};
ghost use Rattle.sx_heads.specs.Variables.{is_computed};
ghost use Rattle.sx_members.specs.Members as members;
ghost use Rattle.sx_members.specs.Variables as variables;
ghost use Rattle.sx_scope.specs.Verdict.{Answers, ◌▷◌, both, found, typed};
ghost use Rattle.sx_scope.specs.declared.stop.TypeStop.TheVariants.{NoMemory};

use crate::subscripts::subscript;
use crate::variables::{TypedVariable, variable};
use indexmap::IndexSet;
use sqlite_items::Items;
use std::alloc::{AllocError, Global};
use sx_functions::{OwnNames, function};
use sx_heads::is_computed;
use sx_scope::{Declarations, Found, TypeStop, Walk, both};
use sx_tree::{Function, Member, Variable};
use sx_typed::Property;
use sx_types::Ty;

/// A stored property with the number of its name.
#[derive(Drop)]
pub struct NamedProperty {
    pub name: u32,
    pub property: Property,
}

/// What is judged of a member: a stored property if it is one, or the first node in it that fails.
pub(crate) type JudgedMember = Result<Found<Option<NamedProperty>>, TypeStop>;

/// The members of the owner, of which the stored properties are told. `given` is the number of
/// declarations before it whose initial values give their types.
pub(crate) fn stored_properties(
    alloc: Global,
    declarations: &Declarations,
    walk: &mut Walk,
    names: OwnNames,
    stops: &[Option<TypeStop>],
    owner: Ty,
    mut given: u32,
    mut list: &[Member],
) -> Result<Found<Items<NamedProperty>>, TypeStop>
    ensures { Answers result walk.new (members.run_members declarations.now names stops.now owner (typed [] walk.old) (members.nothing_before given) list.entry.now) }
{
    let mut seen = IndexSet::new(alloc);
    let mut another = false;
    let mut properties = Found::Typed(Items::new(alloc));
    'list: while let Some((first, rest)) = list.split_first() {
        let property = member(
            alloc,
            declarations,
            walk,
            names,
            stops,
            owner,
            &seen,
            another,
            given,
            first,
        )?;
        properties = with_property(properties, property)?;
        pass(&mut seen, &mut another, &mut given, first)?;
        list = rest;
    }
    Ok(properties)
}

/// Stored properties, and a further one behind them if a member is one.
fn with_property(
    properties: Found<Items<NamedProperty>>,
    property: Found<Option<NamedProperty>>,
) -> Result<Found<Items<NamedProperty>>, AllocError>
    ensures { IfOk result (λ f. (v : _) (w : _) → found f w ≡ both (found properties v) (λ _. found property w) ▷ members.property_added) }
{
    match both(properties, property) {
        Found::Typed((properties, property)) => {
            Ok(Found::Typed(property_added(properties, property)?))
        }
        Found::Untold => Ok(Found::Untold),
        Found::Depends => Ok(Found::Depends),
    }
}

fn property_added(
    mut properties: Items<NamedProperty>,
    property: Option<NamedProperty>,
) -> Result<Items<NamedProperty>, AllocError>
    ensures { IfOk result (λ ps. ps ≡ members.with_property properties property) }
{
    if let Some(property) = property {
        properties.push(property)?;
    }
    Ok(properties)
}

/// Goes on behind a member. `seen` has the names of those before, `another` tells whether a
/// subscript was among them, and `given` counts the declarations that initial values give types to.
fn pass(
    seen: &mut IndexSet<u32>,
    another: &mut bool,
    given: &mut u32,
    member: &Member,
) -> Result<(), TypeStop>
    ensures stop { IfErr result (λ e. e ≡ NoMemory) }
    ensures passed { OnOk result (members.so_far seen.new.keys another.new given.new ≡ members.behind_member member.now (members.so_far seen.old.keys another.old given.old)) }
{
    match member {
        Member::Property(variable) => {
            *given = number_behind(variable, *given)?;
            add_name(seen, variable.name.number)
        }
        Member::Method(function) => add_name(seen, function.name.number),
        Member::Subscript(_) => {
            *another = true;
            Ok(())
        }
        Member::Initialiser(_) => Ok(()),
    }
}

/// How many declarations were given types before what stands behind this variable, of which so
/// many before it.
fn number_behind(variable: &Variable, given: u32) -> Result<u32, TypeStop>
    ensures stop { IfErr result (λ e. e ≡ NoMemory) }
    ensures number { IfOk result (λ n. n ≡ members.number_behind variable.now given) }
{
    if variable.ty.is_some() {
        return Ok(given);
    }
    match given.checked_add(1) {
        Some(behind) => Ok(behind),
        None => Err(TypeStop::NoMemory),
    }
}

fn add_name(seen: &mut IndexSet<u32>, name: u32) -> Result<(), TypeStop>
    ensures stop { IfErr result (λ e. e ≡ NoMemory) }
    ensures names { OnOk result (seen.new.keys ≡ members.with_name name seen.old.keys) }
{
    seen.insert(name)?;
    Ok(())
}

/// A member of the owner, behind those of which this is known.
fn member(
    alloc: Global,
    declarations: &Declarations,
    walk: &mut Walk,
    names: OwnNames,
    stops: &[Option<TypeStop>],
    owner: Ty,
    seen: &IndexSet<u32>,
    another: bool,
    given: u32,
    member: &Member,
) -> JudgedMember
    ensures { Answers result walk.new (members.member declarations.now names stops.now owner (members.so_far seen.now.keys another given) member.now walk.old) }
{
    match member {
        Member::Property(written) => property(
            alloc,
            declarations,
            walk,
            names,
            stops,
            owner,
            seen,
            given,
            written,
        ),
        Member::Method(function) => method(alloc, declarations, walk, owner, seen, function),
        Member::Subscript(written) => subscript(
            alloc,
            declarations,
            walk,
            names,
            Some(owner),
            another,
            written,
        ),
        Member::Initialiser(_) => Ok(Found::Depends),
    }
}

/// A property of the owner.
fn property(
    alloc: Global,
    declarations: &Declarations,
    walk: &mut Walk,
    names: OwnNames,
    stops: &[Option<TypeStop>],
    owner: Ty,
    seen: &IndexSet<u32>,
    given: u32,
    written: &Variable,
) -> JudgedMember
    ensures { Answers result walk.new (variables.variable declarations.now names stops.now (Some owner) seen.now.keys None given written.now walk.old ▷ members.property_made written.now) }
{
    match variable(
        alloc,
        declarations,
        walk,
        names,
        stops,
        Some(owner),
        seen,
        None,
        given,
        written,
    )? {
        Found::Typed(found) => Ok(Found::Typed(property_made(written, found))),
        Found::Untold => Ok(Found::Untold),
        Found::Depends => Ok(Found::Depends),
    }
}

/// The stored property that a variable is, unless it is computed.
fn property_made(written: &Variable, found: TypedVariable) -> Option<NamedProperty>
    ensures { result ≡ cond (is_computed written.now.accessors) None (Some (members.named_property written.now found)) }
{
    if is_computed(written.accessors.as_slice()) {
        return None;
    }
    Some(NamedProperty {
        name: written.name.number,
        property: Property {
            node: found.node,
            ty: found.ty,
            default: found.value,
        },
    })
}

/// A method of the owner.
fn method(
    alloc: Global,
    declarations: &Declarations,
    walk: &mut Walk,
    owner: Ty,
    seen: &IndexSet<u32>,
    method: &Function,
) -> JudgedMember
    ensures { Answers result walk.new (members.method declarations.now owner seen.now.keys method.now walk.old) }
{
    match function(alloc, declarations, walk, Some(owner), seen, method)? {
        Found::Typed(_) => Ok(Found::Typed(None)),
        Found::Untold => Ok(Found::Untold),
        Found::Depends => Ok(Found::Depends),
    }
}
