// The members of structures and classes.

ghost use Rattle.std.specs.Prelude.{◌≡◌, IfOk, OnOk};
ghost use Rattle.sx_tables.specs.Tables as tables;

use crate::names::{Numbers, behind_member};
use sqlite_items::Items;
use std::alloc::{AllocError, Global};
use sx_bodies::is_reserved;
use sx_heads::{accessors_of, is_computed, subscript, variable};
use sx_outline::MemberNodes;
use sx_scope::{Declarations, DeclaredType, StoredProperty, Variable};
use sx_tree::Member;
use sx_types::Ty;

/// A structure or class with its members. Those that come first count.
pub(crate) fn with_members(
    alloc: Global,
    declarations: &Declarations,
    ty: Ty,
    mut numbers: Numbers,
    mut members: &[Member],
    mut nodes: &[MemberNodes],
    bare: DeclaredType,
) -> Result<DeclaredType, AllocError>
    ensures { IfOk result (λ s. s ≡ tables.with_members declarations.now ty numbers members.entry.now nodes.entry.now bare) }
{
    let mut full = bare;
    'members: while let [member, other_members @ ..] = members {
        let [node, other_nodes @ ..] = nodes else {
            return Ok(full);
        };
        add_member(alloc, declarations, &mut full, ty, numbers, member, node)?;
        numbers = behind_member(member, numbers)?;
        members = other_members;
        nodes = other_nodes;
    }
    Ok(full)
}

fn add_member(
    alloc: Global,
    declarations: &Declarations,
    full: &mut DeclaredType,
    ty: Ty,
    numbers: Numbers,
    member: &Member,
    node: &MemberNodes,
) -> Result<(), AllocError>
    ensures { OnOk result (full.new ≡ tables.with_member declarations.now ty numbers member.now node.now full.old) }
{
    match member {
        Member::Property(written) => {
            add_property(alloc, declarations, full, ty, numbers.given, node, written)
        }
        Member::Method(function) => {
            add_method(declarations, full, numbers.functions, function.name.number)
        }
        Member::Subscript(written) => add_subscript(alloc, declarations, full, node, written),
        Member::Initialiser(_) => Ok(()),
    }
}

fn add_property(
    alloc: Global,
    declarations: &Declarations,
    full: &mut DeclaredType,
    ty: Ty,
    given: u32,
    node: &MemberNodes,
    written: &sx_tree::Variable,
) -> Result<(), AllocError>
    ensures { OnOk result (full.new ≡ tables.with_property declarations.now ty given node.now written.now full.old) }
{
    let name = written.name.number;
    if is_new_member(declarations, full, name) {
        let Ok(number) = u32::try_from(full.stored.len()) else {
            return Err(AllocError);
        };
        let variable = variable(
            alloc,
            declarations,
            Some(ty),
            node.node,
            node.accessors.as_slice(),
            number,
            given,
            written,
        )?;
        add_new_property(full, name, written, variable)
    } else {
        let computed = is_computed(written.accessors.as_slice());
        full.lacks_property = full.lacks_property || !computed;
        Ok(())
    }
}

/// Whether a name is neither reserved nor that of a member.
fn is_new_member(declarations: &Declarations, full: &DeclaredType, name: u32) -> bool
    ensures { result ≡ tables.is_new_member declarations.now full.now name }
{
    !is_reserved(declarations, name) && full.members.get(name).is_none()
}

fn add_new_property(
    full: &mut DeclaredType,
    name: u32,
    written: &sx_tree::Variable,
    variable: Variable,
) -> Result<(), AllocError>
    ensures { OnOk result (full.new ≡ tables.with_new_property name written.now variable full.old) }
{
    full.members
        .add(name, sx_scope::Member::Property(variable))?;
    let computed = is_computed(written.accessors.as_slice());
    let property = StoredProperty {
        name,
        ty: variable.ty,
        has_default: written.value.is_some(),
    };
    add_stored(&mut full.stored, computed, property)
}

fn add_stored(
    stored: &mut Items<StoredProperty>,
    computed: bool,
    property: StoredProperty,
) -> Result<(), AllocError>
    ensures { OnOk result (stored.new ≡ tables.with_stored computed property stored.old) }
{
    if computed {
        Ok(())
    } else {
        stored.push(property)
    }
}

fn add_method(
    declarations: &Declarations,
    full: &mut DeclaredType,
    number: u32,
    name: u32,
) -> Result<(), AllocError>
    ensures { OnOk result (full.new ≡ tables.with_method declarations.now number name full.old) }
{
    if is_new_member(declarations, full, name) {
        full.members.add(name, sx_scope::Member::Method(number))
    } else {
        Ok(())
    }
}

fn add_subscript(
    alloc: Global,
    declarations: &Declarations,
    full: &mut DeclaredType,
    node: &MemberNodes,
    written: &sx_tree::Subscript,
) -> Result<(), AllocError>
    ensures { OnOk result (full.new ≡ tables.with_subscript declarations.now node.now written.now full.old) }
{
    if full.subscript.is_none() {
        let accessors = accessors_of(written.accessors.as_slice(), node.accessors.as_slice());
        let subscript = subscript(alloc, declarations, node.node, accessors, written)?;
        full.subscript = Some(subscript);
    }
    Ok(())
}
