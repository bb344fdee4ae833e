// Declarations, and the nodes of them.

ghost use Rattle.std.specs.Prelude.{◌≡◌, [], IfOk, OnOk, Some, map, nat_eq};
ghost use Rattle.indexmap.specs.IndexMap.{get};
ghost use Rattle.sx_outline.specs.Outline.{accessor_nodes, accessors_visit, function_visit, initialiser_visit, is_inout, item_accessors, item_members, item_nodes, item_visit, items_visit, member_accessors, member_nodes, member_visit, members_visit, parameter_visit, subscript_head_visit, subscript_visit, variable_head_visit, variable_visit};
ghost use Rattle.sx_outline.specs.Visit.{run_parameters};

use crate::code::{visit_block, visit_statement, visit_value};
use crate::outline::{ItemNodes, MemberNodes};
use crate::types::{
    FoundParameters, find_function, pass, pass_type, visit_type, visit_type_or, with_one_more,
};
use crate::visit::Visit;
use indexmap::IndexMap;
use sqlite_items::Items;
use std::alloc::{AllocError, Global};
use sx_span::Node;
use sx_tree::{
    Accessor, Function, Initialiser, Item, Marker, Member, Parameter, Subscript, Variable,
};
use sx_types::Ty;

/// Visits accessors and observers, and tells their nodes.
fn visit_accessors(
    alloc: Global,
    names: &IndexMap<u32, Ty>,
    visit: &mut Visit,
    accessors: &[Accessor],
) -> Result<Items<Node>, AllocError>
    ensures nodes { IfOk result (λ ns. ns ≡ accessor_nodes (get nat_eq names.now) accessors.now visit.old) }
    ensures visit { OnOk result (visit.new ≡ accessors_visit (get nat_eq names.now) accessors.now visit.old) }
{
    let mut nodes = Items::new(alloc);
    'turns: for accessor in accessors {
        nodes.push(visit.node())?;
        visit.count(1)?;
        visit_block(alloc, names, visit, &accessor.body)?;
    }
    Ok(nodes)
}

fn is_in_out(marker: Marker) -> bool
    ensures { result ≡ is_inout marker }
{
    matches!(marker, Marker::InOut)
}

fn visit_parameters(
    alloc: Global,
    names: &IndexMap<u32, Ty>,
    visit: &mut Visit,
    parameters: &[Parameter],
) -> Result<FoundParameters, AllocError>
    ensures { IfOk result (λ o. (o, visit.new) ≡ run_parameters (map (parameter_visit (get nat_eq names.now)) parameters.now) (Some []) visit.old) }
{
    let mut all = Some(Items::new(alloc));
    'turns: for parameter in parameters {
        visit.count(1)?;
        let ty = visit_type(alloc, names, visit, &parameter.ty)?;
        all = with_one_more(all, pass(is_in_out(parameter.marker), ty))?;
    }
    Ok(all)
}

fn visit_function(
    alloc: Global,
    names: &IndexMap<u32, Ty>,
    visit: &mut Visit,
    function: &Function,
) -> Result<(), AllocError>
    ensures { OnOk result (visit.new ≡ function_visit (get nat_eq names.now) function.now visit.old) }
{
    visit.count(1)?;
    let parameters = visit_parameters(alloc, names, visit, function.parameters.as_slice())?;
    let gives = visit_type_or(alloc, names, visit, Ty::Void, &function.result)?;
    find_function(visit, parameters, gives)?;
    visit_block(alloc, names, visit, &function.body)
}

/// Visits a global or a property, and tells the nodes of its accessors and observers.
fn visit_variable(
    alloc: Global,
    names: &IndexMap<u32, Ty>,
    visit: &mut Visit,
    variable: &Variable,
) -> Result<Items<Node>, AllocError>
    ensures nodes { IfOk result (λ ns. ns ≡ accessor_nodes (get nat_eq names.now) variable.now.accessors (variable_head_visit (get nat_eq names.now) variable.now visit.old)) }
    ensures visit { OnOk result (visit.new ≡ variable_visit (get nat_eq names.now) variable.now visit.old) }
{
    visit.count(1)?;
    pass_type(alloc, names, visit, &variable.ty)?;
    visit_value(alloc, names, visit, &variable.value)?;
    visit_accessors(alloc, names, visit, variable.accessors.as_slice())
}

/// Visits a subscript, and tells the nodes of its accessors.
fn visit_subscript(
    alloc: Global,
    names: &IndexMap<u32, Ty>,
    visit: &mut Visit,
    subscript: &Subscript,
) -> Result<Items<Node>, AllocError>
    ensures nodes { IfOk result (λ ns. ns ≡ accessor_nodes (get nat_eq names.now) subscript.now.accessors (subscript_head_visit (get nat_eq names.now) subscript.now visit.old)) }
    ensures visit { OnOk result (visit.new ≡ subscript_visit (get nat_eq names.now) subscript.now visit.old) }
{
    visit.count(1)?;
    let parameters = visit_parameters(alloc, names, visit, subscript.parameters.as_slice())?;
    let gives = visit_type(alloc, names, visit, &subscript.result)?;
    find_function(visit, parameters, gives)?;
    visit_accessors(alloc, names, visit, subscript.accessors.as_slice())
}

fn visit_initialiser(
    alloc: Global,
    names: &IndexMap<u32, Ty>,
    visit: &mut Visit,
    initialiser: &Initialiser,
) -> Result<(), AllocError>
    ensures { OnOk result (visit.new ≡ initialiser_visit (get nat_eq names.now) initialiser.now visit.old) }
{
    visit.count(1)?;
    let parameters = visit_parameters(alloc, names, visit, initialiser.parameters.as_slice())?;
    find_function(visit, parameters, Some(Ty::Void))?;
    visit_block(alloc, names, visit, &initialiser.body)
}

/// Visits a member, and tells the nodes of its accessors and observers.
fn visit_member(
    alloc: Global,
    names: &IndexMap<u32, Ty>,
    visit: &mut Visit,
    member: &Member,
) -> Result<Items<Node>, AllocError>
    ensures nodes { IfOk result (λ ns. ns ≡ member_accessors (get nat_eq names.now) member.now visit.old) }
    ensures visit { OnOk result (visit.new ≡ member_visit (get nat_eq names.now) member.now visit.old) }
{
    match member {
        Member::Property(variable) => visit_variable(alloc, names, visit, variable),
        Member::Method(function) => {
            visit_function(alloc, names, visit, function)?;
            Ok(Items::new(alloc))
        }
        Member::Subscript(subscript) => visit_subscript(alloc, names, visit, subscript),
        Member::Initialiser(initialiser) => {
            visit_initialiser(alloc, names, visit, initialiser)?;
            Ok(Items::new(alloc))
        }
    }
}

/// Visits members, and tells their nodes.
fn visit_members(
    alloc: Global,
    names: &IndexMap<u32, Ty>,
    visit: &mut Visit,
    members: &[Member],
) -> Result<Items<MemberNodes>, AllocError>
    ensures nodes { IfOk result (λ ns. ns ≡ member_nodes (get nat_eq names.now) members.now visit.old) }
    ensures visit { OnOk result (visit.new ≡ members_visit (get nat_eq names.now) members.now visit.old) }
{
    let mut nodes = Items::new(alloc);
    'turns: for member in members {
        let node = visit.node();
        let accessors = visit_member(alloc, names, visit, member)?;
        nodes.push(MemberNodes { node, accessors })?;
    }
    Ok(nodes)
}

/// The nodes of an item with no accessors and no members.
fn alone(alloc: Global, node: Node) -> ItemNodes
    ensures node { result.node ≡ node }
    ensures accessors { result.accessors ≡ [] }
    ensures members { result.members ≡ [] }
{
    ItemNodes {
        node,
        accessors: Items::new(alloc),
        members: Items::new(alloc),
    }
}

/// Visits an item, and tells its nodes.
fn visit_item(
    alloc: Global,
    names: &IndexMap<u32, Ty>,
    visit: &mut Visit,
    item: &Item,
) -> Result<ItemNodes, AllocError>
    ensures node { IfOk result (λ i. i.node.0 ≡ visit.old.next) }
    ensures accessors { IfOk result (λ i. i.accessors ≡ item_accessors (get nat_eq names.now) item.now visit.old) }
    ensures members { IfOk result (λ i. i.members ≡ item_members (get nat_eq names.now) item.now visit.old) }
    ensures visit { OnOk result (visit.new ≡ item_visit (get nat_eq names.now) item.now visit.old) }
{
    let node = visit.node();
    match item {
        Item::Function(function) => {
            visit_function(alloc, names, visit, function)?;
            Ok(alone(alloc, node))
        }
        Item::Type(declaration) => {
            visit.count(1)?;
            let members = visit_members(alloc, names, visit, declaration.members.as_slice())?;
            let accessors = Items::new(alloc);
            Ok(ItemNodes {
                node,
                accessors,
                members,
            })
        }
        Item::Global(variable) => {
            let accessors = visit_variable(alloc, names, visit, variable)?;
            let members = Items::new(alloc);
            Ok(ItemNodes {
                node,
                accessors,
                members,
            })
        }
        Item::Statement(statement) => {
            visit_statement(alloc, names, visit, statement)?;
            Ok(alone(alloc, node))
        }
    }
}

/// Visits items, and tells their nodes.
pub fn visit_items(
    alloc: Global,
    names: &IndexMap<u32, Ty>,
    visit: &mut Visit,
    items: &[Item],
) -> Result<Items<ItemNodes>, AllocError>
    ensures nodes { IfOk result (λ ns. ns ≡ item_nodes (get nat_eq names.now) items.now visit.old) }
    ensures visit { OnOk result (visit.new ≡ items_visit (get nat_eq names.now) items.now visit.old) }
{
    let mut nodes = Items::new(alloc);
    'turns: for item in items {
        nodes.push(visit_item(alloc, names, visit, item)?)?;
    }
    Ok(nodes)
}
