// The declarations whose initial values give their types.

ghost use Rattle.std.specs.Prelude.{◌≡◌, ◌++◌, [], IfOk, OnOk, map, option_copied};
ghost use Rattle.sx_settle.specs.Settled.{giving_by, giving_items, giving_members};
ghost use Rattle.sx_settle.specs.Steps.{given, giving_item, giving_member};

use std::alloc::{AllocError, Global};
use sx_outline::{ItemNodes, MemberNodes};
use sx_span::Node;
use sx_tree::{Expr, Item, Member, Variable};

/// A declaration whose initial value gives its type, at its node.
#[derive(Clone, Copy)]
pub struct Giving<'a> {
    pub node: Node,
    pub value: Option<&'a Expr>,
}

/// The declarations whose initial values give their types, in the order of the text.
pub fn givings_of<'a>(
    alloc: Global,
    items: &'a [Item],
    nodes: &[ItemNodes],
) -> Result<Vec<Giving<'a>>, AllocError>
    ensures { IfOk result (λ gs. map given gs.items ≡ giving_items items.now nodes.now) }
{
    let mut givings = Vec::new(alloc);
    add_items(&mut givings, items, nodes)?;
    Ok(givings)
}

fn add_items<'a>(
    givings: &mut Vec<Giving<'a>>,
    mut items: &'a [Item],
    mut nodes: &[ItemNodes],
) -> Result<(), AllocError>
    ensures { OnOk result (map given givings.new.items ≡ map given givings.old.items ++ giving_items items.entry.now nodes.entry.now) }
{
    'items: while let Some((item, other_items)) = items.split_first() {
        let Some((node, other_nodes)) = nodes.split_first() else {
            return Ok(());
        };
        add_item(givings, item, node)?;
        items = other_items;
        nodes = other_nodes;
    }
    Ok(())
}

fn add_item<'a>(
    givings: &mut Vec<Giving<'a>>,
    item: &'a Item,
    node: &ItemNodes,
) -> Result<(), AllocError>
    ensures { OnOk result (map given givings.new.items ≡ map given givings.old.items ++ giving_item item.now node.now) }
{
    match item {
        Item::Global(variable) => add_variable(givings, variable, node.node),
        Item::Type(declaration) => add_members(
            givings,
            declaration.members.as_slice(),
            node.members.as_slice(),
        ),
        Item::Function(_) | Item::Statement(_) => Ok(()),
    }
}

fn add_members<'a>(
    givings: &mut Vec<Giving<'a>>,
    mut members: &'a [Member],
    mut nodes: &[MemberNodes],
) -> Result<(), AllocError>
    ensures { OnOk result (map given givings.new.items ≡ map given givings.old.items ++ giving_members members.entry.now nodes.entry.now []) }
{
    'members: while let Some((member, other_members)) = members.split_first() {
        let Some((node, other_nodes)) = nodes.split_first() else {
            return Ok(());
        };
        add_member(givings, member, node.node)?;
        members = other_members;
        nodes = other_nodes;
    }
    Ok(())
}

fn add_member<'a>(
    givings: &mut Vec<Giving<'a>>,
    member: &'a Member,
    node: Node,
) -> Result<(), AllocError>
    ensures { OnOk result (map given givings.new.items ≡ map given givings.old.items ++ giving_member member.now node) }
{
    match member {
        Member::Property(variable) => add_variable(givings, variable, node),
        Member::Method(_) | Member::Subscript(_) | Member::Initialiser(_) => Ok(()),
    }
}

/// Adds a global or a property, if no type is written.
fn add_variable<'a>(
    givings: &mut Vec<Giving<'a>>,
    variable: &'a Variable,
    node: Node,
) -> Result<(), AllocError>
    ensures { OnOk result (map given givings.new.items ≡ map given givings.old.items ++ giving_by variable.now.ty node variable.now.value []) }
{
    match &variable.ty {
        Some(_) => Ok(()),
        None => {
            let value = variable.value.as_ref();
            givings.push(Giving { node, value })?;
            Ok(())
        }
    }
}
