// The nodes of the declarations of a program, and its function types.

ghost use Rattle.std.specs.Prelude.{◌≡◌, IfOk, nat_eq};
ghost use Rattle.indexmap.specs.IndexMap.{get};
ghost use Rattle.sx_outline.specs.Outline.{outlined};

use crate::declarations::visit_items;
use crate::visit::Visit;
use indexmap::IndexMap;
use sqlite_items::Items;
use std::alloc::{AllocError, Global};
use sx_span::Node;
use sx_tree::Item;
use sx_types::{FunctionTypes, Ty};

/// The node of a member, and those of its accessors and observers in the order of the text.
#[derive(Drop)]
pub struct MemberNodes {
    pub node: Node,
    pub accessors: Items<Node>,
}

/// The node of an item, those of its accessors and observers in the order of the text, and those
/// of its members.
#[derive(Drop)]
pub struct ItemNodes {
    pub node: Node,
    pub accessors: Items<Node>,
    pub members: Items<MemberNodes>,
}

/// What a program declares.
#[derive(Drop)]
pub struct Outline {
    /// The nodes of the items, in the order of the text.
    pub items: Items<ItemNodes>,
    /// How many nodes the tree has.
    pub nodes: u32,
    /// The function types that are written, of functions and of the signatures of closures, each
    /// once, in the order in which they are first seen.
    pub functions: FunctionTypes,
}

/// What a program declares, by the types that names mean. More nodes or function types than there
/// are numbers count as memory that runs out.
pub fn outline_of(
    alloc: Global,
    names: &IndexMap<u32, Ty>,
    items: &[Item],
) -> Result<Outline, AllocError>
    ensures { IfOk result (λ o. o ≡ outlined (get nat_eq names.now) items.now) }
{
    let mut visit = Visit::new(alloc);
    let items = visit_items(alloc, names, &mut visit, items)?;
    let Visit { next, functions } = visit;
    Ok(Outline {
        items,
        nodes: next,
        functions,
    })
}
