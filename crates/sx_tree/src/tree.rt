// A tree with the lists that it refers to, and where faults of its nodes stand.

ghost use Rattle.std.specs.Prelude.{◌≡◌, IfOk, slice_get};
ghost use Rattle.sx_tree.specs.Nodes.{all_parameter_places, all_places};

use crate::declarations::Item;
use crate::nodes::{FaultOf, NoMemory, put_items};
use sqlite_items::Items;
use std::alloc::Global;
use sx_span::Node;

/// The tree of a program, with the lists that it refers to.
#[derive(Drop)]
pub struct Tree {
    /// The items in the order of the text.
    pub items: Items<Item>,
    /// What the text literals stand for: bytes in UTF-8.
    pub texts: Vec<Vec<u8>>,
    /// The names, each once.
    pub names: Vec<Vec<u8>>,
    /// The places at which the lines of the text start.
    pub lines: Vec<u32>,
    /// For each node, where its faults stand.
    pub places: Vec<u32>,

    pub ghost numbered: { places.items ≡ all_places items },
}

impl Tree {
    /// The tree with these items and lists.
    pub fn new(
        alloc: Global,
        items: Items<Item>,
        texts: Vec<Vec<u8>>,
        names: Vec<Vec<u8>>,
        lines: Vec<u32>,
    ) -> Result<Tree, NoMemory>
        ensures { IfOk result (λ t. (t.items ≡ items) × (t.texts ≡ texts) × (t.names ≡ names) × (t.lines ≡ lines)) }
    {
        let mut places = Vec::new(alloc);
        put_items(&mut places, FaultOf::Accessor, items.as_slice())?;
        Ok(Tree {
            items,
            texts,
            names,
            lines,
            places,
        })
    }
}

/// The place at which a fault of the node stands: for a declaration its name, for an accessor or
/// observer the name of its property or global or the word `subscript`, and for every other node
/// the start of its first token. None where the tree has no such node.
pub fn fault_place(tree: &Tree, node: Node) -> Option<u32>
    ensures { result ≡ slice_get (all_places tree.now.items) node.0 }
{
    tree.places.get(node.0 as usize).copied()
}

/// The place at which a fault of the parameter stands, where the node is an accessor or observer:
/// the name of that parameter, if it is written. For every other node it is that of its faults.
pub fn parameter_fault_place(
    alloc: Global,
    tree: &Tree,
    node: Node,
) -> Result<Option<u32>, NoMemory>
    ensures { IfOk result (λ place. place ≡ slice_get (all_parameter_places tree.now.items) node.0) }
{
    let mut places = Vec::new(alloc);
    put_items(&mut places, FaultOf::Parameter, tree.items.as_slice())?;
    Ok(places.get(node.0 as usize).copied())
}
