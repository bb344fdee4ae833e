// Which code has a number.

ghost use Rattle.std.specs.Prelude.{IfOk};
ghost use Rattle.sx_nodes.specs.Walks.{CodeAt};

use crate::code::Code;
use crate::own::{Own, own_code};
use crate::stacks::{push_all, push_inner};
use std::alloc::{AllocError, Global};
use sx_span::Node;
use sx_tree::Tree;

/// The expression, block or statement of the node, a copy; none where the node is no code, and
/// where the tree has no such node.
///
/// The fronts of a chain and of parts behind an operand are expressions too, each with the bytes of
/// the whole.
pub fn code_at(alloc: Global, tree: &Tree, node: Node) -> Result<Option<Code>, AllocError>
    ensures { IfOk result (CodeAt tree.now.items node.0) }
{
    let mut open = Vec::new(alloc);
    push_all(&mut open, tree.items.as_slice())?;
    let mut left = node.0 as usize;
    'pieces: for _turn in 0..usize::MAX {
        let Some(piece) = open.pop() else {
            return Ok(None);
        };
        match own_code(alloc, piece, left)? {
            Own::Is(code) => return Ok(code),
            Own::Past(behind) => left = behind,
        }
        push_inner(&mut open, piece)?;
    }
    // So many pieces fit in no memory.
    Err(AllocError)
}
