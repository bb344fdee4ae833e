// How far a visit of a tree is.

ghost use Rattle.std.specs.Prelude.{◌≡◌, [], IfOk, OnOk, Some};
ghost use Rattle.sx_span.specs.declared.places.Node.{Node};
ghost use Rattle.sx_outline.specs.Visit.{counted, gathered};

use std::alloc::{AllocError, Global};
use sx_span::Node;
use sx_types::{FunctionType, FunctionTypes, Ty};

/// How many function types can be numbered.
const MOST: usize = 1 << 32;

/// How far a visit of a tree is. It goes in the order of the nodes.
#[derive(Drop)]
pub struct Visit {
    /// The number of the next node.
    pub next: u32,
    /// The function types so far, each once.
    pub functions: FunctionTypes,
}

impl Visit {
    /// Where nothing is visited.
    pub fn new(alloc: Global) -> Visit
        ensures next { result.next ≡ 0 }
        ensures functions { result.functions ≡ [] }
    {
        Visit {
            next: 0,
            functions: FunctionTypes::new(alloc),
        }
    }

    /// The next node.
    pub fn node(&self) -> Node
        ensures { result.0 ≡ self.now.next }
    {
        Node(self.next)
    }

    /// Passes so many nodes.
    pub fn count(&mut self, nodes: usize) -> Result<(), AllocError>
        ensures { OnOk result (self.new ≡ counted nodes self.old) }
    {
        let Ok(nodes) = u32::try_from(nodes) else {
            return Err(AllocError);
        };
        match nodes.checked_add(self.next) {
            Some(next) => {
                self.next = next;
                Ok(())
            }
            None => Err(AllocError),
        }
    }

    /// Gathers a function type, and tells its number.
    pub fn gather(&mut self, function: FunctionType) -> Result<Ty, AllocError>
        ensures { IfOk result (λ t. (Some t, self.new) ≡ gathered function self.old) }
    {
        if self.functions.as_slice().len() >= MOST {
            return Err(AllocError);
        }
        let number = self.functions.number_of(function)?;
        Ok(Ty::Func(number))
    }
}
