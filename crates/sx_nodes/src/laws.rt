// Laws of the numbers of nodes.

ghost use Rattle.std.specs.Prelude.{◌≡◌, ℕ, List, Option};
ghost use Rattle.sx_tree.specs.declared.declarations.Item.{Item};
ghost use Rattle.sx_nodes.specs.declared.code.Code.{Code};
ghost use Rattle.sx_nodes.specs.Walks.{CodeAt};

/// A number stands for one part of a program at most.
pub fn one_code_a_node()
    ensures { (is : List Item) (n : ℕ) (c d : Option Code) → CodeAt is n c → CodeAt is n d → c ≡ d }
{}
