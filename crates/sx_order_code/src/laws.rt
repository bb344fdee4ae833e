// Laws of expressions, statements and bodies.

ghost use Rattle.sx_order_code.specs.Code.{CodeTakesItsPlaces};

/// A law: expressions, statements and bodies take as many nodes as they have places, and their
/// failing nodes stand in the order of the nodes, as do the closure literals in them. It does
/// nothing.
pub fn code_takes_its_places()
    ensures { CodeTakesItsPlaces }
{}
