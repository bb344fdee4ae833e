// Laws of the numbers of nodes.

ghost use Rattle.sx_node_places.specs.Places.{CodeHasItsPlaces};

/// A law: where code has a number, the list of places of its tree has the places of that code from
/// this number on. It does nothing.
pub fn code_has_its_places()
    ensures { CodeHasItsPlaces }
{}
