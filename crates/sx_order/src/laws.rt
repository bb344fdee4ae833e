// Laws of written types.

ghost use Rattle.sx_order.specs.Laws.{WrittenTypesTakeTheirPlaces};

/// A law: a written type takes as many nodes as it has places, and its failing nodes stand in the
/// order of the nodes, as do the functions found. It does nothing.
pub fn written_types_take_their_places()
    ensures { WrittenTypesTakeTheirPlaces }
{}
