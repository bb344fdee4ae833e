// Laws of the places of a text's tree.

ghost use Rattle.sx_tree_places.specs.Laws.{PlacesLieInTheText};

/// A law: the faults of each node of a text's tree stand in the text, and so do those of the
/// parameters of accessors and observers. It does nothing.
pub fn places_lie_in_the_text()
    ensures { PlacesLieInTheText }
{}
