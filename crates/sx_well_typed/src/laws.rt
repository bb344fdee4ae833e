// Laws of typing.

ghost use Rattle.sx_well_typed.specs.Laws.{BodiesAreDerived, ExpressionsAreDerived, StatementsAreDerived};

/// A law: an expression is judged to be a typed one exactly where the rules derive this. It does
/// nothing.
pub fn typed_expressions_are_derived()
    ensures { ExpressionsAreDerived }
{}

/// A law: a statement is judged to be a typed one exactly where the rules derive this, and so is a
/// block. It does nothing.
pub fn typed_statements_are_derived()
    ensures { StatementsAreDerived }
{}

/// A law: the statements of a body are judged to be typed ones exactly where the rules derive this. It
/// does nothing.
pub fn typed_bodies_are_derived()
    ensures { BodiesAreDerived }
{}
