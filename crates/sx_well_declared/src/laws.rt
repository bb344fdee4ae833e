// Laws of declarations and programs.

ghost use Rattle.sx_well_declared.specs.Laws.{AccessorsAreDerived, FunctionBodiesAreDerived, FunctionsAreDerived, HeadsAreDerived, ItemsAreDerived, MembersAreDerived, ProgramsAreDerived, SubscriptsAreDerived, TreesAreDerived, TypesAreDerived, VariablesAreDerived};

/// A law: the body of a function or accessor is judged typed, and lacks no `return`, exactly where the
/// rules derive this. It does nothing.
pub fn function_bodies_are_derived()
    ensures { FunctionBodiesAreDerived }
{}

/// A law: the head of a function or subscript is judged typed exactly where the rules derive this. It
/// does nothing.
pub fn heads_are_derived()
    ensures { HeadsAreDerived }
{}

/// A law: a function or method is judged typed exactly where the rules derive this. It does nothing.
pub fn functions_are_derived()
    ensures { FunctionsAreDerived }
{}

/// A law: an accessor or observer is judged typed exactly where the rules derive this, and so are
/// several one after another. It does nothing.
pub fn accessors_are_derived()
    ensures { AccessorsAreDerived }
{}

/// A law: a global or property is judged to be a typed one exactly where the rules derive this. It
/// does nothing.
pub fn variables_are_derived()
    ensures { VariablesAreDerived }
{}

/// A law: a subscript is judged typed exactly where the rules derive this. It does nothing.
pub fn subscripts_are_derived()
    ensures { SubscriptsAreDerived }
{}

/// A law: a member is judged typed exactly where the rules derive this, and so are members one after
/// another. It does nothing.
pub fn members_are_derived()
    ensures { MembersAreDerived }
{}

/// A law: a structure or class is judged to be a typed one exactly where the rules derive this. It
/// does nothing.
pub fn types_are_derived()
    ensures { TypesAreDerived }
{}

/// A law: an item of a program is judged typed exactly where the rules derive this, and so are items
/// one after another. It does nothing.
pub fn items_are_derived()
    ensures { ItemsAreDerived }
{}

/// A law: a program is judged typed exactly where the rules derive this. It does nothing.
pub fn programs_are_derived()
    ensures { ProgramsAreDerived }
{}

/// A law: a tree is answered by this typed tree exactly where the rules derive that it has it. It does
/// nothing.
pub fn trees_are_derived()
    ensures { TreesAreDerived }
{}
