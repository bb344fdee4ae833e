// Laws of texts.

ghost use Rattle.sx_texts.specs.Agree.{AnswersAgree};
ghost use Rattle.sx_texts.specs.Least.{FirstFaultIsLeast, TextsHaveNoInitialisers};
ghost use Rattle.sx_texts.specs.Placed.{FaultsAreTold};

/// A law: whatever [`typed_of`](sx_driver::typed_of) may answer of a text, but for want of memory, is
/// the same answer. So a text has one typed tree or one fault, and not both. It does nothing.
pub fn answers_agree()
    ensures { AnswersAgree }
{}

/// A law: the tree of a text has no written initialiser. It does nothing.
pub fn texts_have_no_initialisers()
    ensures { TextsHaveNoInitialisers }
{}

/// A law: where a text is refused by its names and types, the fault is that of a node of its tree
/// that fails, and no failing node has a lesser number. It does nothing.
pub fn first_fault_is_least()
    ensures { FirstFaultIsLeast }
{}

/// A law: whatever the tree of a text is refused by, but for want of memory, is told as a fault with
/// its places in the text, so [`typed_of`](sx_driver::typed_of) answers no want of memory for lack of a
/// place. It does nothing.
pub fn faults_are_told()
    ensures { FaultsAreTold }
{}
