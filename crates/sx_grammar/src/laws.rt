// What holds of the grammar.

ghost use Rattle.sx_grammar.specs.Answer.{AtMostOne};
ghost use Rattle.sx_grammar.specs.Rules.{head, program};

/// No tokens have two trees.
pub fn at_most_one_tree()
    ensures { AtMostOne program }
{}

/// No tokens are two heads of declarations.
pub fn at_most_one_head()
    ensures { AtMostOne head }
{}
