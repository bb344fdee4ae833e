// Laws of the lexis.

ghost use Rattle.sx_lexer.specs.Laws.{AnswersAgree, ExactlyOneAnswer};

/// A law: a text has one list of tokens or one first fault, and not both. It does nothing.
pub fn exactly_one_answer()
    ensures { ExactlyOneAnswer }
{}

/// A law: whatever [`lex`](crate::lex) may answer of a text, but for want of memory, is the same
/// answer. It does nothing.
pub fn answers_agree()
    ensures { AnswersAgree }
{}
