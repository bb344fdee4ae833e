// Laws of what is answered of a tree.

ghost use Rattle.sx_one_answer.specs.Agree.{AnswersAgree};
ghost use Rattle.sx_one_answer.specs.Decided.{ProgramsAreDecided};

/// A law: whatever [`check`](sx_check_decl::check) may answer of a tree, but for want of memory, is
/// the same answer. It does nothing.
pub fn answers_agree()
    ensures { AnswersAgree }
{}

/// A law: whatever its declarations settle to, a program is judged typed, or a node in it fails. It
/// does nothing.
pub fn programs_are_decided()
    ensures { ProgramsAreDecided }
{}
