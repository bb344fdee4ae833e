// Why a text is refused.

ghost use Rattle.std.specs.Prelude.{◌≡◌, ◌≤◌, IfOk, length, string_bytes};
ghost use Rattle.sx_driver.specs.Faults.{IsPlaced};
ghost use Rattle.sx_driver.specs.Lines.{fault_line, kind_word, type_word};

use std::alloc::{AllocError, Global};
use sx_lexer::LexKind;
use sx_scope::TypeKind;
use sx_span::line_col;

/// Why a text is refused: the first rule that it breaks. Places count bytes from 0.
#[derive(Clone, Copy, Debug, PartialEq, Eq)]
pub enum Fault {
    /// More than 262,144 bytes.
    TooLong,
    /// Bytes that are no UTF-8. The place is the length of the longest prefix that is.
    Encoding(u32),
    /// The first lexical fault, by its kind.
    Lexical(LexKind, u32),
    /// More than 65,536 tokens. The place is that of the first one too many.
    TooManyTokens(u32),
    /// The first token with which the tokens up to it are no front of a program, or the end.
    Syntax(u32),
    /// The token that opens a level too much: more than 200 open at one place.
    TooDeep(u32),
    /// The first node of the tree that breaks a condition on names and types, and the first such
    /// condition.
    Typing(TypeKind, u32),
    /// The first node of the tree that fails, since it has too many words.
    TooWide(u32),
    /// The first statement or initial value that reaches a global too late, and the global's name.
    Late { at: u32, global: u32 },
    /// The text has no fault, and is not of the forms that are built today.
    Unbuilt,
}

/// Why nothing was compiled.
#[derive(Clone, Copy, Debug, PartialEq, Eq)]
pub enum CompileStop {
    /// The text is refused.
    Refused(Fault),
    /// Memory ran out.
    NoMemory,
}

/// The line that tells of a fault of the text, with the line and column of its place.
#[tactic(auto, unfolding(crate::specs::Lines::fault_line))]
pub fn fault_line(alloc: Global, text: &[u8], fault: Fault) -> Result<String, AllocError>
    requires { IsPlaced text.now fault }
    ensures { IfOk result (λ line. string_bytes line ≡ fault_line text.now fault) }
{
    match fault {
        Fault::TooLong => format!(in alloc; "error too-long\n"),
        Fault::Encoding(at) => {
            let place = line_col(text, at);
            format!(in alloc; "error {}:{} encoding\n", place.line, place.column)
        }
        Fault::Lexical(kind, at) => {
            let place = line_col(text, at);
            let word = kind_word(kind);
            format!(in alloc; "error {}:{} lexical {word}\n", place.line, place.column)
        }
        Fault::TooManyTokens(at) => {
            let place = line_col(text, at);
            format!(in alloc; "error {}:{} too-many-tokens\n", place.line, place.column)
        }
        Fault::Syntax(at) => {
            let place = line_col(text, at);
            format!(in alloc; "error {}:{} syntax\n", place.line, place.column)
        }
        Fault::TooDeep(at) => {
            let place = line_col(text, at);
            format!(in alloc; "error {}:{} too-deep\n", place.line, place.column)
        }
        Fault::Typing(kind, at) => {
            let place = line_col(text, at);
            let word = type_word(kind);
            format!(in alloc; "error {}:{} type {word}\n", place.line, place.column)
        }
        Fault::TooWide(at) => {
            let place = line_col(text, at);
            format!(in alloc; "error {}:{} too-wide\n", place.line, place.column)
        }
        Fault::Late { at, global } => {
            let place = line_col(text, at);
            let name = line_col(text, global);
            format!(in alloc;
                "error {}:{} late-global with {}:{}\n",
                place.line, place.column, name.line, name.column
            )
        }
        Fault::Unbuilt => format!(in alloc; "error unbuilt\n"),
    }
}

/// The word for a kind of lexical fault.
#[tactic(auto, unfolding(crate::specs::Lines::kind_word))]
fn kind_word(kind: LexKind) -> &'static str
    ensures { result.now ≡ kind_word kind }
{
    match kind {
        LexKind::BadNumber => "bad-number",
        LexKind::BigLiteral => "big-literal",
        LexKind::BadEscape => "bad-escape",
        LexKind::OpenString => "open-string",
        LexKind::MultilineString => "multiline-string",
        LexKind::UnknownOperator => "unknown-operator",
        LexKind::OpenComment => "open-comment",
        LexKind::StrayCharacter => "stray-character",
    }
}

/// The word for a condition on names and types.
#[tactic(auto, unfolding(crate::specs::Lines::type_word))]
fn type_word(kind: TypeKind) -> &'static str
    ensures { result.now ≡ type_word kind }
{
    match kind {
        TypeKind::UnknownName => "unknown-name",
        TypeKind::Duplicate => "duplicate",
        TypeKind::Mismatch => "mismatch",
        TypeKind::NotAssignable => "not-assignable",
        TypeKind::NotAValue => "not-a-value",
        TypeKind::NotCallable => "not-callable",
        TypeKind::ArgumentCount => "argument-count",
        TypeKind::ArgumentLabel => "argument-label",
        TypeKind::Ampersand => "ampersand",
        TypeKind::EscapingUse => "escaping-use",
        TypeKind::InoutCaptured => "inout-captured",
        TypeKind::MissingReturn => "missing-return",
        TypeKind::RecursiveStruct => "recursive-struct",
        TypeKind::BreakOutside => "break-outside",
        TypeKind::NoContext => "no-context",
        TypeKind::MutatingOnValue => "mutating-on-value",
        TypeKind::NeedsType => "needs-type",
        TypeKind::MissingDefault => "missing-default",
    }
}
