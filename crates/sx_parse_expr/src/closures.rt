// Closure literals, from their brace on.

ghost use Rattle.std.specs.Prelude.{◌≡◌};
ghost use Rattle.sx_grammar.specs.Classes.{any, here};
ghost use Rattle.sx_grammar.specs.Grammar.{run};
ghost use Rattle.sx_grammar.specs.Rules.{body, braces, closure_at, closure_form, optional, trailing};
ghost use Rattle.sx_grammar.specs.Value.{a_closure, a_literal};
ghost use Rattle.sx_parse_decl.specs.Reading.{Gives};
ghost use Rattle.sx_parse_expr.specs.Levels.{IsReader};
ghost use Rattle.sx_parse_expr.specs.Views.{closure_or_nothing};

use crate::levels::{Level, Taken, read_literal};
use sqlite_items::Items;
use sx_grammar::{Lexeme, Mode, Sort};
use sx_parse_decl::{Stop, opened, opened_here, starts_here};
use sx_span::Span;
use sx_tree::{Closure, Signature, Statement};

fn closure_between(start: Span, signature: Signature, body: Items<Statement>, last: Span) -> Closure
    ensures { a_closure result ≡ closure_form start (a_literal signature body) last }
{
    let span = Span {
        start: start.start,
        end: last.end,
    };
    Closure {
        span,
        signature,
        body,
    }
}

/// A closure literal that begins an operand.
#[tactic(auto, unfolding(sx_grammar::specs::Grammar::run, sx_grammar::specs::Grammar::run_with, sx_grammar::specs::Rules::body, sx_grammar::specs::Rules::closure_at))]
pub fn any_closure<'a, F: Fn(Level, &[Lexeme], u32) -> Taken>(
    deeper: &F,
    lexemes: &'a [Lexeme],
    levels: u32,
) -> Result<(Closure, &'a [Lexeme]), Stop>
    requires reader { IsReader (F.pre deeper.now) (F.post deeper.now) levels }
    ensures { Gives (λ x. a_closure x.0) (λ x. x.1.now) result (run body levels (closure_at (any braces)) lexemes.now) }
{
    let (open, rest, fewer) = opened(lexemes, &[Sort::OpenBrace, Sort::OpenObservers], levels)?;
    let (signature, body, close, rest) = read_literal(deeper, rest, levels, fewer)?;
    let closure = closure_between(open.token.span, signature, body, close.token.span);
    Ok((closure, rest))
}

#[tactic(auto, unfolding(sx_grammar::specs::Grammar::run, sx_grammar::specs::Grammar::run_with, sx_grammar::specs::Rules::body, sx_grammar::specs::Rules::closure_at))]
fn optional_closure<'a, F: Fn(Level, &[Lexeme], u32) -> Taken>(
    deeper: &F,
    sorts: &[Sort],
    lexemes: &'a [Lexeme],
    levels: u32,
) -> Result<(Option<Closure>, &'a [Lexeme]), Stop>
    requires reader { IsReader (F.pre deeper.now) (F.post deeper.now) levels }
    ensures { Gives (λ x. closure_or_nothing x.0) (λ x. x.1.now) result (run body levels (optional (closure_at (here sorts.now))) lexemes.now) }
{
    if !starts_here(lexemes, sorts) {
        return Ok((None, lexemes));
    }
    let (open, rest, fewer) = opened_here(lexemes, sorts, levels)?;
    let (signature, body, close, rest) = read_literal(deeper, rest, levels, fewer)?;
    let closure = closure_between(open.token.span, signature, body, close.token.span);
    Ok((Some(closure), rest))
}

/// A trailing closure, where one stands here.
#[tactic(auto, unfolding(sx_grammar::specs::Grammar::run, sx_grammar::specs::Grammar::run_with, sx_grammar::specs::Rules::trailing))]
pub fn trailing<'a, F: Fn(Level, &[Lexeme], u32) -> Taken>(
    deeper: &F,
    mode: Mode,
    lexemes: &'a [Lexeme],
    levels: u32,
) -> Result<(Option<Closure>, &'a [Lexeme]), Stop>
    requires reader { IsReader (F.pre deeper.now) (F.post deeper.now) levels }
    ensures { Gives (λ x. closure_or_nothing x.0) (λ x. x.1.now) result (run body levels (trailing mode) lexemes.now) }
{
    match mode {
        Mode::Free => optional_closure(
            deeper,
            &[Sort::OpenBrace, Sort::OpenObservers],
            lexemes,
            levels,
        ),
        Mode::Initial => optional_closure(deeper, &[Sort::OpenBrace], lexemes, levels),
        Mode::Condition => Ok((None, lexemes)),
    }
}
