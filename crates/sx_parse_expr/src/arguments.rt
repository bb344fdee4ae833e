// The arguments of calls and subscripts.

ghost use Rattle.std.specs.Prelude.{◌≡◌};
ghost use Rattle.sx_grammar.specs.Grammar.{either, first, run, starts};
ghost use Rattle.sx_grammar.specs.Rules.{after_comma, argument, argument_list, body, expr, indices, is_name, labelled_argument, name_of_expr, plain_argument, reference};
ghost use Rattle.sx_grammar.specs.Value.{an_argument, an_expr, arguments, exprs, leaf, pair};
ghost use Rattle.sx_grammar.specs.declared.lexemes.Mode.TheVariants as modes;
ghost use Rattle.sx_parse_decl.specs.Reading.{Gives};
ghost use Rattle.sx_parse_expr.specs.Levels.{IsReader};
ghost use Rattle.sx_parse_expr.specs.Productions.{argument_items, index_items, labelled_or_plain};
ghost use Rattle.sx_parse_expr.specs.Views.{passed};

use crate::expressions::expr;
use crate::levels::{Level, Taken};
use crate::operands::postfix;
use sqlite_items::Items;
use std::alloc::Global;
use sx_grammar::{Lexeme, Mode, Sort};
use sx_parse_decl::{Stop, one_of, starts_with};
use sx_span::Span;
use sx_tree::{Argument, Expr, ExprForm, Name};

/// An operand that is passed in and out, behind its `&`.
#[tactic(auto, unfolding(sx_grammar::specs::Grammar::run, sx_grammar::specs::Grammar::run_with, sx_grammar::specs::Rules::reference))]
fn reference<'a, F: Fn(Level, &[Lexeme], u32) -> Taken>(
    alloc: Global,
    deeper: &F,
    lexemes: &'a [Lexeme],
    levels: u32,
) -> Result<(Lexeme, Expr, &'a [Lexeme]), Stop>
    requires reader { IsReader (F.pre deeper.now) (F.post deeper.now) levels }
    ensures { Gives (λ x. pair (leaf x.0) (an_expr x.1)) (λ x. x.2.now) result (run body levels reference lexemes.now) }
{
    let (sign, rest) = one_of(lexemes, &[Sort::Ampersand], levels)?;
    let (operand, rest) = postfix(alloc, deeper, Mode::Free, rest, levels)?;
    Ok((sign, operand, rest))
}

/// What is passed, without a label.
#[tactic(auto, unfolding(sx_grammar::specs::Grammar::run, sx_grammar::specs::Grammar::run_with, sx_grammar::specs::Rules::reference))]
fn passed<'a, F: Fn(Level, &[Lexeme], u32) -> Taken>(
    alloc: Global,
    deeper: &F,
    lexemes: &'a [Lexeme],
    levels: u32,
) -> Result<(Option<Lexeme>, Expr, &'a [Lexeme]), Stop>
    requires reader { IsReader (F.pre deeper.now) (F.post deeper.now) levels }
    ensures { Gives (λ x. passed x.0 x.1) (λ x. x.2.now) result (run body levels (either reference (expr modes.Free)) lexemes.now) }
{
    if starts_with(lexemes, &[Sort::Ampersand]) {
        let (sign, operand, rest) = reference(alloc, deeper, lexemes, levels)?;
        return Ok((Some(sign), operand, rest));
    }
    let (value, rest) = expr(alloc, deeper, Mode::Free, lexemes, levels)?;
    Ok((None, value, rest))
}

/// Whether an expression is a name alone, and may be a label.
fn is_name(expr: &Expr) -> bool
    ensures { result ≡ is_name (an_expr expr.now) }
{
    match &expr.form {
        ExprForm::Named(_, closure) => closure.is_none(),
        _ => false,
    }
}

/// The name that an expression is.
fn name_of_expr(expr: &Expr) -> Name
    ensures { result ≡ name_of_expr expr.now }
{
    let number = match &expr.form {
        ExprForm::Named(number, _) => *number,
        _ => 0,
    };
    Name {
        number,
        span: expr.span,
    }
}

fn plain_argument(sign: Option<Lexeme>, value: Expr) -> Argument
    ensures { an_argument result ≡ plain_argument (passed sign value) }
{
    match sign {
        None => Argument {
            span: value.span,
            label: None,
            ampersand: None,
            value,
        },
        Some(sign) => {
            let start = sign.token.span.start;
            let span = Span {
                start,
                end: value.span.end,
            };
            Argument {
                span,
                label: None,
                ampersand: Some(start),
                value,
            }
        }
    }
}

fn labelled_argument(label: Name, sign: Option<Lexeme>, value: Expr) -> Argument
    ensures { an_argument result ≡ labelled_argument label (passed sign value) }
{
    let span = Span {
        start: label.span.start,
        end: value.span.end,
    };
    let ampersand = match sign {
        None => None,
        Some(sign) => Some(sign.token.span.start),
    };
    Argument {
        span,
        label: Some(label),
        ampersand,
        value,
    }
}

/// An argument that begins with an expression: its value, or its label.
#[tactic(auto, unfolding(sx_grammar::specs::Grammar::run, sx_grammar::specs::Grammar::run_with))]
fn labelled_or_plain<'a, F: Fn(Level, &[Lexeme], u32) -> Taken>(
    alloc: Global,
    deeper: &F,
    lexemes: &'a [Lexeme],
    levels: u32,
) -> Result<(Argument, &'a [Lexeme]), Stop>
    requires reader { IsReader (F.pre deeper.now) (F.post deeper.now) levels }
    ensures { Gives (λ x. an_argument x.0) (λ x. x.1.now) result (run body levels labelled_or_plain lexemes.now) }
{
    let (first, rest) = expr(alloc, deeper, Mode::Free, lexemes, levels)?;
    if is_name(&first) && starts_with(rest, &[Sort::Colon]) {
        let (_, rest) = one_of(rest, &[Sort::Colon], levels)?;
        let (sign, value, rest) = passed(alloc, deeper, rest, levels)?;
        let label = name_of_expr(&first);
        return Ok((labelled_argument(label, sign, value), rest));
    }
    Ok((plain_argument(None, first), rest))
}

#[tactic(auto, unfolding(sx_grammar::specs::Grammar::run, sx_grammar::specs::Grammar::run_with, sx_grammar::specs::Rules::argument, sx_grammar::specs::Rules::reference))]
fn argument<'a, F: Fn(Level, &[Lexeme], u32) -> Taken>(
    alloc: Global,
    deeper: &F,
    lexemes: &'a [Lexeme],
    levels: u32,
) -> Result<(Argument, &'a [Lexeme]), Stop>
    requires reader { IsReader (F.pre deeper.now) (F.post deeper.now) levels }
    ensures { Gives (λ x. an_argument x.0) (λ x. x.1.now) result (run body levels argument lexemes.now) }
{
    if starts_with(lexemes, &[Sort::Ampersand]) {
        let (sign, operand, rest) = reference(alloc, deeper, lexemes, levels)?;
        return Ok((plain_argument(Some(sign), operand), rest));
    }
    labelled_or_plain(alloc, deeper, lexemes, levels)
}

#[tactic(auto, unfolding(sx_grammar::specs::Grammar::run, sx_grammar::specs::Grammar::run_with))]
fn next_argument<'a, F: Fn(Level, &[Lexeme], u32) -> Taken>(
    alloc: Global,
    deeper: &F,
    lexemes: &'a [Lexeme],
    levels: u32,
) -> Result<(Argument, &'a [Lexeme]), Stop>
    requires reader { IsReader (F.pre deeper.now) (F.post deeper.now) levels }
    ensures { Gives (λ x. an_argument x.0) (λ x. x.1.now) result (run body levels (after_comma argument) lexemes.now) }
{
    let (_, rest) = one_of(lexemes, &[Sort::Comma], levels)?;
    argument(alloc, deeper, rest, levels)
}

/// Whether an argument stands first.
#[tactic(auto, unfolding(sx_grammar::specs::Rules::argument, sx_grammar::specs::Rules::reference, sx_grammar::specs::Rules::expr, sx_grammar::specs::Rules::conjunction, sx_grammar::specs::Rules::compare, sx_grammar::specs::Rules::sum, sx_grammar::specs::Rules::product, sx_grammar::specs::Rules::unary, sx_grammar::specs::Rules::operand, sx_grammar::specs::Rules::closure_at, sx_grammar::specs::Rules::postfix, sx_grammar::specs::Rules::primary))]
fn starts_argument(lexemes: &[Lexeme]) -> bool
    ensures { result ≡ starts (first argument) lexemes.now }
{
    starts_with(
        lexemes,
        &[
            Sort::Ampersand,
            Sort::Negate,
            Sort::Not,
            Sort::OpenBrace,
            Sort::OpenObservers,
            Sort::Int,
            Sort::True,
            Sort::False,
            Sort::SelfWord,
            Sort::Name,
            Sort::Get,
            Sort::Set,
            Sort::WillSet,
            Sort::DidSet,
            Sort::Escaping,
            Sort::Print,
            Sort::OpenRound,
        ],
    )
}

fn argument_items<'a, F: Fn(Level, &[Lexeme], u32) -> Taken>(
    alloc: Global,
    deeper: &F,
    lexemes: &'a [Lexeme],
    levels: u32,
) -> Result<(Items<Argument>, &'a [Lexeme]), Stop>
    requires reader { IsReader (F.pre deeper.now) (F.post deeper.now) levels }
    ensures { Gives (λ x. arguments x.0) (λ x. x.1.now) result (run body levels argument_items lexemes.now) }
{
    let mut arguments = Vec::new(alloc);
    if !starts_argument(lexemes) {
        return Ok((Items::from_vec(arguments), lexemes));
    }
    let (head, mut rest) = argument(alloc, deeper, lexemes, levels)?;
    arguments.push(head)?;
    'turns: while starts_with(rest, &[Sort::Comma]) {
        let (next, after) = next_argument(alloc, deeper, rest, levels)?;
        arguments.push(next)?;
        rest = after;
    }
    Ok((Items::from_vec(arguments), rest))
}

/// The arguments of a call, and the bracket that closes them.
#[tactic(auto, unfolding(sx_grammar::specs::Grammar::run, sx_grammar::specs::Grammar::run_with, sx_grammar::specs::Rules::argument_list))]
pub fn argument_list<'a, F: Fn(Level, &[Lexeme], u32) -> Taken>(
    alloc: Global,
    deeper: &F,
    lexemes: &'a [Lexeme],
    levels: u32,
) -> Result<(Items<Argument>, Lexeme, &'a [Lexeme]), Stop>
    requires reader { IsReader (F.pre deeper.now) (F.post deeper.now) levels }
    ensures { Gives (λ x. pair (arguments x.0) (leaf x.1)) (λ x. x.2.now) result (run body levels argument_list lexemes.now) }
{
    let (arguments, rest) = argument_items(alloc, deeper, lexemes, levels)?;
    let (close, rest) = one_of(rest, &[Sort::CloseRound], levels)?;
    Ok((arguments, close, rest))
}

#[tactic(auto, unfolding(sx_grammar::specs::Grammar::run, sx_grammar::specs::Grammar::run_with))]
fn next_index<'a, F: Fn(Level, &[Lexeme], u32) -> Taken>(
    alloc: Global,
    deeper: &F,
    lexemes: &'a [Lexeme],
    levels: u32,
) -> Result<(Expr, &'a [Lexeme]), Stop>
    requires reader { IsReader (F.pre deeper.now) (F.post deeper.now) levels }
    ensures { Gives (λ x. an_expr x.0) (λ x. x.1.now) result (run body levels (after_comma (expr modes.Free)) lexemes.now) }
{
    let (_, rest) = one_of(lexemes, &[Sort::Comma], levels)?;
    expr(alloc, deeper, Mode::Free, rest, levels)
}

fn index_items<'a, F: Fn(Level, &[Lexeme], u32) -> Taken>(
    alloc: Global,
    deeper: &F,
    lexemes: &'a [Lexeme],
    levels: u32,
) -> Result<(Items<Expr>, &'a [Lexeme]), Stop>
    requires reader { IsReader (F.pre deeper.now) (F.post deeper.now) levels }
    ensures { Gives (λ x. exprs x.0) (λ x. x.1.now) result (run body levels index_items lexemes.now) }
{
    let mut indices = Vec::new(alloc);
    let (head, mut rest) = expr(alloc, deeper, Mode::Free, lexemes, levels)?;
    indices.push(head)?;
    'turns: while starts_with(rest, &[Sort::Comma]) {
        let (next, after) = next_index(alloc, deeper, rest, levels)?;
        indices.push(next)?;
        rest = after;
    }
    Ok((Items::from_vec(indices), rest))
}

/// The indices of a subscript, at least one, and the bracket that closes them.
#[tactic(auto, unfolding(sx_grammar::specs::Grammar::run, sx_grammar::specs::Grammar::run_with, sx_grammar::specs::Rules::indices))]
pub fn indices<'a, F: Fn(Level, &[Lexeme], u32) -> Taken>(
    alloc: Global,
    deeper: &F,
    lexemes: &'a [Lexeme],
    levels: u32,
) -> Result<(Items<Expr>, Lexeme, &'a [Lexeme]), Stop>
    requires reader { IsReader (F.pre deeper.now) (F.post deeper.now) levels }
    ensures { Gives (λ x. pair (exprs x.0) (leaf x.1)) (λ x. x.2.now) result (run body levels indices lexemes.now) }
{
    let (indices, rest) = index_items(alloc, deeper, lexemes, levels)?;
    let (close, rest) = one_of(rest, &[Sort::CloseSquare], levels)?;
    Ok((indices, close, rest))
}
