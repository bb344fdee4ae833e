// Operands and the parts behind them.

ghost use Rattle.std.specs.Prelude.{◌≡◌, [], ◌∷◌, ◌++◌, IfOk};
ghost use Rattle.sx_grammar.specs.Classes.{any, here};
ghost use Rattle.sx_grammar.specs.Grammar.{run, starts};
ghost use Rattle.sx_grammar.specs.Rules.{body, constant_form, end_of, expr_of, from_to, int_of, last_part, member_of, named_value, part, part_end, parts_behind, postfix, postfixed, primary, text_of};
ghost use Rattle.sx_grammar.specs.Value.{a_part, an_expr, leaf, pair, part_list};
ghost use Rattle.sx_grammar.specs.declared.lexemes.Sort.TheVariants as sorts;
ghost use Rattle.sx_parse_decl.specs.Reading.{Gives};
ghost use Rattle.sx_parse_expr.specs.Levels.{IsReader};
ghost use Rattle.sx_parse_expr.specs.Productions.{bracketed, call, constant, index, member, named, printed};
ghost use Rattle.sx_parse_expr.specs.Views.{closure_or_nothing};
ghost use Rattle.sx_tree.specs.declared.code.ExprForm.TheVariants as forms;
ghost use Rattle.sx_tree.specs.declared.code.Part.TheVariants as parts;

use crate::closures::trailing;
use crate::levels::{Level, Taken, read_arguments, read_bracket, read_indices};
use sqlite_items::{Boxed, Items};
use std::alloc::{AllocError, Global};
use sx_grammar::{Lexeme, Mode, Sort};
use sx_parse_decl::{Stop, name, name_of, one_of, opened, opened_here, starts_here, starts_with};
use sx_span::Span;
use sx_token::Kind;
use sx_tree::{Argument, Closure, Expr, ExprForm, Part};

fn int_of(kind: Kind) -> u64
    ensures { result ≡ int_of kind }
{
    match kind {
        Kind::Int(number) => number,
        _ => 0,
    }
}

/// What a constant or `self` is.
fn constant_form(lexeme: &Lexeme) -> ExprForm
    ensures { result ≡ constant_form lexeme.now }
{
    match lexeme.sort {
        Sort::Int => ExprForm::Int(int_of(lexeme.token.kind)),
        Sort::True => ExprForm::Bool(true),
        Sort::False => ExprForm::Bool(false),
        _ => ExprForm::SelfWord,
    }
}

#[tactic(auto, unfolding(sx_grammar::specs::Grammar::run, sx_grammar::specs::Grammar::run_with))]
fn constant(lexemes: &[Lexeme], levels: u32) -> Result<(Expr, &[Lexeme]), Stop>
    ensures { Gives (λ x. an_expr x.0) (λ x. x.1.now) result (run body levels constant lexemes.now) }
{
    let (lexeme, rest) = one_of(
        lexemes,
        &[Sort::Int, Sort::True, Sort::False, Sort::SelfWord],
        levels,
    )?;
    let expr = Expr {
        span: lexeme.token.span,
        form: constant_form(&lexeme),
    };
    Ok((expr, rest))
}

/// A name, with a trailing closure where it is called with one.
fn named_with(lexeme: Lexeme, closure: Option<Closure>) -> Expr
    ensures { an_expr result ≡ named_value (pair (leaf lexeme) (closure_or_nothing closure)) }
{
    let name = name_of(&lexeme);
    match closure {
        None => Expr {
            span: name.span,
            form: ExprForm::Named(name.number, None),
        },
        Some(closure) => Expr {
            span: Span {
                start: name.span.start,
                end: closure.span.end,
            },
            form: ExprForm::Named(name.number, Some(closure)),
        },
    }
}

/// A name other than `print`.
#[tactic(auto, unfolding(sx_grammar::specs::Grammar::run, sx_grammar::specs::Grammar::run_with))]
fn named<'a, F: Fn(Level, &[Lexeme], u32) -> Taken>(
    deeper: &F,
    mode: Mode,
    lexemes: &'a [Lexeme],
    levels: u32,
) -> Result<(Expr, &'a [Lexeme]), Stop>
    requires reader { IsReader (F.pre deeper.now) (F.post deeper.now) levels }
    ensures { Gives (λ x. an_expr x.0) (λ x. x.1.now) result (run body levels (named mode) lexemes.now) }
{
    let (lexeme, rest) = one_of(
        lexemes,
        &[
            Sort::Name,
            Sort::Get,
            Sort::Set,
            Sort::WillSet,
            Sort::DidSet,
            Sort::Escaping,
        ],
        levels,
    )?;
    let (closure, rest) = trailing(deeper, mode, rest, levels)?;
    Ok((named_with(lexeme, closure), rest))
}

fn text_of(kind: Kind) -> u32
    ensures { result ≡ text_of kind }
{
    match kind {
        Kind::Text(number) => number,
        _ => 0,
    }
}

/// `print` of a text.
fn print_text(word: &Lexeme, text: &Lexeme, close: &Lexeme) -> Expr
    ensures { an_expr result ≡ expr_of (from_to word.now.token.span close.now.token.span) (forms.PrintText (text_of text.now.token.kind)) }
{
    Expr {
        span: Span {
            start: word.token.span.start,
            end: close.token.span.end,
        },
        form: ExprForm::PrintText(text_of(text.token.kind)),
    }
}

/// `print` with a text, or as any other name.
#[tactic(auto, unfolding(sx_grammar::specs::Grammar::run, sx_grammar::specs::Grammar::run_with, sx_grammar::specs::Rules::body, sx_grammar::specs::Rules::text_in_brackets))]
fn printed<'a, F: Fn(Level, &[Lexeme], u32) -> Taken>(
    deeper: &F,
    mode: Mode,
    lexemes: &'a [Lexeme],
    levels: u32,
) -> Result<(Expr, &'a [Lexeme]), Stop>
    requires reader { IsReader (F.pre deeper.now) (F.post deeper.now) levels }
    ensures { Gives (λ x. an_expr x.0) (λ x. x.1.now) result (run body levels (printed mode) lexemes.now) }
{
    let (word, rest) = one_of(lexemes, &[Sort::Print], levels)?;
    if starts_with(rest, &[Sort::OpenText]) {
        let (_, inside, fewer) = opened(rest, &[Sort::OpenText], levels)?;
        let (text, inside) = one_of(inside, &[Sort::Text], fewer)?;
        let (close, rest) = one_of(inside, &[Sort::CloseRound], fewer)?;
        return Ok((print_text(&word, &text, &close), rest));
    }
    let (closure, rest) = trailing(deeper, mode, rest, levels)?;
    Ok((named_with(word, closure), rest))
}

#[tactic(auto, unfolding(sx_grammar::specs::Grammar::run, sx_grammar::specs::Grammar::run_with, sx_grammar::specs::Rules::body))]
fn bracketed<'a, F: Fn(Level, &[Lexeme], u32) -> Taken>(
    alloc: Global,
    deeper: &F,
    lexemes: &'a [Lexeme],
    levels: u32,
) -> Result<(Expr, &'a [Lexeme]), Stop>
    requires reader { IsReader (F.pre deeper.now) (F.post deeper.now) levels }
    ensures { Gives (λ x. an_expr x.0) (λ x. x.1.now) result (run body levels bracketed lexemes.now) }
{
    let (start, rest, fewer) = opened(lexemes, &[Sort::OpenRound], levels)?;
    let (inner, close, rest) = read_bracket(deeper, rest, levels, fewer)?;
    let span = Span {
        start: start.token.span.start,
        end: close.token.span.end,
    };
    let form = ExprForm::Bracketed(Boxed::new(alloc, inner)?);
    Ok((Expr { span, form }, rest))
}

/// An operand without the parts behind it.
#[tactic(auto, unfolding(sx_grammar::specs::Grammar::run, sx_grammar::specs::Grammar::run_with, sx_grammar::specs::Rules::primary))]
fn primary<'a, F: Fn(Level, &[Lexeme], u32) -> Taken>(
    alloc: Global,
    deeper: &F,
    mode: Mode,
    lexemes: &'a [Lexeme],
    levels: u32,
) -> Result<(Expr, &'a [Lexeme]), Stop>
    requires reader { IsReader (F.pre deeper.now) (F.post deeper.now) levels }
    ensures { Gives (λ x. an_expr x.0) (λ x. x.1.now) result (run body levels (primary mode) lexemes.now) }
{
    if starts_with(
        lexemes,
        &[Sort::Int, Sort::True, Sort::False, Sort::SelfWord],
    ) {
        return constant(lexemes, levels);
    }
    if starts_with(
        lexemes,
        &[
            Sort::Name,
            Sort::Get,
            Sort::Set,
            Sort::WillSet,
            Sort::DidSet,
            Sort::Escaping,
        ],
    ) {
        return named(deeper, mode, lexemes, levels);
    }
    if starts_with(lexemes, &[Sort::Print]) {
        return printed(deeper, mode, lexemes, levels);
    }
    bracketed(alloc, deeper, lexemes, levels)
}

/// A member, with a trailing closure where it is called with one.
fn member_with(lexeme: &Lexeme, closure: Option<Closure>) -> Part
    ensures { a_part result ≡ member_of (leaf lexeme.now) (closure_or_nothing closure) }
{
    let name = name_of(lexeme);
    match closure {
        None => Part::Member(name.span.end, name, None),
        Some(closure) => Part::Member(closure.span.end, name, Some(closure)),
    }
}

#[tactic(auto, unfolding(sx_grammar::specs::Grammar::run, sx_grammar::specs::Grammar::run_with))]
fn member<'a, F: Fn(Level, &[Lexeme], u32) -> Taken>(
    deeper: &F,
    mode: Mode,
    lexemes: &'a [Lexeme],
    levels: u32,
) -> Result<(Part, &'a [Lexeme]), Stop>
    requires reader { IsReader (F.pre deeper.now) (F.post deeper.now) levels }
    ensures { Gives (λ x. a_part x.0) (λ x. x.1.now) result (run body levels (member mode) lexemes.now) }
{
    let (_, rest) = one_of(lexemes, &[Sort::Dot], levels)?;
    let (lexeme, rest) = name(rest, levels)?;
    let (closure, rest) = trailing(deeper, mode, rest, levels)?;
    Ok((member_with(&lexeme, closure), rest))
}

#[tactic(auto, unfolding(sx_grammar::specs::Grammar::run, sx_grammar::specs::Grammar::run_with, sx_grammar::specs::Rules::body))]
fn index<'a, F: Fn(Level, &[Lexeme], u32) -> Taken>(
    deeper: &F,
    lexemes: &'a [Lexeme],
    levels: u32,
) -> Result<(Part, &'a [Lexeme]), Stop>
    requires reader { IsReader (F.pre deeper.now) (F.post deeper.now) levels }
    ensures { Gives (λ x. a_part x.0) (λ x. x.1.now) result (run body levels index lexemes.now) }
{
    let (_, rest, fewer) = opened_here(lexemes, &[Sort::OpenSquare], levels)?;
    let (indices, close, rest) = read_indices(deeper, rest, levels, fewer)?;
    Ok((Part::Index(close.token.span.end, indices), rest))
}

/// The arguments of a call, and the trailing closure where one follows.
fn call_with(arguments: Items<Argument>, close: &Lexeme, closure: Option<Closure>) -> Part
    ensures { a_part result ≡ a_part (parts.Call (end_of (closure_or_nothing closure) (leaf close.now)).end arguments closure) }
{
    match closure {
        None => Part::Call(close.token.span.end, arguments, None),
        Some(closure) => Part::Call(closure.span.end, arguments, Some(closure)),
    }
}

#[tactic(auto, unfolding(sx_grammar::specs::Grammar::run, sx_grammar::specs::Grammar::run_with, sx_grammar::specs::Rules::body))]
fn call<'a, F: Fn(Level, &[Lexeme], u32) -> Taken>(
    deeper: &F,
    mode: Mode,
    lexemes: &'a [Lexeme],
    levels: u32,
) -> Result<(Part, &'a [Lexeme]), Stop>
    requires reader { IsReader (F.pre deeper.now) (F.post deeper.now) levels }
    ensures { Gives (λ x. a_part x.0) (λ x. x.1.now) result (run body levels (call mode) lexemes.now) }
{
    let (_, rest, fewer) = opened_here(lexemes, &[Sort::OpenRound], levels)?;
    let (arguments, close, rest) = read_arguments(deeper, rest, levels, fewer)?;
    let (closure, rest) = trailing(deeper, mode, rest, levels)?;
    Ok((call_with(arguments, &close, closure), rest))
}

/// A part behind an operand.
#[tactic(auto, unfolding(sx_grammar::specs::Grammar::run, sx_grammar::specs::Grammar::run_with, sx_grammar::specs::Rules::part))]
fn part<'a, F: Fn(Level, &[Lexeme], u32) -> Taken>(
    deeper: &F,
    mode: Mode,
    lexemes: &'a [Lexeme],
    levels: u32,
) -> Result<(Part, &'a [Lexeme]), Stop>
    requires reader { IsReader (F.pre deeper.now) (F.post deeper.now) levels }
    ensures { Gives (λ x. a_part x.0) (λ x. x.1.now) result (run body levels (part mode) lexemes.now) }
{
    if starts_with(lexemes, &[Sort::Dot]) {
        return member(deeper, mode, lexemes, levels);
    }
    if starts_here(lexemes, &[Sort::OpenSquare]) {
        return index(deeper, lexemes, levels);
    }
    call(deeper, mode, lexemes, levels)
}

/// Whether a part behind an operand stands first.
fn starts_part(lexemes: &[Lexeme]) -> bool
    ensures { result ≡ starts (any (sorts.Dot ∷ []) ++ here (sorts.OpenSquare ∷ sorts.OpenRound ∷ [])) lexemes.now }
{
    starts_with(lexemes, &[Sort::Dot]) || starts_here(lexemes, &[Sort::OpenSquare, Sort::OpenRound])
}

/// The parts behind an operand.
pub fn parts_behind<'a, F: Fn(Level, &[Lexeme], u32) -> Taken>(
    alloc: Global,
    deeper: &F,
    mode: Mode,
    lexemes: &'a [Lexeme],
    levels: u32,
) -> Result<(Items<Part>, &'a [Lexeme]), Stop>
    requires reader { IsReader (F.pre deeper.now) (F.post deeper.now) levels }
    ensures { Gives (λ x. part_list x.0) (λ x. x.1.now) result (run body levels (parts_behind mode) lexemes.now) }
{
    let mut parts = Vec::new(alloc);
    let mut rest = lexemes;
    'turns: while starts_part(rest) {
        let (part, after) = part(deeper, mode, rest, levels)?;
        parts.push(part)?;
        rest = after;
    }
    Ok((Items::from_vec(parts), rest))
}

/// Where a part ends.
fn part_end(part: &Part) -> u32
    ensures { result ≡ part_end part.now }
{
    match part {
        Part::Member(end, _, _) => *end,
        Part::Index(end, _) => *end,
        Part::Call(end, _, _) => *end,
    }
}

/// Where the last of these parts ends.
#[tactic(auto, using(crate::proofs::Ends::last_part_is))]
fn last_part(parts: &[Part]) -> u32
    ensures { result ≡ last_part 0 parts.now }
{
    match parts {
        [] => 0,
        [.., last] => part_end(last),
    }
}

/// An operand with these parts behind it; with none it is itself.
#[tactic(auto, using(crate::proofs::Ends::postfixed_is))]
pub fn postfixed(alloc: Global, operand: Expr, parts: Items<Part>) -> Result<Expr, AllocError>
    ensures { IfOk result (λ e. e ≡ postfixed operand parts) }
{
    if parts.is_empty() {
        return Ok(operand);
    }
    let span = Span {
        start: operand.span.start,
        end: last_part(parts.as_slice()),
    };
    let form = ExprForm::Postfix(Boxed::new(alloc, operand)?, parts);
    Ok(Expr { span, form })
}

/// An operand with the parts behind it.
#[tactic(auto, unfolding(sx_grammar::specs::Grammar::run, sx_grammar::specs::Grammar::run_with, sx_grammar::specs::Rules::postfix))]
pub fn postfix<'a, F: Fn(Level, &[Lexeme], u32) -> Taken>(
    alloc: Global,
    deeper: &F,
    mode: Mode,
    lexemes: &'a [Lexeme],
    levels: u32,
) -> Result<(Expr, &'a [Lexeme]), Stop>
    requires reader { IsReader (F.pre deeper.now) (F.post deeper.now) levels }
    ensures { Gives (λ x. an_expr x.0) (λ x. x.1.now) result (run body levels (postfix mode) lexemes.now) }
{
    let (operand, rest) = primary(alloc, deeper, mode, lexemes, levels)?;
    let (parts, rest) = parts_behind(alloc, deeper, mode, rest, levels)?;
    Ok((postfixed(alloc, operand, parts)?, rest))
}
