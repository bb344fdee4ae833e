// Chains of operands.

ghost use Rattle.std.specs.Prelude.{◌≡◌, [], ◌∷◌, IfOk};
ghost use Rattle.sx_grammar.specs.Classes.{any};
ghost use Rattle.sx_grammar.specs.Grammar.{either, giving, run};
ghost use Rattle.sx_grammar.specs.Rules.{binary_of, body, braces, chained, closure_at, closure_expr, compare, conjunction, expr, from_to, last_link, link, links, operand, operator_of, postfix, product, relation, sum, unary};
ghost use Rattle.sx_grammar.specs.Value.{a_closure, a_link, an_expr, link_list};
ghost use Rattle.sx_grammar.specs.declared.lexemes.Sort.TheVariants as sorts;
ghost use Rattle.sx_parse_decl.specs.Reading.{Gives};
ghost use Rattle.sx_parse_expr.specs.Levels.{IsReader};
ghost use Rattle.sx_parse_expr.specs.Productions.{inversion, negation};
ghost use Rattle.sx_tree.specs.declared.code.ExprForm.TheVariants as forms;

use crate::closures::any_closure;
use crate::levels::{Level, Taken};
use crate::operands::postfix;
use sqlite_items::{Boxed, Items};
use std::alloc::{AllocError, Global};
use sx_grammar::{Lexeme, Mode, Sort};
use sx_parse_decl::{Stop, one_of, starts_with};
use sx_span::Span;
use sx_token::{Kind, Operator};
use sx_tree::{BinaryOperator, Closure, Expr, ExprForm, Link};

/// Where the last of these operands ends.
#[tactic(auto, using(crate::proofs::Ends::last_link_is))]
fn last_link(links: &[Link]) -> u32
    ensures { result ≡ last_link 0 links.now }
{
    match links {
        [] => 0,
        [.., last] => last.operand.span.end,
    }
}

/// A first operand with these further ones; with none it is itself.
#[tactic(auto, using(crate::proofs::Ends::chained_is))]
pub fn chained(alloc: Global, first: Expr, links: Items<Link>) -> Result<Expr, AllocError>
    ensures { IfOk result (λ e. e ≡ chained first links) }
{
    if links.is_empty() {
        return Ok(first);
    }
    let span = Span {
        start: first.span.start,
        end: last_link(links.as_slice()),
    };
    let form = ExprForm::Chain(Boxed::new(alloc, first)?, links);
    Ok(Expr { span, form })
}

/// The operator of a chain that a sign stands for.
fn binary_of(operator: Operator) -> BinaryOperator
    ensures { result ≡ binary_of operator }
{
    match operator {
        Operator::AndAnd => BinaryOperator::And,
        Operator::Less => BinaryOperator::Less,
        Operator::Greater => BinaryOperator::Greater,
        Operator::LessEqual => BinaryOperator::LessEqual,
        Operator::GreaterEqual => BinaryOperator::GreaterEqual,
        Operator::Equal => BinaryOperator::Equal,
        Operator::NotEqual => BinaryOperator::NotEqual,
        Operator::Same => BinaryOperator::Same,
        Operator::NotSame => BinaryOperator::NotSame,
        Operator::Plus => BinaryOperator::Add,
        Operator::Minus => BinaryOperator::Subtract,
        Operator::Star => BinaryOperator::Multiply,
        Operator::Slash => BinaryOperator::Divide,
        Operator::Percent => BinaryOperator::Remainder,
        _ => BinaryOperator::Or,
    }
}

fn operator_of(kind: Kind) -> BinaryOperator
    ensures { result ≡ operator_of kind }
{
    match kind {
        Kind::Op(operator) => binary_of(operator),
        _ => BinaryOperator::Or,
    }
}

fn negated(alloc: Global, sign: Span, operand: Expr) -> Result<Expr, AllocError>
    ensures { IfOk result (λ e. e ≡ record { span = from_to sign operand.span; form = forms.Negate operand }) }
{
    let span = Span {
        start: sign.start,
        end: operand.span.end,
    };
    let form = ExprForm::Negate(Boxed::new(alloc, operand)?);
    Ok(Expr { span, form })
}

/// A minus with the least integer or an operand behind it.
#[tactic(auto, unfolding(sx_grammar::specs::Grammar::run, sx_grammar::specs::Grammar::run_with))]
fn negation<'a, F: Fn(Level, &[Lexeme], u32) -> Taken>(
    alloc: Global,
    deeper: &F,
    mode: Mode,
    lexemes: &'a [Lexeme],
    levels: u32,
) -> Result<(Expr, &'a [Lexeme]), Stop>
    requires reader { IsReader (F.pre deeper.now) (F.post deeper.now) levels }
    ensures { Gives (λ x. an_expr x.0) (λ x. x.1.now) result (run body levels (negation mode) lexemes.now) }
{
    let (sign, rest) = one_of(lexemes, &[Sort::Negate], levels)?;
    if starts_with(rest, &[Sort::LeastInt]) {
        let (number, rest) = one_of(rest, &[Sort::LeastInt], levels)?;
        let span = Span {
            start: sign.token.span.start,
            end: number.token.span.end,
        };
        let expr = Expr {
            span,
            form: ExprForm::LeastInt,
        };
        return Ok((expr, rest));
    }
    let (operand, rest) = postfix(alloc, deeper, mode, rest, levels)?;
    Ok((negated(alloc, sign.token.span, operand)?, rest))
}

/// A `!` with an operand behind it.
#[tactic(auto, unfolding(sx_grammar::specs::Grammar::run, sx_grammar::specs::Grammar::run_with))]
fn inversion<'a, F: Fn(Level, &[Lexeme], u32) -> Taken>(
    alloc: Global,
    deeper: &F,
    mode: Mode,
    lexemes: &'a [Lexeme],
    levels: u32,
) -> Result<(Expr, &'a [Lexeme]), Stop>
    requires reader { IsReader (F.pre deeper.now) (F.post deeper.now) levels }
    ensures { Gives (λ x. an_expr x.0) (λ x. x.1.now) result (run body levels (inversion mode) lexemes.now) }
{
    let (sign, rest) = one_of(lexemes, &[Sort::Not], levels)?;
    let (operand, rest) = postfix(alloc, deeper, mode, rest, levels)?;
    let span = Span {
        start: sign.token.span.start,
        end: operand.span.end,
    };
    let form = ExprForm::Not(Boxed::new(alloc, operand)?);
    Ok((Expr { span, form }, rest))
}

fn closure_expr(closure: Closure) -> Expr
    ensures { an_expr result ≡ closure_expr (a_closure closure) }
{
    Expr {
        span: closure.span,
        form: ExprForm::Closure(closure),
    }
}

/// A closure, or an operand with the parts behind it.
#[tactic(auto, unfolding(sx_grammar::specs::Grammar::run, sx_grammar::specs::Grammar::run_with, sx_grammar::specs::Rules::closure_at))]
fn closure_or_postfix<'a, F: Fn(Level, &[Lexeme], u32) -> Taken>(
    alloc: Global,
    deeper: &F,
    mode: Mode,
    lexemes: &'a [Lexeme],
    levels: u32,
) -> Result<(Expr, &'a [Lexeme]), Stop>
    requires reader { IsReader (F.pre deeper.now) (F.post deeper.now) levels }
    ensures { Gives (λ x. an_expr x.0) (λ x. x.1.now) result (run body levels (either (giving closure_expr (closure_at (any braces))) (postfix mode)) lexemes.now) }
{
    if starts_with(lexemes, &[Sort::OpenBrace, Sort::OpenObservers]) {
        let (closure, rest) = any_closure(deeper, lexemes, levels)?;
        return Ok((closure_expr(closure), rest));
    }
    postfix(alloc, deeper, mode, lexemes, levels)
}

/// What a sign may stand before: in a condition no closure.
#[tactic(auto, unfolding(sx_grammar::specs::Grammar::run, sx_grammar::specs::Grammar::run_with, sx_grammar::specs::Rules::operand, sx_grammar::specs::Rules::closure_at))]
fn operand<'a, F: Fn(Level, &[Lexeme], u32) -> Taken>(
    alloc: Global,
    deeper: &F,
    mode: Mode,
    lexemes: &'a [Lexeme],
    levels: u32,
) -> Result<(Expr, &'a [Lexeme]), Stop>
    requires reader { IsReader (F.pre deeper.now) (F.post deeper.now) levels }
    ensures { Gives (λ x. an_expr x.0) (λ x. x.1.now) result (run body levels (operand mode) lexemes.now) }
{
    match mode {
        Mode::Free | Mode::Initial => closure_or_postfix(alloc, deeper, mode, lexemes, levels),
        Mode::Condition => postfix(alloc, deeper, mode, lexemes, levels),
    }
}

/// An operand of a product, with the sign before it.
#[tactic(auto, unfolding(sx_grammar::specs::Grammar::run, sx_grammar::specs::Grammar::run_with, sx_grammar::specs::Rules::unary))]
fn unary<'a, F: Fn(Level, &[Lexeme], u32) -> Taken>(
    alloc: Global,
    deeper: &F,
    mode: Mode,
    lexemes: &'a [Lexeme],
    levels: u32,
) -> Result<(Expr, &'a [Lexeme]), Stop>
    requires reader { IsReader (F.pre deeper.now) (F.post deeper.now) levels }
    ensures { Gives (λ x. an_expr x.0) (λ x. x.1.now) result (run body levels (unary mode) lexemes.now) }
{
    if starts_with(lexemes, &[Sort::Negate]) {
        return negation(alloc, deeper, mode, lexemes, levels);
    }
    if starts_with(lexemes, &[Sort::Not]) {
        return inversion(alloc, deeper, mode, lexemes, levels);
    }
    operand(alloc, deeper, mode, lexemes, levels)
}

#[tactic(auto, unfolding(sx_grammar::specs::Grammar::run, sx_grammar::specs::Grammar::run_with, sx_grammar::specs::Rules::link))]
fn product_link<'a, F: Fn(Level, &[Lexeme], u32) -> Taken>(
    alloc: Global,
    deeper: &F,
    mode: Mode,
    lexemes: &'a [Lexeme],
    levels: u32,
) -> Result<(Link, &'a [Lexeme]), Stop>
    requires reader { IsReader (F.pre deeper.now) (F.post deeper.now) levels }
    ensures { Gives (λ x. a_link x.0) (λ x. x.1.now) result (run body levels (link (sorts.Times ∷ []) (unary mode)) lexemes.now) }
{
    let (sign, rest) = one_of(lexemes, &[Sort::Times], levels)?;
    let (operand, rest) = unary(alloc, deeper, mode, rest, levels)?;
    let operator = operator_of(sign.token.kind);
    Ok((Link { operator, operand }, rest))
}

/// The further factors of a product.
pub fn product_links<'a, F: Fn(Level, &[Lexeme], u32) -> Taken>(
    alloc: Global,
    deeper: &F,
    mode: Mode,
    lexemes: &'a [Lexeme],
    levels: u32,
) -> Result<(Items<Link>, &'a [Lexeme]), Stop>
    requires reader { IsReader (F.pre deeper.now) (F.post deeper.now) levels }
    ensures { Gives (λ x. link_list x.0) (λ x. x.1.now) result (run body levels (links (sorts.Times ∷ []) (unary mode)) lexemes.now) }
{
    let mut links = Vec::new(alloc);
    let mut rest = lexemes;
    'turns: while starts_with(rest, &[Sort::Times]) {
        let (link, after) = product_link(alloc, deeper, mode, rest, levels)?;
        links.push(link)?;
        rest = after;
    }
    Ok((Items::from_vec(links), rest))
}

#[tactic(auto, unfolding(sx_grammar::specs::Grammar::run, sx_grammar::specs::Grammar::run_with, sx_grammar::specs::Rules::product))]
fn product<'a, F: Fn(Level, &[Lexeme], u32) -> Taken>(
    alloc: Global,
    deeper: &F,
    mode: Mode,
    lexemes: &'a [Lexeme],
    levels: u32,
) -> Result<(Expr, &'a [Lexeme]), Stop>
    requires reader { IsReader (F.pre deeper.now) (F.post deeper.now) levels }
    ensures { Gives (λ x. an_expr x.0) (λ x. x.1.now) result (run body levels (product mode) lexemes.now) }
{
    let (first, rest) = unary(alloc, deeper, mode, lexemes, levels)?;
    let (links, rest) = product_links(alloc, deeper, mode, rest, levels)?;
    Ok((chained(alloc, first, links)?, rest))
}

#[tactic(auto, unfolding(sx_grammar::specs::Grammar::run, sx_grammar::specs::Grammar::run_with, sx_grammar::specs::Rules::link))]
fn sum_link<'a, F: Fn(Level, &[Lexeme], u32) -> Taken>(
    alloc: Global,
    deeper: &F,
    mode: Mode,
    lexemes: &'a [Lexeme],
    levels: u32,
) -> Result<(Link, &'a [Lexeme]), Stop>
    requires reader { IsReader (F.pre deeper.now) (F.post deeper.now) levels }
    ensures { Gives (λ x. a_link x.0) (λ x. x.1.now) result (run body levels (link (sorts.Plus ∷ sorts.Minus ∷ []) (product mode)) lexemes.now) }
{
    let (sign, rest) = one_of(lexemes, &[Sort::Plus, Sort::Minus], levels)?;
    let (operand, rest) = product(alloc, deeper, mode, rest, levels)?;
    let operator = operator_of(sign.token.kind);
    Ok((Link { operator, operand }, rest))
}

/// The further terms of a sum.
pub fn sum_links<'a, F: Fn(Level, &[Lexeme], u32) -> Taken>(
    alloc: Global,
    deeper: &F,
    mode: Mode,
    lexemes: &'a [Lexeme],
    levels: u32,
) -> Result<(Items<Link>, &'a [Lexeme]), Stop>
    requires reader { IsReader (F.pre deeper.now) (F.post deeper.now) levels }
    ensures { Gives (λ x. link_list x.0) (λ x. x.1.now) result (run body levels (links (sorts.Plus ∷ sorts.Minus ∷ []) (product mode)) lexemes.now) }
{
    let mut links = Vec::new(alloc);
    let mut rest = lexemes;
    'turns: while starts_with(rest, &[Sort::Plus, Sort::Minus]) {
        let (link, after) = sum_link(alloc, deeper, mode, rest, levels)?;
        links.push(link)?;
        rest = after;
    }
    Ok((Items::from_vec(links), rest))
}

#[tactic(auto, unfolding(sx_grammar::specs::Grammar::run, sx_grammar::specs::Grammar::run_with, sx_grammar::specs::Rules::sum))]
fn sum<'a, F: Fn(Level, &[Lexeme], u32) -> Taken>(
    alloc: Global,
    deeper: &F,
    mode: Mode,
    lexemes: &'a [Lexeme],
    levels: u32,
) -> Result<(Expr, &'a [Lexeme]), Stop>
    requires reader { IsReader (F.pre deeper.now) (F.post deeper.now) levels }
    ensures { Gives (λ x. an_expr x.0) (λ x. x.1.now) result (run body levels (sum mode) lexemes.now) }
{
    let (first, rest) = product(alloc, deeper, mode, lexemes, levels)?;
    let (links, rest) = sum_links(alloc, deeper, mode, rest, levels)?;
    Ok((chained(alloc, first, links)?, rest))
}

#[tactic(auto, unfolding(sx_grammar::specs::Grammar::run, sx_grammar::specs::Grammar::run_with, sx_grammar::specs::Rules::link))]
fn relation_side<'a, F: Fn(Level, &[Lexeme], u32) -> Taken>(
    alloc: Global,
    deeper: &F,
    mode: Mode,
    lexemes: &'a [Lexeme],
    levels: u32,
) -> Result<(Link, &'a [Lexeme]), Stop>
    requires reader { IsReader (F.pre deeper.now) (F.post deeper.now) levels }
    ensures { Gives (λ x. a_link x.0) (λ x. x.1.now) result (run body levels (link (sorts.Relation ∷ []) (sum mode)) lexemes.now) }
{
    let (sign, rest) = one_of(lexemes, &[Sort::Relation], levels)?;
    let (operand, rest) = sum(alloc, deeper, mode, rest, levels)?;
    let operator = operator_of(sign.token.kind);
    Ok((Link { operator, operand }, rest))
}

/// The right side of a relation, where one stands here.
#[tactic(auto, unfolding(sx_grammar::specs::Grammar::run, sx_grammar::specs::Grammar::run_with, sx_grammar::specs::Rules::relation, sx_grammar::specs::Rules::link))]
pub fn relation_link<'a, F: Fn(Level, &[Lexeme], u32) -> Taken>(
    alloc: Global,
    deeper: &F,
    mode: Mode,
    lexemes: &'a [Lexeme],
    levels: u32,
) -> Result<(Items<Link>, &'a [Lexeme]), Stop>
    requires reader { IsReader (F.pre deeper.now) (F.post deeper.now) levels }
    ensures { Gives (λ x. link_list x.0) (λ x. x.1.now) result (run body levels (relation mode) lexemes.now) }
{
    let mut links = Vec::new(alloc);
    if !starts_with(lexemes, &[Sort::Relation]) {
        return Ok((Items::from_vec(links), lexemes));
    }
    let (link, rest) = relation_side(alloc, deeper, mode, lexemes, levels)?;
    links.push(link)?;
    Ok((Items::from_vec(links), rest))
}

#[tactic(auto, unfolding(sx_grammar::specs::Grammar::run, sx_grammar::specs::Grammar::run_with, sx_grammar::specs::Rules::compare))]
fn compare<'a, F: Fn(Level, &[Lexeme], u32) -> Taken>(
    alloc: Global,
    deeper: &F,
    mode: Mode,
    lexemes: &'a [Lexeme],
    levels: u32,
) -> Result<(Expr, &'a [Lexeme]), Stop>
    requires reader { IsReader (F.pre deeper.now) (F.post deeper.now) levels }
    ensures { Gives (λ x. an_expr x.0) (λ x. x.1.now) result (run body levels (compare mode) lexemes.now) }
{
    let (first, rest) = sum(alloc, deeper, mode, lexemes, levels)?;
    let (links, rest) = relation_link(alloc, deeper, mode, rest, levels)?;
    Ok((chained(alloc, first, links)?, rest))
}

#[tactic(auto, unfolding(sx_grammar::specs::Grammar::run, sx_grammar::specs::Grammar::run_with, sx_grammar::specs::Rules::link))]
fn and_link<'a, F: Fn(Level, &[Lexeme], u32) -> Taken>(
    alloc: Global,
    deeper: &F,
    mode: Mode,
    lexemes: &'a [Lexeme],
    levels: u32,
) -> Result<(Link, &'a [Lexeme]), Stop>
    requires reader { IsReader (F.pre deeper.now) (F.post deeper.now) levels }
    ensures { Gives (λ x. a_link x.0) (λ x. x.1.now) result (run body levels (link (sorts.And ∷ []) (compare mode)) lexemes.now) }
{
    let (sign, rest) = one_of(lexemes, &[Sort::And], levels)?;
    let (operand, rest) = compare(alloc, deeper, mode, rest, levels)?;
    let operator = operator_of(sign.token.kind);
    Ok((Link { operator, operand }, rest))
}

/// The further sides of `&&`.
pub fn and_links<'a, F: Fn(Level, &[Lexeme], u32) -> Taken>(
    alloc: Global,
    deeper: &F,
    mode: Mode,
    lexemes: &'a [Lexeme],
    levels: u32,
) -> Result<(Items<Link>, &'a [Lexeme]), Stop>
    requires reader { IsReader (F.pre deeper.now) (F.post deeper.now) levels }
    ensures { Gives (λ x. link_list x.0) (λ x. x.1.now) result (run body levels (links (sorts.And ∷ []) (compare mode)) lexemes.now) }
{
    let mut links = Vec::new(alloc);
    let mut rest = lexemes;
    'turns: while starts_with(rest, &[Sort::And]) {
        let (link, after) = and_link(alloc, deeper, mode, rest, levels)?;
        links.push(link)?;
        rest = after;
    }
    Ok((Items::from_vec(links), rest))
}

#[tactic(auto, unfolding(sx_grammar::specs::Grammar::run, sx_grammar::specs::Grammar::run_with, sx_grammar::specs::Rules::conjunction))]
fn conjunction<'a, F: Fn(Level, &[Lexeme], u32) -> Taken>(
    alloc: Global,
    deeper: &F,
    mode: Mode,
    lexemes: &'a [Lexeme],
    levels: u32,
) -> Result<(Expr, &'a [Lexeme]), Stop>
    requires reader { IsReader (F.pre deeper.now) (F.post deeper.now) levels }
    ensures { Gives (λ x. an_expr x.0) (λ x. x.1.now) result (run body levels (conjunction mode) lexemes.now) }
{
    let (first, rest) = compare(alloc, deeper, mode, lexemes, levels)?;
    let (links, rest) = and_links(alloc, deeper, mode, rest, levels)?;
    Ok((chained(alloc, first, links)?, rest))
}

#[tactic(auto, unfolding(sx_grammar::specs::Grammar::run, sx_grammar::specs::Grammar::run_with, sx_grammar::specs::Rules::link))]
fn or_link<'a, F: Fn(Level, &[Lexeme], u32) -> Taken>(
    alloc: Global,
    deeper: &F,
    mode: Mode,
    lexemes: &'a [Lexeme],
    levels: u32,
) -> Result<(Link, &'a [Lexeme]), Stop>
    requires reader { IsReader (F.pre deeper.now) (F.post deeper.now) levels }
    ensures { Gives (λ x. a_link x.0) (λ x. x.1.now) result (run body levels (link (sorts.Or ∷ []) (conjunction mode)) lexemes.now) }
{
    let (sign, rest) = one_of(lexemes, &[Sort::Or], levels)?;
    let (operand, rest) = conjunction(alloc, deeper, mode, rest, levels)?;
    let operator = operator_of(sign.token.kind);
    Ok((Link { operator, operand }, rest))
}

/// The further sides of `||`.
pub fn or_links<'a, F: Fn(Level, &[Lexeme], u32) -> Taken>(
    alloc: Global,
    deeper: &F,
    mode: Mode,
    lexemes: &'a [Lexeme],
    levels: u32,
) -> Result<(Items<Link>, &'a [Lexeme]), Stop>
    requires reader { IsReader (F.pre deeper.now) (F.post deeper.now) levels }
    ensures { Gives (λ x. link_list x.0) (λ x. x.1.now) result (run body levels (links (sorts.Or ∷ []) (conjunction mode)) lexemes.now) }
{
    let mut links = Vec::new(alloc);
    let mut rest = lexemes;
    'turns: while starts_with(rest, &[Sort::Or]) {
        let (link, after) = or_link(alloc, deeper, mode, rest, levels)?;
        links.push(link)?;
        rest = after;
    }
    Ok((Items::from_vec(links), rest))
}

/// An expression.
#[tactic(auto, unfolding(sx_grammar::specs::Grammar::run, sx_grammar::specs::Grammar::run_with, sx_grammar::specs::Rules::expr))]
pub fn expr<'a, F: Fn(Level, &[Lexeme], u32) -> Taken>(
    alloc: Global,
    deeper: &F,
    mode: Mode,
    lexemes: &'a [Lexeme],
    levels: u32,
) -> Result<(Expr, &'a [Lexeme]), Stop>
    requires reader { IsReader (F.pre deeper.now) (F.post deeper.now) levels }
    ensures { Gives (λ x. an_expr x.0) (λ x. x.1.now) result (run body levels (expr mode) lexemes.now) }
{
    let (first, rest) = conjunction(alloc, deeper, mode, lexemes, levels)?;
    let (links, rest) = or_links(alloc, deeper, mode, rest, levels)?;
    Ok((chained(alloc, first, links)?, rest))
}
