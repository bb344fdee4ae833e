// The insides of closure literals.

ghost use Rattle.std.specs.Prelude.{◌≡◌, ◌<◌, [], ◌∷◌, true, IfOk};
ghost use Rattle.sx_grammar.specs.Grammar.{both, either, first, giving, run, starts};
ghost use Rattle.sx_grammar.specs.Rules.{assigned, body, bracket_or_signature, bracket_tail, closure_parameter_of, first_bracket_rule, first_part, from_bracket, from_other, is_name_statement_form, literal, literal_inside, name_of_expr, name_of_statement, named_literal, named_signature, option_in, others, second_of, signature_tail, type_in};
ghost use Rattle.sx_grammar.specs.Value.{a_literal, a_statement, a_type_parameter, leaf, pair, statements};
ghost use Rattle.sx_parse_code.specs.Productions.{behind_product, behind_relation, first_statement, statement_literal, with_assigned, with_conditions, with_names, with_others, with_parts, with_terms, with_types};
ghost use Rattle.sx_parse_code.specs.Views.{start_value};
ghost use Rattle.sx_parse_decl.specs.Reading.{Gives, result_value};
ghost use Rattle.sx_parse_expr.specs.Levels.{IsReader, first_value};
ghost use Rattle.sx_tree.specs.declared.code.StatementForm.{out-StatementForm};
ghost use Rattle.sx_tree.specs.declared.written_types.Signature.TheVariants as signatures;

use crate::blocks::{block_items, separator};
use crate::signatures::{closure_parameter_of, is_name, name_of_expr, names_behind, with_first};
use crate::statements::{assigned, expr_statement, keyword_statement, local};
use sqlite_items::{Boxed, Items};
use std::alloc::{AllocError, Global};
use sx_grammar::{Lexeme, Mode, Sort};
use sx_parse_decl::{ResultType, Stop, one_of, opened, result_type, starts_with};
use sx_parse_expr::{
    FirstBracket, Inside, Level, Taken, and_links, chained, or_links, parts_behind, postfixed,
    product_links, read_level, relation_link, sum_links,
};
use sx_span::Span;
use sx_tree::{
    ClosureParameter, Expr, ExprForm, Name, Signature, Statement, StatementForm, TypeParameter,
    WrittenType,
};

/// What a bracket right behind the `{` of a closure literal begins.
#[derive(Drop)]
pub enum Start {
    Signature(Items<ClosureParameter>),
    Expr(Expr),
}

/// The statements behind the first one, with what stands between.
#[tactic(auto, unfolding(sx_grammar::specs::Grammar::run, sx_grammar::specs::Grammar::run_with, sx_grammar::specs::Rules::others))]
fn others<'a, F: Fn(Level, &[Lexeme], u32) -> Taken>(
    alloc: Global,
    deeper: &F,
    lexemes: &'a [Lexeme],
    levels: u32,
) -> Result<(Items<Statement>, &'a [Lexeme]), Stop>
    requires reader { IsReader (F.pre deeper.now) (F.post deeper.now) levels }
    ensures { Gives (λ x. statements x.0) (λ x. x.1.now) result (run body levels others lexemes.now) }
{
    let (_, rest) = separator(lexemes, levels)?;
    block_items(alloc, deeper, rest, levels)
}

/// The statements of a literal that begins with this one.
#[tactic(auto, unfolding(sx_grammar::specs::Grammar::run, sx_grammar::specs::Grammar::run_with))]
fn with_others<'a, F: Fn(Level, &[Lexeme], u32) -> Taken>(
    alloc: Global,
    deeper: &F,
    first: Statement,
    lexemes: &'a [Lexeme],
    levels: u32,
) -> Result<(Items<Statement>, &'a [Lexeme]), Stop>
    requires reader { IsReader (F.pre deeper.now) (F.post deeper.now) levels }
    ensures { Gives (λ x. a_literal signatures.Absent x.0) (λ x. x.1.now) result (run body levels (giving (with_others first) others) lexemes.now) }
{
    let mut items = Items::new(alloc);
    items.push(first)?;
    let (behind, rest) = others(alloc, deeper, lexemes, levels)?;
    items.append(behind)?;
    Ok((items, rest))
}

#[tactic(auto, unfolding(sx_grammar::specs::Grammar::run, sx_grammar::specs::Grammar::run_with, sx_grammar::specs::Rules::local, sx_grammar::specs::Rules::variable_head))]
fn first_statement<'a, F: Fn(Level, &[Lexeme], u32) -> Taken>(
    alloc: Global,
    deeper: &F,
    lexemes: &'a [Lexeme],
    levels: u32,
) -> Result<(Statement, &'a [Lexeme]), Stop>
    requires reader { IsReader (F.pre deeper.now) (F.post deeper.now) levels }
    ensures { Gives (λ x. a_statement x.0) (λ x. x.1.now) result (run body levels first_statement lexemes.now) }
{
    if starts_with(lexemes, &[Sort::Let, Sort::Var]) {
        local(alloc, deeper, lexemes, levels)
    } else {
        keyword_statement(alloc, deeper, lexemes, levels)
    }
}

/// The statements of a literal that begins with one that is no expression.
#[tactic(auto, unfolding(sx_grammar::specs::Grammar::run, sx_grammar::specs::Grammar::run_with))]
fn statement_literal<'a, F: Fn(Level, &[Lexeme], u32) -> Taken>(
    alloc: Global,
    deeper: &F,
    lexemes: &'a [Lexeme],
    levels: u32,
) -> Result<(Items<Statement>, &'a [Lexeme]), Stop>
    requires reader { IsReader (F.pre deeper.now) (F.post deeper.now) levels }
    ensures { Gives (λ x. a_literal signatures.Absent x.0) (λ x. x.1.now) result (run body levels statement_literal lexemes.now) }
{
    let (first, rest) = first_statement(alloc, deeper, lexemes, levels)?;
    with_others(alloc, deeper, first, rest, levels)
}

/// Whether a statement is a name alone.
fn is_name_statement(statement: &Statement) -> bool
    ensures { result ≡ is_name_statement_form (out-StatementForm statement.now.form) }
{
    match &statement.form {
        StatementForm::Expr(expr) => is_name(expr),
        _ => false,
    }
}

/// The name that a statement is.
fn name_of_statement(statement: &Statement) -> Name
    ensures { result ≡ name_of_statement statement.now }
{
    match &statement.form {
        StatementForm::Expr(expr) => name_of_expr(expr),
        _ => Name {
            number: 0,
            span: Span { start: 0, end: 0 },
        },
    }
}

/// A literal whose signature is names, the first of which was read.
#[tactic(auto, unfolding(sx_grammar::specs::Grammar::run, sx_grammar::specs::Grammar::run_with, sx_grammar::specs::Rules::named_signature))]
fn with_names<'a, F: Fn(Level, &[Lexeme], u32) -> Taken>(
    alloc: Global,
    deeper: &F,
    first: Name,
    lexemes: &'a [Lexeme],
    levels: u32,
) -> Result<(Signature, Items<Statement>, &'a [Lexeme]), Stop>
    requires reader { IsReader (F.pre deeper.now) (F.post deeper.now) levels }
    ensures { Gives (λ x. a_literal x.0 x.1) (λ x. x.2.now) result (run body levels (giving (with_names first) named_signature) lexemes.now) }
{
    let (names, rest) = names_behind(alloc, lexemes, levels)?;
    let names = with_first(alloc, first, names)?;
    let (_, rest) = one_of(rest, &[Sort::In], levels)?;
    let (items, rest) = block_items(alloc, deeper, rest, levels)?;
    Ok((Signature::Names(names), items, rest))
}

/// A literal that begins with a name, which is a signature's first or a statement.
fn behind_name<'a, F: Fn(Level, &[Lexeme], u32) -> Taken>(
    alloc: Global,
    deeper: &F,
    first: Statement,
    lexemes: &'a [Lexeme],
    levels: u32,
) -> Result<(Signature, Items<Statement>, &'a [Lexeme]), Stop>
    requires reader { IsReader (F.pre deeper.now) (F.post deeper.now) levels }
    ensures { Gives (λ x. a_literal x.0 x.1) (λ x. x.2.now) result (run body levels (giving (λ v. named_literal (pair (a_statement first) v)) (either named_signature others)) lexemes.now) }
{
    if starts_with(lexemes, &[Sort::Comma, Sort::In]) {
        let name = name_of_statement(&first);
        drop(first);
        return with_names(alloc, deeper, name, lexemes, levels);
    }
    let (items, rest) = with_others(alloc, deeper, first, lexemes, levels)?;
    Ok((Signature::Absent, items, rest))
}

/// A literal that begins with an expression without brackets, which may be a first name.
fn from_other<'a, F: Fn(Level, &[Lexeme], u32) -> Taken>(
    alloc: Global,
    deeper: &F,
    lexemes: &'a [Lexeme],
    levels: u32,
) -> Result<(Signature, Items<Statement>, &'a [Lexeme]), Stop>
    requires reader { IsReader (F.pre deeper.now) (F.post deeper.now) levels }
    requires begins { starts (first from_other) lexemes.now ≡ true }
    ensures { Gives (λ x. a_literal x.0 x.1) (λ x. x.2.now) result (run body levels from_other lexemes.now) }
{
    let (first, rest) = expr_statement(alloc, deeper, lexemes, levels)?;
    if is_name_statement(&first) {
        return behind_name(alloc, deeper, first, rest, levels);
    }
    let (items, rest) = with_others(alloc, deeper, first, rest, levels)?;
    Ok((Signature::Absent, items, rest))
}

/// The inside of a bracket right behind the `{` of a closure literal, where `levels` are left
/// outside it and `fewer` inside.
fn first_inside<'a, F: Fn(Level, &[Lexeme], u32) -> Taken>(
    deeper: &F,
    lexemes: &'a [Lexeme],
    levels: u32,
    fewer: u32,
) -> Result<(FirstBracket, Lexeme, &'a [Lexeme]), Stop>
    requires reader { IsReader (F.pre deeper.now) (F.post deeper.now) levels }
    requires fewer { fewer < levels }
    ensures { Gives (λ x. pair (first_value x.0) (leaf x.1)) (λ x. x.2.now) result (run body fewer (body first_bracket_rule) lexemes.now) }
{
    let (inside, rest) = read_level(deeper, Level::FirstBracket, lexemes, levels, fewer)?;
    match inside {
        Inside::FirstBracket(first, last) => Ok((first, last, rest)),
        _ => unreachable!(),
    }
}

/// The parameters of a signature in brackets, the first of which was read as an expression.
fn parameters_of(
    alloc: Global,
    first: Expr,
    written: TypeParameter,
    others: Items<ClosureParameter>,
) -> Result<Items<ClosureParameter>, AllocError>
    ensures { IfOk result (λ ps. ps ≡ closure_parameter_of (name_of_expr first) (a_type_parameter written) ∷ others) }
{
    let name = name_of_expr(&first);
    drop(first);
    with_first(alloc, closure_parameter_of(name, written), others)
}

/// What a bracket with this inside begins.
fn start_of(alloc: Global, from: Span, first: FirstBracket, to: Span) -> Result<Start, AllocError>
    ensures { IfOk result (λ s. start_value s ≡ bracket_or_signature from (first_value first) to) }
{
    match first {
        FirstBracket::Empty => Ok(Start::Signature(Items::new(alloc))),
        FirstBracket::Expr(expr) => {
            let span = Span {
                start: from.start,
                end: to.end,
            };
            let form = ExprForm::Bracketed(Boxed::new(alloc, expr)?);
            Ok(Start::Expr(Expr { span, form }))
        }
        FirstBracket::Parameters(first, written, others) => {
            let parameters = parameters_of(alloc, first, written, others)?;
            Ok(Start::Signature(parameters))
        }
    }
}

/// A bracket right behind the `{` of a closure literal.
#[tactic(auto, unfolding(sx_grammar::specs::Grammar::run, sx_grammar::specs::Grammar::run_with, sx_grammar::specs::Rules::first_part))]
fn first_part<'a, F: Fn(Level, &[Lexeme], u32) -> Taken>(
    alloc: Global,
    deeper: &F,
    lexemes: &'a [Lexeme],
    levels: u32,
) -> Result<(Start, &'a [Lexeme]), Stop>
    requires reader { IsReader (F.pre deeper.now) (F.post deeper.now) levels }
    ensures { Gives (λ x. start_value x.0) (λ x. x.1.now) result (run body levels first_part lexemes.now) }
{
    let (open, rest, fewer) = opened(lexemes, &[Sort::OpenRound], levels)?;
    let (first, last, rest) = first_inside(deeper, rest, levels, fewer)?;
    let start = start_of(alloc, open.token.span, first, last.token.span)?;
    Ok((start, rest))
}

/// The type of a result without its arrow.
fn type_of(written: Option<ResultType>) -> Option<WrittenType>
    ensures { result ≡ option_in type_in (second_of (result_value written)) }
{
    match written {
        None => None,
        Some(ResultType { sign: _, ty }) => Some(ty),
    }
}

/// A literal whose signature has types, behind its parameters.
#[tactic(auto, unfolding(sx_grammar::specs::Grammar::run, sx_grammar::specs::Grammar::run_with, sx_grammar::specs::Rules::signature_tail))]
fn with_types<'a, F: Fn(Level, &[Lexeme], u32) -> Taken>(
    alloc: Global,
    deeper: &F,
    parameters: Items<ClosureParameter>,
    lexemes: &'a [Lexeme],
    levels: u32,
) -> Result<(Signature, Items<Statement>, &'a [Lexeme]), Stop>
    requires reader { IsReader (F.pre deeper.now) (F.post deeper.now) levels }
    ensures { Gives (λ x. a_literal x.0 x.1) (λ x. x.2.now) result (run body levels (giving (with_types parameters) signature_tail) lexemes.now) }
{
    let (written, rest) = result_type(alloc, lexemes, levels)?;
    let signature = Signature::Typed(parameters, type_of(written));
    let (_, rest) = one_of(rest, &[Sort::In], levels)?;
    let (items, rest) = block_items(alloc, deeper, rest, levels)?;
    Ok((signature, items, rest))
}

/// The statements of a literal that begins with this expression.
#[tactic(auto, unfolding(sx_grammar::specs::Grammar::run, sx_grammar::specs::Grammar::run_with))]
fn with_assigned<'a, F: Fn(Level, &[Lexeme], u32) -> Taken>(
    alloc: Global,
    deeper: &F,
    first: Expr,
    lexemes: &'a [Lexeme],
    levels: u32,
) -> Result<(Items<Statement>, &'a [Lexeme]), Stop>
    requires reader { IsReader (F.pre deeper.now) (F.post deeper.now) levels }
    ensures { Gives (λ x. a_literal signatures.Absent x.0) (λ x. x.1.now) result (run body levels (giving (with_assigned first) (both assigned others)) lexemes.now) }
{
    let (statement, rest) = assigned(alloc, deeper, first, lexemes, levels)?;
    with_others(alloc, deeper, statement, rest, levels)
}

/// The same with a relation, which `&&` and `||` may follow.
#[tactic(auto, unfolding(sx_grammar::specs::Grammar::run, sx_grammar::specs::Grammar::run_with))]
fn with_conditions<'a, F: Fn(Level, &[Lexeme], u32) -> Taken>(
    alloc: Global,
    deeper: &F,
    first: Expr,
    lexemes: &'a [Lexeme],
    levels: u32,
) -> Result<(Items<Statement>, &'a [Lexeme]), Stop>
    requires reader { IsReader (F.pre deeper.now) (F.post deeper.now) levels }
    ensures { Gives (λ x. a_literal signatures.Absent x.0) (λ x. x.1.now) result (run body levels (giving (with_conditions first) behind_relation) lexemes.now) }
{
    let (ands, rest) = and_links(alloc, deeper, Mode::Free, lexemes, levels)?;
    let conjunction = chained(alloc, first, ands)?;
    let (ors, rest) = or_links(alloc, deeper, Mode::Free, rest, levels)?;
    let expr = chained(alloc, conjunction, ors)?;
    with_assigned(alloc, deeper, expr, rest, levels)
}

/// The same with a product, which the signs of sums and of relations may follow.
#[tactic(auto, unfolding(sx_grammar::specs::Grammar::run, sx_grammar::specs::Grammar::run_with))]
fn with_terms<'a, F: Fn(Level, &[Lexeme], u32) -> Taken>(
    alloc: Global,
    deeper: &F,
    first: Expr,
    lexemes: &'a [Lexeme],
    levels: u32,
) -> Result<(Items<Statement>, &'a [Lexeme]), Stop>
    requires reader { IsReader (F.pre deeper.now) (F.post deeper.now) levels }
    ensures { Gives (λ x. a_literal signatures.Absent x.0) (λ x. x.1.now) result (run body levels (giving (with_terms first) behind_product) lexemes.now) }
{
    let (terms, rest) = sum_links(alloc, deeper, Mode::Free, lexemes, levels)?;
    let sum = chained(alloc, first, terms)?;
    let (compared, rest) = relation_link(alloc, deeper, Mode::Free, rest, levels)?;
    let relation = chained(alloc, sum, compared)?;
    with_conditions(alloc, deeper, relation, rest, levels)
}

/// The same with an operand, which any part and operator may follow.
#[tactic(auto, unfolding(sx_grammar::specs::Grammar::run, sx_grammar::specs::Grammar::run_with, sx_grammar::specs::Rules::bracket_tail))]
fn with_parts<'a, F: Fn(Level, &[Lexeme], u32) -> Taken>(
    alloc: Global,
    deeper: &F,
    first: Expr,
    lexemes: &'a [Lexeme],
    levels: u32,
) -> Result<(Items<Statement>, &'a [Lexeme]), Stop>
    requires reader { IsReader (F.pre deeper.now) (F.post deeper.now) levels }
    ensures { Gives (λ x. a_literal signatures.Absent x.0) (λ x. x.1.now) result (run body levels (giving (with_parts first) bracket_tail) lexemes.now) }
{
    let (parts, rest) = parts_behind(alloc, deeper, Mode::Free, lexemes, levels)?;
    let operand = postfixed(alloc, first, parts)?;
    let (factors, rest) = product_links(alloc, deeper, Mode::Free, rest, levels)?;
    let product = chained(alloc, operand, factors)?;
    with_terms(alloc, deeper, product, rest, levels)
}

/// A literal that begins with a bracket.
fn from_bracket<'a, F: Fn(Level, &[Lexeme], u32) -> Taken>(
    alloc: Global,
    deeper: &F,
    lexemes: &'a [Lexeme],
    levels: u32,
) -> Result<(Signature, Items<Statement>, &'a [Lexeme]), Stop>
    requires reader { IsReader (F.pre deeper.now) (F.post deeper.now) levels }
    ensures { Gives (λ x. a_literal x.0 x.1) (λ x. x.2.now) result (run body levels from_bracket lexemes.now) }
{
    let (start, rest) = first_part(alloc, deeper, lexemes, levels)?;
    match start {
        Start::Signature(parameters) => with_types(alloc, deeper, parameters, rest, levels),
        Start::Expr(first) => {
            let (items, rest) = with_parts(alloc, deeper, first, rest, levels)?;
            Ok((Signature::Absent, items, rest))
        }
    }
}

/// Whether a statement that is no expression begins here.
#[tactic(auto, unfolding(sx_grammar::specs::Rules::local, sx_grammar::specs::Rules::variable_head, sx_grammar::specs::Rules::keyword_statement))]
fn starts_statement(lexemes: &[Lexeme]) -> bool
    ensures { result ≡ starts (first statement_literal) lexemes.now }
{
    starts_with(
        lexemes,
        &[
            Sort::Let,
            Sort::Var,
            Sort::If,
            Sort::While,
            Sort::Return,
            Sort::Break,
            Sort::Continue,
        ],
    )
}

/// Whether an expression without brackets begins here.
#[tactic(auto, unfolding(sx_grammar::specs::Rules::from_other, sx_grammar::specs::Rules::expr_statement, sx_grammar::specs::Rules::expr, sx_grammar::specs::Rules::conjunction, sx_grammar::specs::Rules::compare, sx_grammar::specs::Rules::sum, sx_grammar::specs::Rules::product, sx_grammar::specs::Rules::unary, sx_grammar::specs::Rules::operand, sx_grammar::specs::Rules::closure_at, sx_grammar::specs::Rules::postfix, sx_grammar::specs::Rules::primary))]
fn starts_other(lexemes: &[Lexeme]) -> bool
    ensures { result ≡ starts (first from_other) lexemes.now }
{
    starts_with(
        lexemes,
        &[
            Sort::Int,
            Sort::True,
            Sort::False,
            Sort::SelfWord,
            Sort::Negate,
            Sort::Not,
            Sort::OpenBrace,
            Sort::OpenObservers,
            Sort::Name,
            Sort::Print,
            Sort::Get,
            Sort::Set,
            Sort::WillSet,
            Sort::DidSet,
            Sort::Escaping,
        ],
    )
}

/// The inside of a closure literal without the brace that closes it.
fn literal_inside<'a, F: Fn(Level, &[Lexeme], u32) -> Taken>(
    alloc: Global,
    deeper: &F,
    lexemes: &'a [Lexeme],
    levels: u32,
) -> Result<(Signature, Items<Statement>, &'a [Lexeme]), Stop>
    requires reader { IsReader (F.pre deeper.now) (F.post deeper.now) levels }
    ensures { Gives (λ x. a_literal x.0 x.1) (λ x. x.2.now) result (run body levels literal_inside lexemes.now) }
{
    if starts_statement(lexemes) {
        let (items, rest) = statement_literal(alloc, deeper, lexemes, levels)?;
        return Ok((Signature::Absent, items, rest));
    }
    if starts_with(lexemes, &[Sort::OpenRound]) {
        return from_bracket(alloc, deeper, lexemes, levels);
    }
    if starts_other(lexemes) {
        return from_other(alloc, deeper, lexemes, levels);
    }
    Ok((Signature::Absent, Items::new(alloc), lexemes))
}

/// The inside of a closure literal, and the brace that closes it.
#[tactic(auto, unfolding(sx_grammar::specs::Grammar::run, sx_grammar::specs::Grammar::run_with, sx_grammar::specs::Rules::literal))]
pub fn literal<'a, F: Fn(Level, &[Lexeme], u32) -> Taken>(
    alloc: Global,
    deeper: &F,
    lexemes: &'a [Lexeme],
    levels: u32,
) -> Result<(Signature, Items<Statement>, Lexeme, &'a [Lexeme]), Stop>
    requires reader { IsReader (F.pre deeper.now) (F.post deeper.now) levels }
    ensures { Gives (λ x. pair (a_literal x.0 x.1) (leaf x.2)) (λ x. x.3.now) result (run body levels literal lexemes.now) }
{
    let (signature, items, rest) = literal_inside(alloc, deeper, lexemes, levels)?;
    let (last, rest) = one_of(rest, &[Sort::CloseBrace], levels)?;
    Ok((signature, items, last, rest))
}
