// Signatures of closure literals.

ghost use Rattle.std.specs.Prelude.{◌≡◌, [], ◌∷◌, IfOk};
ghost use Rattle.sx_grammar.specs.Grammar.{first, run, starts};
ghost use Rattle.sx_grammar.specs.Rules.{a_name, after_comma, body, closure_parameter, closure_parameter_of, closure_parameter_type, closure_parameters_behind, first_bracket, is_name_form, name_of_expr, names_behind};
ghost use Rattle.sx_grammar.specs.Value.{a_closure_parameter, a_type_parameter, closure_parameters, leaf, name_list, pair};
ghost use Rattle.sx_parse_code.specs.Productions.{in_first_bracket};
ghost use Rattle.sx_parse_decl.specs.Reading.{Gives};
ghost use Rattle.sx_parse_expr.specs.Levels.{IsReader, first_value};
ghost use Rattle.sx_tree.specs.declared.code.ExprForm.{out-ExprForm};

use sqlite_items::Items;
use std::alloc::{AllocError, Global};
use sx_grammar::{Lexeme, Mode, Sort};
use sx_parse_decl::{Stop, name, name_of, one_of, starts_with, type_parameter};
use sx_parse_expr::{FirstBracket, Level, Taken, expr};
use sx_tree::{ClosureParameter, Expr, ExprForm, Name, TypeParameter};

/// These items behind a first one.
pub fn with_first<T: Drop>(
    alloc: Global,
    first: T,
    others: Items<T>,
) -> Result<Items<T>, AllocError>
    ensures { IfOk result (λ xs. xs ≡ first ∷ others) }
{
    let mut items = Items::new(alloc);
    items.push(first)?;
    items.append(others)?;
    Ok(items)
}

/// Whether an expression is a name alone.
pub fn is_name(expr: &Expr) -> bool
    ensures { result ≡ is_name_form (out-ExprForm expr.now.form) }
{
    match &expr.form {
        ExprForm::Named(_, closure) => closure.is_none(),
        _ => false,
    }
}

/// The name that an expression is.
pub fn name_of_expr(expr: &Expr) -> Name
    ensures { result ≡ name_of_expr expr.now }
{
    let number = match &expr.form {
        ExprForm::Named(number, _) => *number,
        _ => 0,
    };
    Name {
        number,
        span: expr.span,
    }
}

#[tactic(auto, unfolding(sx_grammar::specs::Grammar::run, sx_grammar::specs::Grammar::run_with))]
fn next_name(lexemes: &[Lexeme], levels: u32) -> Result<(Lexeme, &[Lexeme]), Stop>
    ensures { Gives (λ x. leaf x.0) (λ x. x.1.now) result (run body levels (after_comma a_name) lexemes.now) }
{
    let (_, rest) = one_of(lexemes, &[Sort::Comma], levels)?;
    name(rest, levels)
}

/// Further names, each behind a comma.
pub fn names_behind(
    alloc: Global,
    lexemes: &[Lexeme],
    levels: u32,
) -> Result<(Items<Name>, &[Lexeme]), Stop>
    ensures { Gives (λ x. name_list x.0) (λ x. x.1.now) result (run body levels names_behind lexemes.now) }
{
    let mut names = Vec::new(alloc);
    let mut rest = lexemes;
    'turns: while starts_with(rest, &[Sort::Comma]) {
        let (next, after) = next_name(rest, levels)?;
        names.push(name_of(&next))?;
        rest = after;
    }
    Ok((Items::from_vec(names), rest))
}

/// A colon and the type of a parameter.
#[tactic(auto, unfolding(sx_grammar::specs::Grammar::run, sx_grammar::specs::Grammar::run_with, sx_grammar::specs::Rules::closure_parameter_type))]
fn closure_parameter_type(
    alloc: Global,
    lexemes: &[Lexeme],
    levels: u32,
) -> Result<(TypeParameter, &[Lexeme]), Stop>
    ensures { Gives (λ x. a_type_parameter x.0) (λ x. x.1.now) result (run body levels closure_parameter_type lexemes.now) }
{
    let (_, rest) = one_of(lexemes, &[Sort::Colon], levels)?;
    type_parameter(alloc, rest, levels)
}

/// A parameter of this name and type.
pub fn closure_parameter_of(name: Name, written: TypeParameter) -> ClosureParameter
    ensures { result ≡ closure_parameter_of name (a_type_parameter written) }
{
    let TypeParameter { inout, ty } = written;
    ClosureParameter { name, inout, ty }
}

#[tactic(auto, unfolding(sx_grammar::specs::Grammar::run, sx_grammar::specs::Grammar::run_with, sx_grammar::specs::Rules::closure_parameter))]
fn closure_parameter(
    alloc: Global,
    lexemes: &[Lexeme],
    levels: u32,
) -> Result<(ClosureParameter, &[Lexeme]), Stop>
    ensures { Gives (λ x. a_closure_parameter x.0) (λ x. x.1.now) result (run body levels closure_parameter lexemes.now) }
{
    let (lexeme, rest) = name(lexemes, levels)?;
    let (written, rest) = closure_parameter_type(alloc, rest, levels)?;
    Ok((closure_parameter_of(name_of(&lexeme), written), rest))
}

#[tactic(auto, unfolding(sx_grammar::specs::Grammar::run, sx_grammar::specs::Grammar::run_with))]
fn next_closure_parameter(
    alloc: Global,
    lexemes: &[Lexeme],
    levels: u32,
) -> Result<(ClosureParameter, &[Lexeme]), Stop>
    ensures { Gives (λ x. a_closure_parameter x.0) (λ x. x.1.now) result (run body levels (after_comma closure_parameter) lexemes.now) }
{
    let (_, rest) = one_of(lexemes, &[Sort::Comma], levels)?;
    closure_parameter(alloc, rest, levels)
}

/// Further parameters, each behind a comma.
fn closure_parameters_behind(
    alloc: Global,
    lexemes: &[Lexeme],
    levels: u32,
) -> Result<(Items<ClosureParameter>, &[Lexeme]), Stop>
    ensures { Gives (λ x. closure_parameters x.0) (λ x. x.1.now) result (run body levels closure_parameters_behind lexemes.now) }
{
    let mut parameters = Vec::new(alloc);
    let mut rest = lexemes;
    'turns: while starts_with(rest, &[Sort::Comma]) {
        let (next, after) = next_closure_parameter(alloc, rest, levels)?;
        parameters.push(next)?;
        rest = after;
    }
    Ok((Items::from_vec(parameters), rest))
}

/// Whether an expression begins here, the first in a bracket.
#[tactic(auto, unfolding(sx_grammar::specs::Rules::expr, sx_grammar::specs::Rules::conjunction, sx_grammar::specs::Rules::compare, sx_grammar::specs::Rules::sum, sx_grammar::specs::Rules::product, sx_grammar::specs::Rules::unary, sx_grammar::specs::Rules::operand, sx_grammar::specs::Rules::closure_at, sx_grammar::specs::Rules::postfix, sx_grammar::specs::Rules::primary))]
fn starts_expr(lexemes: &[Lexeme]) -> bool
    ensures { result ≡ starts (first in_first_bracket) lexemes.now }
{
    starts_with(
        lexemes,
        &[
            Sort::Negate,
            Sort::Not,
            Sort::OpenBrace,
            Sort::OpenObservers,
            Sort::Int,
            Sort::True,
            Sort::False,
            Sort::SelfWord,
            Sort::Name,
            Sort::Get,
            Sort::Set,
            Sort::WillSet,
            Sort::DidSet,
            Sort::Escaping,
            Sort::Print,
            Sort::OpenRound,
        ],
    )
}

/// What stands behind an expression in a first bracket: a type and further parameters, where it is
/// a name and a colon stands here.
#[tactic(auto, unfolding(sx_grammar::specs::Grammar::run, sx_grammar::specs::Grammar::run_with, sx_grammar::specs::Rules::closure_parameter_type))]
fn in_first_bracket<'a, F: Fn(Level, &[Lexeme], u32) -> Taken>(
    alloc: Global,
    deeper: &F,
    lexemes: &'a [Lexeme],
    levels: u32,
) -> Result<(FirstBracket, &'a [Lexeme]), Stop>
    requires reader { IsReader (F.pre deeper.now) (F.post deeper.now) levels }
    ensures { Gives (λ x. first_value x.0) (λ x. x.1.now) result (run body levels in_first_bracket lexemes.now) }
{
    let (first, rest) = expr(alloc, deeper, Mode::Free, lexemes, levels)?;
    if is_name(&first) && starts_with(rest, &[Sort::Colon]) {
        let (written, rest) = closure_parameter_type(alloc, rest, levels)?;
        let (parameters, rest) = closure_parameters_behind(alloc, rest, levels)?;
        return Ok((FirstBracket::Parameters(first, written, parameters), rest));
    }
    Ok((FirstBracket::Expr(first), rest))
}

/// What stands in a bracket right behind the `{` of a closure literal, and the bracket that closes
/// it.
#[tactic(auto, unfolding(sx_grammar::specs::Grammar::run, sx_grammar::specs::Grammar::run_with, sx_grammar::specs::Rules::first_bracket))]
pub fn first_bracket<'a, F: Fn(Level, &[Lexeme], u32) -> Taken>(
    alloc: Global,
    deeper: &F,
    lexemes: &'a [Lexeme],
    levels: u32,
) -> Result<(FirstBracket, Lexeme, &'a [Lexeme]), Stop>
    requires reader { IsReader (F.pre deeper.now) (F.post deeper.now) levels }
    ensures { Gives (λ x. pair (first_value x.0) (leaf x.1)) (λ x. x.2.now) result (run body levels first_bracket lexemes.now) }
{
    if !starts_expr(lexemes) {
        let (last, rest) = one_of(lexemes, &[Sort::CloseRound], levels)?;
        return Ok((FirstBracket::Empty, last, rest));
    }
    let (first, rest) = in_first_bracket(alloc, deeper, lexemes, levels)?;
    let (last, rest) = one_of(rest, &[Sort::CloseRound], levels)?;
    Ok((first, last, rest))
}
