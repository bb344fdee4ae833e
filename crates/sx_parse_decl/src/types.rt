// Written types.

ghost use Rattle.std.specs.Prelude.{◌≡◌, ◌≤◌, ℕ, [], ◌∷◌, IfOk, length};
ghost use Rattle.sx_grammar.specs.Grammar.{run};
ghost use Rattle.sx_grammar.specs.Rules.{after_comma, arrow, body, function_type, in_brackets, may_end, any_type, type_bracket, type_parameter, type_parameter_list, typed};
ghost use Rattle.sx_grammar.specs.Value.{a_type, a_type_parameter, leaf, pair, type_parameters};
ghost use Rattle.sx_parse_decl.specs.Reading.{Gives};

use crate::cursor::{name, name_of, one_of, opened, starts_with, starts_with_name};
use crate::stop::Stop;
use sqlite_items::{Boxed, Items};
use std::alloc::{AllocError, Global};
use sx_grammar::{Lexeme, Sort};
use sx_span::Span;
use sx_tree::{TypeForm, TypeParameter, WrittenType};

/// Whether a bracket with these types may be a type without an arrow behind it.
fn may_end(parameters: &[TypeParameter]) -> bool
    ensures { result ≡ may_end parameters.now }
{
    match parameters {
        [] => true,
        [parameter] => !parameter.inout,
        _ => false,
    }
}

fn in_brackets(
    alloc: Global,
    span: Span,
    mut parameters: Vec<TypeParameter>,
) -> Result<WrittenType, AllocError>
    requires { length parameters.items ≤ 1 }
    ensures { IfOk result (λ t. t ≡ in_brackets span parameters.items) }
{
    match parameters.pop() {
        None => Ok(WrittenType {
            span,
            form: TypeForm::Unit,
        }),
        Some(parameter) => Ok(WrittenType {
            span,
            form: TypeForm::Bracketed(Boxed::new(alloc, parameter.ty)?),
        }),
    }
}

fn function_type(
    alloc: Global,
    start: Span,
    parameters: Vec<TypeParameter>,
    written: WrittenType,
) -> Result<WrittenType, AllocError>
    ensures { IfOk result (λ t. t ≡ function_type start parameters.items written) }
{
    let span = Span {
        start: start.start,
        end: written.span.end,
    };
    Ok(WrittenType {
        span,
        form: TypeForm::Function(Items::from_vec(parameters), Boxed::new(alloc, written)?),
    })
}

/// A type behind its arrow.
#[cycle(types)]
#[tactic(auto, unfolding(sx_grammar::specs::Grammar::run, sx_grammar::specs::Grammar::run_with, sx_grammar::specs::Rules::arrow, sx_grammar::specs::Rules::body))]
pub fn arrow(
    alloc: Global,
    lexemes: &[Lexeme],
    levels: u32,
) -> Result<(Lexeme, WrittenType, &[Lexeme]), Stop>
    ensures { Gives (λ x. pair (leaf x.0) (a_type x.1)) (λ x. x.2.now) result (run body levels arrow lexemes.now) }
{
    let (sign, inside, fewer) = opened(lexemes, &[Sort::Arrow], levels)?;
    let (ty, rest) = written_type(alloc, inside, fewer)?;
    Ok((sign, ty, rest))
}

/// A parameter of a function type: perhaps `inout`, and its type.
#[cycle(types)]
#[tactic(auto, unfolding(sx_grammar::specs::Grammar::run, sx_grammar::specs::Grammar::run_with, sx_grammar::specs::Rules::type_parameter))]
pub fn type_parameter(
    alloc: Global,
    lexemes: &[Lexeme],
    levels: u32,
) -> Result<(TypeParameter, &[Lexeme]), Stop>
    ensures { Gives (λ x. a_type_parameter x.0) (λ x. x.1.now) result (run body levels type_parameter lexemes.now) }
{
    if starts_with(lexemes, &[Sort::Inout]) {
        let (_, rest) = one_of(lexemes, &[Sort::Inout], levels)?;
        let (ty, rest) = written_type(alloc, rest, levels)?;
        return Ok((TypeParameter { inout: true, ty }, rest));
    }
    let (ty, rest) = written_type(alloc, lexemes, levels)?;
    Ok((TypeParameter { inout: false, ty }, rest))
}

#[cycle(types)]
#[tactic(auto, unfolding(sx_grammar::specs::Grammar::run, sx_grammar::specs::Grammar::run_with))]
fn next_type_parameter(
    alloc: Global,
    lexemes: &[Lexeme],
    levels: u32,
) -> Result<(TypeParameter, &[Lexeme]), Stop>
    ensures { Gives (λ x. a_type_parameter x.0) (λ x. x.1.now) result (run body levels (after_comma type_parameter) lexemes.now) }
{
    let (_, rest) = one_of(lexemes, &[Sort::Comma], levels)?;
    type_parameter(alloc, rest, levels)
}

#[cycle(types)]
#[tactic(auto, unfolding(sx_grammar::specs::Grammar::run, sx_grammar::specs::Grammar::run_with, sx_grammar::specs::Rules::type_parameter_list))]
fn type_parameters(
    alloc: Global,
    lexemes: &[Lexeme],
    levels: u32,
) -> Result<(Vec<TypeParameter>, &[Lexeme]), Stop>
    ensures { Gives (λ x. type_parameters x.0.items) (λ x. x.1.now) result (run body levels type_parameter_list lexemes.now) }
{
    let mut parameters = Vec::new(alloc);
    if !starts_with(
        lexemes,
        &[
            Sort::Inout,
            Sort::Name,
            Sort::Print,
            Sort::Get,
            Sort::Set,
            Sort::WillSet,
            Sort::DidSet,
            Sort::Escaping,
            Sort::OpenRound,
            Sort::OpenText,
        ],
    ) {
        return Ok((parameters, lexemes));
    }
    let (head, mut rest) = type_parameter(alloc, lexemes, levels)?;
    parameters.push(head)?;
    'turns: while starts_with(rest, &[Sort::Comma]) {
        let (next, after) = next_type_parameter(alloc, rest, levels)?;
        parameters.push(next)?;
        rest = after;
    }
    Ok((parameters, rest))
}

#[cycle(types)]
#[tactic(auto, unfolding(sx_grammar::specs::Grammar::run, sx_grammar::specs::Grammar::run_with, sx_grammar::specs::Rules::type_bracket))]
fn type_bracket(
    alloc: Global,
    lexemes: &[Lexeme],
    levels: u32,
) -> Result<(Vec<TypeParameter>, Lexeme, &[Lexeme]), Stop>
    ensures { Gives (λ x. pair (type_parameters x.0.items) (leaf x.1)) (λ x. x.2.now) result (run body levels type_bracket lexemes.now) }
{
    let (parameters, rest) = type_parameters(alloc, lexemes, levels)?;
    let (close, rest) = one_of(rest, &[Sort::CloseRound], levels)?;
    Ok((parameters, close, rest))
}

/// A type.
#[cycle(types)]
#[tactic(auto, unfolding(sx_grammar::specs::Grammar::run, sx_grammar::specs::Grammar::run_with, sx_grammar::specs::Rules::any_type, sx_grammar::specs::Rules::arrow, sx_grammar::specs::Rules::body))]
pub fn written_type(
    alloc: Global,
    lexemes: &[Lexeme],
    levels: u32,
) -> Result<(WrittenType, &[Lexeme]), Stop>
    ensures { Gives (λ x. a_type x.0) (λ x. x.1.now) result (run body levels any_type lexemes.now) }
{
    if starts_with_name(lexemes) {
        let (lexeme, rest) = name(lexemes, levels)?;
        let name = name_of(&lexeme);
        let ty = WrittenType {
            span: name.span,
            form: TypeForm::Named(name.number),
        };
        return Ok((ty, rest));
    }
    let (open, inside, fewer) = opened(lexemes, &[Sort::OpenRound, Sort::OpenText], levels)?;
    let (parameters, close, rest) = type_bracket(alloc, inside, fewer)?;
    if !may_end(parameters.as_slice()) {
        let (_, result, rest) = arrow(alloc, rest, levels)?;
        return Ok((
            function_type(alloc, open.token.span, parameters, result)?,
            rest,
        ));
    }
    if starts_with(rest, &[Sort::Arrow]) {
        let (_, result, rest) = arrow(alloc, rest, levels)?;
        return Ok((
            function_type(alloc, open.token.span, parameters, result)?,
            rest,
        ));
    }
    let span = Span {
        start: open.token.span.start,
        end: close.token.span.end,
    };
    Ok((in_brackets(alloc, span, parameters)?, rest))
}

/// A colon and a type.
#[tactic(auto, unfolding(sx_grammar::specs::Grammar::run, sx_grammar::specs::Grammar::run_with, sx_grammar::specs::Rules::typed))]
pub fn typed(
    alloc: Global,
    lexemes: &[Lexeme],
    levels: u32,
) -> Result<(WrittenType, &[Lexeme]), Stop>
    ensures { Gives (λ x. a_type x.0) (λ x. x.1.now) result (run body levels typed lexemes.now) }
{
    let (_, rest) = one_of(lexemes, &[Sort::Colon], levels)?;
    written_type(alloc, rest, levels)
}
