// Parameters of functions and subscripts.

ghost use Rattle.std.specs.Prelude.{◌≡◌, [], ◌∷◌};
ghost use Rattle.sx_grammar.specs.Grammar.{giving, run};
ghost use Rattle.sx_grammar.specs.Rules.{after_comma, body, parameter, parameter_bracket, parameter_list, parameter_names, parameter_type, subscript_bracket, subscript_parameter, subscript_parameter_list};
ghost use Rattle.sx_grammar.specs.Value.{a_marked, a_parameter, leaf, names_of_parameter, pair, parameters};
ghost use Rattle.sx_parse_decl.specs.Reading.{Gives};

use crate::cursor::{name, name_of, one_of, starts_with, starts_with_name};
use crate::stop::Stop;
use crate::types::written_type;
use std::alloc::Global;
use sx_grammar::{Lexeme, Sort};
use sx_span::Span;
use sx_tree::{Marker, Name, Parameter, WrittenType};

/// Where a parameter starts, its label and its name.
#[tactic(auto, unfolding(sx_grammar::specs::Grammar::run, sx_grammar::specs::Grammar::run_with, sx_grammar::specs::Rules::parameter_names))]
fn parameter_names(
    lexemes: &[Lexeme],
    levels: u32,
) -> Result<(u32, Option<Name>, Name, &[Lexeme]), Stop>
    ensures { Gives (λ x. names_of_parameter x.0 x.1 x.2) (λ x. x.3.now) result (run body levels parameter_names lexemes.now) }
{
    if !starts_with_name(lexemes) {
        let (sign, rest) = one_of(lexemes, &[Sort::Underscore], levels)?;
        let (second, rest) = name(rest, levels)?;
        return Ok((sign.token.span.start, None, name_of(&second), rest));
    }
    let (first, rest) = name(lexemes, levels)?;
    let label = name_of(&first);
    if starts_with_name(rest) {
        let (second, rest) = name(rest, levels)?;
        return Ok((label.span.start, Some(label), name_of(&second), rest));
    }
    Ok((label.span.start, Some(label), label, rest))
}

/// The marker and the type of a parameter.
#[tactic(auto, unfolding(sx_grammar::specs::Grammar::run, sx_grammar::specs::Grammar::run_with, sx_grammar::specs::Rules::parameter_type))]
fn parameter_type(
    alloc: Global,
    lexemes: &[Lexeme],
    levels: u32,
) -> Result<(Marker, WrittenType, &[Lexeme]), Stop>
    ensures { Gives (λ x. a_marked x.0 x.1) (λ x. x.2.now) result (run body levels parameter_type lexemes.now) }
{
    if starts_with(lexemes, &[Sort::Inout]) {
        let (_, rest) = one_of(lexemes, &[Sort::Inout], levels)?;
        let (ty, rest) = written_type(alloc, rest, levels)?;
        return Ok((Marker::InOut, ty, rest));
    }
    if starts_with(lexemes, &[Sort::At]) {
        let (_, rest) = one_of(lexemes, &[Sort::At], levels)?;
        let (_, rest) = one_of(rest, &[Sort::Escaping], levels)?;
        let (ty, rest) = written_type(alloc, rest, levels)?;
        return Ok((Marker::Escaping, ty, rest));
    }
    let (ty, rest) = written_type(alloc, lexemes, levels)?;
    Ok((Marker::Plain, ty, rest))
}

#[tactic(auto, unfolding(sx_grammar::specs::Grammar::run, sx_grammar::specs::Grammar::run_with, sx_grammar::specs::Rules::parameter))]
fn parameter(alloc: Global, lexemes: &[Lexeme], levels: u32) -> Result<(Parameter, &[Lexeme]), Stop>
    ensures { Gives (λ x. a_parameter x.0) (λ x. x.1.now) result (run body levels parameter lexemes.now) }
{
    let (start, label, name, rest) = parameter_names(lexemes, levels)?;
    let (_, rest) = one_of(rest, &[Sort::Colon], levels)?;
    let (marker, ty, rest) = parameter_type(alloc, rest, levels)?;
    let span = Span {
        start,
        end: ty.span.end,
    };
    let parameter = Parameter {
        span,
        label,
        name,
        marker,
        ty,
    };
    Ok((parameter, rest))
}

#[tactic(auto, unfolding(sx_grammar::specs::Grammar::run, sx_grammar::specs::Grammar::run_with))]
fn next_parameter(
    alloc: Global,
    lexemes: &[Lexeme],
    levels: u32,
) -> Result<(Parameter, &[Lexeme]), Stop>
    ensures { Gives (λ x. a_parameter x.0) (λ x. x.1.now) result (run body levels (after_comma parameter) lexemes.now) }
{
    let (_, rest) = one_of(lexemes, &[Sort::Comma], levels)?;
    parameter(alloc, rest, levels)
}

#[tactic(auto, unfolding(sx_grammar::specs::Grammar::run, sx_grammar::specs::Grammar::run_with, sx_grammar::specs::Rules::parameter_list))]
fn parameter_list(
    alloc: Global,
    lexemes: &[Lexeme],
    levels: u32,
) -> Result<(Vec<Parameter>, &[Lexeme]), Stop>
    ensures { Gives (λ x. parameters x.0.items) (λ x. x.1.now) result (run body levels parameter_list lexemes.now) }
{
    let mut parameters = Vec::new(alloc);
    if !starts_with(
        lexemes,
        &[
            Sort::Name,
            Sort::Print,
            Sort::Get,
            Sort::Set,
            Sort::WillSet,
            Sort::DidSet,
            Sort::Escaping,
            Sort::Underscore,
        ],
    ) {
        return Ok((parameters, lexemes));
    }
    let (head, mut rest) = parameter(alloc, lexemes, levels)?;
    parameters.push(head)?;
    'turns: while starts_with(rest, &[Sort::Comma]) {
        let (next, after) = next_parameter(alloc, rest, levels)?;
        parameters.push(next)?;
        rest = after;
    }
    Ok((parameters, rest))
}

/// The parameters of a function, and the bracket that closes them.
#[tactic(auto, unfolding(sx_grammar::specs::Grammar::run, sx_grammar::specs::Grammar::run_with, sx_grammar::specs::Rules::parameter_bracket))]
pub fn parameters(
    alloc: Global,
    lexemes: &[Lexeme],
    levels: u32,
) -> Result<(Vec<Parameter>, Lexeme, &[Lexeme]), Stop>
    ensures { Gives (λ x. pair (parameters x.0.items) (leaf x.1)) (λ x. x.2.now) result (run body levels parameter_bracket lexemes.now) }
{
    let (parameters, rest) = parameter_list(alloc, lexemes, levels)?;
    let (close, rest) = one_of(rest, &[Sort::CloseRound], levels)?;
    Ok((parameters, close, rest))
}

#[tactic(auto, unfolding(sx_grammar::specs::Grammar::run, sx_grammar::specs::Grammar::run_with, sx_grammar::specs::Rules::subscript_parameter))]
fn subscript_parameter(
    alloc: Global,
    lexemes: &[Lexeme],
    levels: u32,
) -> Result<(Parameter, &[Lexeme]), Stop>
    ensures { Gives (λ x. a_parameter x.0) (λ x. x.1.now) result (run body levels subscript_parameter lexemes.now) }
{
    let (first, rest) = name(lexemes, levels)?;
    let name = name_of(&first);
    let (_, rest) = one_of(rest, &[Sort::Colon], levels)?;
    let (ty, rest) = written_type(alloc, rest, levels)?;
    let span = Span {
        start: name.span.start,
        end: ty.span.end,
    };
    let parameter = Parameter {
        span,
        label: None,
        name,
        marker: Marker::Plain,
        ty,
    };
    Ok((parameter, rest))
}

#[tactic(auto, unfolding(sx_grammar::specs::Grammar::run, sx_grammar::specs::Grammar::run_with))]
fn next_subscript_parameter(
    alloc: Global,
    lexemes: &[Lexeme],
    levels: u32,
) -> Result<(Parameter, &[Lexeme]), Stop>
    ensures { Gives (λ x. a_parameter x.0) (λ x. x.1.now) result (run body levels (after_comma subscript_parameter) lexemes.now) }
{
    let (_, rest) = one_of(lexemes, &[Sort::Comma], levels)?;
    subscript_parameter(alloc, rest, levels)
}

#[tactic(auto, unfolding(sx_grammar::specs::Grammar::run, sx_grammar::specs::Grammar::run_with, sx_grammar::specs::Rules::subscript_parameter_list))]
fn subscript_parameter_list(
    alloc: Global,
    lexemes: &[Lexeme],
    levels: u32,
) -> Result<(Vec<Parameter>, &[Lexeme]), Stop>
    ensures { Gives (λ x. parameters x.0.items) (λ x. x.1.now) result (run body levels subscript_parameter_list lexemes.now) }
{
    let mut parameters = Vec::new(alloc);
    let (head, mut rest) = subscript_parameter(alloc, lexemes, levels)?;
    parameters.push(head)?;
    'turns: while starts_with(rest, &[Sort::Comma]) {
        let (next, after) = next_subscript_parameter(alloc, rest, levels)?;
        parameters.push(next)?;
        rest = after;
    }
    Ok((parameters, rest))
}

/// The parameters of a subscript, and the bracket that closes them.
#[tactic(auto, unfolding(sx_grammar::specs::Grammar::run, sx_grammar::specs::Grammar::run_with, sx_grammar::specs::Rules::subscript_bracket))]
pub fn subscript_parameters(
    alloc: Global,
    lexemes: &[Lexeme],
    levels: u32,
) -> Result<(Vec<Parameter>, Lexeme, &[Lexeme]), Stop>
    ensures { Gives (λ x. pair (parameters x.0.items) (leaf x.1)) (λ x. x.2.now) result (run body levels subscript_bracket lexemes.now) }
{
    let (parameters, rest) = subscript_parameter_list(alloc, lexemes, levels)?;
    let (close, rest) = one_of(rest, &[Sort::CloseRound], levels)?;
    Ok((parameters, close, rest))
}
