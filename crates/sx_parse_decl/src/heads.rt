// Heads of declarations.

ghost use Rattle.std.specs.Prelude.{◌≡◌, [], ◌∷◌, true, false};
ghost use Rattle.sx_grammar.specs.Grammar.{run};
ghost use Rattle.sx_grammar.specs.Rules.{arrow, body, end_of, from_to, function_head, function_head_of, function_rest, head, mutating_head, optional, subscript_head, type_head, type_kind, is_let, typed, variable_head};
ghost use Rattle.sx_grammar.specs.Value.{a_head, a_type, leaf, pair};
ghost use Rattle.sx_parse_decl.specs.Reading.{Gives, bracket_value, option_value, rest_value, result_value};
ghost use Rattle.sx_tree.specs.declared.declarations.Head.TheVariants as heads;

use crate::cursor::{name, name_of, one_of, opened, starts_with};
use crate::parameter_lists::{parameters, subscript_parameters};
use crate::stop::Stop;
use crate::types::{arrow, typed};
use sqlite_items::Items;
use std::alloc::Global;
use sx_grammar::{Lexeme, Sort};
use sx_span::Span;
use sx_tree::{
    FunctionHead, Head, Parameter, SubscriptHead, TypeHead, TypeKind, VariableHead, WrittenType,
};

/// A result type behind its arrow.
#[derive(Drop)]
pub struct ResultType {
    pub sign: Lexeme,
    pub ty: WrittenType,
}

/// The head of a function from its name on.
#[derive(Drop)]
pub struct FunctionRest {
    pub name: Lexeme,
    pub start: Lexeme,
    pub parameters: Items<Parameter>,
    pub last: Lexeme,
    pub result: Option<ResultType>,
}

/// A result type behind its arrow, if it stands here.
#[tactic(auto, unfolding(sx_grammar::specs::Grammar::run, sx_grammar::specs::Grammar::run_with, sx_grammar::specs::Rules::arrow))]
pub fn result_type(
    alloc: Global,
    lexemes: &[Lexeme],
    levels: u32,
) -> Result<(Option<ResultType>, &[Lexeme]), Stop>
    ensures { Gives (λ x. result_value x.0) (λ x. x.1.now) result (run body levels (optional arrow) lexemes.now) }
{
    if !starts_with(lexemes, &[Sort::Arrow]) {
        return Ok((None, lexemes));
    }
    let (sign, ty, rest) = arrow(alloc, lexemes, levels)?;
    Ok((Some(ResultType { sign, ty }), rest))
}

#[tactic(auto, unfolding(sx_grammar::specs::Grammar::run, sx_grammar::specs::Grammar::run_with, sx_grammar::specs::Rules::function_rest, sx_grammar::specs::Rules::body))]
fn function_rest(
    alloc: Global,
    lexemes: &[Lexeme],
    levels: u32,
) -> Result<(FunctionRest, &[Lexeme]), Stop>
    ensures { Gives (λ x. rest_value x.0) (λ x. x.1.now) result (run body levels function_rest lexemes.now) }
{
    let (name, rest) = name(lexemes, levels)?;
    let (start, inside, fewer) = opened(rest, &[Sort::OpenRound, Sort::OpenText], levels)?;
    let (list, last, rest) = parameters(alloc, inside, fewer)?;
    let (result, rest) = result_type(alloc, rest, levels)?;
    let function = FunctionRest {
        name,
        start,
        parameters: Items::from_vec(list),
        last,
        result,
    };
    Ok((function, rest))
}

fn function_of(start: Span, mutating: bool, rest: FunctionRest) -> FunctionHead
    ensures { result ≡ function_head_of mutating start (leaf rest.name) (bracket_value rest.start rest.parameters rest.last) (result_value rest.result) }
{
    let FunctionRest {
        name,
        start: _,
        parameters,
        last,
        result,
    } = rest;
    let name = name_of(&name);
    match result {
        None => FunctionHead {
            span: Span {
                start: start.start,
                end: last.token.span.end,
            },
            mutating,
            name,
            parameters,
            result: None,
        },
        Some(ResultType { sign: _, ty }) => FunctionHead {
            span: Span {
                start: start.start,
                end: ty.span.end,
            },
            mutating,
            name,
            parameters,
            result: Some(ty),
        },
    }
}

/// The head of a function, from `func` on.
#[tactic(auto, unfolding(sx_grammar::specs::Grammar::run, sx_grammar::specs::Grammar::run_with, sx_grammar::specs::Rules::function_head))]
pub fn function_head(
    alloc: Global,
    lexemes: &[Lexeme],
    levels: u32,
) -> Result<(FunctionHead, &[Lexeme]), Stop>
    ensures { Gives (λ x. a_head (heads.Function x.0)) (λ x. x.1.now) result (run body levels function_head lexemes.now) }
{
    let (word, rest) = one_of(lexemes, &[Sort::Func], levels)?;
    let (function, rest) = function_rest(alloc, rest, levels)?;
    Ok((function_of(word.token.span, false, function), rest))
}

/// The head of a mutating method, from `mutating` on.
#[tactic(auto, unfolding(sx_grammar::specs::Grammar::run, sx_grammar::specs::Grammar::run_with, sx_grammar::specs::Rules::mutating_head))]
pub fn mutating_head(
    alloc: Global,
    lexemes: &[Lexeme],
    levels: u32,
) -> Result<(FunctionHead, &[Lexeme]), Stop>
    ensures { Gives (λ x. a_head (heads.Function x.0)) (λ x. x.1.now) result (run body levels mutating_head lexemes.now) }
{
    let (word, rest) = one_of(lexemes, &[Sort::Mutating], levels)?;
    let (_, rest) = one_of(rest, &[Sort::Func], levels)?;
    let (function, rest) = function_rest(alloc, rest, levels)?;
    Ok((function_of(word.token.span, true, function), rest))
}

fn type_kind(sort: Sort) -> TypeKind
    ensures { result ≡ type_kind sort }
{
    match sort {
        Sort::Struct => TypeKind::Structure,
        _ => TypeKind::Class,
    }
}

fn is_let(sort: Sort) -> bool
    ensures { result ≡ is_let sort }
{
    match sort {
        Sort::Let => true,
        _ => false,
    }
}

/// The head of a type declaration that begins with one of these words.
#[tactic(auto, unfolding(sx_grammar::specs::Grammar::run, sx_grammar::specs::Grammar::run_with, sx_grammar::specs::Rules::type_head))]
pub fn type_head<'a>(
    lexemes: &'a [Lexeme],
    sorts: &[Sort],
    levels: u32,
) -> Result<(TypeHead, &'a [Lexeme]), Stop>
    ensures { Gives (λ x. a_head (heads.Type x.0)) (λ x. x.1.now) result (run body levels (type_head sorts.now) lexemes.now) }
{
    let (word, rest) = one_of(lexemes, sorts, levels)?;
    let (lexeme, rest) = name(rest, levels)?;
    let name = name_of(&lexeme);
    let head = TypeHead {
        span: Span {
            start: word.token.span.start,
            end: name.span.end,
        },
        kind: type_kind(word.sort),
        name,
    };
    Ok((head, rest))
}

#[tactic(auto, unfolding(sx_grammar::specs::Grammar::run, sx_grammar::specs::Grammar::run_with, sx_grammar::specs::Rules::typed))]
fn optional_type(
    alloc: Global,
    lexemes: &[Lexeme],
    levels: u32,
) -> Result<(Option<WrittenType>, &[Lexeme]), Stop>
    ensures { Gives (λ x. option_value x.0) (λ x. x.1.now) result (run body levels (optional typed) lexemes.now) }
{
    if !starts_with(lexemes, &[Sort::Colon]) {
        return Ok((None, lexemes));
    }
    let (ty, rest) = typed(alloc, lexemes, levels)?;
    Ok((Some(ty), rest))
}

fn end_of(ty: &Option<WrittenType>, name: &Lexeme) -> u32
    ensures { result ≡ (end_of (option_value ty.now) (leaf name.now)).end }
{
    match ty {
        None => name.token.span.end,
        Some(ty) => ty.span.end,
    }
}

/// The head of a variable that begins with one of these words.
#[tactic(auto, unfolding(sx_grammar::specs::Grammar::run, sx_grammar::specs::Grammar::run_with, sx_grammar::specs::Rules::variable_head))]
pub fn variable_head<'a>(
    alloc: Global,
    lexemes: &'a [Lexeme],
    sorts: &[Sort],
    levels: u32,
) -> Result<(VariableHead, &'a [Lexeme]), Stop>
    ensures { Gives (λ x. a_head (heads.Variable x.0)) (λ x. x.1.now) result (run body levels (variable_head sorts.now) lexemes.now) }
{
    let (word, rest) = one_of(lexemes, sorts, levels)?;
    let (lexeme, rest) = name(rest, levels)?;
    let (ty, rest) = optional_type(alloc, rest, levels)?;
    let head = VariableHead {
        span: Span {
            start: word.token.span.start,
            end: end_of(&ty, &lexeme),
        },
        constant: is_let(word.sort),
        name: name_of(&lexeme),
        ty,
    };
    Ok((head, rest))
}

/// The head of a subscript.
#[tactic(auto, unfolding(sx_grammar::specs::Grammar::run, sx_grammar::specs::Grammar::run_with, sx_grammar::specs::Rules::subscript_head, sx_grammar::specs::Rules::body))]
pub fn subscript_head(
    alloc: Global,
    lexemes: &[Lexeme],
    levels: u32,
) -> Result<(SubscriptHead, &[Lexeme]), Stop>
    ensures { Gives (λ x. a_head (heads.Subscript x.0)) (λ x. x.1.now) result (run body levels subscript_head lexemes.now) }
{
    let (word, rest) = one_of(lexemes, &[Sort::Subscript], levels)?;
    let (_, inside, fewer) = opened(rest, &[Sort::OpenRound, Sort::OpenText], levels)?;
    let (list, _, rest) = subscript_parameters(alloc, inside, fewer)?;
    let (_, ty, rest) = arrow(alloc, rest, levels)?;
    let head = SubscriptHead {
        span: Span {
            start: word.token.span.start,
            end: ty.span.end,
        },
        parameters: Items::from_vec(list),
        result: ty,
    };
    Ok((head, rest))
}

/// The head of a declaration.
#[tactic(auto, unfolding(sx_grammar::specs::Grammar::run, sx_grammar::specs::Grammar::run_with, sx_grammar::specs::Rules::head, sx_grammar::specs::Rules::mutating_head, sx_grammar::specs::Rules::function_head, sx_grammar::specs::Rules::type_head, sx_grammar::specs::Rules::variable_head, sx_grammar::specs::Rules::subscript_head))]
pub fn head(alloc: Global, lexemes: &[Lexeme], levels: u32) -> Result<(Head, &[Lexeme]), Stop>
    ensures { Gives (λ x. a_head x.0) (λ x. x.1.now) result (run body levels head lexemes.now) }
{
    if starts_with(lexemes, &[Sort::Mutating]) {
        let (head, rest) = mutating_head(alloc, lexemes, levels)?;
        return Ok((Head::Function(head), rest));
    }
    if starts_with(lexemes, &[Sort::Func]) {
        let (head, rest) = function_head(alloc, lexemes, levels)?;
        return Ok((Head::Function(head), rest));
    }
    if starts_with(lexemes, &[Sort::Struct, Sort::Class]) {
        let (head, rest) = type_head(lexemes, &[Sort::Struct, Sort::Class], levels)?;
        return Ok((Head::Type(head), rest));
    }
    if starts_with(lexemes, &[Sort::Let, Sort::Var]) {
        let (head, rest) = variable_head(alloc, lexemes, &[Sort::Let, Sort::Var], levels)?;
        return Ok((Head::Variable(head), rest));
    }
    let (head, rest) = subscript_head(alloc, lexemes, levels)?;
    Ok((Head::Subscript(head), rest))
}
