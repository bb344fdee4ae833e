// Members, and the bodies of types.

ghost use Rattle.std.specs.Prelude.{◌≡◌, [], ◌∷◌};
ghost use Rattle.sx_grammar.specs.Grammar.{run};
ghost use Rattle.sx_grammar.specs.Rules.{body, class_members, function_of, method, row_item, structure_members, subscript_member};
ghost use Rattle.sx_grammar.specs.Value.{a_block, a_head, a_member, leaf, members, pair};
ghost use Rattle.sx_parse_decl.specs.Reading.{Gives};
ghost use Rattle.sx_parse_items.specs.Parts.{class_member, member_rows, method_or_subscript, mutating_method, structure_member};
ghost use Rattle.sx_tree.specs.declared.declarations.Head.TheVariants as heads;

use crate::accessors::accessed;
use crate::variables::property;
use sqlite_items::Items;
use std::alloc::Global;
use sx_grammar::{Lexeme, Sort};
use sx_parse_code::{block, separator};
use sx_parse_decl::{Stop, function_head, mutating_head, one_of, starts_with, subscript_head};
use sx_span::Span;
use sx_tree::{Block, Function, FunctionHead, Member, Subscript};

/// The function that a head and a block declare.
pub fn function_of(head: FunctionHead, body: Block) -> Function
    ensures { result ≡ function_of (a_head (heads.Function head)) (a_block body) }
{
    Function {
        span: Span {
            start: head.span.start,
            end: body.span.end,
        },
        mutating: head.mutating,
        name: head.name,
        parameters: head.parameters,
        result: head.result,
        body,
    }
}

/// A method that begins with `func`.
#[tactic(auto, unfolding(sx_grammar::specs::Grammar::run, sx_grammar::specs::Grammar::run_with, sx_grammar::specs::Rules::method))]
fn method(alloc: Global, lexemes: &[Lexeme], levels: u32) -> Result<(Member, &[Lexeme]), Stop>
    ensures { Gives (λ x. a_member x.0) (λ x. x.1.now) result (run body levels method lexemes.now) }
{
    let (head, rest) = function_head(alloc, lexemes, levels)?;
    let (body, rest) = block(alloc, rest, levels)?;
    Ok((Member::Method(function_of(head, body)), rest))
}

/// A method that begins with `mutating`.
#[tactic(auto, unfolding(sx_grammar::specs::Grammar::run, sx_grammar::specs::Grammar::run_with))]
fn mutating_method(
    alloc: Global,
    lexemes: &[Lexeme],
    levels: u32,
) -> Result<(Member, &[Lexeme]), Stop>
    ensures { Gives (λ x. a_member x.0) (λ x. x.1.now) result (run body levels mutating_method lexemes.now) }
{
    let (head, rest) = mutating_head(alloc, lexemes, levels)?;
    let (body, rest) = block(alloc, rest, levels)?;
    Ok((Member::Method(function_of(head, body)), rest))
}

#[tactic(auto, unfolding(sx_grammar::specs::Grammar::run, sx_grammar::specs::Grammar::run_with, sx_grammar::specs::Rules::subscript_member))]
fn subscript_member(
    alloc: Global,
    lexemes: &[Lexeme],
    levels: u32,
) -> Result<(Member, &[Lexeme]), Stop>
    ensures { Gives (λ x. a_member x.0) (λ x. x.1.now) result (run body levels subscript_member lexemes.now) }
{
    let (head, rest) = subscript_head(alloc, lexemes, levels)?;
    let (list, rest) = accessed(alloc, rest, &[Sort::OpenBrace, Sort::OpenObservers], levels)?;
    let subscript = Subscript {
        span: Span {
            start: head.span.start,
            end: list.span.end,
        },
        parameters: head.parameters,
        result: head.result,
        accessors: list.accessors,
    };
    Ok((Member::Subscript(subscript), rest))
}

/// A method that begins with `func`, or a subscript.
#[tactic(auto, unfolding(sx_grammar::specs::Grammar::run, sx_grammar::specs::Grammar::run_with, sx_grammar::specs::Rules::method, sx_grammar::specs::Rules::function_head))]
fn method_or_subscript(
    alloc: Global,
    lexemes: &[Lexeme],
    levels: u32,
) -> Result<(Member, &[Lexeme]), Stop>
    ensures { Gives (λ x. a_member x.0) (λ x. x.1.now) result (run body levels method_or_subscript lexemes.now) }
{
    if starts_with(lexemes, &[Sort::Func]) {
        method(alloc, lexemes, levels)
    } else {
        subscript_member(alloc, lexemes, levels)
    }
}

/// A member of a class.
#[tactic(auto, unfolding(sx_grammar::specs::Grammar::run, sx_grammar::specs::Grammar::run_with, sx_grammar::specs::Rules::property, sx_grammar::specs::Rules::variable_head))]
fn class_member(alloc: Global, lexemes: &[Lexeme], levels: u32) -> Result<(Member, &[Lexeme]), Stop>
    ensures { Gives (λ x. a_member x.0) (λ x. x.1.now) result (run body levels class_member lexemes.now) }
{
    if starts_with(lexemes, &[Sort::Var]) {
        let (variable, rest) = property(alloc, lexemes, levels)?;
        return Ok((Member::Property(variable), rest));
    }
    method_or_subscript(alloc, lexemes, levels)
}

/// A member of a structure.
#[tactic(auto, unfolding(sx_grammar::specs::Grammar::run, sx_grammar::specs::Grammar::run_with, sx_grammar::specs::Rules::property, sx_grammar::specs::Rules::variable_head, sx_grammar::specs::Rules::mutating_head))]
fn structure_member(
    alloc: Global,
    lexemes: &[Lexeme],
    levels: u32,
) -> Result<(Member, &[Lexeme]), Stop>
    ensures { Gives (λ x. a_member x.0) (λ x. x.1.now) result (run body levels structure_member lexemes.now) }
{
    if starts_with(lexemes, &[Sort::Var]) {
        let (variable, rest) = property(alloc, lexemes, levels)?;
        return Ok((Member::Property(variable), rest));
    }
    if starts_with(lexemes, &[Sort::Mutating]) {
        return mutating_method(alloc, lexemes, levels);
    }
    method_or_subscript(alloc, lexemes, levels)
}

/// A member of a structure, with what stands between it and the next one.
#[tactic(auto, unfolding(sx_grammar::specs::Grammar::run, sx_grammar::specs::Grammar::run_with))]
fn structure_row(
    alloc: Global,
    lexemes: &[Lexeme],
    levels: u32,
) -> Result<(Member, &[Lexeme]), Stop>
    ensures { Gives (λ x. a_member x.0) (λ x. x.1.now) result (run body levels (row_item structure_member) lexemes.now) }
{
    let (member, rest) = structure_member(alloc, lexemes, levels)?;
    let (_, rest) = separator(rest, levels)?;
    Ok((member, rest))
}

/// A member of a class, with what stands between it and the next one.
#[tactic(auto, unfolding(sx_grammar::specs::Grammar::run, sx_grammar::specs::Grammar::run_with))]
fn class_row(alloc: Global, lexemes: &[Lexeme], levels: u32) -> Result<(Member, &[Lexeme]), Stop>
    ensures { Gives (λ x. a_member x.0) (λ x. x.1.now) result (run body levels (row_item class_member) lexemes.now) }
{
    let (member, rest) = class_member(alloc, lexemes, levels)?;
    let (_, rest) = separator(rest, levels)?;
    Ok((member, rest))
}

/// The members of a structure.
fn structure_rows(
    alloc: Global,
    lexemes: &[Lexeme],
    levels: u32,
) -> Result<(Items<Member>, &[Lexeme]), Stop>
    ensures { Gives (λ x. members x.0) (λ x. x.1.now) result (run body levels (member_rows structure_member) lexemes.now) }
{
    let mut members = Items::new(alloc);
    let mut rest = lexemes;
    'turns: while starts_with(
        rest,
        &[Sort::Var, Sort::Mutating, Sort::Func, Sort::Subscript],
    ) {
        let (member, after) = structure_row(alloc, rest, levels)?;
        members.push(member)?;
        rest = after;
    }
    Ok((members, rest))
}

/// The members of a class.
fn class_rows(
    alloc: Global,
    lexemes: &[Lexeme],
    levels: u32,
) -> Result<(Items<Member>, &[Lexeme]), Stop>
    ensures { Gives (λ x. members x.0) (λ x. x.1.now) result (run body levels (member_rows class_member) lexemes.now) }
{
    let mut members = Items::new(alloc);
    let mut rest = lexemes;
    'turns: while starts_with(rest, &[Sort::Var, Sort::Func, Sort::Subscript]) {
        let (member, after) = class_row(alloc, rest, levels)?;
        members.push(member)?;
        rest = after;
    }
    Ok((members, rest))
}

/// The members of a structure behind its `{`, and the `}`.
#[tactic(auto, unfolding(sx_grammar::specs::Grammar::run, sx_grammar::specs::Grammar::run_with, sx_grammar::specs::Rules::structure_members))]
pub fn structure_members(
    alloc: Global,
    lexemes: &[Lexeme],
    levels: u32,
) -> Result<(Items<Member>, Lexeme, &[Lexeme]), Stop>
    ensures { Gives (λ x. pair (members x.0) (leaf x.1)) (λ x. x.2.now) result (run body levels structure_members lexemes.now) }
{
    let (members, rest) = structure_rows(alloc, lexemes, levels)?;
    let (close, rest) = one_of(rest, &[Sort::CloseBrace], levels)?;
    Ok((members, close, rest))
}

/// The members of a class behind its `{`, and the `}`.
#[tactic(auto, unfolding(sx_grammar::specs::Grammar::run, sx_grammar::specs::Grammar::run_with, sx_grammar::specs::Rules::class_members))]
pub fn class_members(
    alloc: Global,
    lexemes: &[Lexeme],
    levels: u32,
) -> Result<(Items<Member>, Lexeme, &[Lexeme]), Stop>
    ensures { Gives (λ x. pair (members x.0) (leaf x.1)) (λ x. x.2.now) result (run body levels class_members lexemes.now) }
{
    let (members, rest) = class_rows(alloc, lexemes, levels)?;
    let (close, rest) = one_of(rest, &[Sort::CloseBrace], levels)?;
    Ok((members, close, rest))
}
