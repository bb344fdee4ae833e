// Items, and a program of them.

ghost use Rattle.std.specs.Prelude.{◌≡◌, [], ◌∷◌};
ghost use Rattle.sx_grammar.specs.Grammar.{first, run, starts};
ghost use Rattle.sx_grammar.specs.Rules.{body, class_members_rule, declared_of, function, global, item, program, row_item, separator, structure_members_rule, type_declaration};
ghost use Rattle.sx_grammar.specs.Value.{a_head, an_item, items, leaf, members, nothing, pair};
ghost use Rattle.sx_grammar.specs.declared.lexemes.Sort.TheVariants as sorts;
ghost use Rattle.sx_parse_decl.specs.Reading.{Gives};
ghost use Rattle.sx_parse_items.specs.Parts.{program_item};
ghost use Rattle.sx_parse_items.specs.Views.{Adds};
ghost use Rattle.sx_tree.specs.declared.declarations.Head.TheVariants as heads;

use crate::members::{class_members, function_of, structure_members};
use crate::variables::global;
use sqlite_items::Items;
use std::alloc::Global;
use sx_grammar::{Lexeme, Sort};
use sx_parse_code::{block, separator, statement};
use sx_parse_decl::{Stop, function_head, opened, starts_with, type_head};
use sx_span::Span;
use sx_tree::{Item, Member, TypeDeclaration, TypeHead};

#[tactic(auto, unfolding(sx_grammar::specs::Grammar::run, sx_grammar::specs::Grammar::run_with, sx_grammar::specs::Rules::function))]
fn function(alloc: Global, lexemes: &[Lexeme], levels: u32) -> Result<(Item, &[Lexeme]), Stop>
    ensures { Gives (λ x. an_item x.0) (λ x. x.1.now) result (run body levels function lexemes.now) }
{
    let (head, rest) = function_head(alloc, lexemes, levels)?;
    let (body, rest) = block(alloc, rest, levels)?;
    Ok((Item::Function(function_of(head, body)), rest))
}

/// The type that a head and its members up to a `}` declare.
fn declared(head: TypeHead, list: Items<Member>, close: Lexeme) -> TypeDeclaration
    ensures { result ≡ declared_of (a_head (heads.Type head)) (pair nothing (pair (members list) (leaf close))) }
{
    TypeDeclaration {
        span: Span {
            start: head.span.start,
            end: close.token.span.end,
        },
        kind: head.kind,
        name: head.name,
        members: list,
    }
}

#[tactic(auto, unfolding(sx_grammar::specs::Grammar::run, sx_grammar::specs::Grammar::run_with, sx_grammar::specs::Rules::type_declaration, sx_grammar::specs::Rules::body))]
fn structure(alloc: Global, lexemes: &[Lexeme], levels: u32) -> Result<(Item, &[Lexeme]), Stop>
    ensures { Gives (λ x. an_item x.0) (λ x. x.1.now) result (run body levels (type_declaration sorts.Struct structure_members_rule) lexemes.now) }
{
    let (head, rest) = type_head(lexemes, &[Sort::Struct], levels)?;
    let (_, inside, fewer) = opened(rest, &[Sort::OpenBrace, Sort::OpenObservers], levels)?;
    let (members, close, rest) = structure_members(alloc, inside, fewer)?;
    Ok((Item::Type(declared(head, members, close)), rest))
}

#[tactic(auto, unfolding(sx_grammar::specs::Grammar::run, sx_grammar::specs::Grammar::run_with, sx_grammar::specs::Rules::type_declaration, sx_grammar::specs::Rules::body))]
fn class(alloc: Global, lexemes: &[Lexeme], levels: u32) -> Result<(Item, &[Lexeme]), Stop>
    ensures { Gives (λ x. an_item x.0) (λ x. x.1.now) result (run body levels (type_declaration sorts.Class class_members_rule) lexemes.now) }
{
    let (head, rest) = type_head(lexemes, &[Sort::Class], levels)?;
    let (_, inside, fewer) = opened(rest, &[Sort::OpenBrace, Sort::OpenObservers], levels)?;
    let (members, close, rest) = class_members(alloc, inside, fewer)?;
    Ok((Item::Type(declared(head, members, close)), rest))
}

/// An item that is no global.
#[tactic(auto, unfolding(sx_grammar::specs::Grammar::run, sx_grammar::specs::Grammar::run_with, sx_grammar::specs::Rules::item, sx_grammar::specs::Rules::function, sx_grammar::specs::Rules::function_head, sx_grammar::specs::Rules::type_declaration, sx_grammar::specs::Rules::type_head))]
fn item(alloc: Global, lexemes: &[Lexeme], levels: u32) -> Result<(Item, &[Lexeme]), Stop>
    ensures { Gives (λ x. an_item x.0) (λ x. x.1.now) result (run body levels item lexemes.now) }
{
    if starts_with(lexemes, &[Sort::Func]) {
        return function(alloc, lexemes, levels);
    }
    if starts_with(lexemes, &[Sort::Struct]) {
        return structure(alloc, lexemes, levels);
    }
    if starts_with(lexemes, &[Sort::Class]) {
        return class(alloc, lexemes, levels);
    }
    let (statement, rest) = statement(alloc, lexemes, levels)?;
    Ok((Item::Statement(statement), rest))
}

/// Puts a global, read with what stands between it and the next item, behind the items.
fn push_global<'a>(
    alloc: Global,
    items: &mut Items<Item>,
    lexemes: &'a [Lexeme],
    levels: u32,
) -> Result<&'a [Lexeme], Stop>
    ensures { Adds items.old items.new result (run body levels global lexemes.now) }
{
    let (variable, rest) = global(alloc, lexemes, levels)?;
    items.push(Item::Global(variable))?;
    Ok(rest)
}

/// Puts an item that is no global behind the items, and reads what stands between it and the next.
fn push_item<'a>(
    alloc: Global,
    items: &mut Items<Item>,
    lexemes: &'a [Lexeme],
    levels: u32,
) -> Result<&'a [Lexeme], Stop>
    ensures { Adds items.old items.new result (run body levels (row_item item) lexemes.now) }
{
    let (item, after) = item(alloc, lexemes, levels)?;
    items.push(item)?;
    let (_, rest) = separator(after, levels)?;
    Ok(rest)
}

/// Puts the next item of a program behind the items.
fn push_next<'a>(
    alloc: Global,
    items: &mut Items<Item>,
    lexemes: &'a [Lexeme],
    levels: u32,
) -> Result<&'a [Lexeme], Stop>
    ensures { Adds items.old items.new result (run body levels program_item lexemes.now) }
{
    if starts_with(lexemes, &[Sort::Let, Sort::Var]) {
        push_global(alloc, items, lexemes, levels)
    } else {
        push_item(alloc, items, lexemes, levels)
    }
}

/// Whether an item may begin here.
fn starts_item(lexemes: &[Lexeme]) -> bool
    ensures { result ≡ starts (first program_item) lexemes.now }
{
    starts_with(
        lexemes,
        &[
            Sort::Let,
            Sort::Var,
            Sort::Func,
            Sort::Struct,
            Sort::Class,
            Sort::If,
            Sort::While,
            Sort::Return,
            Sort::Break,
            Sort::Continue,
            Sort::Negate,
            Sort::Not,
            Sort::OpenBrace,
            Sort::OpenObservers,
            Sort::Int,
            Sort::True,
            Sort::False,
            Sort::SelfWord,
            Sort::Name,
            Sort::Get,
            Sort::Set,
            Sort::WillSet,
            Sort::DidSet,
            Sort::Escaping,
            Sort::Print,
            Sort::OpenRound,
        ],
    )
}

/// A program: the items that these lexemes begin with, and what follows them.
pub fn program(
    alloc: Global,
    lexemes: &[Lexeme],
    levels: u32,
) -> Result<(Items<Item>, &[Lexeme]), Stop>
    ensures { Gives (λ x. items x.0) (λ x. x.1.now) result (run body levels program lexemes.now) }
{
    let mut items = Items::new(alloc);
    let mut rest = lexemes;
    'turns: while starts_item(rest) {
        let after = push_next(alloc, &mut items, rest, levels)?;
        rest = after;
    }
    Ok((items, rest))
}
