// Accessors and observers.

ghost use Rattle.std.specs.Prelude.{◌≡◌, [], ◌∷◌, IfOk};
ghost use Rattle.sx_grammar.specs.Classes.{any};
ghost use Rattle.sx_grammar.specs.Grammar.{begin, both, either, giving, run};
ghost use Rattle.sx_grammar.specs.Rules.{accessed, accessor_kind_of, accessor_list, accessor_name, accessor_name_in_brackets, accessor_with, accessors_of, block_items, body, get_part, no_accessor, observed, observer_list, one_or_two, optional};
ghost use Rattle.sx_grammar.specs.Value.{accessors, an_accessor, leaf, pair, statements};
ghost use Rattle.sx_grammar.specs.declared.lexemes.Sort.TheVariants as sorts;
ghost use Rattle.sx_parse_code.specs.Views.{leaf_or_nothing};
ghost use Rattle.sx_parse_decl.specs.Reading.{Gives};
ghost use Rattle.sx_parse_items.specs.Views.{braces_value, list_or_nothing, list_value};

use crate::ends::stands;
use sqlite_items::Items;
use std::alloc::{AllocError, Global};
use sx_grammar::{Lexeme, Sort};
use sx_parse_code::{block, block_items};
use sx_parse_decl::{Stop, misfit, name, name_of, one_of, opened, starts_with};
use sx_span::Span;
use sx_tree::{Accessor, AccessorKind, Block, Statement};

/// The accessors or observers of a variable or subscript, and the bytes of their braces.
#[derive(Drop)]
pub struct AccessorList {
    pub span: Span,
    pub accessors: Items<Accessor>,
}

/// What stands in the braces of accessors.
#[derive(Drop)]
pub enum AccessorBraces {
    Written(Items<Accessor>),
    /// The statements of a getter, without its word.
    Getter(Items<Statement>),
}

#[tactic(auto, unfolding(sx_grammar::specs::Grammar::run, sx_grammar::specs::Grammar::run_with, sx_grammar::specs::Rules::accessor_name_in_brackets))]
fn name_in_brackets(lexemes: &[Lexeme], levels: u32) -> Result<(Lexeme, Lexeme, &[Lexeme]), Stop>
    ensures { Gives (λ x. pair (leaf x.0) (leaf x.1)) (λ x. x.2.now) result (run body levels accessor_name_in_brackets lexemes.now) }
{
    let (name, rest) = name(lexemes, levels)?;
    let (close, rest) = one_of(rest, &[Sort::CloseRound], levels)?;
    Ok((name, close, rest))
}

/// The written name of an accessor's parameter, where one stands here.
#[tactic(auto, unfolding(sx_grammar::specs::Grammar::run, sx_grammar::specs::Grammar::run_with, sx_grammar::specs::Rules::accessor_name, sx_grammar::specs::Rules::body))]
fn accessor_name(lexemes: &[Lexeme], levels: u32) -> Result<(Option<Lexeme>, &[Lexeme]), Stop>
    ensures { Gives (λ x. leaf_or_nothing x.0) (λ x. x.1.now) result (run body levels accessor_name lexemes.now) }
{
    if !starts_with(lexemes, &[Sort::OpenRound, Sort::OpenText]) {
        return Ok((None, lexemes));
    }
    let (_, inside, fewer) = opened(lexemes, &[Sort::OpenRound, Sort::OpenText], levels)?;
    let (name, _, rest) = name_in_brackets(inside, fewer)?;
    Ok((Some(name), rest))
}

fn accessor_kind(sort: Sort) -> AccessorKind
    ensures { result ≡ accessor_kind_of sort }
{
    match sort {
        Sort::WillSet => AccessorKind::WillSet,
        Sort::DidSet => AccessorKind::DidSet,
        _ => AccessorKind::Set,
    }
}

/// A getter that begins with its word.
#[tactic(auto, unfolding(sx_grammar::specs::Grammar::run, sx_grammar::specs::Grammar::run_with, sx_grammar::specs::Rules::get_part))]
fn getter(alloc: Global, lexemes: &[Lexeme], levels: u32) -> Result<(Accessor, &[Lexeme]), Stop>
    ensures { Gives (λ x. an_accessor x.0) (λ x. x.1.now) result (run body levels get_part lexemes.now) }
{
    let (word, rest) = one_of(lexemes, &[Sort::Get], levels)?;
    let (body, rest) = block(alloc, rest, levels)?;
    let accessor = Accessor {
        span: Span {
            start: word.token.span.start,
            end: body.span.end,
        },
        kind: AccessorKind::Get,
        parameter: None,
        body,
    };
    Ok((accessor, rest))
}

/// An accessor or observer that begins with this word and may have a written parameter.
#[tactic(auto, unfolding(sx_grammar::specs::Grammar::run, sx_grammar::specs::Grammar::run_with, sx_grammar::specs::Rules::accessor_with))]
fn accessor_with(
    alloc: Global,
    word: Sort,
    lexemes: &[Lexeme],
    levels: u32,
) -> Result<(Accessor, &[Lexeme]), Stop>
    ensures { Gives (λ x. an_accessor x.0) (λ x. x.1.now) result (run body levels (accessor_with word) lexemes.now) }
{
    let (lexeme, rest) = one_of(lexemes, &[word], levels)?;
    let (parameter, rest) = accessor_name(rest, levels)?;
    let (body, rest) = block(alloc, rest, levels)?;
    let accessor = Accessor {
        span: Span {
            start: lexeme.token.span.start,
            end: body.span.end,
        },
        kind: accessor_kind(lexeme.sort),
        parameter: match parameter {
            None => None,
            Some(name) => Some(name_of(&name)),
        },
        body,
    };
    Ok((accessor, rest))
}

fn one_accessor(alloc: Global, accessor: Accessor) -> Result<Items<Accessor>, AllocError>
    ensures { IfOk result (λ xs. xs ≡ accessor ∷ []) }
{
    let mut accessors = Items::new(alloc);
    accessors.push(accessor)?;
    Ok(accessors)
}

fn two_accessors(
    alloc: Global,
    first: Accessor,
    second: Accessor,
) -> Result<Items<Accessor>, AllocError>
    ensures { IfOk result (λ xs. xs ≡ first ∷ second ∷ []) }
{
    let mut accessors = one_accessor(alloc, first)?;
    accessors.push(second)?;
    Ok(accessors)
}

/// A getter, and a setter or none.
#[tactic(auto, unfolding(sx_grammar::specs::Grammar::run, sx_grammar::specs::Grammar::run_with, sx_grammar::specs::Rules::accessor_with))]
fn getter_first(
    alloc: Global,
    lexemes: &[Lexeme],
    levels: u32,
) -> Result<(Items<Accessor>, &[Lexeme]), Stop>
    ensures { Gives (λ x. accessors x.0) (λ x. x.1.now) result (run body levels (giving one_or_two (both get_part (optional (accessor_with sorts.Set)))) lexemes.now) }
{
    let (getter, rest) = getter(alloc, lexemes, levels)?;
    if !starts_with(rest, &[Sort::Set]) {
        return Ok((one_accessor(alloc, getter)?, rest));
    }
    let (setter, rest) = accessor_with(alloc, Sort::Set, rest, levels)?;
    Ok((two_accessors(alloc, getter, setter)?, rest))
}

/// A setter and a getter.
#[tactic(auto, unfolding(sx_grammar::specs::Grammar::run, sx_grammar::specs::Grammar::run_with))]
fn setter_first(
    alloc: Global,
    lexemes: &[Lexeme],
    levels: u32,
) -> Result<(Items<Accessor>, &[Lexeme]), Stop>
    ensures { Gives (λ x. accessors x.0) (λ x. x.1.now) result (run body levels (giving one_or_two (both (accessor_with sorts.Set) get_part)) lexemes.now) }
{
    let (setter, rest) = accessor_with(alloc, Sort::Set, lexemes, levels)?;
    let (getter, rest) = getter(alloc, rest, levels)?;
    Ok((two_accessors(alloc, setter, getter)?, rest))
}

/// The statements of a getter without its word, none of which begins with `get` or `set`.
#[tactic(auto, unfolding(sx_grammar::specs::Grammar::run, sx_grammar::specs::Grammar::run_with))]
fn bare_getter(
    alloc: Global,
    lexemes: &[Lexeme],
    levels: u32,
) -> Result<(Items<Statement>, &[Lexeme]), Stop>
    ensures { Gives (λ x. statements x.0) (λ x. x.1.now) result (run body levels (begin (any no_accessor) block_items) lexemes.now) }
{
    if stands(
        lexemes,
        &[
            Sort::CloseBrace,
            Sort::Let,
            Sort::Var,
            Sort::If,
            Sort::While,
            Sort::Return,
            Sort::Break,
            Sort::Continue,
            Sort::Int,
            Sort::True,
            Sort::False,
            Sort::SelfWord,
            Sort::Negate,
            Sort::Not,
            Sort::OpenRound,
            Sort::OpenBrace,
            Sort::OpenObservers,
            Sort::Name,
            Sort::Print,
            Sort::WillSet,
            Sort::DidSet,
            Sort::Escaping,
        ],
    ) {
        block_items(alloc, lexemes, levels)
    } else {
        Err(misfit(lexemes, levels))
    }
}

/// What stands behind the `{` of accessors, and the `}`.
#[tactic(auto, unfolding(sx_grammar::specs::Grammar::run, sx_grammar::specs::Grammar::run_with, sx_grammar::specs::Rules::accessor_list, sx_grammar::specs::Rules::get_part, sx_grammar::specs::Rules::accessor_with))]
fn accessor_list(
    alloc: Global,
    lexemes: &[Lexeme],
    levels: u32,
) -> Result<(AccessorBraces, Lexeme, &[Lexeme]), Stop>
    ensures { Gives (λ x. pair (braces_value x.0) (leaf x.1)) (λ x. x.2.now) result (run body levels accessor_list lexemes.now) }
{
    if starts_with(lexemes, &[Sort::Get]) {
        let (accessors, rest) = getter_first(alloc, lexemes, levels)?;
        let (close, rest) = one_of(rest, &[Sort::CloseBrace], levels)?;
        return Ok((AccessorBraces::Written(accessors), close, rest));
    }
    if starts_with(lexemes, &[Sort::Set]) {
        let (accessors, rest) = setter_first(alloc, lexemes, levels)?;
        let (close, rest) = one_of(rest, &[Sort::CloseBrace], levels)?;
        return Ok((AccessorBraces::Written(accessors), close, rest));
    }
    let (statements, rest) = bare_getter(alloc, lexemes, levels)?;
    let (close, rest) = one_of(rest, &[Sort::CloseBrace], levels)?;
    Ok((AccessorBraces::Getter(statements), close, rest))
}

/// An observer that begins with the first word, and one with the second or none.
#[tactic(auto, unfolding(sx_grammar::specs::Grammar::run, sx_grammar::specs::Grammar::run_with, sx_grammar::specs::Rules::accessor_with))]
fn observers(
    alloc: Global,
    first: Sort,
    second: Sort,
    lexemes: &[Lexeme],
    levels: u32,
) -> Result<(Items<Accessor>, &[Lexeme]), Stop>
    ensures { Gives (λ x. accessors x.0) (λ x. x.1.now) result (run body levels (giving one_or_two (both (accessor_with first) (optional (accessor_with second)))) lexemes.now) }
{
    let (one, rest) = accessor_with(alloc, first, lexemes, levels)?;
    if !starts_with(rest, &[second]) {
        return Ok((one_accessor(alloc, one)?, rest));
    }
    let (other, rest) = accessor_with(alloc, second, rest, levels)?;
    Ok((two_accessors(alloc, one, other)?, rest))
}

/// The observers behind a `{`, and the `}`.
#[tactic(auto, unfolding(sx_grammar::specs::Grammar::run, sx_grammar::specs::Grammar::run_with, sx_grammar::specs::Rules::observer_list, sx_grammar::specs::Rules::accessor_with))]
fn observer_list(
    alloc: Global,
    lexemes: &[Lexeme],
    levels: u32,
) -> Result<(Items<Accessor>, Lexeme, &[Lexeme]), Stop>
    ensures { Gives (λ x. pair (accessors x.0) (leaf x.1)) (λ x. x.2.now) result (run body levels observer_list lexemes.now) }
{
    if starts_with(lexemes, &[Sort::WillSet]) {
        let (accessors, rest) = observers(alloc, Sort::WillSet, Sort::DidSet, lexemes, levels)?;
        let (close, rest) = one_of(rest, &[Sort::CloseBrace], levels)?;
        return Ok((accessors, close, rest));
    }
    let (accessors, rest) = observers(alloc, Sort::DidSet, Sort::WillSet, lexemes, levels)?;
    let (close, rest) = one_of(rest, &[Sort::CloseBrace], levels)?;
    Ok((accessors, close, rest))
}

/// Observers in their braces.
#[tactic(auto, unfolding(sx_grammar::specs::Grammar::run, sx_grammar::specs::Grammar::run_with, sx_grammar::specs::Rules::observed, sx_grammar::specs::Rules::body))]
pub fn observed(
    alloc: Global,
    lexemes: &[Lexeme],
    levels: u32,
) -> Result<(AccessorList, &[Lexeme]), Stop>
    ensures { Gives (λ x. list_value x.0) (λ x. x.1.now) result (run body levels observed lexemes.now) }
{
    let (open, inside, fewer) = opened(lexemes, &[Sort::OpenObservers], levels)?;
    let (accessors, close, rest) = observer_list(alloc, inside, fewer)?;
    let span = Span {
        start: open.token.span.start,
        end: close.token.span.end,
    };
    Ok((AccessorList { span, accessors }, rest))
}

/// Observers in their braces, where they stand here.
#[tactic(auto, unfolding(sx_grammar::specs::Grammar::run, sx_grammar::specs::Grammar::run_with, sx_grammar::specs::Rules::observed))]
pub fn optional_observers(
    alloc: Global,
    lexemes: &[Lexeme],
    levels: u32,
) -> Result<(Option<AccessorList>, &[Lexeme]), Stop>
    ensures { Gives (λ x. list_or_nothing x.0) (λ x. x.1.now) result (run body levels (optional observed) lexemes.now) }
{
    if !starts_with(lexemes, &[Sort::OpenObservers]) {
        return Ok((None, lexemes));
    }
    let (observers, rest) = observed(alloc, lexemes, levels)?;
    Ok((Some(observers), rest))
}

/// The accessors that braces with these bytes hold: what is written, or a getter without its word.
fn accessors_of(
    alloc: Global,
    span: Span,
    inside: AccessorBraces,
) -> Result<AccessorList, AllocError>
    ensures { IfOk result (λ l. list_value l ≡ accessors_of span (braces_value inside)) }
{
    match inside {
        AccessorBraces::Written(accessors) => Ok(AccessorList { span, accessors }),
        AccessorBraces::Getter(statements) => {
            let getter = Accessor {
                span,
                kind: AccessorKind::Get,
                parameter: None,
                body: Block { span, statements },
            };
            let accessors = one_accessor(alloc, getter)?;
            Ok(AccessorList { span, accessors })
        }
    }
}

/// Accessors in their braces, the first of which is of one of these sorts.
#[tactic(auto, unfolding(sx_grammar::specs::Grammar::run, sx_grammar::specs::Grammar::run_with, sx_grammar::specs::Rules::accessed, sx_grammar::specs::Rules::body))]
pub fn accessed<'a>(
    alloc: Global,
    lexemes: &'a [Lexeme],
    sorts: &[Sort],
    levels: u32,
) -> Result<(AccessorList, &'a [Lexeme]), Stop>
    ensures { Gives (λ x. list_value x.0) (λ x. x.1.now) result (run body levels (accessed sorts.now) lexemes.now) }
{
    let (open, inside, fewer) = opened(lexemes, sorts, levels)?;
    let (list, close, rest) = accessor_list(alloc, inside, fewer)?;
    let span = Span {
        start: open.token.span.start,
        end: close.token.span.end,
    };
    Ok((accessors_of(alloc, span, list)?, rest))
}
