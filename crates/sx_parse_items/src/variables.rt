// Properties and globals.

ghost use Rattle.std.specs.Prelude.{◌≡◌, [], ◌∷◌, cond};
ghost use Rattle.sx_grammar.specs.Classes.{any};
ghost use Rattle.sx_grammar.specs.Grammar.{both, either, giving, run, select, token};
ghost use Rattle.sx_grammar.specs.Rules.{accessed, body, expr, first_of, global, global_value, has_type, initialised, initialised_item, observed, optional, plain_separator, property, separator, value_end, variable_head, variable_of, variable_with};
ghost use Rattle.sx_grammar.specs.Value.{a_head, a_member, an_expr, an_item, nothing, pair};
ghost use Rattle.sx_grammar.specs.declared.lexemes.Mode.TheVariants as modes;
ghost use Rattle.sx_grammar.specs.declared.lexemes.Sort.TheVariants as sorts;
ghost use Rattle.sx_parse_decl.specs.Reading.{Gives};
ghost use Rattle.sx_parse_items.specs.Views.{list_or_nothing, list_value, tail_value};
ghost use Rattle.sx_tree.specs.declared.declarations.Head.TheVariants as heads;
ghost use Rattle.sx_tree.specs.declared.declarations.Item.TheVariants as item_forms;
ghost use Rattle.sx_tree.specs.declared.declarations.Member.TheVariants as member_forms;

use crate::accessors::{AccessorList, accessed, observed, optional_observers};
use crate::ends::plain_separator;
use sqlite_items::Items;
use std::alloc::Global;
use sx_grammar::{Lexeme, Mode, Sort};
use sx_parse_code::{expr, separator};
use sx_parse_decl::{Stop, one_of, starts_with, variable_head};
use sx_span::Span;
use sx_tree::{Accessor, Expr, Variable, VariableHead};

/// What follows the head of a variable.
#[derive(Drop)]
pub enum VariableTail {
    Absent,
    Accessors(AccessorList),
    /// The `=`, the value, and the observers.
    Value(Lexeme, Expr, Option<AccessorList>),
}

/// Whether a type is written in the head.
fn has_type(head: &VariableHead) -> bool
    ensures { result ≡ has_type (a_head (heads.Variable head.now)) }
{
    match head.ty {
        None => false,
        Some(_) => true,
    }
}

fn initialised_variable(
    alloc: Global,
    head: VariableHead,
    value: Expr,
    observers: Option<AccessorList>,
) -> Variable
    ensures { result ≡ variable_with head (pair nothing (pair (an_expr value) (list_or_nothing observers))) }
{
    match observers {
        None => {
            let last = value.span;
            variable_of(head, last, Some(value), Items::new(alloc))
        }
        Some(list) => variable_of(head, list.span, Some(value), list.accessors),
    }
}

/// The variable that a head and what follows it declare.
fn variable(alloc: Global, head: VariableHead, tail: VariableTail) -> Variable
    ensures { result ≡ variable_with head (tail_value tail) }
{
    match tail {
        VariableTail::Absent => {
            let last = head.span;
            variable_of(head, last, None, Items::new(alloc))
        }
        VariableTail::Accessors(list) => variable_of(head, list.span, None, list.accessors),
        VariableTail::Value(_, value, observers) => initialised_variable(
            alloc, head, value, observers,
        ),
    }
}

fn variable_of(
    head: VariableHead,
    last: Span,
    value: Option<Expr>,
    accessors: Items<Accessor>,
) -> Variable
    ensures { result ≡ variable_of head last value accessors }
{
    Variable {
        span: Span {
            start: head.span.start,
            end: last.end,
        },
        constant: head.constant,
        name: head.name,
        ty: head.ty,
        value,
        accessors,
    }
}

/// A value behind its `=`, and observers or none.
#[tactic(auto, unfolding(sx_grammar::specs::Grammar::run, sx_grammar::specs::Grammar::run_with, sx_grammar::specs::Rules::initialised))]
fn initialised(
    alloc: Global,
    lexemes: &[Lexeme],
    levels: u32,
) -> Result<(VariableTail, &[Lexeme]), Stop>
    ensures { Gives (λ x. tail_value x.0) (λ x. x.1.now) result (run body levels initialised lexemes.now) }
{
    let (sign, rest) = one_of(lexemes, &[Sort::Assign], levels)?;
    let (value, rest) = expr(alloc, Mode::Initial, rest, levels)?;
    let (observers, rest) = optional_observers(alloc, rest, levels)?;
    Ok((VariableTail::Value(sign, value, observers), rest))
}

/// What follows the head of a property with a written type.
#[tactic(auto, unfolding(sx_grammar::specs::Grammar::run, sx_grammar::specs::Grammar::run_with, sx_grammar::specs::Rules::initialised, sx_grammar::specs::Rules::accessed))]
fn typed_property(
    alloc: Global,
    lexemes: &[Lexeme],
    levels: u32,
) -> Result<(VariableTail, &[Lexeme]), Stop>
    ensures { Gives (λ x. tail_value x.0) (λ x. x.1.now) result (run body levels (either initialised (either (accessed (sorts.OpenBrace ∷ [])) (optional observed))) lexemes.now) }
{
    if starts_with(lexemes, &[Sort::Assign]) {
        return initialised(alloc, lexemes, levels);
    }
    if starts_with(lexemes, &[Sort::OpenBrace]) {
        let (list, rest) = accessed(alloc, lexemes, &[Sort::OpenBrace], levels)?;
        return Ok((VariableTail::Accessors(list), rest));
    }
    let (observers, rest) = optional_observers(alloc, lexemes, levels)?;
    match observers {
        None => Ok((VariableTail::Absent, rest)),
        Some(list) => Ok((VariableTail::Accessors(list), rest)),
    }
}

/// What follows the head of a property, which has a written type or a value.
fn property_tail(
    alloc: Global,
    typed: bool,
    lexemes: &[Lexeme],
    levels: u32,
) -> Result<(VariableTail, &[Lexeme]), Stop>
    ensures { Gives (λ x. tail_value x.0) (λ x. x.1.now) result (cond typed (run body levels (either initialised (either (accessed (sorts.OpenBrace ∷ [])) (optional observed))) lexemes.now) (run body levels initialised lexemes.now)) }
{
    if typed {
        typed_property(alloc, lexemes, levels)
    } else {
        initialised(alloc, lexemes, levels)
    }
}

/// A property.
#[tactic(auto, unfolding(sx_grammar::specs::Grammar::run, sx_grammar::specs::Grammar::run_with, sx_grammar::specs::Rules::property))]
pub fn property(
    alloc: Global,
    lexemes: &[Lexeme],
    levels: u32,
) -> Result<(Variable, &[Lexeme]), Stop>
    ensures { Gives (λ x. a_member (member_forms.Property x.0)) (λ x. x.1.now) result (run body levels property lexemes.now) }
{
    let (head, rest) = variable_head(alloc, lexemes, &[Sort::Var], levels)?;
    let typed = has_type(&head);
    let (tail, rest) = property_tail(alloc, typed, rest, levels)?;
    Ok((variable(alloc, head, tail), rest))
}

/// What stands behind the value of a global: observers or none, and the end of the item.
#[tactic(auto, unfolding(sx_grammar::specs::Grammar::run, sx_grammar::specs::Grammar::run_with, sx_grammar::specs::Rules::value_end, sx_grammar::specs::Rules::observed))]
fn value_end(
    alloc: Global,
    lexemes: &[Lexeme],
    levels: u32,
) -> Result<(Option<AccessorList>, &[Lexeme]), Stop>
    ensures { Gives (λ x. list_or_nothing x.0) (λ x. x.1.now) result (run body levels value_end lexemes.now) }
{
    if !starts_with(lexemes, &[Sort::OpenObservers]) {
        let (_, rest) = plain_separator(lexemes, levels)?;
        return Ok((None, rest));
    }
    let (observers, rest) = observed(alloc, lexemes, levels)?;
    let (_, rest) = separator(rest, levels)?;
    Ok((Some(observers), rest))
}

/// A value behind its `=`, observers or none, and the end of the item.
#[tactic(auto, unfolding(sx_grammar::specs::Grammar::run, sx_grammar::specs::Grammar::run_with, sx_grammar::specs::Rules::initialised_item))]
fn initialised_item(
    alloc: Global,
    lexemes: &[Lexeme],
    levels: u32,
) -> Result<(VariableTail, &[Lexeme]), Stop>
    ensures { Gives (λ x. tail_value x.0) (λ x. x.1.now) result (run body levels initialised_item lexemes.now) }
{
    let (sign, rest) = one_of(lexemes, &[Sort::Assign], levels)?;
    let (value, rest) = expr(alloc, Mode::Initial, rest, levels)?;
    let (observers, rest) = value_end(alloc, rest, levels)?;
    Ok((VariableTail::Value(sign, value, observers), rest))
}

/// What follows the head of a global with a written type.
#[tactic(auto, unfolding(sx_grammar::specs::Grammar::run, sx_grammar::specs::Grammar::run_with, sx_grammar::specs::Rules::initialised_item))]
fn typed_global(
    alloc: Global,
    lexemes: &[Lexeme],
    levels: u32,
) -> Result<(VariableTail, &[Lexeme]), Stop>
    ensures { Gives (λ x. tail_value x.0) (λ x. x.1.now) result (run body levels (either initialised_item (giving first_of (both (accessed (sorts.OpenBrace ∷ [])) separator))) lexemes.now) }
{
    if starts_with(lexemes, &[Sort::Assign]) {
        return initialised_item(alloc, lexemes, levels);
    }
    let (list, rest) = accessed(alloc, lexemes, &[Sort::OpenBrace], levels)?;
    let (_, rest) = separator(rest, levels)?;
    Ok((VariableTail::Accessors(list), rest))
}

/// What follows the head of a global that begins with `var`, which has a written type or a value.
fn global_tail(
    alloc: Global,
    typed: bool,
    lexemes: &[Lexeme],
    levels: u32,
) -> Result<(VariableTail, &[Lexeme]), Stop>
    ensures { Gives (λ x. tail_value x.0) (λ x. x.1.now) result (cond typed (run body levels (either initialised_item (giving first_of (both (accessed (sorts.OpenBrace ∷ [])) separator))) lexemes.now) (run body levels initialised_item lexemes.now)) }
{
    if typed {
        typed_global(alloc, lexemes, levels)
    } else {
        initialised_item(alloc, lexemes, levels)
    }
}

/// What follows the head of a global constant: its value and the end of the item.
#[tactic(auto, unfolding(sx_grammar::specs::Grammar::run, sx_grammar::specs::Grammar::run_with))]
fn constant_tail(
    alloc: Global,
    lexemes: &[Lexeme],
    levels: u32,
) -> Result<(VariableTail, &[Lexeme]), Stop>
    ensures { Gives (λ x. tail_value x.0) (λ x. x.1.now) result (run body levels (both (token (any (sorts.Assign ∷ []))) (both (expr modes.Initial) (giving (λ v. nothing) plain_separator))) lexemes.now) }
{
    let (sign, rest) = one_of(lexemes, &[Sort::Assign], levels)?;
    let (value, rest) = expr(alloc, Mode::Initial, rest, levels)?;
    let (_, rest) = plain_separator(rest, levels)?;
    Ok((VariableTail::Value(sign, value, None), rest))
}

/// A global, with what stands between it and the next item.
#[tactic(auto, unfolding(sx_grammar::specs::Grammar::run, sx_grammar::specs::Grammar::run_with, sx_grammar::specs::Rules::global, sx_grammar::specs::Rules::variable_head))]
pub fn global(alloc: Global, lexemes: &[Lexeme], levels: u32) -> Result<(Variable, &[Lexeme]), Stop>
    ensures { Gives (λ x. an_item (item_forms.Global x.0)) (λ x. x.1.now) result (run body levels global lexemes.now) }
{
    if starts_with(lexemes, &[Sort::Let]) {
        let (head, rest) = variable_head(alloc, lexemes, &[Sort::Let], levels)?;
        let (tail, rest) = constant_tail(alloc, rest, levels)?;
        return Ok((variable(alloc, head, tail), rest));
    }
    let (head, rest) = variable_head(alloc, lexemes, &[Sort::Var], levels)?;
    let typed = has_type(&head);
    let (tail, rest) = global_tail(alloc, typed, rest, levels)?;
    Ok((variable(alloc, head, tail), rest))
}
