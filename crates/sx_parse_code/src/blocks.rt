// Blocks, and the rows of statements in them.

ghost use Rattle.std.specs.Prelude.{◌≡◌, ◌<◌, [], ◌∷◌};
ghost use Rattle.sx_grammar.specs.Classes.{any, here};
ghost use Rattle.sx_grammar.specs.Grammar.{first, run, stands, starts};
ghost use Rattle.sx_grammar.specs.Rules.{block, block_item, block_items, block_items_rule, block_list, body, row_ends, row_item, separator};
ghost use Rattle.sx_grammar.specs.Value.{a_block, a_statement, leaf, pair, statements};
ghost use Rattle.sx_parse_code.specs.Views.{leaf_or_nothing};
ghost use Rattle.sx_parse_decl.specs.Reading.{Gives};
ghost use Rattle.sx_parse_expr.specs.Levels.{IsReader};

use crate::statements::{local, statement};
use sqlite_items::Items;
use std::alloc::Global;
use sx_grammar::{Lexeme, Sort};
use sx_parse_decl::{Stop, misfit, one_of, opened, starts_below, starts_here, starts_with};
use sx_parse_expr::{Inside, Level, Taken, read_level};
use sx_span::Span;
use sx_tree::{Block, Statement};

/// What a block holds, and the brace that closes it, where `levels` are left outside it and
/// `fewer` inside.
fn block_inside<'a, F: Fn(Level, &[Lexeme], u32) -> Taken>(
    deeper: &F,
    lexemes: &'a [Lexeme],
    levels: u32,
    fewer: u32,
) -> Result<(Items<Statement>, Lexeme, &'a [Lexeme]), Stop>
    requires reader { IsReader (F.pre deeper.now) (F.post deeper.now) levels }
    requires fewer { fewer < levels }
    ensures { Gives (λ x. pair (statements x.0) (leaf x.1)) (λ x. x.2.now) result (run body fewer (body block_items_rule) lexemes.now) }
{
    let (inside, rest) = read_level(deeper, Level::Block, lexemes, levels, fewer)?;
    match inside {
        Inside::Block(statements, last) => Ok((statements, last, rest)),
        _ => unreachable!(),
    }
}

/// A block, from its `{` to its `}`.
#[tactic(auto, unfolding(sx_grammar::specs::Grammar::run, sx_grammar::specs::Grammar::run_with, sx_grammar::specs::Rules::block))]
pub fn block<'a, F: Fn(Level, &[Lexeme], u32) -> Taken>(
    deeper: &F,
    lexemes: &'a [Lexeme],
    levels: u32,
) -> Result<(Block, &'a [Lexeme]), Stop>
    requires reader { IsReader (F.pre deeper.now) (F.post deeper.now) levels }
    ensures { Gives (λ x. a_block x.0) (λ x. x.1.now) result (run body levels block lexemes.now) }
{
    let (open, rest, fewer) = opened(lexemes, &[Sort::OpenBrace, Sort::OpenObservers], levels)?;
    let (statements, last, rest) = block_inside(deeper, rest, levels, fewer)?;
    let span = Span {
        start: open.token.span.start,
        end: last.token.span.end,
    };
    Ok((Block { span, statements }, rest))
}

/// Whether a row may end here, or another item begin, with no semicolon between.
fn ends_row(lexemes: &[Lexeme]) -> bool
    ensures { result ≡ stands row_ends lexemes.now }
{
    if lexemes.is_empty() {
        return true;
    }
    if starts_here(lexemes, &[Sort::CloseBrace]) {
        return true;
    }
    starts_below(
        lexemes,
        &[
            Sort::CloseBrace,
            Sort::Func,
            Sort::Struct,
            Sort::Class,
            Sort::Let,
            Sort::Var,
            Sort::If,
            Sort::While,
            Sort::Return,
            Sort::Break,
            Sort::Continue,
            Sort::Mutating,
            Sort::Subscript,
            Sort::Int,
            Sort::True,
            Sort::False,
            Sort::SelfWord,
            Sort::Negate,
            Sort::Not,
            Sort::OpenRound,
            Sort::OpenBrace,
            Sort::OpenObservers,
            Sort::Name,
            Sort::Print,
            Sort::Get,
            Sort::Set,
            Sort::WillSet,
            Sort::DidSet,
            Sort::Escaping,
        ],
    )
}

/// What stands between two items in a row: a semicolon, or a line's end, or the end of the row.
#[tactic(auto, unfolding(sx_grammar::specs::Grammar::run, sx_grammar::specs::Grammar::run_with, sx_grammar::specs::Rules::separator))]
pub fn separator(lexemes: &[Lexeme], levels: u32) -> Result<(Option<Lexeme>, &[Lexeme]), Stop>
    ensures { Gives (λ x. leaf_or_nothing x.0) (λ x. x.1.now) result (run body levels separator lexemes.now) }
{
    if starts_with(lexemes, &[Sort::Semicolon]) {
        let (sign, rest) = one_of(lexemes, &[Sort::Semicolon], levels)?;
        return Ok((Some(sign), rest));
    }
    if ends_row(lexemes) {
        Ok((None, lexemes))
    } else {
        Err(misfit(lexemes, levels))
    }
}

/// A statement, or the declaration of a local.
#[tactic(auto, unfolding(sx_grammar::specs::Grammar::run, sx_grammar::specs::Grammar::run_with, sx_grammar::specs::Rules::block_item, sx_grammar::specs::Rules::local, sx_grammar::specs::Rules::variable_head))]
fn block_item<'a, F: Fn(Level, &[Lexeme], u32) -> Taken>(
    alloc: Global,
    deeper: &F,
    lexemes: &'a [Lexeme],
    levels: u32,
) -> Result<(Statement, &'a [Lexeme]), Stop>
    requires reader { IsReader (F.pre deeper.now) (F.post deeper.now) levels }
    ensures { Gives (λ x. a_statement x.0) (λ x. x.1.now) result (run body levels block_item lexemes.now) }
{
    if starts_with(lexemes, &[Sort::Let, Sort::Var]) {
        local(alloc, deeper, lexemes, levels)
    } else {
        statement(alloc, deeper, lexemes, levels)
    }
}

/// Whether an item of a row begins here.
#[tactic(auto, unfolding(sx_grammar::specs::Rules::block_item, sx_grammar::specs::Rules::local, sx_grammar::specs::Rules::variable_head, sx_grammar::specs::Rules::statement, sx_grammar::specs::Rules::keyword_statement, sx_grammar::specs::Rules::expr_statement, sx_grammar::specs::Rules::expr, sx_grammar::specs::Rules::conjunction, sx_grammar::specs::Rules::compare, sx_grammar::specs::Rules::sum, sx_grammar::specs::Rules::product, sx_grammar::specs::Rules::unary, sx_grammar::specs::Rules::operand, sx_grammar::specs::Rules::closure_at, sx_grammar::specs::Rules::postfix, sx_grammar::specs::Rules::primary))]
fn starts_item(lexemes: &[Lexeme]) -> bool
    ensures { result ≡ starts (first (row_item block_item)) lexemes.now }
{
    starts_with(
        lexemes,
        &[
            Sort::Let,
            Sort::Var,
            Sort::If,
            Sort::While,
            Sort::Return,
            Sort::Break,
            Sort::Continue,
            Sort::Negate,
            Sort::Not,
            Sort::OpenBrace,
            Sort::OpenObservers,
            Sort::Int,
            Sort::True,
            Sort::False,
            Sort::SelfWord,
            Sort::Name,
            Sort::Get,
            Sort::Set,
            Sort::WillSet,
            Sort::DidSet,
            Sort::Escaping,
            Sort::Print,
            Sort::OpenRound,
        ],
    )
}

/// Locals and statements in a row.
pub fn block_items<'a, F: Fn(Level, &[Lexeme], u32) -> Taken>(
    alloc: Global,
    deeper: &F,
    lexemes: &'a [Lexeme],
    levels: u32,
) -> Result<(Items<Statement>, &'a [Lexeme]), Stop>
    requires reader { IsReader (F.pre deeper.now) (F.post deeper.now) levels }
    ensures { Gives (λ x. statements x.0) (λ x. x.1.now) result (run body levels block_items lexemes.now) }
{
    let mut items = Vec::new(alloc);
    let mut rest = lexemes;
    'turns: while starts_item(rest) {
        let (item, after) = block_item(alloc, deeper, rest, levels)?;
        items.push(item)?;
        let (_, next) = separator(after, levels)?;
        rest = next;
    }
    Ok((Items::from_vec(items), rest))
}

/// Locals and statements in a row, and the brace that closes them.
#[tactic(auto, unfolding(sx_grammar::specs::Grammar::run, sx_grammar::specs::Grammar::run_with, sx_grammar::specs::Rules::block_list))]
pub fn block_list<'a, F: Fn(Level, &[Lexeme], u32) -> Taken>(
    alloc: Global,
    deeper: &F,
    lexemes: &'a [Lexeme],
    levels: u32,
) -> Result<(Items<Statement>, Lexeme, &'a [Lexeme]), Stop>
    requires reader { IsReader (F.pre deeper.now) (F.post deeper.now) levels }
    ensures { Gives (λ x. pair (statements x.0) (leaf x.1)) (λ x. x.2.now) result (run body levels block_list lexemes.now) }
{
    let (items, rest) = block_items(alloc, deeper, lexemes, levels)?;
    let (last, rest) = one_of(rest, &[Sort::CloseBrace], levels)?;
    Ok((items, last, rest))
}
