// Code, with all that it holds.

ghost use Rattle.std.specs.Prelude.{◌≡◌, ◌<◌, IfOk};
ghost use Rattle.sx_grammar.specs.Grammar.{run};
ghost use Rattle.sx_grammar.specs.Rules.{block, block_items, body, expr, statement};
ghost use Rattle.sx_grammar.specs.Value.{a_block, a_statement, an_expr, statements};
ghost use Rattle.sx_parse_decl.specs.Reading.{Gives};
ghost use Rattle.sx_parse_expr.specs.Levels.{IsReader, Takes, inside_value, level_of, rule_of};

use crate::{blocks, literals, signatures, statements};
use sqlite_items::Items;
use std::alloc::Global;
use sx_grammar::{Lexeme, Mode};
use sx_parse_decl::Stop;
use sx_parse_expr::{Inside, Level, Taken, argument_list, bracket, indices};
use sx_tree::{Block, Expr, Statement};

/// What a level holds, where `deeper` reads the levels in it.
#[tactic(auto, unfolding(sx_grammar::specs::Rules::body))]
fn inside_of<'a, F: Fn(Level, &[Lexeme], u32) -> Taken>(
    alloc: Global,
    deeper: &F,
    level: Level,
    lexemes: &'a [Lexeme],
    levels: u32,
) -> Result<(Inside, &'a [Lexeme]), Stop>
    requires reader { IsReader (F.pre deeper.now) (F.post deeper.now) levels }
    ensures run { Gives (λ x. inside_value x.0) (λ x. x.1.now) result (run body levels (body (rule_of level)) lexemes.now) }
    ensures level { IfOk result (λ x. level_of x.0 ≡ level) }
{
    match level {
        Level::Bracket => {
            let (expr, last, rest) = bracket(alloc, deeper, lexemes, levels)?;
            Ok((Inside::Bracket(expr, last), rest))
        }
        Level::Arguments => {
            let (arguments, last, rest) = argument_list(alloc, deeper, lexemes, levels)?;
            Ok((Inside::Arguments(arguments, last), rest))
        }
        Level::Indices => {
            let (exprs, last, rest) = indices(alloc, deeper, lexemes, levels)?;
            Ok((Inside::Indices(exprs, last), rest))
        }
        Level::Literal => {
            let (signature, body, last, rest) = literals::literal(alloc, deeper, lexemes, levels)?;
            Ok((Inside::Literal(signature, body, last), rest))
        }
        Level::Block => {
            let (body, last, rest) = blocks::block_list(alloc, deeper, lexemes, levels)?;
            Ok((Inside::Block(body, last), rest))
        }
        Level::ElseIf => {
            let (condition, body, behind, end, rest) = statements::if_tail(
                alloc, deeper, lexemes, levels,
            )?;
            Ok((Inside::ElseIf(condition, body, behind, end), rest))
        }
        Level::FirstBracket => {
            let (first, last, rest) = signatures::first_bracket(alloc, deeper, lexemes, levels)?;
            Ok((Inside::FirstBracket(first, last), rest))
        }
    }
}

/// What a level holds, and how many lexemes are left behind it. Here the circle closes.
#[cycle(knot)]
fn read_inside(alloc: Global, level: Level, lexemes: &[Lexeme], levels: u32) -> Taken
    ensures { Takes level (run body levels (body (rule_of level)) lexemes.now) lexemes.now result }
{
    let deeper = |level: Level, lexemes: &[Lexeme], fewer: u32| -> Taken
        requires { fewer < levels }
        ensures { Takes level (run body fewer (body (rule_of level)) lexemes.now) lexemes.now result }
    {
        let _limit = levels;
        read_inside(alloc, level, lexemes, fewer)
    };
    match inside_of(alloc, &deeper, level, lexemes, levels) {
        Ok((inside, rest)) => Ok((inside, rest.len())),
        Err(stop) => Err(stop),
    }
}

/// An expression.
pub fn expr(
    alloc: Global,
    mode: Mode,
    lexemes: &[Lexeme],
    levels: u32,
) -> Result<(Expr, &[Lexeme]), Stop>
    ensures { Gives (λ x. an_expr x.0) (λ x. x.1.now) result (run body levels (expr mode) lexemes.now) }
{
    let deeper = |level: Level, lexemes: &[Lexeme], fewer: u32| -> Taken
        requires { fewer < levels }
        ensures { Takes level (run body fewer (body (rule_of level)) lexemes.now) lexemes.now result }
    {
        let _limit = levels;
        read_inside(alloc, level, lexemes, fewer)
    };
    sx_parse_expr::expr(alloc, &deeper, mode, lexemes, levels)
}

/// A statement that is no declaration of a local.
pub fn statement(
    alloc: Global,
    lexemes: &[Lexeme],
    levels: u32,
) -> Result<(Statement, &[Lexeme]), Stop>
    ensures { Gives (λ x. a_statement x.0) (λ x. x.1.now) result (run body levels statement lexemes.now) }
{
    let deeper = |level: Level, lexemes: &[Lexeme], fewer: u32| -> Taken
        requires { fewer < levels }
        ensures { Takes level (run body fewer (body (rule_of level)) lexemes.now) lexemes.now result }
    {
        let _limit = levels;
        read_inside(alloc, level, lexemes, fewer)
    };
    statements::statement(alloc, &deeper, lexemes, levels)
}

/// A block, from its `{` to its `}`.
pub fn block(alloc: Global, lexemes: &[Lexeme], levels: u32) -> Result<(Block, &[Lexeme]), Stop>
    ensures { Gives (λ x. a_block x.0) (λ x. x.1.now) result (run body levels block lexemes.now) }
{
    let deeper = |level: Level, lexemes: &[Lexeme], fewer: u32| -> Taken
        requires { fewer < levels }
        ensures { Takes level (run body fewer (body (rule_of level)) lexemes.now) lexemes.now result }
    {
        let _limit = levels;
        read_inside(alloc, level, lexemes, fewer)
    };
    blocks::block(&deeper, lexemes, levels)
}

/// Locals and statements in a row.
pub fn block_items(
    alloc: Global,
    lexemes: &[Lexeme],
    levels: u32,
) -> Result<(Items<Statement>, &[Lexeme]), Stop>
    ensures { Gives (λ x. statements x.0) (λ x. x.1.now) result (run body levels block_items lexemes.now) }
{
    let deeper = |level: Level, lexemes: &[Lexeme], fewer: u32| -> Taken
        requires { fewer < levels }
        ensures { Takes level (run body fewer (body (rule_of level)) lexemes.now) lexemes.now result }
    {
        let _limit = levels;
        read_inside(alloc, level, lexemes, fewer)
    };
    blocks::block_items(alloc, &deeper, lexemes, levels)
}
