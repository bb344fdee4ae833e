// What a token that opens a level holds.

ghost use Rattle.std.specs.Prelude.{◌≡◌, ◌<◌, IfOk};
ghost use Rattle.sx_grammar.specs.Grammar.{run};
ghost use Rattle.sx_grammar.specs.Rules.{argument_list, body, bracket, indices, literal};
ghost use Rattle.sx_grammar.specs.Value.{a_literal, an_expr, arguments, exprs, leaf, pair};
ghost use Rattle.sx_parse_decl.specs.Reading.{Gives};
ghost use Rattle.sx_parse_expr.specs.Levels.{IsReader, inside_value, level_of, rule_of};

use crate::expressions::expr;
use sqlite_items::Items;
use std::alloc::Global;
use sx_grammar::{Lexeme, Mode, Sort};
use sx_parse_decl::{Stop, one_of};
use sx_tree::{Argument, Block, ClosureParameter, Else, Expr, Signature, Statement, TypeParameter};

/// A level in which expressions or statements stand, by the token that opens it.
#[derive(Clone, Copy, Debug, PartialEq, Eq)]
pub enum Level {
    /// A `(` around an expression.
    Bracket,
    /// The `(` of a call.
    Arguments,
    /// The `[` of a subscript.
    Indices,
    /// The `{` of a closure literal.
    Literal,
    /// The `{` of a block.
    Block,
    /// The `if` of an `else if`.
    ElseIf,
    /// A `(` right behind the `{` of a closure literal.
    FirstBracket,
}

/// What stands in a bracket right behind the `{` of a closure literal.
#[derive(Drop)]
pub enum FirstBracket {
    Empty,
    Expr(Expr),
    /// The first parameter's name, as an expression, its type, and the other parameters.
    Parameters(Expr, TypeParameter, Items<ClosureParameter>),
}

/// What a level holds, and the token that closes it.
#[derive(Drop)]
pub enum Inside {
    Bracket(Expr, Lexeme),
    Arguments(Items<Argument>, Lexeme),
    Indices(Items<Expr>, Lexeme),
    Literal(Signature, Items<Statement>, Lexeme),
    Block(Items<Statement>, Lexeme),
    /// The condition, the block, what follows it, and where the chain ends.
    ElseIf(Expr, Block, Else, u32),
    FirstBracket(FirstBracket, Lexeme),
}

/// What a reader of levels answers: what it read and how many lexemes are left, or why it stops.
pub type Taken = Result<(Inside, usize), Stop>;

/// What a level holds, where `levels` are left outside it and `fewer` inside.
pub fn read_level<'a, F: Fn(Level, &[Lexeme], u32) -> Taken>(
    deeper: &F,
    level: Level,
    lexemes: &'a [Lexeme],
    levels: u32,
    fewer: u32,
) -> Result<(Inside, &'a [Lexeme]), Stop>
    requires reader { IsReader (F.pre deeper.now) (F.post deeper.now) levels }
    requires fewer { fewer < levels }
    ensures run { Gives (λ x. inside_value x.0) (λ x. x.1.now) result (run body fewer (body (rule_of level)) lexemes.now) }
    ensures level { IfOk result (λ x. level_of x.0 ≡ level) }
{
    match deeper(level, lexemes, fewer) {
        Ok((inside, left)) => Ok((inside, &lexemes[lexemes.len() - left..])),
        Err(stop) => Err(stop),
    }
}

/// An expression and the bracket behind it.
#[tactic(auto, unfolding(sx_grammar::specs::Rules::body))]
pub fn read_bracket<'a, F: Fn(Level, &[Lexeme], u32) -> Taken>(
    deeper: &F,
    lexemes: &'a [Lexeme],
    levels: u32,
    fewer: u32,
) -> Result<(Expr, Lexeme, &'a [Lexeme]), Stop>
    requires reader { IsReader (F.pre deeper.now) (F.post deeper.now) levels }
    requires fewer { fewer < levels }
    ensures { Gives (λ x. pair (an_expr x.0) (leaf x.1)) (λ x. x.2.now) result (run body fewer bracket lexemes.now) }
{
    let (inside, rest) = read_level(deeper, Level::Bracket, lexemes, levels, fewer)?;
    match inside {
        Inside::Bracket(inner, close) => Ok((inner, close, rest)),
        _ => unreachable!(),
    }
}

/// The arguments of a call, and the bracket behind them.
#[tactic(auto, unfolding(sx_grammar::specs::Rules::body))]
pub fn read_arguments<'a, F: Fn(Level, &[Lexeme], u32) -> Taken>(
    deeper: &F,
    lexemes: &'a [Lexeme],
    levels: u32,
    fewer: u32,
) -> Result<(Items<Argument>, Lexeme, &'a [Lexeme]), Stop>
    requires reader { IsReader (F.pre deeper.now) (F.post deeper.now) levels }
    requires fewer { fewer < levels }
    ensures { Gives (λ x. pair (arguments x.0) (leaf x.1)) (λ x. x.2.now) result (run body fewer argument_list lexemes.now) }
{
    let (inside, rest) = read_level(deeper, Level::Arguments, lexemes, levels, fewer)?;
    match inside {
        Inside::Arguments(arguments, close) => Ok((arguments, close, rest)),
        _ => unreachable!(),
    }
}

/// The indices of a subscript, and the bracket behind them.
#[tactic(auto, unfolding(sx_grammar::specs::Rules::body))]
pub fn read_indices<'a, F: Fn(Level, &[Lexeme], u32) -> Taken>(
    deeper: &F,
    lexemes: &'a [Lexeme],
    levels: u32,
    fewer: u32,
) -> Result<(Items<Expr>, Lexeme, &'a [Lexeme]), Stop>
    requires reader { IsReader (F.pre deeper.now) (F.post deeper.now) levels }
    requires fewer { fewer < levels }
    ensures { Gives (λ x. pair (exprs x.0) (leaf x.1)) (λ x. x.2.now) result (run body fewer indices lexemes.now) }
{
    let (inside, rest) = read_level(deeper, Level::Indices, lexemes, levels, fewer)?;
    match inside {
        Inside::Indices(indices, close) => Ok((indices, close, rest)),
        _ => unreachable!(),
    }
}

/// A closure literal without its opening brace: the signature, the statements and the closing brace.
#[tactic(auto, unfolding(sx_grammar::specs::Rules::body))]
pub fn read_literal<'a, F: Fn(Level, &[Lexeme], u32) -> Taken>(
    deeper: &F,
    lexemes: &'a [Lexeme],
    levels: u32,
    fewer: u32,
) -> Result<(Signature, Items<Statement>, Lexeme, &'a [Lexeme]), Stop>
    requires reader { IsReader (F.pre deeper.now) (F.post deeper.now) levels }
    requires fewer { fewer < levels }
    ensures { Gives (λ x. pair (a_literal x.0 x.1) (leaf x.2)) (λ x. x.3.now) result (run body fewer literal lexemes.now) }
{
    let (inside, rest) = read_level(deeper, Level::Literal, lexemes, levels, fewer)?;
    match inside {
        Inside::Literal(signature, body, close) => Ok((signature, body, close, rest)),
        _ => unreachable!(),
    }
}

/// The inside of a bracket: an expression and the bracket that closes it.
#[tactic(auto, unfolding(sx_grammar::specs::Grammar::run, sx_grammar::specs::Grammar::run_with, sx_grammar::specs::Rules::bracket))]
pub fn bracket<'a, F: Fn(Level, &[Lexeme], u32) -> Taken>(
    alloc: Global,
    deeper: &F,
    lexemes: &'a [Lexeme],
    levels: u32,
) -> Result<(Expr, Lexeme, &'a [Lexeme]), Stop>
    requires reader { IsReader (F.pre deeper.now) (F.post deeper.now) levels }
    ensures { Gives (λ x. pair (an_expr x.0) (leaf x.1)) (λ x. x.2.now) result (run body levels bracket lexemes.now) }
{
    let (inner, rest) = expr(alloc, deeper, Mode::Free, lexemes, levels)?;
    let (close, rest) = one_of(rest, &[Sort::CloseRound], levels)?;
    Ok((inner, close, rest))
}
