// Statements.

ghost use Rattle.std.specs.Prelude.{◌≡◌, ◌<◌, [], ◌∷◌, IfOk};
ghost use Rattle.sx_grammar.specs.Classes.{here};
ghost use Rattle.sx_grammar.specs.Grammar.{giving, run, starts};
ghost use Rattle.sx_grammar.specs.Rules.{assigned, assigned_of, assignment_by, assignment_of, body, else_if_rule, else_part, end_of, expr_statement, if_parts_of, if_statement, if_tail, if_value, jump_of, keyword_statement, local, local_of, starters, statement};
ghost use Rattle.sx_grammar.specs.Value.{a_block, a_head, a_statement, an_expr, if_parts, leaf};
ghost use Rattle.sx_parse_code.specs.Productions.{if_from_word, jump, return_from_word, returned, while_loop};
ghost use Rattle.sx_parse_code.specs.Views.{branch_value, expr_or_nothing};
ghost use Rattle.sx_parse_decl.specs.Reading.{Gives};
ghost use Rattle.sx_parse_expr.specs.Levels.{IsReader};
ghost use Rattle.sx_tree.specs.declared.declarations.Head.TheVariants as heads;

use crate::blocks::block;
use sqlite_items::Boxed;
use std::alloc::{AllocError, Global};
use sx_grammar::{Lexeme, Mode, Sort};
use sx_parse_decl::{Stop, one_of, opened, starts_here, starts_with, variable_head};
use sx_parse_expr::{Inside, Level, Taken, expr, read_level};
use sx_span::Span;
use sx_token::{Kind, Operator};
use sx_tree::{Assignment, Block, Else, Expr, Local, Statement, StatementForm, VariableHead};

/// What stands behind the block of an `if`.
#[derive(Drop)]
pub enum Branch {
    Absent,
    Block(Block),
    If(Statement),
}

fn local_of(head: VariableHead, value: Expr) -> Statement
    ensures { a_statement result ≡ local_of (a_head (heads.Variable head)) (an_expr value) }
{
    let VariableHead {
        span,
        constant,
        name,
        ty,
    } = head;
    let span = Span {
        start: span.start,
        end: value.span.end,
    };
    let local = Local {
        constant,
        name,
        ty,
        value,
    };
    Statement {
        span,
        form: StatementForm::Local(local),
    }
}

/// The declaration of a local.
#[tactic(auto, unfolding(sx_grammar::specs::Grammar::run, sx_grammar::specs::Grammar::run_with, sx_grammar::specs::Rules::local))]
pub fn local<'a, F: Fn(Level, &[Lexeme], u32) -> Taken>(
    alloc: Global,
    deeper: &F,
    lexemes: &'a [Lexeme],
    levels: u32,
) -> Result<(Statement, &'a [Lexeme]), Stop>
    requires reader { IsReader (F.pre deeper.now) (F.post deeper.now) levels }
    ensures { Gives (λ x. a_statement x.0) (λ x. x.1.now) result (run body levels local lexemes.now) }
{
    let (head, rest) = variable_head(alloc, lexemes, &[Sort::Let, Sort::Var], levels)?;
    let (_, rest) = one_of(rest, &[Sort::Assign], levels)?;
    let (value, rest) = expr(alloc, deeper, Mode::Free, rest, levels)?;
    Ok((local_of(head, value), rest))
}

/// An `if` that begins with this word, from its parts and its end.
fn if_statement(word: &Lexeme, condition: Expr, body: Block, behind: Else, end: u32) -> Statement
    ensures { a_statement result ≡ if_statement (leaf word.now) (if_parts condition body behind end) }
{
    let span = Span {
        start: word.token.span.start,
        end,
    };
    Statement {
        span,
        form: StatementForm::If(condition, body, behind),
    }
}

/// What stands behind the `if` of an `else if`, where `levels` are left outside it and `fewer`
/// inside.
#[tactic(auto, unfolding(sx_grammar::specs::Grammar::run, sx_grammar::specs::Grammar::run_with))]
fn else_if_inside<'a, F: Fn(Level, &[Lexeme], u32) -> Taken>(
    deeper: &F,
    word: &Lexeme,
    lexemes: &'a [Lexeme],
    levels: u32,
    fewer: u32,
) -> Result<(Statement, &'a [Lexeme]), Stop>
    requires reader { IsReader (F.pre deeper.now) (F.post deeper.now) levels }
    requires fewer { fewer < levels }
    ensures { Gives (λ x. a_statement x.0) (λ x. x.1.now) result (run body fewer (giving (if_statement (leaf word.now)) (body else_if_rule)) lexemes.now) }
{
    let (inside, rest) = read_level(deeper, Level::ElseIf, lexemes, levels, fewer)?;
    match inside {
        Inside::ElseIf(condition, body, behind, end) => {
            Ok((if_statement(word, condition, body, behind, end), rest))
        }
        _ => unreachable!(),
    }
}

/// An `else` and what stands behind it, where one stands here.
#[tactic(auto, unfolding(sx_grammar::specs::Grammar::run, sx_grammar::specs::Grammar::run_with, sx_grammar::specs::Rules::else_part))]
fn else_part<'a, F: Fn(Level, &[Lexeme], u32) -> Taken>(
    deeper: &F,
    lexemes: &'a [Lexeme],
    levels: u32,
) -> Result<(Branch, &'a [Lexeme]), Stop>
    requires reader { IsReader (F.pre deeper.now) (F.post deeper.now) levels }
    ensures { Gives (λ x. branch_value x.0) (λ x. x.1.now) result (run body levels else_part lexemes.now) }
{
    if !starts_with(lexemes, &[Sort::Else]) {
        return Ok((Branch::Absent, lexemes));
    }
    let (_, rest) = one_of(lexemes, &[Sort::Else], levels)?;
    if starts_with(rest, &[Sort::If]) {
        let (word, rest, fewer) = opened(rest, &[Sort::If], levels)?;
        let (statement, rest) = else_if_inside(deeper, &word, rest, levels, fewer)?;
        return Ok((Branch::If(statement), rest));
    }
    let (body, rest) = block(deeper, rest, levels)?;
    Ok((Branch::Block(body), rest))
}

/// What follows the block of an `if`, and where the chain ends.
fn else_of(alloc: Global, body: &Block, branch: Branch) -> Result<(Else, u32), AllocError>
    ensures { IfOk result (λ x. (c : Expr) → if_parts_of c body.now (branch_value branch) ≡ if_parts c body.now x.0 x.1) }
{
    match branch {
        Branch::Absent => Ok((Else::Absent, body.span.end)),
        Branch::Block(block) => {
            let end = block.span.end;
            Ok((Else::Block(block), end))
        }
        Branch::If(statement) => {
            let end = statement.span.end;
            Ok((Else::ElseIf(Boxed::new(alloc, statement)?), end))
        }
    }
}

/// An `if` without its word: the condition, the block, what follows it, and where the chain ends.
#[tactic(auto, unfolding(sx_grammar::specs::Grammar::run, sx_grammar::specs::Grammar::run_with, sx_grammar::specs::Rules::if_tail))]
pub fn if_tail<'a, F: Fn(Level, &[Lexeme], u32) -> Taken>(
    alloc: Global,
    deeper: &F,
    lexemes: &'a [Lexeme],
    levels: u32,
) -> Result<(Expr, Block, Else, u32, &'a [Lexeme]), Stop>
    requires reader { IsReader (F.pre deeper.now) (F.post deeper.now) levels }
    ensures { Gives (λ x. if_parts x.0 x.1 x.2 x.3) (λ x. x.4.now) result (run body levels if_tail lexemes.now) }
{
    let (condition, rest) = expr(alloc, deeper, Mode::Condition, lexemes, levels)?;
    let (body, rest) = block(deeper, rest, levels)?;
    let (branch, rest) = else_part(deeper, rest, levels)?;
    let (behind, end) = else_of(alloc, &body, branch)?;
    Ok((condition, body, behind, end, rest))
}

#[tactic(auto, unfolding(sx_grammar::specs::Grammar::run, sx_grammar::specs::Grammar::run_with))]
fn if_from_word<'a, F: Fn(Level, &[Lexeme], u32) -> Taken>(
    alloc: Global,
    deeper: &F,
    lexemes: &'a [Lexeme],
    levels: u32,
) -> Result<(Statement, &'a [Lexeme]), Stop>
    requires reader { IsReader (F.pre deeper.now) (F.post deeper.now) levels }
    ensures { Gives (λ x. a_statement x.0) (λ x. x.1.now) result (run body levels if_from_word lexemes.now) }
{
    let (word, rest) = one_of(lexemes, &[Sort::If], levels)?;
    let (condition, body, behind, end, rest) = if_tail(alloc, deeper, rest, levels)?;
    Ok((if_statement(&word, condition, body, behind, end), rest))
}

#[tactic(auto, unfolding(sx_grammar::specs::Grammar::run, sx_grammar::specs::Grammar::run_with))]
fn while_loop<'a, F: Fn(Level, &[Lexeme], u32) -> Taken>(
    alloc: Global,
    deeper: &F,
    lexemes: &'a [Lexeme],
    levels: u32,
) -> Result<(Statement, &'a [Lexeme]), Stop>
    requires reader { IsReader (F.pre deeper.now) (F.post deeper.now) levels }
    ensures { Gives (λ x. a_statement x.0) (λ x. x.1.now) result (run body levels while_loop lexemes.now) }
{
    let (word, rest) = one_of(lexemes, &[Sort::While], levels)?;
    let (condition, rest) = expr(alloc, deeper, Mode::Condition, rest, levels)?;
    let (body, rest) = block(deeper, rest, levels)?;
    let span = Span {
        start: word.token.span.start,
        end: body.span.end,
    };
    let form = StatementForm::While(condition, body);
    Ok((Statement { span, form }, rest))
}

/// Whether an expression begins on this line.
fn starts_operand_here(lexemes: &[Lexeme]) -> bool
    ensures { result ≡ starts (here starters) lexemes.now }
{
    starts_here(
        lexemes,
        &[
            Sort::Int,
            Sort::True,
            Sort::False,
            Sort::SelfWord,
            Sort::Negate,
            Sort::Not,
            Sort::OpenRound,
            Sort::OpenBrace,
            Sort::OpenObservers,
            Sort::Name,
            Sort::Print,
            Sort::Get,
            Sort::Set,
            Sort::WillSet,
            Sort::DidSet,
            Sort::Escaping,
        ],
    )
}

/// The value behind a `return`, where one stands on its line.
fn returned<'a, F: Fn(Level, &[Lexeme], u32) -> Taken>(
    alloc: Global,
    deeper: &F,
    lexemes: &'a [Lexeme],
    levels: u32,
) -> Result<(Option<Expr>, &'a [Lexeme]), Stop>
    requires reader { IsReader (F.pre deeper.now) (F.post deeper.now) levels }
    ensures { Gives (λ x. expr_or_nothing x.0) (λ x. x.1.now) result (run body levels returned lexemes.now) }
{
    if !starts_operand_here(lexemes) {
        return Ok((None, lexemes));
    }
    let (value, rest) = expr(alloc, deeper, Mode::Free, lexemes, levels)?;
    Ok((Some(value), rest))
}

/// The end of a `return` with this value behind its word.
fn end_of(value: &Option<Expr>, word: &Lexeme) -> u32
    ensures { result ≡ (end_of (expr_or_nothing value.now) (leaf word.now)).end }
{
    match value {
        None => word.token.span.end,
        Some(value) => value.span.end,
    }
}

#[tactic(auto, unfolding(sx_grammar::specs::Grammar::run, sx_grammar::specs::Grammar::run_with))]
fn return_from_word<'a, F: Fn(Level, &[Lexeme], u32) -> Taken>(
    alloc: Global,
    deeper: &F,
    lexemes: &'a [Lexeme],
    levels: u32,
) -> Result<(Statement, &'a [Lexeme]), Stop>
    requires reader { IsReader (F.pre deeper.now) (F.post deeper.now) levels }
    ensures { Gives (λ x. a_statement x.0) (λ x. x.1.now) result (run body levels return_from_word lexemes.now) }
{
    let (word, rest) = one_of(lexemes, &[Sort::Return], levels)?;
    let (value, rest) = returned(alloc, deeper, rest, levels)?;
    let span = Span {
        start: word.token.span.start,
        end: end_of(&value, &word),
    };
    let form = StatementForm::Return(value);
    Ok((Statement { span, form }, rest))
}

fn jump_of(sort: Sort) -> StatementForm
    ensures { result ≡ jump_of sort }
{
    match sort {
        Sort::Break => StatementForm::Break,
        _ => StatementForm::Continue,
    }
}

#[tactic(auto, unfolding(sx_grammar::specs::Grammar::run, sx_grammar::specs::Grammar::run_with))]
fn jump(lexemes: &[Lexeme], levels: u32) -> Result<(Statement, &[Lexeme]), Stop>
    ensures { Gives (λ x. a_statement x.0) (λ x. x.1.now) result (run body levels jump lexemes.now) }
{
    let (word, rest) = one_of(lexemes, &[Sort::Break, Sort::Continue], levels)?;
    let statement = Statement {
        span: word.token.span,
        form: jump_of(word.sort),
    };
    Ok((statement, rest))
}

/// A statement that begins with a word of its own.
#[tactic(auto, unfolding(sx_grammar::specs::Grammar::run, sx_grammar::specs::Grammar::run_with, sx_grammar::specs::Rules::keyword_statement))]
pub fn keyword_statement<'a, F: Fn(Level, &[Lexeme], u32) -> Taken>(
    alloc: Global,
    deeper: &F,
    lexemes: &'a [Lexeme],
    levels: u32,
) -> Result<(Statement, &'a [Lexeme]), Stop>
    requires reader { IsReader (F.pre deeper.now) (F.post deeper.now) levels }
    ensures { Gives (λ x. a_statement x.0) (λ x. x.1.now) result (run body levels keyword_statement lexemes.now) }
{
    if starts_with(lexemes, &[Sort::If]) {
        return if_from_word(alloc, deeper, lexemes, levels);
    }
    if starts_with(lexemes, &[Sort::While]) {
        return while_loop(alloc, deeper, lexemes, levels);
    }
    if starts_with(lexemes, &[Sort::Return]) {
        return return_from_word(alloc, deeper, lexemes, levels);
    }
    jump(lexemes, levels)
}

/// What the operator of an assignment does.
fn assignment_of(kind: Kind) -> Assignment
    ensures { result ≡ assignment_of kind }
{
    match kind {
        Kind::Op(operator) => assignment_by(operator),
        _ => Assignment::Store,
    }
}

fn assignment_by(operator: Operator) -> Assignment
    ensures { result ≡ assignment_by operator }
{
    match operator {
        Operator::PlusAssign => Assignment::Add,
        Operator::MinusAssign => Assignment::Subtract,
        Operator::StarAssign => Assignment::Multiply,
        Operator::SlashAssign => Assignment::Divide,
        Operator::PercentAssign => Assignment::Remainder,
        _ => Assignment::Store,
    }
}

/// The statement that begins with this expression: what it is assigned, or itself.
#[tactic(auto, unfolding(sx_grammar::specs::Grammar::run, sx_grammar::specs::Grammar::run_with, sx_grammar::specs::Rules::assigned))]
pub fn assigned<'a, F: Fn(Level, &[Lexeme], u32) -> Taken>(
    alloc: Global,
    deeper: &F,
    target: Expr,
    lexemes: &'a [Lexeme],
    levels: u32,
) -> Result<(Statement, &'a [Lexeme]), Stop>
    requires reader { IsReader (F.pre deeper.now) (F.post deeper.now) levels }
    ensures { Gives (λ x. a_statement x.0) (λ x. x.1.now) result (run body levels (giving (assigned_of target) assigned) lexemes.now) }
{
    if !starts_with(lexemes, &[Sort::Assign, Sort::Compound]) {
        let statement = Statement {
            span: target.span,
            form: StatementForm::Expr(target),
        };
        return Ok((statement, lexemes));
    }
    let (sign, rest) = one_of(lexemes, &[Sort::Assign, Sort::Compound], levels)?;
    let (value, rest) = expr(alloc, deeper, Mode::Free, rest, levels)?;
    let span = Span {
        start: target.span.start,
        end: value.span.end,
    };
    let form = StatementForm::Assign(assignment_of(sign.token.kind), target, value);
    Ok((Statement { span, form }, rest))
}

/// An expression, or an assignment to one.
#[tactic(auto, unfolding(sx_grammar::specs::Grammar::run, sx_grammar::specs::Grammar::run_with, sx_grammar::specs::Rules::expr_statement))]
pub fn expr_statement<'a, F: Fn(Level, &[Lexeme], u32) -> Taken>(
    alloc: Global,
    deeper: &F,
    lexemes: &'a [Lexeme],
    levels: u32,
) -> Result<(Statement, &'a [Lexeme]), Stop>
    requires reader { IsReader (F.pre deeper.now) (F.post deeper.now) levels }
    ensures { Gives (λ x. a_statement x.0) (λ x. x.1.now) result (run body levels expr_statement lexemes.now) }
{
    let (target, rest) = expr(alloc, deeper, Mode::Free, lexemes, levels)?;
    assigned(alloc, deeper, target, rest, levels)
}

/// A statement that is no declaration of a local.
#[tactic(auto, unfolding(sx_grammar::specs::Grammar::run, sx_grammar::specs::Grammar::run_with, sx_grammar::specs::Rules::statement, sx_grammar::specs::Rules::keyword_statement))]
pub fn statement<'a, F: Fn(Level, &[Lexeme], u32) -> Taken>(
    alloc: Global,
    deeper: &F,
    lexemes: &'a [Lexeme],
    levels: u32,
) -> Result<(Statement, &'a [Lexeme]), Stop>
    requires reader { IsReader (F.pre deeper.now) (F.post deeper.now) levels }
    ensures { Gives (λ x. a_statement x.0) (λ x. x.1.now) result (run body levels statement lexemes.now) }
{
    if starts_with(
        lexemes,
        &[
            Sort::If,
            Sort::While,
            Sort::Return,
            Sort::Break,
            Sort::Continue,
        ],
    ) {
        keyword_statement(alloc, deeper, lexemes, levels)
    } else {
        expr_statement(alloc, deeper, lexemes, levels)
    }
}
