// How statements end: whether what follows them may be reached, and whether they leave the loop
// around them.

ghost use Rattle.std.specs.Prelude.{◌≡◌, ◌&&◌, IfSome, option_map};
ghost use Rattle.sx_bodies.specs.Statements as bodies;
ghost use Rattle.sx_check_expr.specs.Judge.{judged_else, judged_expr, judged_statement, judged_statements};

use sx_scope::{Gives, is_void};
use sx_tree::{Else, Expr, ExprForm, Statement, StatementForm};
use sx_types::Ty;

/// Whether the end of these statements may be reached.
#[cycle(passing)]
pub(crate) fn passes_end(statements: &[Statement]) -> bool
    ensures { (d : _) → result ≡ bodies.passes_end (judged_statements d statements.now) }
{
    match statements.last() {
        Some(last) => passes(last),
        None => true,
    }
}

/// Whether what follows a statement may be reached.
#[cycle(passing)]
fn passes(statement: &Statement) -> bool
    ensures { (d : _) → result ≡ (judged_statement d statement.now).passes }
{
    match &statement.form {
        StatementForm::If(_, block, otherwise) => {
            passes_end(block.statements.as_slice()) || else_passes(otherwise)
        }
        StatementForm::While(condition, block) => {
            !is_true(condition) || any_breaks(block.statements.as_slice())
        }
        StatementForm::Return(_) => false,
        _ => true,
    }
}

/// Whether what follows an `if` may be reached through its `else`.
#[cycle(passing)]
fn else_passes(otherwise: &Else) -> bool
    ensures { (d : _) → result ≡ bodies.else_passes (judged_else d otherwise.now) }
{
    match otherwise {
        Else::Absent => true,
        Else::Block(block) => passes_end(block.statements.as_slice()),
        Else::ElseIf(statement) => passes(statement.get()),
    }
}

/// Whether one of these statements leaves the loop around them.
#[cycle(leaving)]
fn any_breaks(statements: &[Statement]) -> bool
    ensures { (d : _) → result ≡ bodies.any_breaks (judged_statements d statements.now) }
{
    'statements: for statement in statements {
        if breaks(statement) {
            return true;
        }
    }
    false
}

/// Whether a statement leaves the loop around it.
#[cycle(leaving)]
fn breaks(statement: &Statement) -> bool
    ensures { (d : _) → result ≡ (judged_statement d statement.now).breaks }
{
    match &statement.form {
        StatementForm::Break => true,
        StatementForm::If(_, block, otherwise) => {
            any_breaks(block.statements.as_slice()) || else_breaks(otherwise)
        }
        _ => false,
    }
}

/// Whether what follows the block of an `if` leaves the loop around it.
#[cycle(leaving)]
fn else_breaks(otherwise: &Else) -> bool
    ensures { (d : _) → result ≡ bodies.else_breaks (judged_else d otherwise.now) }
{
    match otherwise {
        Else::Absent => false,
        Else::Block(block) => any_breaks(block.statements.as_slice()),
        Else::ElseIf(statement) => breaks(statement.get()),
    }
}

/// Whether an expression is the word `true`.
fn is_true(expr: &Expr) -> bool
    ensures { (d : _) → result ≡ (judged_expr d expr.now).is_true }
{
    match &expr.form {
        ExprForm::Bool(value) => *value,
        _ => false,
    }
}

/// The one expression of a body that gives its value, and where its statement starts.
pub(crate) fn single(gives: Gives, statements: &[Statement]) -> Option<(u32, &Expr)>
    ensures expr { (d : _) → option_map (λ x. judged_expr d x.1.now) result ≡ bodies.single gives (judged_statements d statements.now) }
    ensures site { (d : _) → IfSome result (λ x. x.0 ≡ bodies.site_of (judged_statements d statements.now)) }
{
    match statements {
        [statement] => {
            if has_value(gives) {
                alone(statement)
            } else {
                None
            }
        }
        _ => None,
    }
}

/// The expression that a statement is alone, and where it starts.
fn alone(statement: &Statement) -> Option<(u32, &Expr)>
    ensures expr { (d : _) → option_map (λ x. judged_expr d x.1.now) result ≡ (judged_statement d statement.now).alone }
    ensures site { (d : _) → IfSome result (λ x. x.0 ≡ (judged_statement d statement.now).site) }
{
    match &statement.form {
        StatementForm::Expr(expr) => Some((statement.span.start, expr)),
        _ => None,
    }
}

fn has_value(gives: Gives) -> bool
    ensures { result ≡ bodies.has_value gives }
{
    match gives {
        Gives::Nothing => false,
        Gives::Unknown => true,
        Gives::Type(ty) => !is_void(ty),
    }
}

fn knows_value(gives: Gives) -> bool
    ensures { result ≡ bodies.knows_value gives }
{
    match gives {
        Gives::Type(ty) => !is_void(ty),
        _ => false,
    }
}

/// Whether a body that gives a value reaches its end without one.
pub fn lacks_return(gives: Gives, statements: &[Statement]) -> bool
    ensures { (d : _) → result ≡ bodies.lacks_return gives (judged_statements d statements.now) }
{
    needs_return(gives, statements) && single(gives, statements).is_none()
}

/// Whether a body that gives a value by a `return` reaches its end.
fn needs_return(gives: Gives, statements: &[Statement]) -> bool
    ensures { (d : _) → result ≡ (bodies.knows_value gives && bodies.passes_end (judged_statements d statements.now)) }
{
    knows_value(gives) && passes_end(statements)
}
