// Expressions and statements.

ghost use Rattle.std.specs.Prelude.{◌≡◌, ◌+◌, OnOk, map, nat_eq, option_map};
ghost use Rattle.indexmap.specs.IndexMap.{get};
ghost use Rattle.sx_outline.specs.Visit.{all, argument_visit, block_visit, called, closure_visit, counted, else_visit, expr_visit, if_there, inner_of, link_visit, local_visit, own_of, part_visit, statement_visit, trailing};

use crate::types::{pass_type, visit_signature};
use crate::visit::Visit;
use indexmap::IndexMap;
use std::alloc::{AllocError, Global};
use sx_tree::{
    Argument, Block, Closure, Else, Expr, ExprForm, Link, Local, Part, Statement, StatementForm,
};
use sx_types::Ty;

/// Visits an expression.
#[cycle(code)]
pub fn visit_expr(
    alloc: Global,
    names: &IndexMap<u32, Ty>,
    visit: &mut Visit,
    expr: &Expr,
) -> Result<(), AllocError>
    ensures { OnOk result (visit.new ≡ expr_visit (get nat_eq names.now) expr.now visit.old) }
{
    match &expr.form {
        ExprForm::Int(_)
        | ExprForm::LeastInt
        | ExprForm::Bool(_)
        | ExprForm::SelfWord
        | ExprForm::PrintText(_) => visit.count(1),
        ExprForm::Named(_, closure) => {
            visit.count(name_nodes(closure))?;
            visit_trailing(alloc, names, visit, closure)
        }
        ExprForm::Bracketed(inner) | ExprForm::Negate(inner) | ExprForm::Not(inner) => {
            visit.count(1)?;
            visit_expr(alloc, names, visit, inner.get())
        }
        ExprForm::Chain(first, links) => {
            visit.count(links.len())?;
            visit_expr(alloc, names, visit, first.get())?;
            visit_links(alloc, names, visit, links.as_slice())
        }
        ExprForm::Postfix(first, parts) => {
            count_parts(names, visit, parts.as_slice())?;
            visit_expr(alloc, names, visit, first.get())?;
            visit_parts(alloc, names, visit, parts.as_slice())
        }
        ExprForm::Closure(closure) => visit_closure(alloc, names, visit, closure),
        ExprForm::Array(elements) => {
            visit.count(1)?;
            visit_exprs(alloc, names, visit, elements.as_slice())
        }
    }
}

#[cycle(code)]
fn visit_exprs(
    alloc: Global,
    names: &IndexMap<u32, Ty>,
    visit: &mut Visit,
    exprs: &[Expr],
) -> Result<(), AllocError>
    ensures { OnOk result (visit.new ≡ all (map (expr_visit (get nat_eq names.now)) exprs.now) visit.old) }
{
    'turns: for expr in exprs {
        visit_expr(alloc, names, visit, expr)?;
    }
    Ok(())
}

#[cycle(code)]
fn visit_links(
    alloc: Global,
    names: &IndexMap<u32, Ty>,
    visit: &mut Visit,
    links: &[Link],
) -> Result<(), AllocError>
    ensures { OnOk result (visit.new ≡ all (map (link_visit (get nat_eq names.now)) links.now) visit.old) }
{
    'turns: for link in links {
        visit_expr(alloc, names, visit, &link.operand)?;
    }
    Ok(())
}

/// The nodes that a part makes before its operand: one, and one for a call with a trailing closure
/// alone.
fn own_nodes(part: &Part) -> usize
    ensures { (names : _) → result ≡ (part_visit names part.now).own }
{
    match part {
        Part::Member(_, _, closure) => name_nodes(closure),
        Part::Index(_, _) | Part::Call(_, _, _) => 1,
    }
}

/// Counts the nodes that parts make before their operand.
fn count_parts(
    names: &IndexMap<u32, Ty>,
    visit: &mut Visit,
    parts: &[Part],
) -> Result<(), AllocError>
    ensures { OnOk result (visit.new ≡ counted (own_of (map (part_visit (get nat_eq names.now)) parts.now)) visit.old) }
{
    'turns: for part in parts {
        visit.count(own_nodes(part))?;
    }
    Ok(())
}

#[cycle(code)]
fn visit_parts(
    alloc: Global,
    names: &IndexMap<u32, Ty>,
    visit: &mut Visit,
    parts: &[Part],
) -> Result<(), AllocError>
    ensures { OnOk result (visit.new ≡ inner_of (map (part_visit (get nat_eq names.now)) parts.now) visit.old) }
{
    'turns: for part in parts {
        visit_part(alloc, names, visit, part)?;
    }
    Ok(())
}

/// Visits the nodes in a part.
#[cycle(code)]
fn visit_part(
    alloc: Global,
    names: &IndexMap<u32, Ty>,
    visit: &mut Visit,
    part: &Part,
) -> Result<(), AllocError>
    ensures { OnOk result (visit.new ≡ (part_visit (get nat_eq names.now) part.now).inner visit.old) }
{
    match part {
        Part::Member(_, _, closure) => visit_trailing(alloc, names, visit, closure),
        Part::Index(_, indices) => visit_exprs(alloc, names, visit, indices.as_slice()),
        Part::Call(_, arguments, closure) => {
            visit_arguments(alloc, names, visit, arguments.as_slice())?;
            visit_trailing(alloc, names, visit, closure)
        }
    }
}

#[cycle(code)]
fn visit_arguments(
    alloc: Global,
    names: &IndexMap<u32, Ty>,
    visit: &mut Visit,
    arguments: &[Argument],
) -> Result<(), AllocError>
    ensures { OnOk result (visit.new ≡ all (map (argument_visit (get nat_eq names.now)) arguments.now) visit.old) }
{
    'turns: for argument in arguments {
        visit.count(1)?;
        visit_expr(alloc, names, visit, &argument.value)?;
    }
    Ok(())
}

/// The nodes of a name: one, and one for its call with a trailing closure alone.
fn name_nodes(closure: &Option<Closure>) -> usize
    ensures { result ≡ called closure.now + 1 }
{
    match closure {
        Some(_) => 2,
        None => 1,
    }
}

/// Visits a trailing closure as the argument that it is.
#[cycle(code)]
fn visit_trailing(
    alloc: Global,
    names: &IndexMap<u32, Ty>,
    visit: &mut Visit,
    closure: &Option<Closure>,
) -> Result<(), AllocError>
    ensures { OnOk result (visit.new ≡ trailing (option_map (closure_visit (get nat_eq names.now)) closure.now) visit.old) }
{
    match closure {
        Some(closure) => {
            visit.count(1)?;
            visit_closure(alloc, names, visit, closure)
        }
        None => Ok(()),
    }
}

#[cycle(code)]
fn visit_closure(
    alloc: Global,
    names: &IndexMap<u32, Ty>,
    visit: &mut Visit,
    closure: &Closure,
) -> Result<(), AllocError>
    ensures { OnOk result (visit.new ≡ closure_visit (get nat_eq names.now) closure.now visit.old) }
{
    visit.count(1)?;
    visit_signature(alloc, names, visit, &closure.signature)?;
    visit_statements(alloc, names, visit, closure.body.as_slice())
}

/// Visits a block.
#[cycle(code)]
pub fn visit_block(
    alloc: Global,
    names: &IndexMap<u32, Ty>,
    visit: &mut Visit,
    block: &Block,
) -> Result<(), AllocError>
    ensures { OnOk result (visit.new ≡ block_visit (get nat_eq names.now) block.now visit.old) }
{
    visit.count(1)?;
    visit_statements(alloc, names, visit, block.statements.as_slice())
}

#[cycle(code)]
fn visit_statements(
    alloc: Global,
    names: &IndexMap<u32, Ty>,
    visit: &mut Visit,
    statements: &[Statement],
) -> Result<(), AllocError>
    ensures { OnOk result (visit.new ≡ all (map (statement_visit (get nat_eq names.now)) statements.now) visit.old) }
{
    'turns: for statement in statements {
        visit_statement(alloc, names, visit, statement)?;
    }
    Ok(())
}

/// Visits a statement. The declaration of a local is itself the node.
#[cycle(code)]
pub fn visit_statement(
    alloc: Global,
    names: &IndexMap<u32, Ty>,
    visit: &mut Visit,
    statement: &Statement,
) -> Result<(), AllocError>
    ensures { OnOk result (visit.new ≡ statement_visit (get nat_eq names.now) statement.now visit.old) }
{
    if let StatementForm::Local(local) = &statement.form {
        return visit_local(alloc, names, visit, local);
    }
    visit.count(1)?;
    match &statement.form {
        StatementForm::Expr(expr) => visit_expr(alloc, names, visit, expr),
        StatementForm::Assign(_, left, right) => {
            visit_expr(alloc, names, visit, left)?;
            visit_expr(alloc, names, visit, right)
        }
        StatementForm::If(condition, block, otherwise) => {
            visit_expr(alloc, names, visit, condition)?;
            visit_block(alloc, names, visit, block)?;
            visit_else(alloc, names, visit, otherwise)
        }
        StatementForm::While(condition, block) => {
            visit_expr(alloc, names, visit, condition)?;
            visit_block(alloc, names, visit, block)
        }
        StatementForm::Return(value) => visit_value(alloc, names, visit, value),
        StatementForm::Break | StatementForm::Continue | StatementForm::Local(_) => Ok(()),
    }
}

/// Visits an expression that may be written.
#[cycle(code)]
pub fn visit_value(
    alloc: Global,
    names: &IndexMap<u32, Ty>,
    visit: &mut Visit,
    value: &Option<Expr>,
) -> Result<(), AllocError>
    ensures { OnOk result (visit.new ≡ if_there (option_map (expr_visit (get nat_eq names.now)) value.now) visit.old) }
{
    match value {
        Some(value) => visit_expr(alloc, names, visit, value),
        None => Ok(()),
    }
}

#[cycle(code)]
fn visit_else(
    alloc: Global,
    names: &IndexMap<u32, Ty>,
    visit: &mut Visit,
    otherwise: &Else,
) -> Result<(), AllocError>
    ensures { OnOk result (visit.new ≡ else_visit (get nat_eq names.now) otherwise.now visit.old) }
{
    match otherwise {
        Else::Absent => Ok(()),
        Else::Block(block) => visit_block(alloc, names, visit, block),
        Else::ElseIf(statement) => visit_statement(alloc, names, visit, statement.get()),
    }
}

#[cycle(code)]
fn visit_local(
    alloc: Global,
    names: &IndexMap<u32, Ty>,
    visit: &mut Visit,
    local: &Local,
) -> Result<(), AllocError>
    ensures { OnOk result (visit.new ≡ local_visit (get nat_eq names.now) local.now visit.old) }
{
    visit.count(1)?;
    pass_type(alloc, names, visit, &local.ty)?;
    visit_expr(alloc, names, visit, &local.value)
}
