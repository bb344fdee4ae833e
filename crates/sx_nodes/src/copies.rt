// Copies of parts of a tree.

ghost use Rattle.std.specs.Prelude.{◌≡◌, IfOk};

use sqlite_items::{Boxed, Items};
use std::alloc::{AllocError, Global};
use sx_tree::{
    Argument, Block, Closure, ClosureParameter, Else, Expr, ExprForm, Link, Local, Part, Signature,
    Statement, StatementForm, TypeForm, TypeParameter, WrittenType,
};

#[cycle(types)]
fn copy_type(alloc: Global, ty: &WrittenType) -> Result<WrittenType, AllocError>
    ensures { IfOk result (λ copy. copy ≡ ty.now) }
{
    Ok(WrittenType {
        span: ty.span,
        form: copy_type_form(alloc, &ty.form)?,
    })
}

#[cycle(types)]
fn copy_type_form(alloc: Global, form: &TypeForm) -> Result<TypeForm, AllocError>
    ensures { IfOk result (λ copy. copy ≡ form.now) }
{
    match form {
        TypeForm::Named(name) => Ok(TypeForm::Named(*name)),
        TypeForm::Unit => Ok(TypeForm::Unit),
        TypeForm::Bracketed(inner) => Ok(TypeForm::Bracketed(copy_boxed_type(alloc, inner)?)),
        TypeForm::Function(parameters, given) => {
            let parameters = copy_type_parameters(alloc, parameters.as_slice())?;
            let given = copy_boxed_type(alloc, given)?;
            Ok(TypeForm::Function(parameters, given))
        }
        TypeForm::Array(name) => Ok(TypeForm::Array(*name)),
    }
}

#[cycle(types)]
fn copy_boxed_type(alloc: Global, ty: &Boxed<WrittenType>) -> Result<Boxed<WrittenType>, AllocError>
    ensures { IfOk result (λ copy. copy ≡ ty.now) }
{
    Boxed::new(alloc, copy_type(alloc, ty.get())?)
}

#[cycle(types)]
fn copy_type_parameters(
    alloc: Global,
    parameters: &[TypeParameter],
) -> Result<Items<TypeParameter>, AllocError>
    ensures { IfOk result (λ copies. copies ≡ parameters.now) }
{
    let mut copies = Items::new(alloc);
    for parameter in parameters {
        copies.push(TypeParameter {
            inout: parameter.inout,
            ty: copy_type(alloc, &parameter.ty)?,
        })?;
    }
    Ok(copies)
}

fn copy_written(alloc: Global, ty: &Option<WrittenType>) -> Result<Option<WrittenType>, AllocError>
    ensures { IfOk result (λ copy. copy ≡ ty.now) }
{
    match ty {
        Some(ty) => Ok(Some(copy_type(alloc, ty)?)),
        None => Ok(None),
    }
}

fn copy_closure_parameters(
    alloc: Global,
    parameters: &[ClosureParameter],
) -> Result<Items<ClosureParameter>, AllocError>
    ensures { IfOk result (λ copies. copies ≡ parameters.now) }
{
    let mut copies = Items::new(alloc);
    for parameter in parameters {
        copies.push(ClosureParameter {
            name: parameter.name,
            inout: parameter.inout,
            ty: copy_type(alloc, &parameter.ty)?,
        })?;
    }
    Ok(copies)
}

fn copy_signature(alloc: Global, signature: &Signature) -> Result<Signature, AllocError>
    ensures { IfOk result (λ copy. copy ≡ signature.now) }
{
    match signature {
        Signature::Absent => Ok(Signature::Absent),
        Signature::Names(names) => Ok(Signature::Names(Items::from_slice(
            alloc,
            names.as_slice(),
        )?)),
        Signature::Typed(parameters, given) => {
            let parameters = copy_closure_parameters(alloc, parameters.as_slice())?;
            let given = copy_written(alloc, given)?;
            Ok(Signature::Typed(parameters, given))
        }
    }
}

/// A copy of a closure literal.
#[cycle(code)]
pub fn copy_closure(alloc: Global, closure: &Closure) -> Result<Closure, AllocError>
    ensures { IfOk result (λ copy. copy ≡ closure.now) }
{
    let signature = copy_signature(alloc, &closure.signature)?;
    let body = copy_statements(alloc, closure.body.as_slice())?;
    Ok(Closure {
        span: closure.span,
        signature,
        body,
    })
}

#[cycle(code)]
fn copy_trailing(alloc: Global, closure: &Option<Closure>) -> Result<Option<Closure>, AllocError>
    ensures { IfOk result (λ copy. copy ≡ closure.now) }
{
    match closure {
        Some(closure) => Ok(Some(copy_closure(alloc, closure)?)),
        None => Ok(None),
    }
}

/// A copy of an expression.
#[cycle(code)]
pub fn copy_expr(alloc: Global, expr: &Expr) -> Result<Expr, AllocError>
    ensures { IfOk result (λ copy. copy ≡ expr.now) }
{
    Ok(Expr {
        span: expr.span,
        form: copy_form(alloc, &expr.form)?,
    })
}

/// A copy of an operand.
#[cycle(code)]
pub fn copy_boxed(alloc: Global, expr: &Boxed<Expr>) -> Result<Boxed<Expr>, AllocError>
    ensures { IfOk result (λ copy. copy ≡ expr.now) }
{
    Boxed::new(alloc, copy_expr(alloc, expr.get())?)
}

/// A copy of a form of expressions.
#[cycle(code)]
pub fn copy_form(alloc: Global, form: &ExprForm) -> Result<ExprForm, AllocError>
    ensures { IfOk result (λ copy. copy ≡ form.now) }
{
    match form {
        ExprForm::Int(value) => Ok(ExprForm::Int(*value)),
        ExprForm::LeastInt => Ok(ExprForm::LeastInt),
        ExprForm::Bool(value) => Ok(ExprForm::Bool(*value)),
        ExprForm::Named(name, closure) => Ok(ExprForm::Named(
            *name,
            copy_trailing(alloc, closure)?,
        )),
        ExprForm::SelfWord => Ok(ExprForm::SelfWord),
        ExprForm::Bracketed(inner) => Ok(ExprForm::Bracketed(copy_boxed(alloc, inner)?)),
        ExprForm::PrintText(text) => Ok(ExprForm::PrintText(*text)),
        ExprForm::Negate(inner) => Ok(ExprForm::Negate(copy_boxed(alloc, inner)?)),
        ExprForm::Not(inner) => Ok(ExprForm::Not(copy_boxed(alloc, inner)?)),
        ExprForm::Chain(first, links) => {
            let first = copy_boxed(alloc, first)?;
            let links = copy_links(alloc, links.as_slice())?;
            Ok(ExprForm::Chain(first, links))
        }
        ExprForm::Postfix(first, parts) => {
            let first = copy_boxed(alloc, first)?;
            let parts = copy_parts(alloc, parts.as_slice())?;
            Ok(ExprForm::Postfix(first, parts))
        }
        ExprForm::Closure(closure) => Ok(ExprForm::Closure(copy_closure(alloc, closure)?)),
        ExprForm::Array(elements) => Ok(ExprForm::Array(copy_exprs(alloc, elements.as_slice())?)),
    }
}

/// Copies of the links of a chain.
#[cycle(code)]
pub fn copy_links(alloc: Global, links: &[Link]) -> Result<Items<Link>, AllocError>
    ensures { IfOk result (λ copies. copies ≡ links.now) }
{
    let mut copies = Items::new(alloc);
    for link in links {
        copies.push(Link {
            operator: link.operator,
            operand: copy_expr(alloc, &link.operand)?,
        })?;
    }
    Ok(copies)
}

/// Copies of parts behind an operand.
#[cycle(code)]
pub fn copy_parts(alloc: Global, parts: &[Part]) -> Result<Items<Part>, AllocError>
    ensures { IfOk result (λ copies. copies ≡ parts.now) }
{
    let mut copies = Items::new(alloc);
    for part in parts {
        copies.push(copy_part(alloc, part)?)?;
    }
    Ok(copies)
}

#[cycle(code)]
fn copy_part(alloc: Global, part: &Part) -> Result<Part, AllocError>
    ensures { IfOk result (λ copy. copy ≡ part.now) }
{
    match part {
        Part::Member(end, name, closure) => {
            Ok(Part::Member(*end, *name, copy_trailing(alloc, closure)?))
        }
        Part::Index(end, indices) => Ok(Part::Index(*end, copy_exprs(alloc, indices.as_slice())?)),
        Part::Call(end, arguments, closure) => {
            let arguments = copy_arguments(alloc, arguments.as_slice())?;
            let closure = copy_trailing(alloc, closure)?;
            Ok(Part::Call(*end, arguments, closure))
        }
    }
}

#[cycle(code)]
fn copy_exprs(alloc: Global, exprs: &[Expr]) -> Result<Items<Expr>, AllocError>
    ensures { IfOk result (λ copies. copies ≡ exprs.now) }
{
    let mut copies = Items::new(alloc);
    for expr in exprs {
        copies.push(copy_expr(alloc, expr)?)?;
    }
    Ok(copies)
}

#[cycle(code)]
fn copy_arguments(alloc: Global, arguments: &[Argument]) -> Result<Items<Argument>, AllocError>
    ensures { IfOk result (λ copies. copies ≡ arguments.now) }
{
    let mut copies = Items::new(alloc);
    for argument in arguments {
        copies.push(Argument {
            span: argument.span,
            label: argument.label,
            ampersand: argument.ampersand,
            value: copy_expr(alloc, &argument.value)?,
        })?;
    }
    Ok(copies)
}

#[cycle(code)]
fn copy_statements(alloc: Global, statements: &[Statement]) -> Result<Items<Statement>, AllocError>
    ensures { IfOk result (λ copies. copies ≡ statements.now) }
{
    let mut copies = Items::new(alloc);
    for statement in statements {
        copies.push(copy_statement(alloc, statement)?)?;
    }
    Ok(copies)
}

/// A copy of a statement.
#[cycle(code)]
pub fn copy_statement(alloc: Global, statement: &Statement) -> Result<Statement, AllocError>
    ensures { IfOk result (λ copy. copy ≡ statement.now) }
{
    Ok(Statement {
        span: statement.span,
        form: copy_statement_form(alloc, &statement.form)?,
    })
}

#[cycle(code)]
fn copy_statement_form(alloc: Global, form: &StatementForm) -> Result<StatementForm, AllocError>
    ensures { IfOk result (λ copy. copy ≡ form.now) }
{
    match form {
        StatementForm::Expr(expr) => Ok(StatementForm::Expr(copy_expr(alloc, expr)?)),
        StatementForm::Assign(assignment, left, right) => {
            let left = copy_expr(alloc, left)?;
            let right = copy_expr(alloc, right)?;
            Ok(StatementForm::Assign(*assignment, left, right))
        }
        StatementForm::If(condition, block, otherwise) => {
            let condition = copy_expr(alloc, condition)?;
            let block = copy_block(alloc, block)?;
            let otherwise = copy_else(alloc, otherwise)?;
            Ok(StatementForm::If(condition, block, otherwise))
        }
        StatementForm::While(condition, block) => {
            let condition = copy_expr(alloc, condition)?;
            let block = copy_block(alloc, block)?;
            Ok(StatementForm::While(condition, block))
        }
        StatementForm::Return(value) => Ok(StatementForm::Return(copy_value(alloc, value)?)),
        StatementForm::Break => Ok(StatementForm::Break),
        StatementForm::Continue => Ok(StatementForm::Continue),
        StatementForm::Local(local) => Ok(StatementForm::Local(copy_local(alloc, local)?)),
    }
}

#[cycle(code)]
fn copy_value(alloc: Global, value: &Option<Expr>) -> Result<Option<Expr>, AllocError>
    ensures { IfOk result (λ copy. copy ≡ value.now) }
{
    match value {
        Some(value) => Ok(Some(copy_expr(alloc, value)?)),
        None => Ok(None),
    }
}

/// A copy of a block.
#[cycle(code)]
pub fn copy_block(alloc: Global, block: &Block) -> Result<Block, AllocError>
    ensures { IfOk result (λ copy. copy ≡ block.now) }
{
    Ok(Block {
        span: block.span,
        statements: copy_statements(alloc, block.statements.as_slice())?,
    })
}

#[cycle(code)]
fn copy_else(alloc: Global, otherwise: &Else) -> Result<Else, AllocError>
    ensures { IfOk result (λ copy. copy ≡ otherwise.now) }
{
    match otherwise {
        Else::Absent => Ok(Else::Absent),
        Else::Block(block) => Ok(Else::Block(copy_block(alloc, block)?)),
        Else::ElseIf(statement) => {
            let copy = copy_statement(alloc, statement.get())?;
            Ok(Else::ElseIf(Boxed::new(alloc, copy)?))
        }
    }
}

#[cycle(code)]
fn copy_local(alloc: Global, local: &Local) -> Result<Local, AllocError>
    ensures { IfOk result (λ copy. copy ≡ local.now) }
{
    let ty = copy_written(alloc, &local.ty)?;
    let value = copy_expr(alloc, &local.value)?;
    Ok(Local {
        constant: local.constant,
        name: local.name,
        ty,
        value,
    })
}
