// Stacks of pieces that are still to be walked through, the next one last.

ghost use Rattle.std.specs.Prelude.{◌≡◌, ◌∷◌, ◌++◌, OnOk, map};
ghost use Rattle.sx_nodes.specs.Pieces as nodes;
ghost use Rattle.sx_nodes.specs.Pieces.{Piece as pieces};
ghost use Rattle.sx_nodes.specs.Stacks.{piece, walked};

use crate::pieces::{MakesNodes, Piece};
use std::alloc::AllocError;
use sx_tree::{
    Closure, Else, Expr, ExprForm, Function, Part, Signature, StatementForm, Subscript, TypeForm,
    Variable, WrittenType,
};

/// Puts a piece before what is still to be walked through.
fn push<'a>(open: &mut Vec<Piece<'a>>, next: Piece<'a>) -> Result<(), AllocError>
    ensures { OnOk result (walked open.new.items ≡ piece next.entry ∷ walked open.old.items) }
{
    open.push(next)?;
    Ok(())
}

/// Puts the pieces of a list before what is still to be walked through.
pub fn push_all<'a, T: MakesNodes>(
    open: &mut Vec<Piece<'a>>,
    mut items: &'a [T],
) -> Result<(), AllocError>
    ensures { OnOk result (walked open.new.items ≡ map T.stands_for items.entry.now ++ walked open.old.items) }
{
    'items: while let Some((last, rest)) = items.split_last() {
        push(open, last.piece())?;
        items = rest;
    }
    Ok(())
}

fn push_written<'a>(
    open: &mut Vec<Piece<'a>>,
    ty: &'a Option<WrittenType>,
) -> Result<(), AllocError>
    ensures { OnOk result (walked open.new.items ≡ nodes.optional pieces.written ty.now ++ walked open.old.items) }
{
    match ty {
        Some(ty) => push(open, Piece::Written(ty)),
        None => Ok(()),
    }
}

fn push_value<'a>(open: &mut Vec<Piece<'a>>, value: &'a Option<Expr>) -> Result<(), AllocError>
    ensures { OnOk result (walked open.new.items ≡ nodes.optional pieces.expression value.now ++ walked open.old.items) }
{
    match value {
        Some(value) => push(open, Piece::Expression(value)),
        None => Ok(()),
    }
}

fn push_trailing<'a>(
    open: &mut Vec<Piece<'a>>,
    closure: &'a Option<Closure>,
) -> Result<(), AllocError>
    ensures { OnOk result (walked open.new.items ≡ nodes.optional pieces.trailing closure.now ++ walked open.old.items) }
{
    match closure {
        Some(closure) => push(open, Piece::Trailing(closure)),
        None => Ok(()),
    }
}

fn push_in_function<'a>(open: &mut Vec<Piece<'a>>, function: &'a Function) -> Result<(), AllocError>
    ensures { OnOk result (walked open.new.items ≡ nodes.inner (pieces.function function.now) ++ walked open.old.items) }
{
    push(open, Piece::Block(&function.body))?;
    push_written(open, &function.result)?;
    push_all(open, function.parameters.as_slice())
}

fn push_in_variable<'a>(open: &mut Vec<Piece<'a>>, variable: &'a Variable) -> Result<(), AllocError>
    ensures { OnOk result (walked open.new.items ≡ nodes.inner (pieces.variable variable.now) ++ walked open.old.items) }
{
    push_all(open, variable.accessors.as_slice())?;
    push_value(open, &variable.value)?;
    push_written(open, &variable.ty)
}

fn push_in_subscript<'a>(
    open: &mut Vec<Piece<'a>>,
    subscript: &'a Subscript,
) -> Result<(), AllocError>
    ensures { OnOk result (walked open.new.items ≡ nodes.inner (pieces.subscript subscript.now) ++ walked open.old.items) }
{
    push_all(open, subscript.accessors.as_slice())?;
    push(open, Piece::Written(&subscript.result))?;
    push_all(open, subscript.parameters.as_slice())
}

fn push_in_type<'a>(open: &mut Vec<Piece<'a>>, form: &'a TypeForm) -> Result<(), AllocError>
    ensures { OnOk result (walked open.new.items ≡ nodes.in_type form.now ++ walked open.old.items) }
{
    match form {
        TypeForm::Named(_) | TypeForm::Unit | TypeForm::Array(_) => Ok(()),
        TypeForm::Bracketed(inner) => push(open, Piece::Written(inner.get())),
        TypeForm::Function(parameters, given) => {
            push(open, Piece::Written(given.get()))?;
            push_all(open, parameters.as_slice())
        }
    }
}

fn push_in_closure<'a>(open: &mut Vec<Piece<'a>>, closure: &'a Closure) -> Result<(), AllocError>
    ensures { OnOk result (walked open.new.items ≡ nodes.in_closure closure.now ++ walked open.old.items) }
{
    push_all(open, closure.body.as_slice())?;
    push_in_signature(open, &closure.signature)
}

fn push_in_signature<'a>(
    open: &mut Vec<Piece<'a>>,
    signature: &'a Signature,
) -> Result<(), AllocError>
    ensures { OnOk result (walked open.new.items ≡ nodes.in_signature signature.now ++ walked open.old.items) }
{
    match signature {
        Signature::Absent => Ok(()),
        Signature::Names(names) => push_all(open, names.as_slice()),
        Signature::Typed(parameters, given) => {
            push_written(open, given)?;
            push_all(open, parameters.as_slice())
        }
    }
}

fn push_in_statement<'a>(
    open: &mut Vec<Piece<'a>>,
    form: &'a StatementForm,
) -> Result<(), AllocError>
    ensures { OnOk result (walked open.new.items ≡ nodes.in_statement form.now ++ walked open.old.items) }
{
    match form {
        StatementForm::Expr(expr) => push(open, Piece::Expression(expr)),
        StatementForm::Assign(_, left, right) => {
            push(open, Piece::Expression(right))?;
            push(open, Piece::Expression(left))
        }
        StatementForm::If(condition, block, otherwise) => {
            push_else(open, otherwise)?;
            push(open, Piece::Block(block))?;
            push(open, Piece::Expression(condition))
        }
        StatementForm::While(condition, block) => {
            push(open, Piece::Block(block))?;
            push(open, Piece::Expression(condition))
        }
        StatementForm::Return(value) => push_value(open, value),
        StatementForm::Break | StatementForm::Continue => Ok(()),
        StatementForm::Local(local) => {
            push(open, Piece::Expression(&local.value))?;
            push_written(open, &local.ty)
        }
    }
}

fn push_else<'a>(open: &mut Vec<Piece<'a>>, otherwise: &'a Else) -> Result<(), AllocError>
    ensures { OnOk result (walked open.new.items ≡ nodes.in_else otherwise.now ++ walked open.old.items) }
{
    match otherwise {
        Else::Absent => Ok(()),
        Else::Block(block) => push(open, Piece::Block(block)),
        Else::ElseIf(statement) => push(open, Piece::Statement(statement.get())),
    }
}

fn push_in_expression<'a>(open: &mut Vec<Piece<'a>>, form: &'a ExprForm) -> Result<(), AllocError>
    ensures { OnOk result (walked open.new.items ≡ nodes.in_form form.now ++ walked open.old.items) }
{
    match form {
        ExprForm::Int(_)
        | ExprForm::LeastInt
        | ExprForm::Bool(_)
        | ExprForm::SelfWord
        | ExprForm::PrintText(_) => Ok(()),
        ExprForm::Named(_, closure) => push_trailing(open, closure),
        ExprForm::Bracketed(inner) | ExprForm::Negate(inner) | ExprForm::Not(inner) => {
            push(open, Piece::Expression(inner.get()))
        }
        ExprForm::Chain(first, links) => {
            push_all(open, links.as_slice())?;
            push(open, Piece::Expression(first.get()))
        }
        ExprForm::Postfix(first, parts) => {
            push_in_parts(open, parts.as_slice())?;
            push(open, Piece::Expression(first.get()))
        }
        ExprForm::Closure(closure) => push_in_closure(open, closure),
        ExprForm::Array(elements) => push_all(open, elements.as_slice()),
    }
}

#[tactic(auto, using(crate::proofs::Lists::in_parts_append))]
fn push_in_parts<'a>(open: &mut Vec<Piece<'a>>, mut parts: &'a [Part]) -> Result<(), AllocError>
    ensures { OnOk result (walked open.new.items ≡ nodes.in_parts parts.entry.now ++ walked open.old.items) }
{
    'parts: while let Some((last, rest)) = parts.split_last() {
        push_in_part(open, last)?;
        parts = rest;
    }
    Ok(())
}

fn push_in_part<'a>(open: &mut Vec<Piece<'a>>, part: &'a Part) -> Result<(), AllocError>
    ensures { OnOk result (walked open.new.items ≡ nodes.in_part part.now ++ walked open.old.items) }
{
    match part {
        Part::Member(_, _, closure) => push_trailing(open, closure),
        Part::Index(_, indices) => push_all(open, indices.as_slice()),
        Part::Call(_, arguments, closure) => {
            push_trailing(open, closure)?;
            push_all(open, arguments.as_slice())
        }
    }
}

/// Puts what stands in a piece before what is still to be walked through.
pub fn push_inner<'a>(open: &mut Vec<Piece<'a>>, outer: Piece<'a>) -> Result<(), AllocError>
    ensures { OnOk result (walked open.new.items ≡ nodes.inner (piece outer.entry) ++ walked open.old.items) }
{
    match outer {
        Piece::Function(function) => push_in_function(open, function),
        Piece::Declaration(declaration) => push_all(open, declaration.members.as_slice()),
        Piece::Variable(variable) => push_in_variable(open, variable),
        Piece::Subscript(subscript) => push_in_subscript(open, subscript),
        Piece::Initialiser(initialiser) => {
            push(open, Piece::Block(&initialiser.body))?;
            push_all(open, initialiser.parameters.as_slice())
        }
        Piece::Accessor(accessor) => push(open, Piece::Block(&accessor.body)),
        Piece::Parameter(parameter) => push(open, Piece::Written(&parameter.ty)),
        Piece::Written(ty) => push_in_type(open, &ty.form),
        Piece::Name(_) => Ok(()),
        Piece::ClosureParameter(parameter) => push(open, Piece::Written(&parameter.ty)),
        Piece::Statement(statement) => push_in_statement(open, &statement.form),
        Piece::Block(block) => push_all(open, block.statements.as_slice()),
        Piece::Expression(expr) => push_in_expression(open, &expr.form),
        Piece::Argument(argument) => push(open, Piece::Expression(&argument.value)),
        Piece::Trailing(closure) => push(open, Piece::Closure(closure)),
        Piece::Closure(closure) => push_in_closure(open, closure),
    }
}
