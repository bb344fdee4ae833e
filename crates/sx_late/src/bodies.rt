// What statements and functions mention.

ghost use Rattle.std.specs.Prelude.{◌≡◌, ◌++◌, ◌∷◌, [], OnOk, map};
ghost use Rattle.sx_late.specs.Mentions.{block_mentions, body_mentions, default_mentions, expr_mentions, function_mentions, if_there, property_mentions, all, statement_mentions};

use crate::expressions::{put_expr, put_path};
use crate::mentions::{Mentioned, Purpose, declaration_of};
use sqlite_items::Items;
use std::alloc::AllocError;
use sx_span::Node;
use sx_typed::{Expr, Function, FunctionKind, Property, Statement, StatementForm, Typed};
use sx_types::Ty;

/// Adds what a statement mentions.
#[cycle(statements)]
pub fn put_statement(
    mentions: &mut Items<Mentioned>,
    typed: &Typed,
    statement: &Statement,
) -> Result<(), AllocError>
    ensures { OnOk result (mentions.new ≡ mentions.old ++ statement_mentions typed.now statement.now) }
{
    match &statement.form {
        StatementForm::Expr(value)
        | StatementForm::Constant(_, value)
        | StatementForm::Local(_, value)
        | StatementForm::Global(_, value) => put_expr(mentions, typed, value),
        StatementForm::Assign(path, value) => {
            put_path(mentions, typed, path, Purpose::Store)?;
            put_expr(mentions, typed, value)
        }
        StatementForm::Compound(_, path, value) => {
            put_path(mentions, typed, path, Purpose::Modify)?;
            put_expr(mentions, typed, value)
        }
        StatementForm::If(condition, block, otherwise) => {
            put_expr(mentions, typed, condition)?;
            put_block(mentions, typed, block.as_slice())?;
            put_block(mentions, typed, otherwise.as_slice())
        }
        StatementForm::While(condition, block) => {
            put_expr(mentions, typed, condition)?;
            put_block(mentions, typed, block.as_slice())
        }
        StatementForm::Return(value) => put_value(mentions, typed, value),
        StatementForm::Break | StatementForm::Continue => Ok(()),
    }
}

#[cycle(statements)]
fn put_block(
    mentions: &mut Items<Mentioned>,
    typed: &Typed,
    block: &[Statement],
) -> Result<(), AllocError>
    ensures { OnOk result (mentions.new ≡ mentions.old ++ block_mentions typed.now block.now) }
{
    for statement in block {
        put_statement(mentions, typed, statement)?;
    }
    Ok(())
}

fn put_value(
    mentions: &mut Items<Mentioned>,
    typed: &Typed,
    value: &Option<Expr>,
) -> Result<(), AllocError>
    ensures { OnOk result (mentions.new ≡ mentions.old ++ if_there (expr_mentions typed.now) value.now) }
{
    match value {
        Some(value) => put_expr(mentions, typed, value),
        None => Ok(()),
    }
}

/// Adds what the function with this node mentions.
pub fn put_body(
    mentions: &mut Items<Mentioned>,
    typed: &Typed,
    node: Node,
) -> Result<(), AllocError>
    ensures { OnOk result (mentions.new ≡ mentions.old ++ function_mentions typed.now node) }
{
    match typed.function(node) {
        Some(function) => put_body_of(mentions, typed, function),
        None => Ok(()),
    }
}

fn put_body_of(
    mentions: &mut Items<Mentioned>,
    typed: &Typed,
    function: &Function,
) -> Result<(), AllocError>
    ensures { OnOk result (mentions.new ≡ mentions.old ++ body_mentions typed.now function.now) }
{
    match function.kind {
        FunctionKind::Initialiser => match function.owner {
            Some(owner) => put_defaults(mentions, typed, owner),
            None => Ok(()),
        },
        _ => put_block(mentions, typed, function.body.as_slice()),
    }
}

/// Adds what the defaults of the stored properties of this type mention.
fn put_defaults(mentions: &mut Items<Mentioned>, typed: &Typed, ty: Ty) -> Result<(), AllocError>
    ensures { OnOk result (mentions.new ≡ mentions.old ++ default_mentions typed.now ty) }
{
    match declaration_of(typed, ty) {
        Some(declaration) => put_properties(mentions, typed, declaration.stored.as_slice()),
        None => Ok(()),
    }
}

fn put_properties(
    mentions: &mut Items<Mentioned>,
    typed: &Typed,
    properties: &[Property],
) -> Result<(), AllocError>
    ensures { OnOk result (mentions.new ≡ mentions.old ++ all (map (property_mentions typed.now) properties.now)) }
{
    for property in properties {
        put_value(mentions, typed, &property.default)?;
    }
    Ok(())
}
