// The `var`s of blocks.

ghost use Rattle.std.specs.Prelude.{◌≡◌, ◌++◌, ◌∷◌, [], IfOk, OnOk, map};
ghost use Rattle.sx_check_decl.specs.Locals as locals;

use sqlite_items::Items;
use std::alloc::{AllocError, Global};
use sx_span::Node;
use sx_typed::{Function, Statement, StatementForm};

/// The `var`s of the blocks of a program, each once, in the order of their nodes.
pub fn variables_of(
    alloc: Global,
    top: &[Statement],
    functions: &[Function],
) -> Result<Items<Node>, AllocError>
    ensures { IfOk result (λ l. locals.AreInOrder (locals.variables_of top.now functions.now) l) }
{
    let mut numbers = Vec::new(alloc);
    put_block(&mut numbers, top)?;
    put_functions(&mut numbers, functions)?;
    numbers.sort_unstable();
    numbers.dedup();
    nodes_of(alloc, numbers.as_slice())
}

fn put_functions(variables: &mut Vec<u32>, functions: &[Function]) -> Result<(), AllocError>
    ensures { OnOk result (variables.new.items ≡ variables.old.items ++ locals.all (map locals.function_variables functions.now)) }
{
    for function in functions {
        put_block(variables, function.body.as_slice())?;
    }
    Ok(())
}

#[cycle(statements)]
fn put_block(variables: &mut Vec<u32>, block: &[Statement]) -> Result<(), AllocError>
    ensures { OnOk result (variables.new.items ≡ variables.old.items ++ locals.block_variables block.now) }
{
    for statement in block {
        put_statement(variables, statement)?;
    }
    Ok(())
}

#[cycle(statements)]
fn put_statement(variables: &mut Vec<u32>, statement: &Statement) -> Result<(), AllocError>
    ensures { OnOk result (variables.new.items ≡ variables.old.items ++ locals.statement_variables statement.now) }
{
    match &statement.form {
        StatementForm::Local(local, _) => put(variables, local.node),
        StatementForm::If(_, first, second) => {
            put_block(variables, first.as_slice())?;
            put_block(variables, second.as_slice())
        }
        StatementForm::While(_, block) => put_block(variables, block.as_slice()),
        StatementForm::Expr(_)
        | StatementForm::Constant(_, _)
        | StatementForm::Global(_, _)
        | StatementForm::Assign(_, _)
        | StatementForm::Compound(_, _, _)
        | StatementForm::Return(_)
        | StatementForm::Break
        | StatementForm::Continue => Ok(()),
    }
}

fn put(variables: &mut Vec<u32>, node: Node) -> Result<(), AllocError>
    ensures { OnOk result (variables.new.items ≡ variables.old.items ++ node.0 ∷ []) }
{
    variables.push(node.0)?;
    Ok(())
}

/// The nodes with these numbers.
fn nodes_of(alloc: Global, numbers: &[u32]) -> Result<Items<Node>, AllocError>
    ensures { IfOk result (λ nodes. map locals.number nodes ≡ numbers.now) }
{
    let mut nodes = Items::new(alloc);
    'numbers: for number in numbers {
        nodes.push(Node(*number))?;
    }
    Ok(nodes)
}
