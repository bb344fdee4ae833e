// The walk along what is mentioned.

ghost use Rattle.std.specs.Prelude.{◌≡◌, ◌↔◌, ◌++◌, ◌∷◌, [], None, IsTrue, IfOk, OnOk, MatchOption};
ghost use Rattle.sx_late.specs.Mentions.{function_mentions, statement_mentions};
ghost use Rattle.sx_late.specs.Reaching.{IsFirstLate, NoneLate, stores_global};
ghost use Rattle.sx_late.specs.Walking.{IsFollowed, IsLeastReached, IsPassed, Passes, TurnIs, Visits};

use crate::bodies::{put_body, put_statement};
use crate::mentions::Mentioned;
use indexmap::IndexSet;
use sqlite_items::Items;
use std::alloc::{AllocError, Global};
use sx_span::Node;
use sx_typed::{Statement, StatementForm, Typed};

/// The first statement of the outermost level that reaches a stored global declared at or after
/// it, and the first such global.
#[derive(Clone, Copy)]
pub struct LateReach {
    /// Its index in the code at the outermost level.
    pub statement: usize,
    pub global: u32,
}

/// The first statement that is late, or `None` where none is. But for finding functions by their
/// nodes it takes time in proportion to the program: what an earlier statement has reached lies
/// before it, and isn't followed again.
pub fn late(alloc: Global, typed: &Typed) -> Result<Option<LateReach>, AllocError>
    ensures { IfOk result (λ found. MatchOption found (NoneLate typed.now) (IsFirstLate typed.now)) }
{
    let mut seen = IndexSet::new(alloc);
    let mut declared = 0;
    let top = typed.top.as_slice();
    for index in 0..top.len() {
        let statement = &top[index];
        let least = reached(alloc, typed, &mut seen, declared, statement)?;
        if let Some(global) = least {
            return Ok(Some(LateReach {
                statement: index,
                global,
            }));
        }
        if stores_global(statement) {
            declared += 1;
        }
    }
    Ok(None)
}

/// Whether the statement stores the initial value of a stored global.
fn stores_global(statement: &Statement) -> bool
    ensures { result ≡ stores_global statement.now }
{
    match &statement.form {
        StatementForm::Global(_, _) => true,
        _ => false,
    }
}

/// The least global, of those from the first that isn't declared, that the statement reaches. It
/// goes on from the functions that were seen before, which reach none of those.
fn reached(
    alloc: Global,
    typed: &Typed,
    seen: &mut IndexSet<u32>,
    declared: usize,
    statement: &Statement,
) -> Result<Option<u32>, AllocError>
    requires { IsFollowed typed.now seen.old.keys declared None [] }
    ensures least { IfOk result (IsLeastReached typed.now (statement_mentions typed.now statement.now) declared) }
    ensures seen { IfOk result (λ least. IsFollowed typed.now seen.new.keys declared least []) }
{
    let mut work = Items::new(alloc);
    put_statement(&mut work, typed, statement)?;
    let mut least = None;
    'work: while let Some(mentioned) = work.pop() {
        least = turn(typed, seen, &mut work, declared, least, mentioned)?;
    }
    Ok(least)
}

/// Follows what is mentioned, and gives the least global that is reached then.
fn turn(
    typed: &Typed,
    seen: &mut IndexSet<u32>,
    work: &mut Items<Mentioned>,
    declared: usize,
    least: Option<u32>,
    mentioned: Mentioned,
) -> Result<Option<u32>, AllocError>
    ensures { IfOk result (TurnIs typed.now declared mentioned seen.old.keys work.old least seen.new.keys work.new) }
{
    match mentioned {
        Mentioned::Function(node) => {
            visit(typed, seen, work, node)?;
            Ok(least)
        }
        Mentioned::Global(global) => Ok(lower(typed.globals.len(), declared, least, global)),
    }
}

/// Follows the function with this node, where it hasn't been seen.
fn visit(
    typed: &Typed,
    seen: &mut IndexSet<u32>,
    work: &mut Items<Mentioned>,
    node: Node,
) -> Result<(), AllocError>
    ensures { OnOk result (Visits typed.now node seen.old.keys work.old seen.new.keys work.new) }
{
    if seen.insert(node.0)? {
        put_body(work, typed, node)
    } else {
        Ok(())
    }
}

/// The least global that is reached, with one more.
fn lower(count: usize, declared: usize, least: Option<u32>, global: u32) -> Option<u32>
    ensures { Passes count declared global least result }
{
    if is_passed(count, declared, least, global) {
        least
    } else {
        Some(global)
    }
}

/// Of so many globals, whether the one is declared, or none of them, or a lower one that isn't
/// declared has been reached.
fn is_passed(count: usize, declared: usize, least: Option<u32>, global: u32) -> bool
    ensures { IsTrue result ↔ IsPassed count declared least global }
{
    (global as usize) < declared
        || match least {
            Some(lowest) => lowest <= global,
            None => count <= global as usize,
        }
}
