// What functions are made of.

ghost use Rattle.std.specs.Prelude.{◌≡◌, ◌++◌, ◌∷◌, IfOk, OnOk, drop, map, take};
ghost use Rattle.sx_bodies.specs.Literals.{with_literal};
ghost use Rattle.sx_functions.specs.Functions as functions;
ghost use Rattle.sx_scope.specs.Verdict.{Answers, need_narrow, typed};
ghost use Rattle.sx_scope.specs.declared.walk.Walk.{Walk};

use sqlite_items::Items;
use std::alloc::{AllocError, Global};
use sx_heads::HeadParameter;
use sx_scope::{Found, Stack, TypeStop, Walk};
use sx_span::Node;
use sx_typed::{Function, Parameter};

/// A node whose parameters may not have too many words.
pub(crate) fn demand_narrow(walk: &Walk, narrow: bool, node: Node) -> Result<Found<()>, TypeStop>
    ensures { Answers result walk.now (need_narrow narrow node (typed tt) walk.now) }
{
    if narrow {
        Ok(Found::Typed(()))
    } else {
        Err(TypeStop::TooWide(node))
    }
}

/// The parameters of a head, as the function has them.
pub(crate) fn parameters_of(
    alloc: Global,
    mut head: &[HeadParameter],
) -> Result<Items<Parameter>, AllocError>
    ensures { IfOk result (λ ps. ps ≡ map functions.parameter_of head.entry.now) }
{
    let mut parameters = Items::new(alloc);
    'head: while let [first, rest @ ..] = head {
        parameters.push(first.parameter)?;
        head = rest;
    }
    Ok(parameters)
}

/// Adds a function before the functions of the walk from this index on.
pub(crate) fn add_function(
    walk: &mut Walk,
    before: usize,
    function: Function,
) -> Result<Found<()>, TypeStop>
    ensures { Answers result walk.new (typed tt (with_literal before function walk.old)) }
{
    insert(&mut walk.literals, before, function)?;
    Ok(Found::Typed(()))
}

fn insert(
    functions: &mut Stack<Function>,
    before: usize,
    function: Function,
) -> Result<(), AllocError>
    ensures { OnOk result (functions.new ≡ take before functions.old ++ function ∷ drop before functions.old) }
{
    let at = before.min(functions.len());
    functions.insert(at, function)
}
