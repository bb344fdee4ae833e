// The arguments of calls.

ghost use Rattle.std.specs.Prelude.{◌≡◌, IfOk, map};
ghost use Rattle.sx_calls.specs.Calls as calls;
ghost use Rattle.sx_calls.specs.Parts.{trailing_shape};
ghost use Rattle.sx_check_expr.specs.Arguments.{judged_arguments, number_of_label, shape_of, shapes_of, trailing_argument};
ghost use Rattle.sx_check_expr.specs.Deeper.{JudgesExprs, JudgesStatements};
ghost use Rattle.sx_check_expr.specs.Judge.{judged_argument};
ghost use Rattle.sx_scope.specs.Verdict.{◌▷◌, Answers, both, found, typed};
ghost use Rattle.sx_scope.specs.Walks.{numbered};

use crate::deeper::{JudgedStatement, judge_expr};
use crate::literals::literal;
use sqlite_items::Items;
use std::alloc::{AllocError, Global};
use sx_calls::{Passed, Shape, Slot, add_argument, asked_in, settled, use_in};
use sx_scope::{Asked, Declarations, Found, Judged, Place, TypeStop, Use, Walk, both};
use sx_tree::{Argument, Closure, Expr, Name, Statement};

/// What is judged of an argument: its value, where that counts.
type JudgedArgument = Result<Found<Option<sx_typed::Expr>>, TypeStop>;

/// What is judged of arguments.
pub(crate) type JudgedArguments = Result<Found<Passed>, TypeStop>;

/// How the arguments of a call are written, a closure literal behind it as the last.
pub(crate) fn shapes_of(
    alloc: Global,
    arguments: &[Argument],
    closure: &Option<Closure>,
) -> Result<Vec<Shape>, AllocError>
    ensures { IfOk result (λ v. v.items ≡ shapes_of arguments.now closure.now) }
{
    let mut shapes = argument_shapes(alloc, arguments)?;
    if closure.is_some() {
        shapes.push(trailing_shape())?;
    }
    Ok(shapes)
}

fn argument_shapes(alloc: Global, mut arguments: &[Argument]) -> Result<Vec<Shape>, AllocError>
    ensures { IfOk result (λ v. v.items ≡ map shape_of arguments.entry.now) }
{
    let mut shapes = Vec::new(alloc);
    'arguments: while let Some((argument, rest)) = arguments.split_first() {
        shapes.push(shape_of(argument))?;
        arguments = rest;
    }
    Ok(shapes)
}

/// How an argument in the brackets is written.
fn shape_of(argument: &Argument) -> Shape
    ensures { result ≡ shape_of argument.now }
{
    Shape {
        label: label_of(&argument.label),
        ampersand: argument.ampersand,
        trailing: false,
    }
}

/// The number of a label's name.
fn label_of(label: &Option<Name>) -> Option<u32>
    ensures { result ≡ number_of_label label.now }
{
    match label {
        None => None,
        Some(label) => Some(label.number),
    }
}

/// How a closure literal behind a call is written.
fn trailing_shape() -> Shape
    ensures { result ≡ trailing_shape }
{
    Shape {
        label: None,
        ampersand: None,
        trailing: true,
    }
}

/// The arguments of a call one after another, by what each is for.
pub(crate) fn run_arguments<
    E: Fn(&mut Walk, Place, Asked, Use, &Expr) -> Judged,
    S: Fn(&mut Walk, Place, &Statement) -> JudgedStatement,
>(
    alloc: Global,
    declarations: &Declarations,
    exprs: &E,
    rows: &S,
    walk: &mut Walk,
    place: Place,
    mut slots: &[Slot],
    mut arguments: &[Argument],
    closure: &Option<Closure>,
) -> JudgedArguments
    requires exprs { JudgesExprs declarations.now (E.pre exprs.now) (E.post exprs.now) }
    requires rows { JudgesStatements declarations.now (S.pre rows.now) (S.post rows.now) }
    ensures { Answers result walk.new (calls.run_arguments place (typed calls.nothing_passed walk.old) slots.entry.now (judged_arguments declarations.now arguments.entry.now closure.now)) }
{
    let mut passed = Found::Typed(nothing_passed(alloc));
    'arguments: while let Some((argument, rest)) = arguments.split_first() {
        let (slot, others) = next_slot(slots);
        passed = run_argument(
            alloc,
            declarations,
            exprs,
            walk,
            place,
            passed,
            slot,
            argument,
        )?;
        slots = others;
        arguments = rest;
    }
    let (slot, _) = next_slot(slots);
    match closure {
        Some(closure) => {
            run_trailing(
                alloc,
                declarations,
                exprs,
                rows,
                walk,
                place,
                passed,
                slot,
                closure,
            )
        }
        None => Ok(passed),
    }
}

fn nothing_passed(alloc: Global) -> Passed
    ensures { result ≡ calls.nothing_passed }
{
    Passed {
        arguments: Items::new(alloc),
        given: Items::new(alloc),
        printed: None,
    }
}

/// What the next argument is for, and what the others are for.
fn next_slot(slots: &[Slot]) -> (Slot, &[Slot])
    ensures first { result.0 ≡ calls.first_slot slots.now }
    ensures others { result.1.now ≡ calls.other_slots slots.now }
{
    match slots {
        [] => (Slot::Loose, slots),
        [first, others @ ..] => (*first, others),
    }
}

/// An argument, behind those that were passed.
fn run_argument<E: Fn(&mut Walk, Place, Asked, Use, &Expr) -> Judged>(
    alloc: Global,
    declarations: &Declarations,
    exprs: &E,
    walk: &mut Walk,
    place: Place,
    passed: Found<Passed>,
    slot: Slot,
    argument: &Argument,
) -> JudgedArguments
    requires { JudgesExprs declarations.now (E.pre exprs.now) (E.post exprs.now) }
    ensures { Answers result walk.new (calls.run_argument place (found passed walk.old) slot (judged_argument declarations.now argument.now)) }
{
    match argument_value(declarations, exprs, walk, place, slot, argument) {
        Ok(value) => pass(alloc, walk, passed, slot, shape_of(argument), value),
        Err(stop) => Err(stop),
    }
}

/// A closure literal behind a call, behind the arguments that were passed.
fn run_trailing<
    E: Fn(&mut Walk, Place, Asked, Use, &Expr) -> Judged,
    S: Fn(&mut Walk, Place, &Statement) -> JudgedStatement,
>(
    alloc: Global,
    declarations: &Declarations,
    exprs: &E,
    rows: &S,
    walk: &mut Walk,
    place: Place,
    passed: Found<Passed>,
    slot: Slot,
    closure: &Closure,
) -> JudgedArguments
    requires exprs { JudgesExprs declarations.now (E.pre exprs.now) (E.post exprs.now) }
    requires rows { JudgesStatements declarations.now (S.pre rows.now) (S.post rows.now) }
    ensures { Answers result walk.new (calls.run_argument place (found passed walk.old) slot (trailing_argument declarations.now closure.now)) }
{
    match trailing_value(alloc, declarations, exprs, rows, walk, place, slot, closure) {
        Ok(value) => pass(alloc, walk, passed, slot, trailing_shape(), value),
        Err(stop) => Err(stop),
    }
}

fn argument_value<E: Fn(&mut Walk, Place, Asked, Use, &Expr) -> Judged>(
    declarations: &Declarations,
    exprs: &E,
    walk: &mut Walk,
    place: Place,
    slot: Slot,
    argument: &Argument,
) -> JudgedArgument
    requires { JudgesExprs declarations.now (E.pre exprs.now) (E.post exprs.now) }
    ensures { Answers result walk.new (numbered (calls.argument_value place slot (judged_argument declarations.now argument.now)) walk.old) }
{
    let node = walk.take_node()?;
    let shape = shape_of(argument);
    let (wanted, used) = (asked_in(slot), use_in(slot, shape));
    let value = judge_expr(
        declarations,
        exprs,
        walk,
        place,
        wanted,
        used,
        &argument.value,
    )?;
    settled(walk, slot, node, shape, value)
}

fn trailing_value<
    E: Fn(&mut Walk, Place, Asked, Use, &Expr) -> Judged,
    S: Fn(&mut Walk, Place, &Statement) -> JudgedStatement,
>(
    alloc: Global,
    declarations: &Declarations,
    exprs: &E,
    rows: &S,
    walk: &mut Walk,
    place: Place,
    slot: Slot,
    closure: &Closure,
) -> JudgedArgument
    requires exprs { JudgesExprs declarations.now (E.pre exprs.now) (E.post exprs.now) }
    requires rows { JudgesStatements declarations.now (S.pre rows.now) (S.post rows.now) }
    ensures { Answers result walk.new (numbered (calls.argument_value place slot (trailing_argument declarations.now closure.now)) walk.old) }
{
    let node = walk.take_node()?;
    let shape = trailing_shape();
    let (wanted, used) = (asked_in(slot), use_in(slot, shape));
    let value = literal(
        alloc,
        declarations,
        exprs,
        rows,
        walk,
        place,
        wanted,
        used,
        closure,
    )?;
    settled(walk, slot, node, shape, value)
}

/// What was passed, and one more argument that was found.
fn pass(
    alloc: Global,
    walk: &Walk,
    passed: Found<Passed>,
    slot: Slot,
    shape: Shape,
    value: Found<Option<sx_typed::Expr>>,
) -> JudgedArguments
    ensures { Answers result walk.now (both (found passed walk.now) (λ _. found value walk.now) ▷ calls.argument_added slot shape) }
{
    match both(passed, value) {
        Found::Typed((passed, value)) => argument_added(alloc, walk, passed, slot, shape, value),
        Found::Untold => Ok(Found::Untold),
        Found::Depends => Ok(Found::Depends),
    }
}

fn argument_added(
    alloc: Global,
    walk: &Walk,
    mut passed: Passed,
    slot: Slot,
    shape: Shape,
    value: Option<sx_typed::Expr>,
) -> JudgedArguments
    ensures { Answers result walk.now (calls.argument_added slot shape (passed, value) walk.now) }
{
    add_argument(alloc, &mut passed, slot, shape, value)?;
    Ok(Found::Typed(passed))
}
