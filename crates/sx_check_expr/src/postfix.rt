// The parts behind an operand.

ghost use Rattle.std.specs.Prelude.{◌≡◌, ◌+◌, ◌<◌, ◌≤◌, ◌^◌, ◌∷◌, false, IfErr, IfNone, IfOk, IfSome, length, map, option_map};
ghost use Rattle.sx_calls.specs.Calls as calls;
ghost use Rattle.sx_calls.specs.Parts.{JudgedPart, asked_before, own_nodes, own_nodes_of};
ghost use Rattle.sx_check_expr.specs.Arguments.{judged_arguments};
ghost use Rattle.sx_check_expr.specs.Deeper.{JudgesExprs, JudgesStatements};
ghost use Rattle.sx_check_expr.specs.Judge as judge;
ghost use Rattle.sx_check_expr.specs.Judge.{judged_argument, judged_closure, judged_expr, judged_part};
ghost use Rattle.sx_check_expr.specs.Steps as steps;
ghost use Rattle.sx_scope.specs.Names as names;
ghost use Rattle.sx_scope.specs.Verdict.{◌▷◌, Answers, found};
ghost use Rattle.sx_scope.specs.declared.stop.TypeStop.TheVariants.{NoMemory};
ghost use Rattle.sx_scope.specs.declared.walk.Use.TheVariants as uses;

use crate::calls::{call_value, called_value, callee};
use crate::deeper::{JudgedStatement, judge_expr};
use crate::indices::index_value;
use std::alloc::Global;
use sx_scope::{
    Asked, Declarations, Found, Judged, JudgedCallee, Place, TypeStop, Use, Walk, called_member,
    member_value,
};
use sx_span::Node;
use sx_tree::{Argument, Closure, Expr, ExprForm, Part, Statement};

/// An operand with parts behind it. Each makes its nodes with all that stands to its left.
pub(crate) fn postfix_value<
    E: Fn(&mut Walk, Place, Asked, Use, &Expr) -> Judged,
    S: Fn(&mut Walk, Place, &Statement) -> JudgedStatement,
>(
    alloc: Global,
    declarations: &Declarations,
    exprs: &E,
    rows: &S,
    walk: &mut Walk,
    place: Place,
    asked: Asked,
    site: u32,
    operand: &Expr,
    parts: &[Part],
) -> Judged
    requires exprs { JudgesExprs declarations.now (E.pre exprs.now) (E.post exprs.now) }
    requires rows { JudgesStatements declarations.now (S.pre rows.now) (S.post rows.now) }
    ensures { Answers result walk.new (judge.postfix_value declarations.now (judged_expr declarations.now operand.now) (map (judged_part declarations.now) parts.now) site place asked uses.Kept walk.old) }
{
    let count = own_nodes(parts)?;
    let start = walk.take_nodes(count)?;
    run_first(
        alloc,
        declarations,
        exprs,
        rows,
        walk,
        place,
        asked,
        start,
        count as u32,
        site,
        operand,
        parts,
    )
}

/// How many nodes parts make that start at the operand.
fn own_nodes(mut parts: &[Part]) -> Result<usize, TypeStop>
    ensures made { IfOk result (λ n. (d : _) → n ≡ own_nodes (map (judged_part d) parts.entry.now)) }
    ensures stop { IfErr result (λ e. e ≡ NoMemory) }
{
    let mut count: usize = 0;
    'parts: while let Some((part, rest)) = parts.split_first() {
        count = match count.checked_add(own_nodes_of(part)) {
            Some(count) => count,
            None => return Err(TypeStop::NoMemory),
        };
        parts = rest;
    }
    Ok(count)
}

fn own_nodes_of(part: &Part) -> usize
    ensures { (d : _) → result ≡ own_nodes_of (judged_part d part.now) }
{
    match part {
        Part::Member(_, _, closure) => {
            match closure {
                None => 1,
                Some(_) => 2,
            }
        }
        Part::Index(_, _) => 1,
        Part::Call(_, _, _) => 1,
    }
}

/// The operand, with the first part where that calls the operand, and the parts behind.
fn run_first<
    E: Fn(&mut Walk, Place, Asked, Use, &Expr) -> Judged,
    S: Fn(&mut Walk, Place, &Statement) -> JudgedStatement,
>(
    alloc: Global,
    declarations: &Declarations,
    exprs: &E,
    rows: &S,
    walk: &mut Walk,
    place: Place,
    asked: Asked,
    start: u32,
    left: u32,
    site: u32,
    operand: &Expr,
    parts: &[Part],
) -> Judged
    requires exprs { JudgesExprs declarations.now (E.pre exprs.now) (E.post exprs.now) }
    requires rows { JudgesStatements declarations.now (S.pre rows.now) (S.post rows.now) }
    requires left { left ≡ own_nodes (map (judged_part declarations.now) parts.now) }
    requires room { start + left < 2 ^ 32 }
    ensures { Answers result walk.new (judge.run_first declarations.now place asked start site (judged_expr declarations.now operand.now) (map (judged_part declarations.now) parts.now) walk.old) }
{
    match call_first(parts) {
        Some((arguments, closure, rest)) => {
            run_called(
                alloc,
                declarations,
                exprs,
                rows,
                walk,
                place,
                asked,
                start,
                left - 1,
                site,
                operand,
                arguments,
                closure,
                rest,
            )
        }
        None => {
            run_uncalled(
                alloc,
                declarations,
                exprs,
                rows,
                walk,
                place,
                asked,
                start,
                left,
                site,
                operand,
                parts,
            )
        }
    }
}

/// The arguments of a call with the closure literal behind it, where they stand first, and the
/// parts behind them.
fn call_first(parts: &[Part]) -> Option<(&[Argument], &Option<Closure>, &[Part])>
    ensures some { IfSome result (λ x. (d : _) → map (judged_part d) parts.now ≡ JudgedPart.Call (map (judged_argument d) x.0.now) (option_map (judged_closure d) x.1.now) ∷ map (judged_part d) x.2.now) }
    ensures none { IfNone result ((d : _) → steps.starts_call (map (judged_part d) parts.now) ≡ false) }
{
    match parts.split_first() {
        Some((Part::Call(_, arguments, closure), rest)) => {
            Some((arguments.as_slice(), closure, rest))
        }
        _ => None,
    }
}

/// An operand that is called, and the parts behind the call.
fn run_called<
    E: Fn(&mut Walk, Place, Asked, Use, &Expr) -> Judged,
    S: Fn(&mut Walk, Place, &Statement) -> JudgedStatement,
>(
    alloc: Global,
    declarations: &Declarations,
    exprs: &E,
    rows: &S,
    walk: &mut Walk,
    place: Place,
    asked: Asked,
    start: u32,
    left: u32,
    site: u32,
    operand: &Expr,
    arguments: &[Argument],
    closure: &Option<Closure>,
    parts: &[Part],
) -> Judged
    requires exprs { JudgesExprs declarations.now (E.pre exprs.now) (E.post exprs.now) }
    requires rows { JudgesStatements declarations.now (S.pre rows.now) (S.post rows.now) }
    requires left { left ≡ own_nodes (map (judged_part declarations.now) parts.now) }
    requires room { start + left < 2 ^ 32 }
    ensures { Answers result walk.new (steps.run_called declarations.now place asked start site (judged_expr declarations.now operand.now) (judged_arguments declarations.now arguments.now closure.now) (map (judged_part declarations.now) parts.now) walk.old) }
{
    let callee = callee(alloc, declarations, exprs, walk, place, site, operand)?;
    let wanted = asked_before(parts, asked);
    let node = Node(left + start);
    let value = call_value(
        alloc,
        declarations,
        exprs,
        rows,
        walk,
        place,
        wanted,
        node,
        site,
        arguments,
        closure,
        callee,
    )?;
    run_parts(
        alloc,
        declarations,
        exprs,
        rows,
        walk,
        place,
        asked,
        start,
        left,
        site,
        false,
        value,
        parts,
    )
}

/// An operand that isn't called, and the parts behind it.
fn run_uncalled<
    E: Fn(&mut Walk, Place, Asked, Use, &Expr) -> Judged,
    S: Fn(&mut Walk, Place, &Statement) -> JudgedStatement,
>(
    alloc: Global,
    declarations: &Declarations,
    exprs: &E,
    rows: &S,
    walk: &mut Walk,
    place: Place,
    asked: Asked,
    start: u32,
    left: u32,
    site: u32,
    operand: &Expr,
    parts: &[Part],
) -> Judged
    requires exprs { JudgesExprs declarations.now (E.pre exprs.now) (E.post exprs.now) }
    requires rows { JudgesStatements declarations.now (S.pre rows.now) (S.post rows.now) }
    requires left { left ≡ own_nodes (map (judged_part declarations.now) parts.now) }
    requires room { start + left < 2 ^ 32 }
    ensures { Answers result walk.new (steps.run_uncalled declarations.now place asked start site (judged_expr declarations.now operand.now) (map (judged_part declarations.now) parts.now) walk.old) }
{
    let wanted = Asked::Nothing;
    let value = judge_expr(declarations, exprs, walk, place, wanted, Use::Kept, operand)?;
    run_parts(
        alloc,
        declarations,
        exprs,
        rows,
        walk,
        place,
        asked,
        start,
        left,
        site,
        is_self(operand),
        value,
        parts,
    )
}

/// Whether an expression is the word `self`.
fn is_self(expr: &Expr) -> bool
    ensures { (d : _) → result ≡ (judged_expr d expr.now).is_self }
{
    match &expr.form {
        ExprForm::SelfWord => true,
        _ => false,
    }
}

/// The parts one after another, behind what is found to their left.
fn run_parts<
    E: Fn(&mut Walk, Place, Asked, Use, &Expr) -> Judged,
    S: Fn(&mut Walk, Place, &Statement) -> JudgedStatement,
>(
    alloc: Global,
    declarations: &Declarations,
    exprs: &E,
    rows: &S,
    walk: &mut Walk,
    place: Place,
    asked: Asked,
    start: u32,
    mut left: u32,
    site: u32,
    mut this: bool,
    mut value: Found<sx_typed::Expr>,
    mut parts: &[Part],
) -> Judged
    requires exprs { JudgesExprs declarations.now (E.pre exprs.now) (E.post exprs.now) }
    requires rows { JudgesStatements declarations.now (S.pre rows.now) (S.post rows.now) }
    requires left { left ≡ own_nodes (map (judged_part declarations.now) parts.now) }
    requires room { start + left < 2 ^ 32 }
    ensures { Answers result walk.new (judge.run_parts declarations.now place asked start site this (found value walk.old) (map (judged_part declarations.now) parts.entry.now)) }
{
    'parts: while let Some((part, rest)) = parts.split_first() {
        let behind = behind_step(part, rest);
        left -= step_nodes(part, rest);
        let wanted = asked_before(behind, asked);
        value = run_step(
            alloc,
            declarations,
            exprs,
            rows,
            walk,
            place,
            wanted,
            left + start,
            site,
            this,
            value,
            part,
            rest,
        )?;
        this = false;
        parts = behind;
    }
    Ok(value)
}

/// Only of the last part of a chain something is asked.
fn asked_before(parts: &[Part], asked: Asked) -> Asked
    ensures { (d : _) → result ≡ asked_before (map (judged_part d) parts.now) asked }
{
    match parts {
        [] => asked,
        [_, ..] => Asked::Nothing,
    }
}

/// What stands behind the step that begins with this part: a member and the arguments of its call
/// are one step.
fn behind_step<'a>(part: &Part, rest: &'a [Part]) -> &'a [Part]
    ensures behind { (d : _) → map (judged_part d) result.now ≡ steps.behind_step (judged_part d part.now) (map (judged_part d) rest.now) }
    ensures shorter { length result.now ≤ length rest.now }
{
    match part {
        Part::Member(_, _, closure) => {
            match closure {
                None => behind_member(rest),
                Some(_) => rest,
            }
        }
        Part::Index(_, _) => rest,
        Part::Call(_, _, _) => rest,
    }
}

fn behind_member(parts: &[Part]) -> &[Part]
    ensures behind { (d : _) → map (judged_part d) result.now ≡ steps.behind_member (map (judged_part d) parts.now) }
    ensures shorter { length result.now ≤ length parts.now }
{
    match parts.split_first() {
        Some((Part::Call(_, _, _), rest)) => rest,
        _ => parts,
    }
}

/// How many nodes the step makes that begins with this part.
fn step_nodes(part: &Part, rest: &[Part]) -> u32
    ensures { (d : _) → result ≡ steps.step_nodes (judged_part d part.now) (map (judged_part d) rest.now) }
{
    match part {
        Part::Member(_, _, closure) => {
            match closure {
                None => member_nodes(rest),
                Some(_) => 2,
            }
        }
        Part::Index(_, _) => 1,
        Part::Call(_, _, _) => 1,
    }
}

fn member_nodes(parts: &[Part]) -> u32
    ensures { (d : _) → result ≡ steps.member_nodes (map (judged_part d) parts.now) }
{
    match parts.first() {
        Some(Part::Call(_, _, _)) => 2,
        _ => 1,
    }
}

/// The step that begins with this part, behind what is found to its left. The whole of what it
/// makes has this number.
fn run_step<
    E: Fn(&mut Walk, Place, Asked, Use, &Expr) -> Judged,
    S: Fn(&mut Walk, Place, &Statement) -> JudgedStatement,
>(
    alloc: Global,
    declarations: &Declarations,
    exprs: &E,
    rows: &S,
    walk: &mut Walk,
    place: Place,
    asked: Asked,
    number: u32,
    site: u32,
    this: bool,
    value: Found<sx_typed::Expr>,
    part: &Part,
    rest: &[Part],
) -> Judged
    requires exprs { JudgesExprs declarations.now (E.pre exprs.now) (E.post exprs.now) }
    requires rows { JudgesStatements declarations.now (S.pre rows.now) (S.post rows.now) }
    requires room { number + 1 < 2 ^ 32 }
    ensures { Answers result walk.new (steps.step_value declarations.now place asked number site this (found value walk.old) (judged_part declarations.now part.now) (map (judged_part declarations.now) rest.now)) }
{
    match part {
        Part::Member(_, name, closure) => {
            run_member(
                alloc,
                declarations,
                exprs,
                rows,
                walk,
                place,
                asked,
                number,
                site,
                this,
                value,
                name.number,
                closure,
                rest,
            )
        }
        Part::Index(_, indices) => {
            let node = Node(number);
            index_value(
                alloc,
                declarations,
                exprs,
                walk,
                place,
                asked,
                node,
                site,
                indices.as_slice(),
                value,
            )
        }
        Part::Call(_, arguments, closure) => {
            run_call(
                alloc,
                declarations,
                exprs,
                rows,
                walk,
                place,
                asked,
                Node(number),
                site,
                value,
                arguments.as_slice(),
                closure,
            )
        }
    }
}

/// A member, which is called where arguments or a closure literal stand behind it.
fn run_member<
    E: Fn(&mut Walk, Place, Asked, Use, &Expr) -> Judged,
    S: Fn(&mut Walk, Place, &Statement) -> JudgedStatement,
>(
    alloc: Global,
    declarations: &Declarations,
    exprs: &E,
    rows: &S,
    walk: &mut Walk,
    place: Place,
    asked: Asked,
    number: u32,
    site: u32,
    this: bool,
    value: Found<sx_typed::Expr>,
    name: u32,
    closure: &Option<Closure>,
    rest: &[Part],
) -> Judged
    requires exprs { JudgesExprs declarations.now (E.pre exprs.now) (E.post exprs.now) }
    requires rows { JudgesStatements declarations.now (S.pre rows.now) (S.post rows.now) }
    requires room { number + 1 < 2 ^ 32 }
    ensures { Answers result walk.new (steps.step_value declarations.now place asked number site this (found value walk.old) (JudgedPart.Member name (option_map (judged_closure declarations.now) closure.now)) (map (judged_part declarations.now) rest.now)) }
{
    match closure {
        Some(_) => {
            run_method(
                alloc,
                declarations,
                exprs,
                rows,
                walk,
                place,
                asked,
                number,
                site,
                this,
                value,
                name,
                &[],
                closure,
            )
        }
        None => {
            run_plain_member(
                alloc,
                declarations,
                exprs,
                rows,
                walk,
                place,
                asked,
                number,
                site,
                this,
                value,
                name,
                rest,
            )
        }
    }
}

/// A member without a closure literal behind it.
fn run_plain_member<
    E: Fn(&mut Walk, Place, Asked, Use, &Expr) -> Judged,
    S: Fn(&mut Walk, Place, &Statement) -> JudgedStatement,
>(
    alloc: Global,
    declarations: &Declarations,
    exprs: &E,
    rows: &S,
    walk: &mut Walk,
    place: Place,
    asked: Asked,
    number: u32,
    site: u32,
    this: bool,
    value: Found<sx_typed::Expr>,
    name: u32,
    rest: &[Part],
) -> Judged
    requires exprs { JudgesExprs declarations.now (E.pre exprs.now) (E.post exprs.now) }
    requires rows { JudgesStatements declarations.now (S.pre rows.now) (S.post rows.now) }
    requires room { number + 1 < 2 ^ 32 }
    ensures { Answers result walk.new (steps.member_step declarations.now place asked number site this (found value walk.old) name (map (judged_part declarations.now) rest.now)) }
{
    match call_first(rest) {
        Some((arguments, closure, _)) => {
            run_method(
                alloc,
                declarations,
                exprs,
                rows,
                walk,
                place,
                asked,
                number,
                site,
                this,
                value,
                name,
                arguments,
                closure,
            )
        }
        None => {
            let node = Node(number);
            member_found(
                alloc,
                declarations,
                walk,
                place,
                asked,
                node,
                site,
                this,
                name,
                value,
            )
        }
    }
}

/// A member that is called. The call has this number, and the member the next.
fn run_method<
    E: Fn(&mut Walk, Place, Asked, Use, &Expr) -> Judged,
    S: Fn(&mut Walk, Place, &Statement) -> JudgedStatement,
>(
    alloc: Global,
    declarations: &Declarations,
    exprs: &E,
    rows: &S,
    walk: &mut Walk,
    place: Place,
    asked: Asked,
    number: u32,
    site: u32,
    this: bool,
    value: Found<sx_typed::Expr>,
    name: u32,
    arguments: &[Argument],
    closure: &Option<Closure>,
) -> Judged
    requires exprs { JudgesExprs declarations.now (E.pre exprs.now) (E.post exprs.now) }
    requires rows { JudgesStatements declarations.now (S.pre rows.now) (S.post rows.now) }
    requires room { number + 1 < 2 ^ 32 }
    ensures { Answers result walk.new (steps.method_value declarations.now place asked number site this (found value walk.old) name (map (judged_argument declarations.now) arguments.now) (option_map (judged_closure declarations.now) closure.now)) }
{
    let member = Node(1 + number);
    let callee = member_called(
        alloc,
        declarations,
        walk,
        place,
        member,
        site,
        this,
        name,
        value,
    )?;
    call_value(
        alloc,
        declarations,
        exprs,
        rows,
        walk,
        place,
        asked,
        Node(number),
        site,
        arguments,
        closure,
        callee,
    )
}

/// A call of what is found before its arguments.
fn run_call<
    E: Fn(&mut Walk, Place, Asked, Use, &Expr) -> Judged,
    S: Fn(&mut Walk, Place, &Statement) -> JudgedStatement,
>(
    alloc: Global,
    declarations: &Declarations,
    exprs: &E,
    rows: &S,
    walk: &mut Walk,
    place: Place,
    asked: Asked,
    node: Node,
    site: u32,
    value: Found<sx_typed::Expr>,
    arguments: &[Argument],
    closure: &Option<Closure>,
) -> Judged
    requires exprs { JudgesExprs declarations.now (E.pre exprs.now) (E.post exprs.now) }
    requires rows { JudgesStatements declarations.now (S.pre rows.now) (S.post rows.now) }
    ensures { Answers result walk.new (calls.call_value declarations.now place asked node site (judged_arguments declarations.now arguments.now closure.now) (found value walk.old ▷ judge.called_value)) }
{
    let callee = called_value(walk, value)?;
    call_value(
        alloc,
        declarations,
        exprs,
        rows,
        walk,
        place,
        asked,
        node,
        site,
        arguments,
        closure,
        callee,
    )
}

/// A member of what is found before it.
fn member_found(
    alloc: Global,
    declarations: &Declarations,
    walk: &mut Walk,
    place: Place,
    asked: Asked,
    node: Node,
    site: u32,
    this: bool,
    name: u32,
    value: Found<sx_typed::Expr>,
) -> Judged
    ensures { Answers result walk.new (found value walk.old ▷ names.member_value declarations.now place asked node site this name) }
{
    match value {
        Found::Typed(base) => {
            member_value(
                alloc,
                declarations,
                walk,
                place,
                asked,
                node,
                site,
                this,
                name,
                base,
            )
        }
        Found::Untold => Ok(Found::Untold),
        Found::Depends => Ok(Found::Depends),
    }
}

/// A member that is called, of what is found before it.
fn member_called(
    alloc: Global,
    declarations: &Declarations,
    walk: &mut Walk,
    place: Place,
    node: Node,
    site: u32,
    this: bool,
    name: u32,
    value: Found<sx_typed::Expr>,
) -> JudgedCallee
    ensures { Answers result walk.new (found value walk.old ▷ names.called_member declarations.now place node site this name) }
{
    match value {
        Found::Typed(base) => {
            called_member(
                alloc,
                declarations,
                walk,
                place,
                node,
                site,
                this,
                name,
                base,
            )
        }
        Found::Untold => Ok(Found::Untold),
        Found::Depends => Ok(Found::Depends),
    }
}
