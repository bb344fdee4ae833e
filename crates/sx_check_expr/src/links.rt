// Operators of one level, from left to right.

ghost use Rattle.std.specs.Prelude.{◌≡◌, ◌+◌, ◌<◌, ◌^◌, length, map};
ghost use Rattle.sx_calls.specs.Operators as operators;
ghost use Rattle.sx_check_expr.specs.Deeper.{JudgesExprs};
ghost use Rattle.sx_check_expr.specs.Judge.{chain_value, judged_expr, judged_link};
ghost use Rattle.sx_scope.specs.Verdict.{◌▷◌, Answers, both, found};
ghost use Rattle.sx_scope.specs.Walks.{node};
ghost use Rattle.sx_scope.specs.declared.walk.Use.TheVariants as uses;

use crate::deeper::judge_expr;
use std::alloc::Global;
use sx_calls::{give, left_asked, left_fitting, operated, right_asked};
use sx_scope::{Asked, Declarations, Found, Judged, Place, Use, Walk, both};
use sx_span::Node;
use sx_tree::{BinaryOperator, Expr, Link};

/// A chain of operators. Each link makes a node with all that stands to its left.
pub(crate) fn chain_value<E: Fn(&mut Walk, Place, Asked, Use, &Expr) -> Judged>(
    alloc: Global,
    declarations: &Declarations,
    exprs: &E,
    walk: &mut Walk,
    place: Place,
    asked: Asked,
    site: u32,
    first: &Expr,
    links: &[Link],
) -> Judged
    requires { JudgesExprs declarations.now (E.pre exprs.now) (E.post exprs.now) }
    ensures { Answers result walk.new (chain_value (judged_expr declarations.now first.now) (map (judged_link declarations.now) links.now) site place asked uses.Kept walk.old) }
{
    let start = walk.take_nodes(links.len())?;
    let wanted = asked_first(links);
    let left = judge_expr(declarations, exprs, walk, place, wanted, Use::Kept, first)?;
    let whole = run_links(
        alloc,
        declarations,
        exprs,
        walk,
        place,
        start,
        site,
        left,
        links,
    )?;
    give_found(walk, Node(start), asked, whole)
}

/// What the first link asks of the operand before it.
fn asked_first(links: &[Link]) -> Asked
    ensures { (d : _) → result ≡ operators.asked_first (map (judged_link d) links.now) }
{
    match links.first() {
        Some(link) => left_asked(link.operator),
        None => Asked::Nothing,
    }
}

/// The links one after another, behind what is found to their left.
fn run_links<E: Fn(&mut Walk, Place, Asked, Use, &Expr) -> Judged>(
    alloc: Global,
    declarations: &Declarations,
    exprs: &E,
    walk: &mut Walk,
    place: Place,
    start: u32,
    site: u32,
    mut left: Found<sx_typed::Expr>,
    mut links: &[Link],
) -> Judged
    requires deeper { JudgesExprs declarations.now (E.pre exprs.now) (E.post exprs.now) }
    requires room { start + length links.now < 2 ^ 32 }
    ensures { Answers result walk.new (operators.run_links place start site (found left walk.old) (map (judged_link declarations.now) links.entry.now)) }
{
    'links: while let Some((link, rest)) = links.split_first() {
        let node = Node(start + rest.len() as u32);
        left = linked(
            alloc,
            declarations,
            exprs,
            walk,
            place,
            node,
            site,
            left,
            link,
        )?;
        links = rest;
    }
    Ok(left)
}

/// The operation of a link and what is found to its left.
fn linked<E: Fn(&mut Walk, Place, Asked, Use, &Expr) -> Judged>(
    alloc: Global,
    declarations: &Declarations,
    exprs: &E,
    walk: &mut Walk,
    place: Place,
    node: Node,
    site: u32,
    left: Found<sx_typed::Expr>,
    link: &Link,
) -> Judged
    requires { JudgesExprs declarations.now (E.pre exprs.now) (E.post exprs.now) }
    ensures { Answers result walk.new (operators.linked place node site (judged_link declarations.now link.now) (found left walk.old)) }
{
    let left = fit_left(walk, link.operator, left)?;
    let wanted = right_asked(link.operator, &left);
    match judge_expr(
        declarations,
        exprs,
        walk,
        place,
        wanted,
        Use::Kept,
        &link.operand,
    ) {
        Ok(right) => operated_found(alloc, walk, link.operator, node, site, left, right),
        Err(stop) => Err(stop),
    }
}

/// What is found to the left of an operator, which fails where it doesn't fit.
fn fit_left(walk: &Walk, operator: BinaryOperator, left: Found<sx_typed::Expr>) -> Judged
    ensures { Answers result walk.now (found left walk.now ▷ operators.left_fitting operator) }
{
    match left {
        Found::Typed(left) => left_fitting(walk, operator, left),
        Found::Untold => Ok(Found::Untold),
        Found::Depends => Ok(Found::Depends),
    }
}

/// The operation on what is found on both sides.
fn operated_found(
    alloc: Global,
    walk: &Walk,
    operator: BinaryOperator,
    node: Node,
    site: u32,
    left: Found<sx_typed::Expr>,
    right: Found<sx_typed::Expr>,
) -> Judged
    ensures { Answers result walk.now (both (found left walk.now) (λ _. found right walk.now) ▷ operators.operated operator node site) }
{
    match both(left, right) {
        Found::Typed((left, right)) => operated(alloc, walk, operator, node, site, left, right),
        Found::Untold => Ok(Found::Untold),
        Found::Depends => Ok(Found::Depends),
    }
}

/// What is found, where it agrees with what is asked.
fn give_found(walk: &Walk, node: Node, asked: Asked, value: Found<sx_typed::Expr>) -> Judged
    ensures { Answers result walk.now (found value walk.now ▷ operators.given node asked) }
{
    match value {
        Found::Typed(value) => give(walk, node, asked, value),
        Found::Untold => Ok(Found::Untold),
        Found::Depends => Ok(Found::Depends),
    }
}
