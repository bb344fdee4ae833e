// Arrays.

ghost use Rattle.std.specs.Prelude.{◌≡◌, [], IfOk, map};
ghost use Rattle.sx_check_expr.specs.Deeper.{JudgesExprs};
ghost use Rattle.sx_check_expr.specs.Judge as judge;
ghost use Rattle.sx_check_expr.specs.Judge.{judged_expr};
ghost use Rattle.sx_scope.specs.Verdict.{◌▷◌, Answers, both, found, typed};
ghost use Rattle.sx_scope.specs.declared.walk.Use.TheVariants as uses;

use crate::deeper::judge_expr;
use sqlite_items::Items;
use std::alloc::{AllocError, Global};
use sx_calls::give;
use sx_scope::{Asked, Declarations, Found, Judged, Place, TypeStop, Use, Walk, both};
use sx_span::Node;
use sx_tree::Expr;
use sx_types::Ty;

/// What is judged of expressions in a row.
type FoundExprs = Found<Items<sx_typed::Expr>>;

/// An array of integers.
pub(crate) fn array_value<E: Fn(&mut Walk, Place, Asked, Use, &Expr) -> Judged>(
    alloc: Global,
    declarations: &Declarations,
    exprs: &E,
    walk: &mut Walk,
    place: Place,
    asked: Asked,
    site: u32,
    elements: &[Expr],
) -> Judged
    requires { JudgesExprs declarations.now (E.pre exprs.now) (E.post exprs.now) }
    ensures { Answers result walk.new (judge.array_value (map (judged_expr declarations.now) elements.now) site place asked uses.Kept walk.old) }
{
    let node = walk.take_node()?;
    match run_elements(alloc, declarations, exprs, walk, place, elements)? {
        Found::Typed(elements) => array_made(walk, asked, node, site, elements),
        Found::Untold => Ok(Found::Untold),
        Found::Depends => Ok(Found::Depends),
    }
}

fn run_elements<E: Fn(&mut Walk, Place, Asked, Use, &Expr) -> Judged>(
    alloc: Global,
    declarations: &Declarations,
    exprs: &E,
    walk: &mut Walk,
    place: Place,
    mut elements: &[Expr],
) -> Result<FoundExprs, TypeStop>
    requires { JudgesExprs declarations.now (E.pre exprs.now) (E.post exprs.now) }
    ensures { Answers result walk.new (judge.run_elements place (typed [] walk.old) (map (judged_expr declarations.now) elements.entry.now)) }
{
    let integer = Asked::Type(Ty::Int);
    let mut found = Found::Typed(Items::new(alloc));
    'elements: while let Some((element, rest)) = elements.split_first() {
        let element = judge_expr(
            declarations,
            exprs,
            walk,
            place,
            integer,
            Use::Kept,
            element,
        )?;
        found = with_element(found, element)?;
        elements = rest;
    }
    Ok(found)
}

/// What is found of elements, and one more behind them.
fn with_element(
    elements: FoundExprs,
    element: Found<sx_typed::Expr>,
) -> Result<FoundExprs, AllocError>
    ensures { IfOk result (λ f. (v : _) (w : _) → found f w ≡ both (found elements v) (λ _. found element w) ▷ judge.element_added) }
{
    match both(elements, element) {
        Found::Typed((mut elements, element)) => {
            elements.push(element)?;
            Ok(Found::Typed(elements))
        }
        Found::Untold => Ok(Found::Untold),
        Found::Depends => Ok(Found::Depends),
    }
}

fn array_made(
    walk: &Walk,
    asked: Asked,
    node: Node,
    site: u32,
    elements: Items<sx_typed::Expr>,
) -> Judged
    ensures { Answers result walk.now (judge.array_made node site asked elements walk.now) }
{
    let value = sx_typed::Expr {
        node,
        site,
        ty: Ty::Array,
        form: sx_typed::Form::Elements(elements),
    };
    give(walk, node, asked, value)
}
