// Subscripts.

ghost use Rattle.std.specs.Prelude.{◌≡◌, [], IfOk, length, map};
ghost use Rattle.sx_calls.specs.Calls as calls;
ghost use Rattle.sx_check_expr.specs.Deeper.{JudgesExprs};
ghost use Rattle.sx_check_expr.specs.Judge.{judged_expr};
ghost use Rattle.sx_scope.specs.Verdict.{◌▷◌, Answers, both, found, typed};

use crate::deeper::judge_expr;
use sqlite_items::Items;
use std::alloc::{AllocError, Global};
use sx_calls::{index_types, indexed_value};
use sx_scope::{Asked, Declarations, Found, Judged, Place, TypeStop, Use, Walk, both};
use sx_span::Node;
use sx_tree::Expr;
use sx_types::Ty;

/// What is found of indices in a row.
type FoundIndices = Found<Items<sx_typed::Expr>>;

/// What is judged of an index: its value, where that counts.
type JudgedIndex = Result<Found<Option<sx_typed::Expr>>, TypeStop>;

/// A subscript of what is found before it.
pub(crate) fn index_value<E: Fn(&mut Walk, Place, Asked, Use, &Expr) -> Judged>(
    alloc: Global,
    declarations: &Declarations,
    exprs: &E,
    walk: &mut Walk,
    place: Place,
    asked: Asked,
    node: Node,
    site: u32,
    indices: &[Expr],
    base: Found<sx_typed::Expr>,
) -> Judged
    requires { JudgesExprs declarations.now (E.pre exprs.now) (E.post exprs.now) }
    ensures { Answers result walk.new (calls.index_value declarations.now place asked node site (map (judged_expr declarations.now) indices.now) (found base walk.old)) }
{
    let count = indices.len();
    let types = index_types(declarations, &base, count);
    match run_indices(alloc, declarations, exprs, walk, place, types, indices) {
        Ok(indices) => {
            indexed_found(
                alloc,
                declarations,
                walk,
                asked,
                node,
                site,
                count,
                base,
                indices,
            )
        }
        Err(stop) => Err(stop),
    }
}

/// The indices one after another, each for a parameter with its type while there are such.
fn run_indices<E: Fn(&mut Walk, Place, Asked, Use, &Expr) -> Judged>(
    alloc: Global,
    declarations: &Declarations,
    exprs: &E,
    walk: &mut Walk,
    place: Place,
    mut types: &[Ty],
    mut indices: &[Expr],
) -> Result<FoundIndices, TypeStop>
    requires { JudgesExprs declarations.now (E.pre exprs.now) (E.post exprs.now) }
    ensures { Answers result walk.new (calls.run_indices declarations.now place (typed [] walk.old) types.entry.now (map (judged_expr declarations.now) indices.entry.now)) }
{
    let mut found = Found::Typed(Items::new(alloc));
    'indices: while let Some((index, rest)) = indices.split_first() {
        let (ty, others) = next_type(types);
        let index = index_for(declarations, exprs, walk, place, ty, index)?;
        found = with_index(found, index)?;
        types = others;
        indices = rest;
    }
    Ok(found)
}

/// The first of the types, and the others.
fn next_type(types: &[Ty]) -> (Option<Ty>, &[Ty])
    ensures first { (d : _) → result.0 ≡ calls.first_type d types.now }
    ensures others { (d : _) → result.1.now ≡ calls.other_types d types.now }
{
    match types {
        [] => (None, types),
        [first, others @ ..] => (Some(*first), others),
    }
}

/// An index for a parameter of this type, or by itself: its value then doesn't count.
fn index_for<E: Fn(&mut Walk, Place, Asked, Use, &Expr) -> Judged>(
    declarations: &Declarations,
    exprs: &E,
    walk: &mut Walk,
    place: Place,
    ty: Option<Ty>,
    index: &Expr,
) -> JudgedIndex
    requires { JudgesExprs declarations.now (E.pre exprs.now) (E.post exprs.now) }
    ensures { Answers result walk.new (calls.index_for declarations.now place ty (judged_expr declarations.now index.now) walk.old) }
{
    match ty {
        Some(ty) => wanted_index(declarations, exprs, walk, place, ty, index),
        None => loose_index(declarations, exprs, walk, place, index),
    }
}

fn wanted_index<E: Fn(&mut Walk, Place, Asked, Use, &Expr) -> Judged>(
    declarations: &Declarations,
    exprs: &E,
    walk: &mut Walk,
    place: Place,
    ty: Ty,
    index: &Expr,
) -> JudgedIndex
    requires { JudgesExprs declarations.now (E.pre exprs.now) (E.post exprs.now) }
    ensures { Answers result walk.new (calls.index_for declarations.now place (Some ty) (judged_expr declarations.now index.now) walk.old) }
{
    let wanted = Asked::Type(ty);
    match judge_expr(declarations, exprs, walk, place, wanted, Use::Kept, index)? {
        Found::Typed(value) => Ok(Found::Typed(Some(value))),
        Found::Untold => Ok(Found::Untold),
        Found::Depends => Ok(Found::Depends),
    }
}

fn loose_index<E: Fn(&mut Walk, Place, Asked, Use, &Expr) -> Judged>(
    declarations: &Declarations,
    exprs: &E,
    walk: &mut Walk,
    place: Place,
    index: &Expr,
) -> JudgedIndex
    requires { JudgesExprs declarations.now (E.pre exprs.now) (E.post exprs.now) }
    ensures { Answers result walk.new (calls.index_for declarations.now place None (judged_expr declarations.now index.now) walk.old) }
{
    let wanted = Asked::Unknown;
    match judge_expr(declarations, exprs, walk, place, wanted, Use::Kept, index)? {
        Found::Typed(_) => Ok(Found::Typed(None)),
        Found::Untold => Ok(Found::Typed(None)),
        Found::Depends => Ok(Found::Depends),
    }
}

/// What is found of indices, and one more behind them where its value counts.
fn with_index(
    indices: FoundIndices,
    index: Found<Option<sx_typed::Expr>>,
) -> Result<FoundIndices, AllocError>
    ensures { IfOk result (λ f. (d : _) (v : _) (w : _) → found f w ≡ both (found indices v) (λ _. found index w) ▷ calls.index_added d) }
{
    match both(indices, index) {
        Found::Typed((indices, index)) => Ok(Found::Typed(index_added(indices, index)?)),
        Found::Untold => Ok(Found::Untold),
        Found::Depends => Ok(Found::Depends),
    }
}

fn index_added(
    mut indices: Items<sx_typed::Expr>,
    index: Option<sx_typed::Expr>,
) -> Result<Items<sx_typed::Expr>, AllocError>
    ensures { IfOk result (λ all. (d : _) → all ≡ calls.with_index d indices index) }
{
    if let Some(index) = index {
        indices.push(index)?;
    }
    Ok(indices)
}

/// A subscript, by what is found of the value before it and of its indices.
fn indexed_found(
    alloc: Global,
    declarations: &Declarations,
    walk: &Walk,
    asked: Asked,
    node: Node,
    site: u32,
    count: usize,
    base: Found<sx_typed::Expr>,
    indices: FoundIndices,
) -> Judged
    ensures { Answers result walk.now (both (found base walk.now) (λ _. found indices walk.now) ▷ calls.indexed_value declarations.now asked node site count) }
{
    match both(base, indices) {
        Found::Typed((base, indices)) => {
            indexed_value(
                alloc,
                declarations,
                walk,
                asked,
                node,
                site,
                count,
                base,
                indices,
            )
        }
        Found::Untold => Ok(Found::Untold),
        Found::Depends => Ok(Found::Depends),
    }
}
