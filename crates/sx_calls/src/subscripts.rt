// Subscripts.

ghost use Rattle.std.specs.Prelude.{◌≡◌, option_copied};
ghost use Rattle.sx_calls.specs.Calls as calls;
ghost use Rattle.sx_scope.specs.Verdict.{Answers, typed_part};

use crate::calls::broken_call;
use crate::conditions::{fails, unless_broken};
use sqlite_items::Items;
use std::alloc::Global;
use sx_scope::{
    Asked, Declarations, Found, Judged, Subscript, TypeKind, Walk, declared_type, subscript_of,
};
use sx_span::Node;
use sx_typed::Expr;
use sx_types::Ty;

/// The types of a subscript's parameters, where there are as many as indices, and else none.
pub fn index_types<'a>(declarations: &'a Declarations, base: &Found<Expr>, count: usize) -> &'a [Ty]
    ensures { result.now ≡ calls.types_by declarations.now count (typed_part base.now) }
{
    match base {
        Found::Typed(base) => types_of(count, subscript_of_type(declarations, base.ty)),
        Found::Untold | Found::Depends => &[],
    }
}

fn types_of(count: usize, subscript: Option<&Subscript>) -> &[Ty]
    ensures { result.now ≡ calls.types_of count (option_copied subscript.entry) }
{
    match subscript {
        Some(subscript) if !subscript.failed && subscript.parameters.len() == count => {
            subscript.parameters.as_slice()
        }
        _ => &[],
    }
}

fn subscript_of_type(declarations: &Declarations, ty: Ty) -> Option<&Subscript>
    ensures { option_copied result ≡ calls.subscript declarations.now ty }
{
    match declared_type(declarations, ty) {
        Some(declared) => match &declared.subscript {
            Some(subscript) => Some(subscript),
            None => None,
        },
        None => None,
    }
}

/// A subscript of a value, by its indices. `count` tells how many are written.
pub fn indexed_value(
    alloc: Global,
    declarations: &Declarations,
    walk: &Walk,
    asked: Asked,
    node: Node,
    site: u32,
    count: usize,
    base: Expr,
    indices: Items<Expr>,
) -> Judged
    ensures { Answers result walk.now (calls.indexed_value declarations.now asked node site count (base, indices) walk.now) }
{
    let subscript = subscript_of_type(declarations, base.ty);
    indexed(
        alloc, walk, asked, node, site, count, base, indices, subscript,
    )
}

fn indexed(
    alloc: Global,
    walk: &Walk,
    asked: Asked,
    node: Node,
    site: u32,
    count: usize,
    base: Expr,
    indices: Items<Expr>,
    subscript: Option<&Subscript>,
) -> Judged
    ensures { Answers result walk.now (calls.indexed asked node site count base indices (option_copied subscript.entry) walk.now) }
{
    let Some(subscript) = subscript else {
        return fails(walk, TypeKind::UnknownName, node);
    };
    if subscript.failed {
        return Ok(Found::Depends);
    }
    let counted = subscript.parameters.len() == count;
    let broken = broken_call(asked, counted, subscript.ty);
    let accessors = subscript.accessors;
    let value = subscript_of(alloc, node, site, subscript.ty, base, indices, accessors)?;
    unless_broken(walk, broken, node, value)
}
