// What is found where a node breaks a condition.

ghost use Rattle.sx_scope.specs.Verdict.{Answers, fault, need, typed, unless_broken};

use sx_scope::{Found, Judged, TypeKind, TypeStop, Walk};
use sx_span::Node;
use sx_typed::Expr;

/// What is found where a node breaks this condition, and none before it.
pub(crate) fn fails<T>(walk: &Walk, kind: TypeKind, node: Node) -> Result<Found<T>, TypeStop>
    ensures { Answers result walk.now (fault kind node walk.now) }
{
    Err(TypeStop::Typing(kind, node))
}

/// A value at a node that fails where a condition doesn't hold.
pub(crate) fn where_holds(
    walk: &Walk,
    holds: bool,
    kind: TypeKind,
    node: Node,
    value: Expr,
) -> Judged
    ensures { Answers result walk.now (need holds kind node (typed value) walk.now) }
{
    if holds {
        Ok(Found::Typed(value))
    } else {
        fails(walk, kind, node)
    }
}

/// A value at a node that may break a condition.
pub(crate) fn unless_broken(
    walk: &Walk,
    broken: Option<TypeKind>,
    node: Node,
    value: Expr,
) -> Judged
    ensures { Answers result walk.now (unless_broken broken node (typed value) walk.now) }
{
    match broken {
        Some(kind) => fails(walk, kind, node),
        None => Ok(Found::Typed(value)),
    }
}
