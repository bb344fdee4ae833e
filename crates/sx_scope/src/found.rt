// What is found at parts of a tree, together.

ghost use Rattle.std.specs.Prelude.{◌≡◌, Option};
ghost use Rattle.sx_scope.specs.Verdict.{Answers, Judging, both, both_by, found, need, typed, typed_part};
ghost use Rattle.sx_scope.specs.declared.walk.Found.TheVariants.{Typed, Untold, Depends};
ghost use Rattle.sx_scope.specs.declared.walk.Walk.{Walk as GhostWalk};

use crate::stop::{TypeKind, TypeStop};
use crate::walk::{Found, Walk};
use sx_span::Node;

/// What is found at two parts, of which no node fails.
pub fn both<A: Drop, B: Drop>(first: Found<A>, second: Found<B>) -> Found<(A, B)>
    ensures { (v : _) (w : _) → found result w ≡ both (found first v) (λ _. found second w) }
{
    match (first, second) {
        (Found::Typed(first), Found::Typed(second)) => Found::Typed((first, second)),
        (Found::Depends, _) | (_, Found::Depends) => Found::Depends,
        _ => Found::Untold,
    }
}

/// What is found at a part, and what was judged of another behind it.
pub fn joined<A: Drop, B: Drop>(
    first: Found<A>,
    second: Result<Found<B>, TypeStop>,
) -> Result<Found<(A, B)>, TypeStop>
    ensures { (m : Option A → Judging B) (v : GhostWalk) (w : GhostWalk) → Answers second w (m (typed_part first) v) → Answers result w (both_by (found first v) m) }
{
    match second {
        Ok(second) => Ok(both(first, second)),
        Err(stop) => Err(stop),
    }
}

/// A node of which this must hold.
pub fn demand(walk: &Walk, holds: bool, kind: TypeKind, node: Node) -> Result<Found<()>, TypeStop>
    ensures { Answers result walk.now (need holds kind node (typed tt) walk.now) }
{
    if holds {
        Ok(Found::Typed(()))
    } else {
        walk.fails(kind, node)
    }
}
