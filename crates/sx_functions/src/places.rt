// Where bodies and initial values stand, and names that are new.

ghost use Rattle.std.specs.Prelude.{◌≡◌, ◌++◌, ◌∷◌, OnOk, drop, length, take};
ghost use Rattle.sx_bodies.specs.Statements.{lacks_return};
ghost use Rattle.sx_check_expr.specs.Judge.{judged_statements};
ghost use Rattle.sx_functions.specs.Places as places;
ghost use Rattle.sx_scope.specs.Verdict.{Answers};

use indexmap::IndexSet;
use std::alloc::Global;
use sx_bodies::is_reserved;
use sx_check_expr::body;
use sx_scope::{Declarations, Found, Gives, Place, SelfValue, TypeKind, TypeStop, Walk, demand};
use sx_span::Node;
use sx_tree::{Block, Statement};
use sx_types::Ty;

/// Where the body of a function or accessor stands, a member of the owner if there is one.
pub fn body_place(owner: Option<Ty>, mutating: bool, observed: Option<Node>, gives: Gives) -> Place
    ensures { result ≡ places.body_place owner mutating observed gives }
{
    Place {
        members_of: owner,
        this: self_of(mutating, owner),
        observed,
        gives,
        in_loop: false,
        giving: None,
        outside_block: 0,
        outside_kept: 0,
        in_kept: false,
    }
}

/// The `self` of a member of the owner: a structure may be modified where the member mutates it.
fn self_of(mutating: bool, owner: Option<Ty>) -> Option<SelfValue>
    ensures { result ≡ places.self_of mutating owner }
{
    match owner {
        None => None,
        Some(ty) => Some(SelfValue {
            ty,
            mutable: mutating && is_structure(ty),
        }),
    }
}

fn is_structure(ty: Ty) -> bool
    ensures { result ≡ places.is_structure ty }
{
    matches!(ty, Ty::Struct(_))
}

/// The body at a place, which is a node.
pub(crate) fn body_value(
    alloc: Global,
    declarations: &Declarations,
    walk: &mut Walk,
    place: Place,
    block: &Block,
) -> Result<Found<sx_typed::Block>, TypeStop>
    ensures { Answers result walk.new (places.body_value declarations.now place block.now walk.old) }
{
    walk.take_node()?;
    body(
        alloc,
        declarations,
        walk,
        place,
        block.statements.as_slice(),
    )
}

/// Goes on behind a function: so many locals stay in scope, and so many mentions count.
pub fn leave(walk: &mut Walk, locals: usize, mentions: usize)
    ensures { walk.new ≡ places.shortened locals mentions walk.old }
{
    walk.locals.truncate(locals);
    walk.mentions.truncate(mentions);
}

/// A name that is declared beside those that were seen, which fails at its node where it is
/// reserved or one of them.
pub fn new_name(
    declarations: &Declarations,
    walk: &Walk,
    seen: &IndexSet<u32>,
    name: u32,
    node: Node,
) -> Result<Found<()>, TypeStop>
    ensures { Answers result walk.now (places.new_name declarations.now seen.now.keys name node walk.now) }
{
    demand(
        walk,
        is_new(declarations, seen, name),
        TypeKind::Duplicate,
        node,
    )
}

fn is_new(declarations: &Declarations, seen: &IndexSet<u32>, name: u32) -> bool
    ensures { result ≡ places.is_new declarations.now seen.now.keys name }
{
    !(is_reserved(declarations, name) || seen.contains(&name))
}

/// Whether a body of which a value is asked reaches its end, where these are its statements.
pub(crate) fn is_return_missing(
    declarations: &Declarations,
    gives: Gives,
    statements: &[Statement],
) -> bool
    ensures { result ≡ lacks_return gives (judged_statements declarations.now statements.now) }
{
    let _declared = declarations;
    sx_check_expr::lacks_return(gives, statements)
}
