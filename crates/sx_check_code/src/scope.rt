// What code sees of what stands around it.

ghost use Rattle.std.specs.Prelude.{◌≡◌, IfOk};
ghost use Rattle.sx_check_code.specs.Scopes.{asked_by, gives_by, place_in, walk_in};

use sqlite_items::Items;
use std::alloc::{AllocError, Global};
use sx_functions::body_place;
use sx_scope::{Asked, Gives, Local, Place, Stack, Walk};
use sx_span::Node;
use sx_types::Ty;

/// What code outside of closure literals sees of what stands around it, besides what is declared
/// at the outermost level and the members of types.
#[derive(Drop)]
pub struct Scope {
    /// The locals and parameters in scope, from outside in, each by the node that declares it and
    /// with what is known of its type.
    pub names: Items<Local>,
    /// The type whose members are found by their names alone.
    pub owner: Option<Ty>,
    /// Whether it stands in a member that may modify its structure.
    pub mutating: bool,
    /// The property or global in whose observers it stands.
    pub observed: Option<Node>,
    /// The outermost declaration in whose initial value it stands, which gives that its type.
    pub giving: Option<Node>,
    /// The result type of the body that it stands in, if it stands in one.
    pub result: Option<Ty>,
    pub in_loop: bool,
}

/// Where code stands that sees this.
pub(crate) fn place_in(scope: &Scope) -> Place
    ensures { result ≡ place_in scope.now }
{
    let mut place = body_place(
        scope.owner,
        scope.mutating,
        scope.observed,
        gives_by(scope.result),
    );
    place.in_loop = scope.in_loop;
    place.giving = scope.giving;
    place
}

fn gives_by(given: Option<Ty>) -> Gives
    ensures { result ≡ gives_by given }
{
    match given {
        None => Gives::Nothing,
        Some(ty) => Gives::Type(ty),
    }
}

/// What is asked of an expression for which this type is expected, if any is.
pub(crate) fn asked_by(expected: Option<Ty>) -> Asked
    ensures { result ≡ asked_by expected }
{
    match expected {
        None => Asked::Nothing,
        Some(ty) => Asked::Type(ty),
    }
}

/// A walk that stands before this node, with the names of the scope.
pub(crate) fn walk_in(alloc: Global, scope: &Scope, node: Node) -> Result<Walk, AllocError>
    ensures { IfOk result (λ walk. walk ≡ walk_in scope.now node.0) }
{
    Ok(Walk {
        next: node.0,
        locals: stacked(alloc, scope.names.as_slice())?,
        mentions: Stack::new(alloc),
        literals: Stack::new(alloc),
    })
}

fn stacked(alloc: Global, mut names: &[Local]) -> Result<Stack<Local>, AllocError>
    ensures { IfOk result (λ locals. locals ≡ names.entry.now) }
{
    let mut locals = Stack::new(alloc);
    'names: while let [first, rest @ ..] = names {
        locals.push(*first)?;
        names = rest;
    }
    Ok(locals)
}
