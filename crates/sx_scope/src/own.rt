// `self`, written and implied.

ghost use Rattle.std.specs.Prelude.{◌≡◌};
ghost use Rattle.sx_scope.specs.Names as names;
ghost use Rattle.sx_scope.specs.Verdict.{Answers};

use crate::agreement::is_agreed;
use crate::declarations::Declarations;
use crate::members::{type_failed, type_node};
use crate::paths::read_head;
use crate::stop::{TypeKind, TypeStop};
use crate::walk::{Asked, Found, Judged, Place, SelfValue, Walk};
use std::alloc::Global;
use sx_span::Node;
use sx_typed::{Expr, Form, HeadForm, Mention};

/// The word `self`.
pub fn self_value(
    alloc: Global,
    declarations: &Declarations,
    walk: &mut Walk,
    place: Place,
    asked: Asked,
    node: Node,
    site: u32,
) -> Judged
    ensures { Answers result walk.new (names.self_value declarations.now place asked node site walk.old) }
{
    self_by(alloc, declarations, walk, place, asked, node, node, site)
}

/// The `self` of a member that is named without a base at this node.
pub fn implied_self(
    alloc: Global,
    declarations: &Declarations,
    walk: &mut Walk,
    place: Place,
    node: Node,
    site: u32,
) -> Judged
    ensures { Answers result walk.new (names.implied_self declarations.now place node site walk.old) }
{
    match declarations.nodes.checked_add(node.0) {
        None => Err(TypeStop::NoMemory),
        Some(implied) => {
            let implied = Node(implied);
            self_by(
                alloc,
                declarations,
                walk,
                place,
                Asked::Nothing,
                node,
                implied,
                site,
            )
        }
    }
}

fn self_by(
    alloc: Global,
    declarations: &Declarations,
    walk: &mut Walk,
    place: Place,
    asked: Asked,
    node: Node,
    stands: Node,
    site: u32,
) -> Judged
    ensures { Answers result walk.new (names.self_by declarations.now place asked node stands site place.this walk.old) }
{
    match place.this {
        None => walk.fails(TypeKind::UnknownName, node),
        Some(this) => {
            self_typed(
                alloc,
                declarations,
                walk,
                place,
                asked,
                node,
                stands,
                site,
                this,
            )
        }
    }
}

fn self_typed(
    alloc: Global,
    declarations: &Declarations,
    walk: &mut Walk,
    place: Place,
    asked: Asked,
    node: Node,
    stands: Node,
    site: u32,
    this: SelfValue,
) -> Judged
    ensures { Answers result walk.new (names.self_typed declarations.now place asked node stands site this walk.old) }
{
    if type_failed(declarations, this.ty) {
        return Ok(Found::Depends);
    }
    self_unless(
        alloc,
        declarations,
        walk,
        place,
        asked,
        node,
        stands,
        site,
        this,
    )
}

fn self_unless(
    alloc: Global,
    declarations: &Declarations,
    walk: &mut Walk,
    place: Place,
    asked: Asked,
    node: Node,
    stands: Node,
    site: u32,
    this: SelfValue,
) -> Judged
    ensures { Answers result walk.new (names.self_unless declarations.now place asked node stands site this walk.old) }
{
    match broken(place, asked, this) {
        Some(kind) => walk.fails(kind, node),
        None => {
            walk.mentions.push(mention_of(declarations, this))?;
            Ok(Found::Typed(self_expr(alloc, declarations, stands, site, this)))
        }
    }
}

fn broken(place: Place, asked: Asked, this: SelfValue) -> Option<TypeKind>
    ensures { result ≡ names.self_broken place asked this }
{
    if !is_agreed(asked, this.ty) {
        return Some(TypeKind::Mismatch);
    }
    if place.in_kept && this.mutable {
        return Some(TypeKind::InoutCaptured);
    }
    None
}

fn mention_of(declarations: &Declarations, this: SelfValue) -> Mention
    ensures { result ≡ names.self_mention declarations.now this }
{
    let node = type_node(declarations, this.ty);
    if this.mutable {
        Mention::InOut(node)
    } else {
        Mention::Constant(node, this.ty)
    }
}

fn self_expr(
    alloc: Global,
    declarations: &Declarations,
    node: Node,
    site: u32,
    this: SelfValue,
) -> Expr
    ensures { result ≡ names.self_expr declarations.now node site this }
{
    let declared = type_node(declarations, this.ty);
    if this.mutable {
        read_head(alloc, node, site, this.ty, HeadForm::Variable(declared))
    } else {
        Expr {
            node,
            site,
            ty: this.ty,
            form: Form::Constant(declared),
        }
    }
}
