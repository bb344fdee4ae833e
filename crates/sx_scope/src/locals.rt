// Names of locals.

ghost use Rattle.std.specs.Prelude.{◌≡◌};
ghost use Rattle.sx_scope.specs.Names as names;
ghost use Rattle.sx_scope.specs.Verdict.{Answers};

use crate::agreement::is_agreed;
use crate::declarations::Known;
use crate::paths::read_head;
use crate::stop::TypeKind;
use crate::walk::{Asked, Found, Judged, Local, LocalKind, Place, Use, Walk};
use std::alloc::Global;
use sx_span::Node;
use sx_typed::{Expr, Form, HeadForm, Mention};
use sx_types::Ty;

/// The innermost local with the name, and its index.
pub fn find_local(walk: &Walk, name: u32) -> Option<(usize, Local)>
    ensures { result ≡ names.local_of walk.now.locals name }
{
    innermost(walk.locals.as_slice(), name)
}

fn innermost(locals: &[Local], name: u32) -> Option<(usize, Local)>
    ensures { result ≡ names.local_of locals.now name }
{
    let mut index = locals.len();
    'inside_out: while index > 0 {
        index -= 1;
        let local = locals[index];
        if local.name == name {
            return Some((index, local));
        }
    }
    None
}

/// A local, and its index, where it is mentioned.
pub fn local_value(
    alloc: Global,
    walk: &mut Walk,
    place: Place,
    asked: Asked,
    used: Use,
    node: Node,
    site: u32,
    found: (usize, Local),
) -> Judged
    ensures { Answers result walk.new (names.local_value place asked used node site found walk.old) }
{
    let (index, local) = found;
    let crossed = index < place.outside_kept;
    match local.known {
        Known::Type(ty) => { local_typed(alloc, walk, asked, used, node, site, crossed, local, ty) }
        Known::Failed => Ok(Found::Depends),
        Known::Untold => Ok(Found::Untold),
        Known::Circular => Ok(Found::Depends),
    }
}

fn local_typed(
    alloc: Global,
    walk: &mut Walk,
    asked: Asked,
    used: Use,
    node: Node,
    site: u32,
    crossed: bool,
    local: Local,
    ty: Ty,
) -> Judged
    ensures { Answers result walk.new (names.local_typed asked used node site crossed local ty walk.old) }
{
    match broken(asked, used, crossed, local, ty) {
        Some(kind) => walk.fails(kind, node),
        None => {
            walk.mentions.push(mention_of(local.kind, local.node, ty))?;
            Ok(Found::Typed(local_expr(alloc, local.kind, node, site, ty, local.node)))
        }
    }
}

fn broken(asked: Asked, used: Use, crossed: bool, local: Local, ty: Ty) -> Option<TypeKind>
    ensures { result ≡ names.local_broken asked used crossed local ty }
{
    if !is_agreed(asked, ty) {
        return Some(TypeKind::Mismatch);
    }
    if local.lent && modifies(used) {
        return Some(TypeKind::NotAssignable);
    }
    if local.lent && (crossed || !lends(used)) {
        return Some(TypeKind::EscapingUse);
    }
    if crossed && is_inout(local.kind) {
        return Some(TypeKind::InoutCaptured);
    }
    None
}

fn mention_of(kind: LocalKind, node: Node, ty: Ty) -> Mention
    ensures { result ≡ names.mention_by kind node ty }
{
    match kind {
        LocalKind::Constant => Mention::Constant(node, ty),
        LocalKind::Variable => Mention::Variable(node),
        LocalKind::InOut => Mention::InOut(node),
    }
}

fn local_expr(alloc: Global, kind: LocalKind, node: Node, site: u32, ty: Ty, declared: Node) -> Expr
    ensures { result ≡ names.local_expr kind node site ty declared }
{
    match kind {
        LocalKind::Constant => Expr {
            node,
            site,
            ty,
            form: Form::Constant(declared),
        },
        LocalKind::Variable => read_head(alloc, node, site, ty, HeadForm::Variable(declared)),
        LocalKind::InOut => read_head(alloc, node, site, ty, HeadForm::Variable(declared)),
    }
}

fn is_inout(kind: LocalKind) -> bool
    ensures { result ≡ names.is_inout kind }
{
    matches!(kind, LocalKind::InOut)
}

fn lends(used: Use) -> bool
    ensures { result ≡ names.lends used }
{
    matches!(used, Use::Called | Use::Lent | Use::Unpaired)
}

fn modifies(used: Use) -> bool
    ensures { result ≡ names.modifies used }
{
    matches!(used, Use::Modified)
}
