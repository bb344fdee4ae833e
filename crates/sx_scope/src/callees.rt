// What is called.

ghost use Rattle.std.specs.Prelude.{◌≡◌};
ghost use Rattle.sx_scope.specs.Names as names;
ghost use Rattle.sx_scope.specs.Verdict.{Answers, found, ◌▷◌};

use crate::declarations::{Declarations, Member, Symbol};
use crate::locals::{find_local, local_value};
use crate::members::{find_function, find_member, member_here};
use crate::names::implied_property;
use crate::own::implied_self;
use crate::stop::TypeKind;
use crate::variables::{global_variable, is_plain, property_value};
use crate::walk::{Asked, Callee, Found, Judged, JudgedCallee, Place, Use, Walk};
use std::alloc::Global;
use sx_span::Node;
use sx_typed::Expr;
use sx_types::Ty;

/// A value that is called, which fails at its node where it is no function.
pub fn callable(walk: &Walk, node: Node, value: Expr) -> JudgedCallee
    ensures { Answers result walk.now (names.callable node value walk.now) }
{
    match value.ty {
        Ty::Func(function) => Ok(Found::Typed(Callee::Value(value, function))),
        _ => walk.fails(TypeKind::NotCallable, node),
    }
}

fn called_value(walk: &Walk, node: Node, value: Found<Expr>) -> JudgedCallee
    ensures { Answers result walk.now (found value walk.now ▷ names.callable node) }
{
    match value {
        Found::Typed(value) => callable(walk, node, value),
        Found::Untold => Ok(Found::Untold),
        Found::Depends => Ok(Found::Depends),
    }
}

/// A name that is called.
pub fn called_name(
    alloc: Global,
    declarations: &Declarations,
    walk: &mut Walk,
    place: Place,
    node: Node,
    site: u32,
    name: u32,
) -> JudgedCallee
    ensures { Answers result walk.new (names.called_name declarations.now place node site name walk.old) }
{
    match find_local(walk, name) {
        Some(local) => {
            let (asked, used) = (Asked::Nothing, Use::Called);
            let value = local_value(alloc, walk, place, asked, used, node, site, local)?;
            called_value(walk, node, value)
        }
        None => called_outer(alloc, declarations, walk, place, node, site, name),
    }
}

fn called_outer(
    alloc: Global,
    declarations: &Declarations,
    walk: &mut Walk,
    place: Place,
    node: Node,
    site: u32,
    name: u32,
) -> JudgedCallee
    ensures { Answers result walk.new (names.called_outer declarations.now place node site name (names.member_here declarations.now place.members_of name) walk.old) }
{
    match member_here(declarations, place.members_of, name) {
        Some(member) => called_implied(alloc, declarations, walk, place, node, site, member),
        None => {
            let symbol = declarations.symbols.get(name);
            called_global(alloc, declarations, walk, place, node, site, symbol)
        }
    }
}

fn called_implied(
    alloc: Global,
    declarations: &Declarations,
    walk: &mut Walk,
    place: Place,
    node: Node,
    site: u32,
    member: Member,
) -> JudgedCallee
    ensures { Answers result walk.new (names.called_implied declarations.now place node site member walk.old) }
{
    match member {
        Member::Property(variable) => {
            let asked = Asked::Nothing;
            let value = implied_property(
                alloc,
                declarations,
                walk,
                place,
                asked,
                node,
                site,
                variable,
            )?;
            called_value(walk, node, value)
        }
        Member::Method(number) => {
            let base = implied_self(alloc, declarations, walk, place, node, site)?;
            called_on(declarations, walk, number, base)
        }
    }
}

fn called_on(
    declarations: &Declarations,
    walk: &Walk,
    number: u32,
    base: Found<Expr>,
) -> JudgedCallee
    ensures { Answers result walk.now (found base walk.now ▷ names.called_method declarations.now number (names.function declarations.now number)) }
{
    match base {
        Found::Typed(base) => called_method(declarations, walk, number, base),
        Found::Untold => Ok(Found::Untold),
        Found::Depends => Ok(Found::Depends),
    }
}

fn called_method(declarations: &Declarations, walk: &Walk, number: u32, base: Expr) -> JudgedCallee
    ensures { Answers result walk.now (names.called_method declarations.now number (names.function declarations.now number) base walk.now) }
{
    match find_function(declarations, number) {
        None => Ok(Found::Depends),
        Some(signature) => {
            if signature.failed {
                Ok(Found::Depends)
            } else {
                Ok(Found::Typed(Callee::Method(number, base)))
            }
        }
    }
}

fn called_function(declarations: &Declarations, walk: &Walk, number: u32) -> JudgedCallee
    ensures { Answers result walk.now (names.called_function declarations.now number (names.function declarations.now number) walk.now) }
{
    match find_function(declarations, number) {
        None => Ok(Found::Depends),
        Some(signature) => {
            if signature.failed {
                Ok(Found::Depends)
            } else {
                Ok(Found::Typed(Callee::Function(number)))
            }
        }
    }
}

fn called_global(
    alloc: Global,
    declarations: &Declarations,
    walk: &Walk,
    place: Place,
    node: Node,
    site: u32,
    symbol: Option<Symbol>,
) -> JudgedCallee
    ensures { Answers result walk.now (names.called_global declarations.now place node site symbol walk.now) }
{
    match symbol {
        None => walk.fails(TypeKind::UnknownName, node),
        Some(symbol) => called_symbol(alloc, declarations, walk, place, node, site, symbol),
    }
}

fn called_symbol(
    alloc: Global,
    declarations: &Declarations,
    walk: &Walk,
    place: Place,
    node: Node,
    site: u32,
    symbol: Symbol,
) -> JudgedCallee
    ensures { Answers result walk.now (names.called_symbol declarations.now place node site symbol walk.now) }
{
    match symbol {
        Symbol::BasicType => walk.fails(TypeKind::NotCallable, node),
        Symbol::Print => Ok(Found::Typed(Callee::Print)),
        Symbol::Function(number) => called_function(declarations, walk, number),
        Symbol::Type(ty) => Ok(Found::Typed(Callee::Initialiser(ty))),
        Symbol::Variable(variable) => {
            let value = global_variable(
                alloc,
                declarations,
                walk,
                place,
                Asked::Nothing,
                node,
                site,
                variable,
            )?;
            called_value(walk, node, value)
        }
    }
}

/// A member of a value that is called.
pub fn called_member(
    alloc: Global,
    declarations: &Declarations,
    walk: &mut Walk,
    place: Place,
    node: Node,
    site: u32,
    written_self: bool,
    name: u32,
    base: Expr,
) -> JudgedCallee
    ensures { Answers result walk.new (names.called_member declarations.now place node site written_self name base walk.old) }
{
    match find_member(declarations, base.ty, name) {
        None => walk.fails(TypeKind::UnknownName, node),
        Some(Member::Property(variable)) => {
            let plain = written_self && is_plain(place, variable);
            let asked = Asked::Nothing;
            let value = property_value(
                alloc,
                declarations,
                walk,
                place,
                asked,
                node,
                site,
                plain,
                base,
                variable,
            )?;
            called_value(walk, node, value)
        }
        Some(Member::Method(number)) => called_method(declarations, walk, number, base),
    }
}
