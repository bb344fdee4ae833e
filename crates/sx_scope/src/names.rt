// Names where values stand.

ghost use Rattle.sx_scope.specs.Names as names;
ghost use Rattle.sx_scope.specs.Verdict.{Answers, ◌▷◌};

use crate::agreement::is_agreed;
use crate::declarations::{Declarations, Member, Symbol, Variable};
use crate::locals::{find_local, local_value};
use crate::members::{find_function, find_member, member_here, method_value, type_failed};
use crate::own::implied_self;
use crate::stop::TypeKind;
use crate::variables::{global_variable, is_plain, property_value};
use crate::walk::{Asked, Found, Judged, Place, Use, Walk};
use std::alloc::Global;
use sx_span::Node;
use sx_typed::{Expr, Form};
use sx_types::Ty;

/// A name, where a value stands.
pub fn name_value(
    alloc: Global,
    declarations: &Declarations,
    walk: &mut Walk,
    place: Place,
    asked: Asked,
    used: Use,
    node: Node,
    site: u32,
    name: u32,
) -> Judged
    ensures { Answers result walk.new (names.name_value declarations.now place asked used node site name walk.old) }
{
    match find_local(walk, name) {
        Some(local) => { local_value(alloc, walk, place, asked, used, node, site, local) }
        None => outer_value(alloc, declarations, walk, place, asked, node, site, name),
    }
}

fn outer_value(
    alloc: Global,
    declarations: &Declarations,
    walk: &mut Walk,
    place: Place,
    asked: Asked,
    node: Node,
    site: u32,
    name: u32,
) -> Judged
    ensures { Answers result walk.new (names.outer_value declarations.now place asked node site name (names.member_here declarations.now place.members_of name) walk.old) }
{
    match member_here(declarations, place.members_of, name) {
        Some(member) => {
            implied_member(alloc, declarations, walk, place, asked, node, site, member)
        }
        None => {
            let symbol = declarations.symbols.get(name);
            global_value(alloc, declarations, walk, place, asked, node, site, symbol)
        }
    }
}

fn implied_member(
    alloc: Global,
    declarations: &Declarations,
    walk: &mut Walk,
    place: Place,
    asked: Asked,
    node: Node,
    site: u32,
    member: Member,
) -> Judged
    ensures { Answers result walk.new (names.implied_member declarations.now place asked node site member walk.old) }
{
    match member {
        Member::Property(variable) => {
            implied_property(
                alloc,
                declarations,
                walk,
                place,
                asked,
                node,
                site,
                variable,
            )
        }
        Member::Method(number) => method_value(declarations, walk, node, number),
    }
}

/// A property that is named without a base.
pub fn implied_property(
    alloc: Global,
    declarations: &Declarations,
    walk: &mut Walk,
    place: Place,
    asked: Asked,
    node: Node,
    site: u32,
    variable: Variable,
) -> Judged
    ensures { Answers result walk.new (names.implied_self declarations.now place node site walk.old ▷ names.implied_property declarations.now place asked node site variable) }
{
    match implied_self(alloc, declarations, walk, place, node, site)? {
        Found::Typed(this) => {
            let plain = is_plain(place, variable);
            property_value(
                alloc,
                declarations,
                walk,
                place,
                asked,
                node,
                site,
                plain,
                this,
                variable,
            )
        }
        Found::Untold => Ok(Found::Untold),
        Found::Depends => Ok(Found::Depends),
    }
}

fn global_value(
    alloc: Global,
    declarations: &Declarations,
    walk: &Walk,
    place: Place,
    asked: Asked,
    node: Node,
    site: u32,
    symbol: Option<Symbol>,
) -> Judged
    ensures { Answers result walk.now (names.global_value declarations.now place asked node site symbol walk.now) }
{
    match symbol {
        None => walk.fails(TypeKind::UnknownName, node),
        Some(symbol) => symbol_value(alloc, declarations, walk, place, asked, node, site, symbol),
    }
}

fn symbol_value(
    alloc: Global,
    declarations: &Declarations,
    walk: &Walk,
    place: Place,
    asked: Asked,
    node: Node,
    site: u32,
    symbol: Symbol,
) -> Judged
    ensures { Answers result walk.now (names.symbol_value declarations.now place asked node site symbol walk.now) }
{
    match symbol {
        Symbol::BasicType => walk.fails(TypeKind::NotAValue, node),
        Symbol::Print => walk.fails(TypeKind::NotAValue, node),
        Symbol::Function(number) => {
            function_value(declarations, walk, asked, node, site, number)
        }
        Symbol::Type(ty) => {
            if type_failed(declarations, ty) {
                Ok(Found::Depends)
            } else {
                walk.fails(TypeKind::NotAValue, node)
            }
        }
        Symbol::Variable(variable) => {
            global_variable(
                alloc,
                declarations,
                walk,
                place,
                asked,
                node,
                site,
                variable,
            )
        }
    }
}

fn function_value(
    declarations: &Declarations,
    walk: &Walk,
    asked: Asked,
    node: Node,
    site: u32,
    number: u32,
) -> Judged
    ensures { Answers result walk.now (names.function_value declarations.now asked node site (names.function declarations.now number) walk.now) }
{
    match find_function(declarations, number) {
        None => Ok(Found::Depends),
        Some(signature) => {
            if signature.failed {
                Ok(Found::Depends)
            } else {
                function_typed(walk, asked, node, site, signature.node, signature.value)
            }
        }
    }
}

fn function_typed(
    walk: &Walk,
    asked: Asked,
    node: Node,
    site: u32,
    declared: Node,
    number: Option<u32>,
) -> Judged
    ensures { Answers result walk.now (names.function_typed asked node site declared number walk.now) }
{
    match number {
        None => walk.fails(TypeKind::NotAValue, node),
        Some(function) => {
            let ty = Ty::Func(function);
            if is_agreed(asked, ty) {
                Ok(Found::Typed(Expr {
                    node,
                    site,
                    ty,
                    form: Form::Function(declared),
                }))
            } else {
                walk.fails(TypeKind::Mismatch, node)
            }
        }
    }
}

/// A member of a value, which may be `written_self`: the word `self`.
pub fn member_value(
    alloc: Global,
    declarations: &Declarations,
    walk: &mut Walk,
    place: Place,
    asked: Asked,
    node: Node,
    site: u32,
    written_self: bool,
    name: u32,
    base: Expr,
) -> Judged
    ensures { Answers result walk.new (names.member_value declarations.now place asked node site written_self name base walk.old) }
{
    match find_member(declarations, base.ty, name) {
        None => walk.fails(TypeKind::UnknownName, node),
        Some(Member::Property(variable)) => {
            let plain = written_self && is_plain(place, variable);
            property_value(
                alloc,
                declarations,
                walk,
                place,
                asked,
                node,
                site,
                plain,
                base,
                variable,
            )
        }
        Some(Member::Method(number)) => method_value(declarations, walk, node, number),
    }
}
