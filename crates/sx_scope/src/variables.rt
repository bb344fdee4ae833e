// Globals and properties.

ghost use Rattle.std.specs.Prelude.{◌≡◌, option_copied};
ghost use Rattle.sx_scope.specs.Names as names;
ghost use Rattle.sx_scope.specs.Verdict.{Answers};

use crate::agreement::is_agreed;
use crate::declarations::{Declarations, Known, Variable, VariableType};
use crate::paths::{global_of, property_of};
use crate::stop::{TypeKind, TypeStop};
use crate::walk::{Asked, Found, Judged, Place, Walk};
use std::alloc::Global;
use sx_span::Node;
use sx_typed::Expr;
use sx_types::Ty;

/// Whether it stands in its own observers, where a property or global is plainly stored.
pub fn is_plain(place: Place, variable: Variable) -> bool
    ensures { result ≡ names.is_plain place variable }
{
    match place.observed {
        None => false,
        Some(node) => node.0 == variable.node.0,
    }
}

/// The value of a stored or computed global.
pub fn global_variable(
    alloc: Global,
    declarations: &Declarations,
    walk: &Walk,
    place: Place,
    asked: Asked,
    node: Node,
    site: u32,
    variable: Variable,
) -> Judged
    ensures { Answers result walk.now (names.global_variable declarations.now place asked node site variable walk.now) }
{
    match variable_type(declarations, walk, place, asked, node, variable)? {
        Found::Typed(ty) => {
            let plain = is_plain(place, variable);
            let value = global_of(alloc, node, site, ty, plain, variable.storage);
            Ok(Found::Typed(value))
        }
        Found::Untold => Ok(Found::Untold),
        Found::Depends => Ok(Found::Depends),
    }
}

/// A property of a value. In its own observers it is `plain`: stored without observers.
pub fn property_value(
    alloc: Global,
    declarations: &Declarations,
    walk: &Walk,
    place: Place,
    asked: Asked,
    node: Node,
    site: u32,
    plain: bool,
    base: Expr,
    variable: Variable,
) -> Judged
    ensures { Answers result walk.now (names.property_value declarations.now place asked node site plain base variable walk.now) }
{
    match variable_type(declarations, walk, place, asked, node, variable)? {
        Found::Typed(ty) => {
            let value = property_of(alloc, node, site, ty, plain, base, variable.storage)?;
            Ok(Found::Typed(value))
        }
        Found::Untold => Ok(Found::Untold),
        Found::Depends => Ok(Found::Depends),
    }
}

fn variable_type(
    declarations: &Declarations,
    walk: &Walk,
    place: Place,
    asked: Asked,
    node: Node,
    variable: Variable,
) -> Result<Found<Ty>, TypeStop>
    ensures { Answers result walk.now (names.variable_type declarations.now place asked node variable walk.now) }
{
    if comes_late(place, variable) {
        return walk.fails(TypeKind::NeedsType, node);
    }
    known_type(walk, asked, node, known_of(declarations, variable.ty))
}

fn known_type(walk: &Walk, asked: Asked, node: Node, known: Known) -> Result<Found<Ty>, TypeStop>
    ensures { Answers result walk.now (names.known_type asked node known walk.now) }
{
    match known {
        Known::Type(ty) => {
            if is_agreed(asked, ty) {
                Ok(Found::Typed(ty))
            } else {
                walk.fails(TypeKind::Mismatch, node)
            }
        }
        Known::Failed => Ok(Found::Depends),
        Known::Untold => Ok(Found::Untold),
        Known::Circular => Ok(Found::Depends),
    }
}

/// Whether its initial value gives its type, and it is mentioned where one that isn't behind it is
/// given a type.
fn comes_late(place: Place, variable: Variable) -> bool
    ensures { result ≡ names.comes_late place variable }
{
    match place.giving {
        None => false,
        Some(giving) => is_given(variable.ty) && variable.node.0 >= giving.0,
    }
}

/// Whether an initial value gives the type.
fn is_given(ty: VariableType) -> bool
    ensures { result ≡ names.is_given ty }
{
    matches!(ty, VariableType::Given(_))
}

/// What is known of the type of a global or a property.
pub fn known_of(declarations: &Declarations, ty: VariableType) -> Known
    ensures { result ≡ names.known_in declarations.now ty }
{
    match ty {
        VariableType::Written(known) => known,
        VariableType::Given(number) => given_known(declarations.given.get(number as usize)),
    }
}

fn given_known(known: Option<&Known>) -> Known
    ensures { result ≡ names.given_known (option_copied known.entry) }
{
    match known {
        Some(known) => *known,
        None => Known::Untold,
    }
}
