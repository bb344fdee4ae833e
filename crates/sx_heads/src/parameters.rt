// Parameters of functions and subscripts.

ghost use Rattle.std.specs.Prelude.{◌≡◌};
ghost use Rattle.sx_heads.specs.Heads as heads;
ghost use Rattle.sx_scope.specs.Names.{is_function};
ghost use Rattle.sx_scope.specs.Verdict.{found};

use sx_scope::{Found, Known, Local, LocalKind, TypeKind, is_void};
use sx_span::Node;
use sx_tree::Marker;
use sx_typed::Parameter;
use sx_types::Ty;

/// A parameter with its type.
#[derive(Clone, Copy)]
pub struct HeadParameter {
    /// The number of its label's name.
    pub label: Option<u32>,
    pub parameter: Parameter,
}

/// Whose parameters they are.
#[derive(Clone, Copy)]
pub enum ParameterList {
    OfFunction,
    OfSubscript,
}

/// The parameter that this node declares, with its type.
pub fn head_parameter(node: Node, written: &sx_tree::Parameter, ty: Ty) -> HeadParameter
    ensures { result ≡ heads.head_parameter node written.now ty }
{
    let label = match written.label {
        Some(label) => Some(label.number),
        None => None,
    };
    HeadParameter {
        label,
        parameter: Parameter {
            node,
            name: Some(written.name.number),
            marker: passing_of(written.marker),
            ty,
        },
    }
}

fn passing_of(marker: Marker) -> sx_typed::Marker
    ensures { result ≡ heads.passing_of marker }
{
    match marker {
        Marker::Plain => sx_typed::Marker::Plain,
        Marker::InOut => sx_typed::Marker::InOut,
        Marker::Escaping => sx_typed::Marker::Escaping,
        Marker::Borrowing => sx_typed::Marker::Borrowing,
    }
}

/// The first of the conditions on the type of a parameter that is broken.
pub fn broken_parameter(list: ParameterList, marker: Marker, ty: Ty) -> Option<TypeKind>
    ensures { result ≡ heads.broken_parameter list marker ty }
{
    if may_not_be(list, marker, ty) {
        return Some(TypeKind::Mismatch);
    }
    if marker == Marker::Escaping && !is_function(ty) {
        return Some(TypeKind::EscapingUse);
    }
    None
}

/// Whether no parameter with this marker may have the type.
fn may_not_be(list: ParameterList, marker: Marker, ty: Ty) -> bool
    ensures { result ≡ heads.may_not_be list marker ty }
{
    match list {
        ParameterList::OfFunction => {
            is_void(ty) || (marker == Marker::Borrowing && is_function(ty))
        }
        ParameterList::OfSubscript => is_void(ty) || is_function(ty),
    }
}

/// The local that a parameter is in the body, of whose type this is known.
pub fn parameter_local(node: Node, written: &sx_tree::Parameter, known: Known) -> Local
    ensures { result ≡ heads.parameter_local node written.now known }
{
    let kind = match written.marker {
        Marker::InOut => LocalKind::InOut,
        _ => LocalKind::Constant,
    };
    Local {
        name: written.name.number,
        node,
        kind,
        known,
        lent: is_lent(written.marker, known),
    }
}

/// Whether it is a function that isn't kept.
fn is_lent(marker: Marker, known: Known) -> bool
    ensures { result ≡ heads.is_lent marker known }
{
    match known {
        Known::Type(ty) => marker == Marker::Plain && is_function(ty),
        _ => false,
    }
}

/// What is known of the type of a parameter, by what is found at it.
pub fn known_parameter(parameter: &Found<HeadParameter>) -> Known
    ensures { (w : _) → result ≡ heads.known_parameter (found parameter.now w) }
{
    match parameter {
        Found::Typed(parameter) => Known::Type(parameter.parameter.ty),
        Found::Untold => Known::Untold,
        Found::Depends => Known::Failed,
    }
}

/// Whether it is a function type.
pub fn is_function(ty: Ty) -> bool
    ensures { result ≡ is_function ty }
{
    matches!(ty, Ty::Func(_))
}
