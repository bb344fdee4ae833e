// Whether a type is one that is asked for.

ghost use Rattle.std.specs.Prelude.{◌≡◌};
ghost use Rattle.sx_scope.specs.Names.{agrees};

use crate::walk::Asked;
use sx_types::Ty;

/// Whether a type is one that is asked for.
pub fn is_agreed(asked: Asked, ty: Ty) -> bool
    ensures { result ≡ agrees asked ty }
{
    match asked {
        Asked::Nothing | Asked::Unknown => true,
        Asked::Printable => ty == Ty::Int || ty == Ty::Bool,
        Asked::Type(other) => ty == other,
    }
}
