// What is found, where memory may run out behind it.

ghost use Rattle.std.specs.Prelude.{◌≡◌, IfErr, IfOk, IsOk};
ghost use Rattle.sx_scope.specs.declared.stop.TypeStop.TheVariants.{NoMemory};

use std::alloc::AllocError;
use sx_scope::{Found, TypeStop};

/// What is found at a part, unless memory ran out behind it.
pub(crate) fn unless_full<A: Drop>(
    part: Found<A>,
    room: Result<(), AllocError>,
) -> Result<Found<A>, TypeStop>
    ensures part { IfOk result (λ p. p ≡ part) }
    ensures room { IfOk result (λ p. IsOk room) }
    ensures stop { IfErr result (λ e. e ≡ NoMemory) }
{
    match room {
        Ok(()) => Ok(part),
        Err(_) => Err(TypeStop::NoMemory),
    }
}
