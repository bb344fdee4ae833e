// Why nothing was read.

use std::alloc::{AllocError, AllocFailed};

/// Why nothing was read: memory ran out, or the token that so many tokens before the end begin
/// with doesn't fit, or opens a level too much.
#[derive(Debug, Drop)]
pub enum Stop {
    Memory,
    Fault { left: usize, deep: bool },
}

impl From<AllocError> for Stop {
    ghost use Rattle.std.specs.Prelude.{◌≡◌};
    ghost use Rattle.sx_parse_decl.specs.declared.stop.Stop.TheVariants.{Memory};

    ghost from_gives = { λ _ e. e ≡ Memory };

    fn from(_: AllocError) -> Stop {
        Stop::Memory
    }
}

impl<T: Drop> From<AllocFailed<T>> for Stop {
    ghost use Rattle.std.specs.Prelude.{◌≡◌};
    ghost use Rattle.sx_parse_decl.specs.declared.stop.Stop.TheVariants.{Memory};

    ghost from_gives = { λ _ e. e ≡ Memory };

    fn from(_: AllocFailed<T>) -> Stop {
        Stop::Memory
    }
}
