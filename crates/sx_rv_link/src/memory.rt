//! The code of a program in the memory.
ghost use Rattle.std.specs.Prelude.{ℕ, List};
ghost use Rattle.sx_rv_machine.specs.State.{State};
ghost use Rattle.sx_rv_link.specs.Following.{HasCode, LiesFirst, steps};

/// The law that code which is the first area of the memory can be fetched.
pub fn first_is_fetched()
    ensures { (s : State) (base : ℕ) (code : List ℕ) → LiesFirst s.memory base code → HasCode s base code }
{}

/// The law that no step changes code that is the first area of the memory.
pub fn code_stays()
    ensures { (count : ℕ) (s : State) (base : ℕ) (code : List ℕ) → LiesFirst s.memory base code → LiesFirst (steps count s).memory base code }
{}
