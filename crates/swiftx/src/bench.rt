//! What a call leaves behind to look at: the program that it built, and the machine that ran.
ghost use Rattle.std.specs.Prelude.{◌≡◌, None};

use sx_rv_machine::Machine;

/// A program that was built.
#[derive(Drop)]
pub struct Built {
    /// The bytes of the executable (ELF64).
    pub bytes: Vec<u8>,
}

/// The program that a call has built, and the machine that has run, as it stands at the end.
#[derive(Drop)]
pub struct Bench {
    pub built: Option<Built>,
    pub machine: Option<Machine>,
}

impl Bench {
    /// An empty bench. It takes no memory.
    pub fn new() -> Bench
        ensures built { result.built ≡ None }
        ensures machine { result.machine ≡ None }
    {
        Bench {
            built: None,
            machine: None,
        }
    }
}
