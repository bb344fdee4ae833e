//! What a call answers.
ghost use Rattle.std.specs.Prelude.{◌≡◌};
ghost use Rattle.swiftx.specs.Status.{status_of};

use sx_driver::Fault;
use sx_elf::ElfStop;
use sx_rv_isa::MachineKind;

/// What a call answers.
#[derive(Clone, Copy, Debug, PartialEq, Eq)]
pub enum Outcome {
    /// What was asked for was done, and no program ran.
    Done,
    /// The program that ran has exited with this status.
    Exited(u8),
    /// The words are no command line.
    Usage,
    /// The text is refused.
    Refused(Fault),
    /// The executable is refused by the first test that it fails, and never for want of memory.
    ElfRefused(ElfStop),
    /// The program had not ended after all the steps of the limit.
    Budget,
    /// The machine of an executable that was not built here could not carry out the instruction at this address.
    MachineFault(MachineKind, u64),
    /// The file could not be read.
    StoreFault,
    /// An output could not be written; nothing was written after that.
    SinkFault,
    /// Memory ran out.
    NoMemory,
}

/// The exit status for an outcome: a program's own, or one for each other outcome.
pub fn code(outcome: &Outcome) -> u8
    ensures { result ≡ status_of outcome.now }
{
    match outcome {
        Outcome::Done => 0,
        Outcome::Exited(status) => *status,
        Outcome::Usage => 2,
        Outcome::StoreFault => 3,
        Outcome::SinkFault => 4,
        Outcome::Refused(_) => 5,
        Outcome::ElfRefused(_) => 6,
        Outcome::Budget => 7,
        Outcome::MachineFault(..) => 8,
        Outcome::NoMemory => 9,
    }
}
