//! Runs of many steps, with the two outputs.
ghost use Rattle.std.specs.Prelude.{◌≡◌};
ghost use Rattle.sx_rv_machine.specs.Run.{written_by};
ghost use Rattle.sx_rv_machine.specs.Put.{Ran, Gave, end_of};
ghost use Rattle.sx_rv_machine.specs.declared.machine.Event.TheVariants.{Wrote};

use crate::machine::{Ending, Event, Machine, step};
use sx_io::{Sink, SinkStop};
use sx_rv_isa::MachineKind;

/// What a run answers.
#[derive(Clone, Copy, Debug, PartialEq, Eq)]
pub enum RunEnd {
    /// The program has exited with this status.
    Exited(u8),
    /// The machine has not ended after all the steps.
    Budget,
    /// The instruction at this address could not be carried out.
    Faulted(MachineKind, u64),
    /// The sink of this output, 1 or 2, has failed.
    SinkFault(u8),
}

/// At most so many steps, with the bytes of output 1 put into `out` and those of output 2 into `err`. A put that fails
/// stops the run right after its step. A machine that has ended answers how, and neither it nor the sinks change.
pub fn run<O: Sink, E: Sink>(machine: &mut Machine, steps: u64, out: &mut O, err: &mut E) -> RunEnd
    ensures { Ran steps machine.old machine.new (record { bytes = O.written out.old; faults = O.faults out.old }) (record { bytes = O.written out.new; faults = O.faults out.new }) (record { bytes = E.written err.old; faults = E.faults err.old }) (record { bytes = E.written err.new; faults = E.faults err.new }) result }
{
    for count in 0..steps {
        match step(machine) {
            Event::Went => {}
            Event::Wrote {
                fd,
                address,
                length,
            } => match give(machine, fd, address, length, out, err) {
                Ok(()) => {}
                Err(_) => return RunEnd::SinkFault(fd),
            },
            Event::Exited(_) => return answer(machine),
            Event::Faulted(..) => return answer(machine),
        }
    }
    answer(machine)
}

/// Puts what a step has written.
fn give<O: Sink, E: Sink>(
    machine: &Machine,
    fd: u8,
    address: u64,
    length: u64,
    out: &mut O,
    err: &mut E,
) -> Result<(), SinkStop>
    ensures { Gave fd (written_by machine.now.memory (Wrote fd address length) 1) (written_by machine.now.memory (Wrote fd address length) 2) (record { bytes = O.written out.old; faults = O.faults out.old }) (record { bytes = O.written out.new; faults = O.faults out.new }) (record { bytes = E.written err.old; faults = E.faults err.old }) (record { bytes = E.written err.new; faults = E.faults err.new }) result }
{
    let Some(bytes) = machine.readable(address, length) else {
        return Ok(());
    };
    match fd {
        1 => out.put(bytes),
        2 => err.put(bytes),
        _ => Ok(()),
    }
}

/// What a run answers in a state.
fn answer(machine: &Machine) -> RunEnd
    ensures { result ≡ end_of machine.now.ending }
{
    match machine.ending() {
        None => RunEnd::Budget,
        Some(Ending::Exits(status)) => RunEnd::Exited(status),
        Some(Ending::Faults(kind, pc)) => RunEnd::Faulted(kind, pc),
    }
}
