//! Executables, which are loaded and run as they are.
ghost use Rattle.std.specs.Prelude.{◌≡◌, ◌⊎◌, [], ℕ, None, IfOk};
ghost use Rattle.swiftx.specs.Parts.{RanOut, ExecSettled, MachineSettled, StopSaid};
ghost use Rattle.swiftx.specs.Target.{start};
ghost use Rattle.sx_elf.specs.Loading.{loaded, view, IsLoadable};
ghost use Rattle.sx_elf.specs.Tests.{first_fault, IsAnswer};
ghost use Rattle.sx_rv_machine.specs.Put.{Grew};
ghost use Rattle.swiftx.specs.declared.outcome.Outcome.TheVariants.{NoMemory};

use crate::bench::Bench;
use crate::messages::{elf_line, fault_line, say};
use crate::outcome::Outcome;
use std::alloc::Global;
use sx_elf::{ElfStop, Loadable, read};
use sx_io::Sink;
use sx_rv_machine::{Machine, RunEnd, load, run};

/// Loads an executable, and runs it.
///
/// The file's bytes are let go before the machine takes its memory.
pub(crate) fn exec_file<O: Sink, E: Sink>(
    alloc: Global,
    file: Vec<u8>,
    steps: u64,
    out: &mut O,
    err: &mut E,
    bench: &mut Bench,
) -> Outcome
    requires built { bench.old.built ≡ None }
    requires machine { bench.old.machine ≡ None }
    ensures { RanOut (record { bytes = O.written out.old; faults = O.faults out.old }) (record { bytes = O.written out.new; faults = O.faults out.new }) (record { bytes = E.written err.old; faults = E.faults err.old }) (record { bytes = E.written err.new; faults = E.faults err.new }) result
        ⊎ ExecSettled file.items steps (record { bytes = O.written out.old; faults = O.faults out.old }) (record { bytes = O.written out.new; faults = O.faults out.new }) (record { bytes = E.written err.old; faults = E.faults err.old }) (record { bytes = E.written err.new; faults = E.faults err.new }) bench.new result }
{
    match machine_of(alloc, file) {
        Ok(machine) => run_machine(machine, steps, out, err, bench),
        Err(stop) => refuse(alloc, stop, err),
    }
}

// The machine of an executable, at its start, with all memory of its run.
fn machine_of(alloc: Global, file: Vec<u8>) -> Result<Machine, ElfStop>
    ensures answer { IsAnswer (first_fault file.items) result }
    ensures starts { IfOk result (λ machine. machine ≡ start file.items) }
{
    let loadable = loadable_of(alloc, file)?;
    match load(alloc, &loadable) {
        Ok(machine) => Ok(machine),
        Err(_) => Err(ElfStop::NoMemory),
    }
}

// What an executable loads. The bytes of the file are let go.
fn loadable_of(alloc: Global, file: Vec<u8>) -> Result<Loadable, ElfStop>
    ensures answer { IsAnswer (first_fault file.items) result }
    ensures loaded { IfOk result (λ l. view l ≡ loaded file.items) }
    ensures loadable { IfOk result (λ l. IsLoadable (view l)) }
{
    read(alloc, &file)
}

// Tells why an executable is refused.
fn refuse<E: Sink>(alloc: Global, stop: ElfStop, err: &mut E) -> Outcome
    ensures { (result ≡ NoMemory × Grew (record { bytes = E.written err.old; faults = E.faults err.old }) (record { bytes = E.written err.new; faults = E.faults err.new }) [])
        ⊎ StopSaid stop result (record { bytes = E.written err.old; faults = E.faults err.old }) (record { bytes = E.written err.new; faults = E.faults err.new }) }
{
    match elf_line(alloc, stop) {
        Ok(line) => say(err, line.as_bytes(), Outcome::ElfRefused(stop)),
        Err(_) => Outcome::NoMemory,
    }
}

// Runs a machine, leaves it on the bench, and tells of its fault. No memory is taken.
fn run_machine<O: Sink, E: Sink>(
    mut machine: Machine,
    steps: u64,
    out: &mut O,
    err: &mut E,
    bench: &mut Bench,
) -> Outcome
    requires { bench.old.built ≡ None }
    ensures { MachineSettled machine steps (record { bytes = O.written out.old; faults = O.faults out.old }) (record { bytes = O.written out.new; faults = O.faults out.new }) (record { bytes = E.written err.old; faults = E.faults err.old }) (record { bytes = E.written err.new; faults = E.faults err.new }) bench.new result }
{
    let end = run(&mut machine, steps, out, err);
    bench.machine = Some(machine);
    match end {
        RunEnd::Exited(status) => Outcome::Exited(status),
        RunEnd::Budget => Outcome::Budget,
        RunEnd::SinkFault(_) => Outcome::SinkFault,
        RunEnd::Faulted(kind, pc) => {
            say(err, &fault_line(kind, pc), Outcome::MachineFault(kind, pc))
        }
    }
}
