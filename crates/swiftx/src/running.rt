//! Source texts, which are compiled and run.
ghost use Rattle.std.specs.Prelude.{◌≡◌, ◌⊎◌, ◌<◌, ◌^◌, ℕ, None, Some, length};
ghost use Rattle.swiftx.specs.Found.{bytes_of_all};
ghost use Rattle.swiftx.specs.Parts.{RanOut, Judged, FileSettled, PrintsSettled, TextSettled};
ghost use Rattle.swiftx.specs.PrintCode.{AreShort, code_of};
ghost use Rattle.swiftx.specs.Target.{start, target};
ghost use Rattle.sx_runs.specs.Machine.{shown};
ghost use Rattle.sx_runs.specs.Ending.{Broken};

use crate::bench::{Bench, Built};
use crate::building::{built, machine_of};
use crate::checking::{fault_of, refuse_text};
use crate::outcome::Outcome;
use crate::prints::literals_of;
use std::alloc::Global;
use sx_driver::Fault;
use sx_elf::read_of_write;
use sx_io::Sink;
use sx_rv_isa::{reads_back, words_fit};
use sx_rv_machine::{Machine, RunEnd, run};

/// Compiles a text, and runs what was built.
pub(crate) fn run_text<O: Sink, E: Sink>(
    alloc: Global,
    text: &[u8],
    steps: u64,
    out: &mut O,
    err: &mut E,
    bench: &mut Bench,
) -> Outcome
    requires built { bench.old.built ≡ None }
    requires machine { bench.old.machine ≡ None }
    ensures { RanOut (record { bytes = O.written out.old; faults = O.faults out.old }) (record { bytes = O.written out.new; faults = O.faults out.new }) (record { bytes = E.written err.old; faults = E.faults err.old }) (record { bytes = E.written err.new; faults = E.faults err.new }) result
        ⊎ TextSettled text.now steps (record { bytes = O.written out.old; faults = O.faults out.old }) (record { bytes = O.written out.new; faults = O.faults out.new }) (record { bytes = E.written err.old; faults = E.faults err.old }) (record { bytes = E.written err.new; faults = E.faults err.new }) bench.new result }
{
    let Ok(fault) = fault_of(alloc, text) else {
        return Outcome::NoMemory;
    };
    match fault {
        None => run_sound(alloc, text, steps, out, err, bench),
        Some(fault) => refuse_text(alloc, text, fault, err),
    }
}

// Compiles a text without fault, and runs what was built.
fn run_sound<O: Sink, E: Sink>(
    alloc: Global,
    text: &[u8],
    steps: u64,
    out: &mut O,
    err: &mut E,
    bench: &mut Bench,
) -> Outcome
    requires sound { Judged text.now None }
    requires built { bench.old.built ≡ None }
    requires machine { bench.old.machine ≡ None }
    ensures { RanOut (record { bytes = O.written out.old; faults = O.faults out.old }) (record { bytes = O.written out.new; faults = O.faults out.new }) (record { bytes = E.written err.old; faults = E.faults err.old }) (record { bytes = E.written err.new; faults = E.faults err.new }) result
        ⊎ TextSettled text.now steps (record { bytes = O.written out.old; faults = O.faults out.old }) (record { bytes = O.written out.new; faults = O.faults out.new }) (record { bytes = E.written err.old; faults = E.faults err.old }) (record { bytes = E.written err.new; faults = E.faults err.new }) bench.new result }
{
    let Ok(found) = literals_of(alloc, text) else {
        return Outcome::NoMemory;
    };
    match found {
        None => refuse_text(alloc, text, Fault::Unbuilt, err),
        Some(literals) => run_prints(alloc, &literals, steps, out, err, bench),
    }
}

// Builds the executable that prints the literals, and runs it.
fn run_prints<O: Sink, E: Sink>(
    alloc: Global,
    literals: &[&[u8]],
    steps: u64,
    out: &mut O,
    err: &mut E,
    bench: &mut Bench,
) -> Outcome
    requires short { AreShort (bytes_of_all literals.now) }
    requires fits { length (code_of (bytes_of_all literals.now)) < 2 ^ 27 }
    ensures { RanOut (record { bytes = O.written out.old; faults = O.faults out.old }) (record { bytes = O.written out.new; faults = O.faults out.new }) (record { bytes = E.written err.old; faults = E.faults err.old }) (record { bytes = E.written err.new; faults = E.faults err.new }) result
        ⊎ PrintsSettled (bytes_of_all literals.now) steps (record { bytes = O.written out.old; faults = O.faults out.old }) (record { bytes = O.written out.new; faults = O.faults out.new }) (record { bytes = E.written err.old; faults = E.faults err.old }) (record { bytes = E.written err.new; faults = E.faults err.new }) bench.new result }
{
    // The laws of the instruction table and of the file's layout, which the proof cites.
    words_fit();
    reads_back();
    read_of_write();
    let Ok(file) = built(alloc, literals) else {
        return Outcome::NoMemory;
    };
    let Ok(machine) = machine_of(alloc, &file) else {
        return Outcome::NoMemory;
    };
    run_built(file, machine, steps, out, err, bench)
}

// Runs the machine of a file that was built, and leaves both on the bench.
fn run_built<O: Sink, E: Sink>(
    file: Vec<u8>,
    mut machine: Machine,
    steps: u64,
    out: &mut O,
    err: &mut E,
    bench: &mut Bench,
) -> Outcome
    requires starts { machine ≡ start file.items }
    requires sound { (n : ℕ) → (shown (target file.items) n).ending ≡ Some Broken → ⊥ }
    ensures { FileSettled file.items steps (record { bytes = O.written out.old; faults = O.faults out.old }) (record { bytes = O.written out.new; faults = O.faults out.new }) (record { bytes = E.written err.old; faults = E.faults err.old }) (record { bytes = E.written err.new; faults = E.faults err.new }) bench.new result }
{
    let end = run(&mut machine, steps, out, err);
    bench.built = Some(Built { bytes: file });
    bench.machine = Some(machine);
    match end {
        RunEnd::Exited(status) => Outcome::Exited(status),
        RunEnd::Budget => Outcome::Budget,
        RunEnd::SinkFault(_) => Outcome::SinkFault,
        RunEnd::Faulted(..) => unreachable!(),
    }
}
