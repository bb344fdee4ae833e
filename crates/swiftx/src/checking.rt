//! Source texts, which are refused or accepted.
ghost use Rattle.std.specs.Prelude.{◌≡◌, ◌⊎◌, [], None, IfOk};
ghost use Rattle.sx_driver.specs.Faults.{IsPlaced};
ghost use Rattle.sx_rv_machine.specs.Put.{Grew};
ghost use Rattle.swiftx.specs.Parts.{RanOut, CheckSettled, FaultSaid, Judged};
ghost use Rattle.swiftx.specs.declared.outcome.Outcome.TheVariants.{NoMemory};

use crate::bench::Bench;
use crate::messages::say;
use crate::outcome::Outcome;
use std::alloc::{AllocError, Global};
use sx_driver::{CompileStop, Fault, fault_line, typed_of};
use sx_io::Sink;

/// Refuses a text, or accepts it.
pub(crate) fn check_text<O: Sink, E: Sink>(
    alloc: Global,
    text: &[u8],
    out: &mut O,
    err: &mut E,
    bench: &mut Bench,
) -> Outcome
    requires built { bench.old.built ≡ None }
    requires machine { bench.old.machine ≡ None }
    ensures { RanOut (record { bytes = O.written out.old; faults = O.faults out.old }) (record { bytes = O.written out.new; faults = O.faults out.new }) (record { bytes = E.written err.old; faults = E.faults err.old }) (record { bytes = E.written err.new; faults = E.faults err.new }) result
        ⊎ CheckSettled text.now (record { bytes = O.written out.old; faults = O.faults out.old }) (record { bytes = O.written out.new; faults = O.faults out.new }) (record { bytes = E.written err.old; faults = E.faults err.old }) (record { bytes = E.written err.new; faults = E.faults err.new }) bench.new result }
{
    let Ok(fault) = fault_of(alloc, text) else {
        return Outcome::NoMemory;
    };
    match fault {
        None => Outcome::Done,
        Some(fault) => refuse_text(alloc, text, fault, err),
    }
}

/// The first rule that a text breaks. The typed tree of a text without fault is let go.
pub(crate) fn fault_of(alloc: Global, text: &[u8]) -> Result<Option<Fault>, AllocError>
    ensures { IfOk result (Judged text.now) }
{
    match typed_of(alloc, text) {
        Ok(_typed) => Ok(None),
        Err(CompileStop::Refused(fault)) => Ok(Some(fault)),
        Err(CompileStop::NoMemory) => Err(AllocError),
    }
}

/// Tells why a text is refused.
pub(crate) fn refuse_text<E: Sink>(alloc: Global, text: &[u8], fault: Fault, err: &mut E) -> Outcome
    requires { IsPlaced text.now fault }
    ensures { (result ≡ NoMemory × Grew (record { bytes = E.written err.old; faults = E.faults err.old }) (record { bytes = E.written err.new; faults = E.faults err.new }) [])
        ⊎ FaultSaid text.now fault result (record { bytes = E.written err.old; faults = E.faults err.old }) (record { bytes = E.written err.new; faults = E.faults err.new }) }
{
    match fault_line(alloc, text, fault) {
        Ok(line) => say(err, line.as_bytes(), Outcome::Refused(fault)),
        Err(_) => Outcome::NoMemory,
    }
}
