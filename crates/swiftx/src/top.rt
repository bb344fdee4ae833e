//! The top call: what the words ask for is done.
ghost use Rattle.std.specs.Prelude.{◌≡◌, ◌⊎◌, None};
ghost use Rattle.swiftx.specs.Answer.{Answered};
ghost use Rattle.swiftx.specs.Outside.{Outside};
ghost use Rattle.swiftx.specs.Parts.{RanOut, CommandSettled};
ghost use Rattle.swiftx.specs.Words.{meaning, texts};

use crate::bench::Bench;
use crate::checking::check_text;
use crate::command::{Command, command_of};
use crate::executing::exec_file;
use crate::messages::{STORE_LINE, USAGE_LINE, say};
use crate::outcome::Outcome;
use crate::running::run_text;
use std::alloc::Global;
use sx_io::{Sink, Store, StoreStop};

/// Does what the words ask for.
///
/// It reads from the store, writes to the two sinks and leaves on the bench what it has built and run. The clause
/// `answered` says by cases on the outcome what the store was asked for, what the sinks have taken and what lies on the
/// bench; the cases exclude each other, so that it also says exactly when each outcome comes, want of memory aside.
pub fn swiftx<S: Store, O: Sink, E: Sink>(
    alloc: Global,
    words: &Vec<String>,
    store: &mut S,
    out: &mut O,
    err: &mut E,
    bench: &mut Bench,
) -> Outcome
    ensures files { S.files store.new ≡ S.files store.old }
    ensures answered { let old : Outside = record { files = S.files store.old; asked = S.asked store.old; store_faults = S.faults store.old; out = record { bytes = O.written out.old; faults = O.faults out.old }; err = record { bytes = E.written err.old; faults = E.faults err.old } } in
        let new : Outside = record { files = S.files store.new; asked = S.asked store.new; store_faults = S.faults store.new; out = record { bytes = O.written out.new; faults = O.faults out.new }; err = record { bytes = E.written err.new; faults = E.faults err.new } } in
        Answered (texts words.now.items) old new bench.new result }
{
    bench.built = None;
    bench.machine = None;
    let Some(command) = command_of(words) else {
        return say(err, USAGE_LINE, Outcome::Usage);
    };
    match store.read(alloc, command.file(), command.most_of()) {
        Ok(bytes) => perform(alloc, &command, bytes, out, err, bench),
        Err(StoreStop::Failed) => say(err, STORE_LINE, Outcome::StoreFault),
        Err(StoreStop::NoMemory) => Outcome::NoMemory,
    }
}

// Does what a command asks for, with its file.
fn perform<O: Sink, E: Sink>(
    alloc: Global,
    command: &Command<'_>,
    bytes: Vec<u8>,
    out: &mut O,
    err: &mut E,
    bench: &mut Bench,
) -> Outcome
    requires built { bench.old.built ≡ None }
    requires machine { bench.old.machine ≡ None }
    ensures { RanOut (record { bytes = O.written out.old; faults = O.faults out.old }) (record { bytes = O.written out.new; faults = O.faults out.new }) (record { bytes = E.written err.old; faults = E.faults err.old }) (record { bytes = E.written err.new; faults = E.faults err.new }) result
        ⊎ CommandSettled (meaning command.now) bytes.items (record { bytes = O.written out.old; faults = O.faults out.old }) (record { bytes = O.written out.new; faults = O.faults out.new }) (record { bytes = E.written err.old; faults = E.faults err.old }) (record { bytes = E.written err.new; faults = E.faults err.new }) bench.new result }
{
    match command {
        Command::Check { .. } => check_text(alloc, &bytes, out, err, bench),
        Command::Run { steps, .. } => run_text(alloc, &bytes, *steps, out, err, bench),
        Command::Exec { steps, .. } => exec_file(alloc, bytes, *steps, out, err, bench),
    }
}
