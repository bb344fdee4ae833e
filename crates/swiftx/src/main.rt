//! swiftx compiles a profile of Swift to RISC-V executables (RV64IM, ELF64), and runs them on a
//! machine of its own.
//!
//! [`top::swiftx`] is the top call, and `main` only hands it the machine's files, its standard
//! outputs and the words that the program was started with.
#![tactic(auto)]

mod bench;
mod building;
mod checking;
#[cfg(test)]
mod checks;
mod command;
mod executing;
mod messages;
mod outcome;
mod print_code;
mod prints;
mod running;
#[cfg(test)]
mod tests;
mod top;
mod words;

use crate::bench::Bench;
use crate::outcome::{Outcome, code};
use crate::top::swiftx;
use crate::words::words_after_name;
use std::process::ExitCode;
use sx_io::{RealSink, RealStore};

fn main(rt: HostRuntime) -> ExitCode {
    let alloc = rt.alloc();
    let Ok(words) = words_after_name(&rt, alloc) else {
        return ExitCode::from(code(&Outcome::NoMemory));
    };
    let mut store = RealStore::new(&rt);
    let mut out = RealSink::new(rt.stdout());
    let mut err = RealSink::new(rt.stderr());
    let mut bench = Bench::new();
    let outcome = swiftx(alloc, &words, &mut store, &mut out, &mut err, &mut bench);
    ExitCode::from(code(&outcome))
}
