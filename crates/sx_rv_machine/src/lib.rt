//! The machine that runs executables for RV64IM: one hart, and a memory of areas with permissions.
//!
//! [`load`] makes a machine of a loaded executable, [`step`] carries out one instruction, and [`run`] carries out
//! many, with the two outputs put into sinks. What a step does stands in `specs/Step.antt`, over the instructions of
//! `sx_rv_isa` (RISC-V Unprivileged ISA, RV64I and the M extension); the environment calls are those of this machine.
#![tactic(auto)]

mod loading;
mod machine;
mod memory;
mod no_memory;
mod runs;

pub use loading::load;
pub use machine::{Ending, Event, Machine, pc, step};
pub use no_memory::NoMemory;
pub use runs::{RunEnd, run};
