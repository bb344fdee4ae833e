//! The instructions of RV64IM: their words, their fields and what each one does.
//!
//! The source of every rule is the RISC-V Unprivileged ISA, chapters RV32I, RV64I and the M
//! extension, with its instruction set listings. One table (`table.rt`) holds each operation's
//! fixed fields; the arms of [`decode`], [`encode`] and [`execute`] are written from it.
#![tactic(auto)]

mod arithmetic;
mod decoding;
mod effect;
mod encoding;
mod execution;
mod faults;
mod fields;
mod instructions;
mod operands;
mod rows;
mod table;

pub use decoding::{decode, reads_back, words_differ};
pub use effect::Effect;
pub use encoding::{encode, words_fit};
pub use execution::execute;
pub use faults::MachineKind;
pub use fields::{Amount5, Amount6, Imm12, Imm20, Reg};
pub use instructions::{
    BranchOp, ImmediateOp, Instr, LoadOp, RegisterOp, ShiftOp, ShiftWordOp, StoreOp, SystemOp,
    UpperOp,
};
