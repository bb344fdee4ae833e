//! What an instruction does with the contents of its registers.
ghost use Rattle.std.specs.Prelude.{◌≡◌, ◌<◌, ◌≤◌, ◌^◌, ◌*◌};
ghost use Rattle.sx_rv_isa.specs.Effects.{extend, effect};

use crate::arithmetic::{
    add, addw, and, below, div, divu, divuw, divw, equal, less, mul, mulh, mulhsu, mulhu, mulw,
    not_below, not_equal, not_less, or, rem, remu, remuw, remw, sll, sllw, slt, sltu, sra, sraw,
    srl, srlw, sub, subw, upper, xor,
};
use crate::effect::Effect;
use crate::instructions::{
    BranchOp, ImmediateOp, Instr, LoadOp, RegisterOp, ShiftOp, ShiftWordOp, StoreOp, SystemOp,
    UpperOp,
};
use crate::table::{execute_arms, table};
use sx_bits::sign;

#[inline]
#[tactic(auto, unfolding(crate::specs::Effects::extend))]
fn extend<const N: u32>(value: u64) -> u64
    requires least { 1 ≤ N }
    requires most { N ≤ 64 }
    requires fits { value < 2 ^ N }
    ensures { result ≡ extend N value }
{
    sign::<N>(value).cast_unsigned()
}

/// What an instruction does at `pc`, where `first` and `second` are the contents of rs1 and rs2.
#[inline]
pub fn execute(instr: &Instr, pc: u64, first: u64, second: u64) -> Effect
    ensures { result ≡ effect instr.now pc first second }
{
    table!(execute_arms * instr, pc, first, second)
}
