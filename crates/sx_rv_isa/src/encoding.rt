//! Instructions to words.
ghost use Rattle.std.specs.Prelude.{◌≡◌, ◌<◌, ◌^◌, Some};
ghost use Rattle.sx_rv_isa.specs.Table.{IsRow};
ghost use Rattle.sx_rv_isa.specs.Words.{pack, pack_upper, j_word, r_word, i_word, s_word, b_word, shift_word, word_of, decoded};
ghost use Rattle.sx_rv_isa.specs.declared.instructions.Instr.{Instr};

use crate::fields::{Amount6, Imm12, Imm20, Reg};
use crate::instructions::{
    BranchOp, ImmediateOp, Instr, LoadOp, RegisterOp, ShiftOp, ShiftWordOp, StoreOp, SystemOp,
    UpperOp,
};
use crate::rows::Row;
use crate::table::{encode_arms, table};

const JUMP_TO: Row = Row {
    opcode: 0b1100111,
    funct3: 0,
    funct7: 0,
};

const FENCE: Row = Row {
    opcode: 0b0001111,
    funct3: 0,
    funct7: 0,
};

#[tactic(auto, unfolding(crate::specs::Words::pack))]
fn pack(row: Row, rd: u32, rs1: u32, rs2: u32, funct7: u32) -> u32
    requires row { IsRow row }
    requires rd { rd < 32 }
    requires rs1 { rs1 < 32 }
    requires rs2 { rs2 < 32 }
    requires funct7 { funct7 < 128 }
    ensures { result ≡ pack row.opcode rd row.funct3 rs1 rs2 funct7 }
{
    row.opcode + (rd << 7) + (row.funct3 << 12) + (rs1 << 15) + (rs2 << 20) + (funct7 << 25)
}

#[tactic(auto, unfolding(crate::specs::Words::pack_upper))]
fn pack_upper(opcode: u32, rd: Reg, upper: u32) -> u32
    requires opcode { opcode < 128 }
    requires upper { upper < 1048576 }
    ensures { result ≡ pack_upper opcode rd.number upper }
{
    opcode + ((rd.number as u32) << 7) + (upper << 12)
}

fn r_word(row: Row, rd: Reg, rs1: Reg, rs2: u8) -> u32
    requires row { IsRow row }
    requires rs2 { rs2 < 32 }
    ensures { result ≡ r_word row rd.number rs1.number rs2 }
{
    pack(
        row,
        rd.number as u32,
        rs1.number as u32,
        rs2 as u32,
        row.funct7,
    )
}

fn i_word(row: Row, rd: Reg, rs1: Reg, imm: Imm12) -> u32
    requires { IsRow row }
    ensures { result ≡ i_word row rd.number rs1.number imm.bits }
{
    let bits = imm.bits as u32;
    pack(
        row,
        rd.number as u32,
        rs1.number as u32,
        bits % 32,
        bits / 32,
    )
}

fn s_word(row: Row, rs1: Reg, rs2: Reg, imm: Imm12) -> u32
    requires { IsRow row }
    ensures { result ≡ s_word row rs1.number rs2.number imm.bits }
{
    let bits = imm.bits as u32;
    pack(
        row,
        bits % 32,
        rs1.number as u32,
        rs2.number as u32,
        bits / 32,
    )
}

fn b_word(row: Row, rs1: Reg, rs2: Reg, imm: Imm12) -> u32
    requires { IsRow row }
    ensures { result ≡ b_word row rs1.number rs2.number imm.bits }
{
    let bits = imm.bits as u32;
    let low = (bits >> 10) % 2 + bits % 16 * 2;
    let high = (bits >> 4) % 64 + (bits >> 11) * 64;
    pack(row, low, rs1.number as u32, rs2.number as u32, high)
}

fn j_word(opcode: u32, rd: Reg, imm: Imm20) -> u32
    requires { opcode < 128 }
    ensures { result ≡ j_word opcode rd.number imm.bits }
{
    let upper = (imm.bits >> 11) % 256
        + (imm.bits >> 10) % 2 * 256
        + imm.bits % 1024 * 512
        + (imm.bits >> 19) * 524288;
    pack_upper(opcode, rd, upper)
}

fn shift_word(row: Row, rd: Reg, rs1: Reg, amount: Amount6) -> u32
    requires row { IsRow row }
    requires funct6 { row.funct7 < 64 }
    ensures { result ≡ shift_word row rd.number rs1.number amount.bits }
{
    let bits = amount.bits as u32;
    pack(
        row,
        rd.number as u32,
        rs1.number as u32,
        bits % 32,
        bits / 32 + row.funct7 * 2,
    )
}

fn encode_by_table(instr: &Instr) -> u32
    ensures { result ≡ word_of instr.now }
{
    table!(encode_arms * instr)
}

/// The word of an instruction.
pub fn encode(instr: &Instr) -> u32
    ensures word { result ≡ word_of instr.now }
    ensures reads_back { decoded result ≡ Some instr.now }
{
    encode_by_table(instr)
}

/// The law that the word of an instruction has 32 bits.
pub fn words_fit()
    ensures { (i : Instr) → word_of i < 2 ^ 32 }
{}
