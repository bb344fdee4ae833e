//! Words to instructions.
ghost use Rattle.std.specs.Prelude.{◌≡◌, ◌≢◌, ◌<◌, IfSome, IfNone, Some};
ghost use Rattle.sx_rv_isa.specs.Words.{decoded, word_of, system_of, reg, rd, rs1, rs2, imm12, imm20, amount_5, amount_6, upper, i_imm, s_imm, b_imm, j_imm};
ghost use Rattle.sx_rv_isa.specs.declared.instructions.Instr.{Instr};

use crate::fields::{Amount5, Amount6, Imm12, Imm20, Reg};
use crate::instructions::{
    BranchOp, ImmediateOp, Instr, LoadOp, RegisterOp, ShiftOp, ShiftWordOp, StoreOp, SystemOp,
    UpperOp,
};
use crate::table::{decode_arms, table};
use sx_bits::field;

#[inline]
#[tactic(auto, unfolding(crate::specs::Words::rd))]
fn rd(word: u32) -> Reg
    ensures { result ≡ rd word }
{
    Reg {
        number: field::<11, 7>(word) as u8,
    }
}

#[inline]
#[tactic(auto, unfolding(crate::specs::Words::rs1))]
fn rs1(word: u32) -> Reg
    ensures { result ≡ rs1 word }
{
    Reg {
        number: field::<19, 15>(word) as u8,
    }
}

#[inline]
#[tactic(auto, unfolding(crate::specs::Words::rs2))]
fn rs2(word: u32) -> Reg
    ensures { result ≡ rs2 word }
{
    Reg {
        number: field::<24, 20>(word) as u8,
    }
}

#[inline]
#[tactic(auto, unfolding(crate::specs::Words::amount_6))]
fn amount_6(word: u32) -> Amount6
    ensures { result ≡ amount_6 word }
{
    Amount6 {
        bits: field::<25, 20>(word) as u8,
    }
}

#[inline]
#[tactic(auto, unfolding(crate::specs::Words::amount_5))]
fn amount_5(word: u32) -> Amount5
    ensures { result ≡ amount_5 word }
{
    Amount5 {
        bits: field::<24, 20>(word) as u8,
    }
}

#[inline]
#[tactic(auto, unfolding(crate::specs::Words::upper))]
fn upper(word: u32) -> Imm20
    ensures { result ≡ upper word }
{
    Imm20 {
        bits: field::<31, 12>(word),
    }
}

#[inline]
#[tactic(auto, unfolding(crate::specs::Words::i_imm))]
fn i_imm(word: u32) -> Imm12
    ensures { result ≡ i_imm word }
{
    Imm12 {
        bits: field::<31, 20>(word) as u16,
    }
}

#[inline]
#[tactic(auto, using(crate::proofs::Ranges::imm12_is), unfolding(crate::specs::Words::s_imm))]
fn s_imm(word: u32) -> Imm12
    ensures { result ≡ s_imm word }
{
    Imm12 {
        bits: (field::<11, 7>(word) + (field::<31, 25>(word) << 5)) as u16,
    }
}

#[inline]
#[tactic(auto, using(crate::proofs::Ranges::imm12_is), unfolding(crate::specs::Words::b_imm))]
fn b_imm(word: u32) -> Imm12
    ensures { result ≡ b_imm word }
{
    let bits = field::<11, 8>(word)
        + (field::<30, 25>(word) << 4)
        + (field::<7, 7>(word) << 10)
        + (field::<31, 31>(word) << 11);
    Imm12 { bits: bits as u16 }
}

#[inline]
#[tactic(auto, using(crate::proofs::Ranges::imm20_is), unfolding(crate::specs::Words::j_imm))]
fn j_imm(word: u32) -> Imm20
    ensures { result ≡ j_imm word }
{
    Imm20 {
        bits: field::<30, 21>(word)
            + (field::<20, 20>(word) << 10)
            + (field::<19, 12>(word) << 11)
            + (field::<31, 31>(word) << 19),
    }
}

#[inline]
#[tactic(auto, unfolding(crate::specs::Words::decoded, crate::specs::Words::decoded_at, crate::specs::Words::flow_at, crate::specs::Words::memory_at, crate::specs::Words::arithmetic_at, crate::specs::Table::upper_at, crate::specs::Table::branch_at, crate::specs::Table::load_at, crate::specs::Table::store_at, crate::specs::Table::immediate_at, crate::specs::Table::shift_at, crate::specs::Table::shift_word_at, crate::specs::Table::register_at))]
fn decode_by_table(word: u32) -> Option<Instr>
    ensures { result ≡ decoded word }
{
    let opcode = field::<6, 0>(word);
    let funct3 = field::<14, 12>(word);
    let funct7 = field::<31, 25>(word);
    table!(decode_arms word, opcode, funct3, funct7)
}

fn system(word: u32) -> Option<Instr>
    ensures { result ≡ system_of word }
{
    match word {
        0x0000_0073 => Some(Instr::System {
            op: SystemOp::Ecall,
        }),
        0x0010_0073 => Some(Instr::System {
            op: SystemOp::Ebreak,
        }),
        _ => None,
    }
}

/// The instruction that has this word, and None exactly where no instruction has it.
#[inline]
pub fn decode(word: u32) -> Option<Instr>
    ensures value { result ≡ decoded word }
    ensures found { IfSome result (λ i. word_of i ≡ word) }
    ensures absent { IfNone result ((i : Instr) → word_of i ≢ word) }
{
    decode_by_table(word)
}

/// The law that the word of an instruction is decoded as that instruction.
pub fn reads_back()
    ensures { (i : Instr) → decoded (word_of i) ≡ Some i }
{}

/// The law that two instructions never have one word.
pub fn words_differ()
    ensures { (i j : Instr) → word_of i ≡ word_of j → i ≡ j }
{}
