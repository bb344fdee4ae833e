//! The registers that an instruction reads and writes.
ghost use Rattle.std.specs.Prelude.{◌≡◌, ◌<◌};
ghost use Rattle.sx_rv_isa.specs.Registers.{destination, first_source, second_source};

use crate::instructions::Instr;

impl Instr {
    /// The number of the register that the instruction writes, 0 where it writes none.
    #[inline]
    pub fn destination(&self) -> u8
        ensures value { result ≡ destination self.now }
        ensures bound { result < 32 }
    {
        match *self {
            Instr::Upper { rd, .. } => rd.number,
            Instr::Jump { rd, .. } => rd.number,
            Instr::JumpTo { rd, .. } => rd.number,
            Instr::Load { rd, .. } => rd.number,
            Instr::Immediate { rd, .. } => rd.number,
            Instr::Shift { rd, .. } => rd.number,
            Instr::ShiftWord { rd, .. } => rd.number,
            Instr::Register { rd, .. } => rd.number,
            _ => 0,
        }
    }

    /// The number of the register that the instruction reads as rs1, 0 where its format has none.
    #[inline]
    pub fn first_source(&self) -> u8
        ensures value { result ≡ first_source self.now }
        ensures bound { result < 32 }
    {
        match *self {
            Instr::JumpTo { rs1, .. } => rs1.number,
            Instr::Branch { rs1, .. } => rs1.number,
            Instr::Load { rs1, .. } => rs1.number,
            Instr::Store { rs1, .. } => rs1.number,
            Instr::Immediate { rs1, .. } => rs1.number,
            Instr::Shift { rs1, .. } => rs1.number,
            Instr::ShiftWord { rs1, .. } => rs1.number,
            Instr::Register { rs1, .. } => rs1.number,
            _ => 0,
        }
    }

    /// The number of the register that the instruction reads as rs2, 0 where its format has none.
    #[inline]
    pub fn second_source(&self) -> u8
        ensures value { result ≡ second_source self.now }
        ensures bound { result < 32 }
    {
        match *self {
            Instr::Branch { rs2, .. } => rs2.number,
            Instr::Store { rs2, .. } => rs2.number,
            Instr::Register { rs2, .. } => rs2.number,
            _ => 0,
        }
    }
}
