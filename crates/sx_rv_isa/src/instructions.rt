//! Instructions: a variant for each format, and the operations of each.
use crate::fields::{Amount5, Amount6, Imm12, Imm20, Reg};

/// Operations with an immediate of twenty upper bits, format U.
#[derive(Clone, Copy, Debug, PartialEq, Eq)]
pub enum UpperOp {
    /// The immediate.
    Lui,
    /// The pc plus the immediate.
    Auipc,
}

/// When a branch is taken, of rs1 and rs2: equal, not equal, less and not less, the last two also
/// as unsigned numbers.
#[derive(Clone, Copy, Debug, PartialEq, Eq)]
pub enum BranchOp {
    Beq,
    Bne,
    Blt,
    Bge,
    Bltu,
    Bgeu,
}

/// Loads of 1, 2, 4 and 8 bytes, extended by their sign, and those that end in `u` by zeros.
#[derive(Clone, Copy, Debug, PartialEq, Eq)]
pub enum LoadOp {
    Lb,
    Lh,
    Lw,
    Ld,
    Lbu,
    Lhu,
    Lwu,
}

/// Stores of 1, 2, 4 and 8 bytes.
#[derive(Clone, Copy, Debug, PartialEq, Eq)]
pub enum StoreOp {
    Sb,
    Sh,
    Sw,
    Sd,
}

/// Operations on a register and an immediate.
#[derive(Clone, Copy, Debug, PartialEq, Eq)]
pub enum ImmediateOp {
    Addi,
    Slti,
    Sltiu,
    Xori,
    Ori,
    Andi,
    Addiw,
}

/// Shifts of a 64-bit value by a fixed amount.
#[derive(Clone, Copy, Debug, PartialEq, Eq)]
pub enum ShiftOp {
    Slli,
    Srli,
    Srai,
}

/// Shifts of a 32-bit value by a fixed amount.
#[derive(Clone, Copy, Debug, PartialEq, Eq)]
pub enum ShiftWordOp {
    Slliw,
    Srliw,
    Sraiw,
}

/// Operations on two registers, those of the M extension among them.
#[derive(Clone, Copy, Debug, PartialEq, Eq)]
pub enum RegisterOp {
    Add,
    Sub,
    Sll,
    Slt,
    Sltu,
    Xor,
    Srl,
    Sra,
    Or,
    And,
    Mul,
    Mulh,
    Mulhsu,
    Mulhu,
    Div,
    Divu,
    Rem,
    Remu,
    Addw,
    Subw,
    Sllw,
    Srlw,
    Sraw,
    Mulw,
    Divw,
    Divuw,
    Remw,
    Remuw,
}

/// Calls of the environment.
#[derive(Clone, Copy, Debug, PartialEq, Eq)]
pub enum SystemOp {
    Ecall,
    Ebreak,
}

/// An instruction of RV64IM.
#[derive(Clone, Copy, Debug, PartialEq, Eq)]
pub enum Instr {
    /// LUI and AUIPC.
    Upper {
        op: UpperOp,
        rd: Reg,
        imm: Imm20,
    },
    /// JAL: a jump to the pc plus the immediate.
    Jump {
        rd: Reg,
        imm: Imm20,
    },
    /// JALR: a jump to rs1 plus the immediate, without the lowest bit.
    JumpTo {
        rd: Reg,
        rs1: Reg,
        imm: Imm12,
    },
    /// A jump to the pc plus the immediate, where a condition on rs1 and rs2 holds.
    Branch {
        op: BranchOp,
        rs1: Reg,
        rs2: Reg,
        imm: Imm12,
    },
    /// A load from rs1 plus the immediate.
    Load {
        op: LoadOp,
        rd: Reg,
        rs1: Reg,
        imm: Imm12,
    },
    /// A store of rs2 to rs1 plus the immediate.
    Store {
        op: StoreOp,
        rs1: Reg,
        rs2: Reg,
        imm: Imm12,
    },
    /// An operation on rs1 and the immediate.
    Immediate {
        op: ImmediateOp,
        rd: Reg,
        rs1: Reg,
        imm: Imm12,
    },
    /// A shift of rs1.
    Shift {
        op: ShiftOp,
        rd: Reg,
        rs1: Reg,
        amount: Amount6,
    },
    /// A shift of the low 32 bits of rs1.
    ShiftWord {
        op: ShiftWordOp,
        rd: Reg,
        rs1: Reg,
        amount: Amount5,
    },
    /// An operation on rs1 and rs2.
    Register {
        op: RegisterOp,
        rd: Reg,
        rs1: Reg,
        rs2: Reg,
    },
    /// FENCE, which does nothing here, whatever its other fields are.
    Fence {
        rd: Reg,
        rs1: Reg,
        imm: Imm12,
    },
    /// ECALL and EBREAK.
    System {
        op: SystemOp,
    },
}
