//! What a program is made of.
ghost use Rattle.std.specs.Prelude.{◌≡◌, List, ℕ};

use std::marker::Model;
use sx_rv_isa::{BranchOp, Instr, Reg};

/// Bytes of data. Contracts see the list of them.
#[derive(Drop)]
pub struct Data {
    bytes: Vec<u8>,
}

impl Model for Data {
    ghost Value = { List ℕ };

    ghost view = { λ d. d.bytes.items };
}

impl Data {
    /// These bytes.
    pub fn new(bytes: Vec<u8>) -> Self
        ensures { result ≡ bytes.items }
    {
        Data { bytes }
    }

    /// The bytes.
    pub fn as_slice(&self) -> &[u8]
        ensures { result.now ≡ self.now }
    {
        self.bytes.as_slice()
    }
}

/// An item of a program. Labels are numbers, and `to` names the label that an item goes to.
#[derive(Drop)]
pub enum Item {
    /// An instruction as it is, four bytes.
    Plain(Instr),
    /// The place of the next item, no bytes.
    Label(u32),
    /// A branch to a label: four bytes, and twelve where the label is too far. The far form uses x31.
    Branch {
        cond: BranchOp,
        rs1: Reg,
        rs2: Reg,
        to: u32,
    },
    /// A jump to a label that leaves the address behind it in rd: four bytes, and eight where the
    /// label is too far. The far form of a jump with rd x0 uses x31.
    Jump {
        rd: Reg,
        to: u32,
    },
    /// The address of a label in rd, eight bytes.
    Address {
        rd: Reg,
        to: u32,
    },
    /// Data, a multiple of four bytes.
    Bytes(Data),
}
