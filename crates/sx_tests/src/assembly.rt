//! Words that an assembler from outside writes, near and far.
use std::alloc::Global;
use std::test::Fail;
use sx_rv_asm::{Data, Item, assemble, is_short};
use sx_rv_isa::{BranchOp, Instr, Reg, SystemOp};

const ECALL: Instr = Instr::System {
    op: SystemOp::Ecall,
};

/// A label, calls, and then a branch and a jump back, the label's address and four bytes of data.
fn program(alloc: Global, calls: usize) -> Result<Vec<Item>, Fail> {
    let mut items = Vec::new(alloc);
    items.push(Item::Label(7))?;
    for _ in 0..calls {
        items.push(Item::Plain(ECALL))?;
    }
    items.push(Item::Branch {
        cond: BranchOp::Beq,
        rs1: Reg { number: 10 },
        rs2: Reg { number: 0 },
        to: 7,
    })?;
    items.push(Item::Jump {
        rd: Reg { number: 1 },
        to: 7,
    })?;
    items.push(Item::Address {
        rd: Reg { number: 5 },
        to: 7,
    })?;
    items.push(Item::Bytes(Data::new(vec![in alloc; 1, 2, 3, 4]?)))?;
    Ok(items)
}

/// `ecall`; `beq a0, x0, -4`; `jal ra, -8`; `auipc t0, 0`; `addi t0, t0, -12`.
#[test]
fn assembles_near_forms(rt: HostRuntime) -> Result<(), Fail> {
    let items = program(rt.alloc(), 1)?;
    assert!(rt; is_short(&items));
    let code = assemble(rt.alloc(), &items).ok().ok_or("no memory")?;
    let mut words = Vec::new(rt.alloc());
    for word in [
        0x0000_0073_u32,
        0xFE05_0EE3,
        0xFF9F_F0EF,
        0x0000_0297,
        0xFF42_8293,
        0x0403_0201,
    ] {
        words.extend_from_slice(&word.to_le_bytes())?;
    }
    assert_eq!(rt; code.as_slice(), words.as_slice());
    Ok(())
}

/// Behind 300,000 calls: `bne a0, x0, 12`; `auipc t6, -293`; `jalr x0, 124(t6)`; `auipc ra, -293`;
/// `jalr ra, 116(ra)`; `auipc t0, -293`; `addi t0, t0, 108`.
#[test]
fn assembles_far_forms(rt: HostRuntime) -> Result<(), Fail> {
    let items = program(rt.alloc(), 300_000)?;
    assert!(rt; is_short(&items));
    let code = assemble(rt.alloc(), &items).ok().ok_or("no memory")?;
    let mut words = Vec::new(rt.alloc());
    for word in [
        0x0005_1663_u32,
        0xFFED_BF97,
        0x07CF_8067,
        0xFFED_B097,
        0x0740_80E7,
        0xFFED_B297,
        0x06C2_8293,
        0x0403_0201,
    ] {
        words.extend_from_slice(&word.to_le_bytes())?;
    }
    let far = code.get(1_200_000..).ok_or("short")?;
    assert_eq!(rt; far, words.as_slice());
    Ok(())
}
