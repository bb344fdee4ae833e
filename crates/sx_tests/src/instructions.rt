//! Words and results from outside: an assembler's words, and the corners of the arithmetic that the
//! manual's tables list.
use sx_rv_isa::{
    Amount6, Effect, Imm12, Instr, Reg, RegisterOp, ShiftOp, StoreOp, decode, encode, execute,
};

/// `sd x1, 8(x2)`
const STORE: Instr = Instr::Store {
    op: StoreOp::Sd,
    rs1: Reg { number: 2 },
    rs2: Reg { number: 1 },
    imm: Imm12 { bits: 8 },
};

/// `mul x10, x11, x10`
const MULTIPLY: Instr = Instr::Register {
    op: RegisterOp::Mul,
    rd: Reg { number: 10 },
    rs1: Reg { number: 11 },
    rs2: Reg { number: 10 },
};

/// `slli x10, x11, 32`
const SHIFT: Instr = Instr::Shift {
    op: ShiftOp::Slli,
    rd: Reg { number: 10 },
    rs1: Reg { number: 11 },
    amount: Amount6 { bits: 32 },
};

#[test]
fn decodes_words(rt: HostRuntime) {
    assert!(rt; decode(0x0011_3423) == Some(STORE));
    assert!(rt; decode(0x02A5_8533) == Some(MULTIPLY));
    assert!(rt; decode(0x0205_9513) == Some(SHIFT));
    assert!(rt; decode(0x0405_9513).is_none());
    assert!(rt; decode(0).is_none());
}

#[test]
fn encodes_instructions(rt: HostRuntime) {
    assert_eq!(rt; encode(&STORE), 0x0011_3423);
    assert_eq!(rt; encode(&MULTIPLY), 0x02A5_8533);
    assert_eq!(rt; encode(&SHIFT), 0x0205_9513);
}

#[test]
fn names_registers(rt: HostRuntime) {
    assert_eq!(rt; STORE.destination(), 0);
    assert_eq!(rt; STORE.first_source(), 2);
    assert_eq!(rt; STORE.second_source(), 1);
    assert_eq!(rt; SHIFT.destination(), 10);
}

#[test]
fn executes_instructions(rt: HostRuntime) {
    let stored = Effect::Store {
        address: 108,
        bytes: 8,
        value: 5,
    };
    assert!(rt; execute(&STORE, 0x1_0000, 100, 5) == stored);
    assert!(rt; execute(&MULTIPLY, 0, 6, 7) == Effect::Value(42));
    assert!(rt; execute(&SHIFT, 0, 3, 0) == Effect::Value(0x3_0000_0000));
}

/// What the instruction leaves in its destination.
fn computed(op: RegisterOp, first: u64, second: u64) -> Option<u64> {
    let instr = Instr::Register {
        op,
        rd: Reg { number: 10 },
        rs1: Reg { number: 11 },
        rs2: Reg { number: 12 },
    };
    match execute(&instr, 0, first, second) {
        Effect::Value(value) => Some(value),
        _ => None,
    }
}

#[test]
fn computes_corners(rt: HostRuntime) {
    const LEAST: u64 = 0x8000_0000_0000_0000;
    let most = u64::MAX;
    assert!(rt; computed(RegisterOp::Div, LEAST, most) == Some(LEAST));
    assert!(rt; computed(RegisterOp::Rem, LEAST, most) == Some(0));
    assert!(rt; computed(RegisterOp::Div, 7, 0) == Some(most));
    assert!(rt; computed(RegisterOp::Rem, 7, 0) == Some(7));
    assert!(rt; computed(RegisterOp::Divw, 0x8000_0000, most) == Some(0xFFFF_FFFF_8000_0000));
    assert!(rt; computed(RegisterOp::Mulh, most, most) == Some(0));
    assert!(rt; computed(RegisterOp::Mulhsu, most, most) == Some(most));
}
