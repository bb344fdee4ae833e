//! The code of a text of prints.
ghost use Rattle.std.specs.Prelude.{◌≡◌, ◌≤◌, ◌<◌, ◌+◌, ◌*◌, ◌^◌, ◌++◌, ◌∷◌, [], length, replicate, map, IfOk, OnOk};
ghost use Rattle.std.specs.List.{All};
ghost use Rattle.sx_rv_isa.specs.Words.{reg, imm12, imm20};
ghost use Rattle.sx_rv_isa.specs.declared.instructions.Instr.TheVariants.{Upper};
ghost use Rattle.swiftx.specs.Found.{bytes_of_all};
ghost use Rattle.swiftx.specs.PrintCode.{add_immediate, upper_part, lower_part, padding, line_size, stored_size, stored, word_bytes, print_instructions, print_code, exit_instructions, exit_code, code_of, AreShort};

use std::alloc::{AllocError, Global};
use sx_rv_isa::{Imm12, Imm20, ImmediateOp, Instr, Reg, SystemOp, UpperOp, encode};

const ZERO: u8 = 0;

const A0: u8 = 10;

const A1: u8 = 11;

const A2: u8 = 12;

const A7: u8 = 17;

/// The code that prints these literals, one after another, and exits with status 0.
pub fn code_of(alloc: Global, literals: &[&[u8]]) -> Result<Vec<u8>, AllocError>
    requires { AreShort (bytes_of_all literals.now) }
    ensures { IfOk result (λ code. code.items ≡ code_of (bytes_of_all literals.now)) }
{
    let mut code = Vec::new(alloc);
    for literal in literals {
        put_print(&mut code, literal)?;
    }
    put_exit(&mut code)?;
    Ok(code)
}

// The instructions that print a literal, and its line behind them.
fn put_print(code: &mut Vec<u8>, literal: &[u8]) -> Result<(), AllocError>
    requires { length literal.now ≤ 262144 }
    ensures { OnOk result (code.new.items ≡ code.old.items ++ print_code literal.now) }
{
    put_print_instructions(code, literal)?;
    code.extend_from_slice(literal)?;
    code.push(b'\n')?;
    put_zeros(code, zeros_behind(literal.len() + 1))
}

// How many zeros lead to the next multiple of 4.
fn zeros_behind(size: usize) -> usize
    ensures value { result ≡ padding size }
    ensures few { result < 4 }
{
    (4 - size % 4) % 4
}

fn put_zeros(code: &mut Vec<u8>, count: usize) -> Result<(), AllocError>
    requires { count < 4 }
    ensures { OnOk result (code.new.items ≡ code.old.items ++ replicate count 0) }
{
    code.extend_from_slice(&[0; 4][..count])
}

// The eight instructions that write the line behind them, and go on behind it.
fn put_print_instructions(code: &mut Vec<u8>, literal: &[u8]) -> Result<(), AllocError>
    requires { length literal.now ≤ 262144 }
    ensures { OnOk result (code.new.items ≡ code.old.items ++ word_bytes (print_instructions literal.now)) }
{
    let size = literal.len() + 1;
    let behind = size + zeros_behind(size);
    put_all(
        code,
        &[
            add_immediate(A0, ZERO, 1),
            upper(UpperOp::Auipc, A1, 0),
            add_immediate(A1, A1, 28),
            upper(UpperOp::Lui, A2, ((size + 2048) / 4096) as u32),
            add_immediate(A2, A2, (size % 4096) as u16),
            add_immediate(A7, ZERO, 64),
            Instr::System {
                op: SystemOp::Ecall,
            },
            Instr::Jump {
                rd: register(ZERO),
                imm: immediate_20(((4 + behind) / 2) as u32),
            },
        ],
    )
}

// Exits with status 0.
#[tactic(auto, unfolding(crate::specs::PrintCode::exit_code))]
fn put_exit(code: &mut Vec<u8>) -> Result<(), AllocError>
    ensures { OnOk result (code.new.items ≡ code.old.items ++ exit_code) }
{
    put_all(
        code,
        &[
            add_immediate(A0, ZERO, 0),
            add_immediate(A7, ZERO, 93),
            Instr::System {
                op: SystemOp::Ecall,
            },
            Instr::System {
                op: SystemOp::Ebreak,
            },
        ],
    )
}

// The words of some instructions, the lowest byte first.
fn put_all(code: &mut Vec<u8>, instructions: &[Instr]) -> Result<(), AllocError>
    ensures { OnOk result (code.new.items ≡ code.old.items ++ word_bytes instructions.now) }
{
    for instruction in instructions {
        code.extend_from_slice(&encode(instruction).to_le_bytes())?;
    }
    Ok(())
}

fn register(number: u8) -> Reg
    requires { number < 32 }
    ensures { result ≡ reg number }
{
    Reg { number }
}

fn immediate_12(bits: u16) -> Imm12
    requires { bits < 2 ^ 12 }
    ensures { result ≡ imm12 bits }
{
    Imm12 { bits }
}

fn immediate_20(bits: u32) -> Imm20
    requires { bits < 2 ^ 20 }
    ensures { result ≡ imm20 bits }
{
    Imm20 { bits }
}

fn add_immediate(rd: u8, rs1: u8, bits: u16) -> Instr
    requires rd { rd < 32 }
    requires rs1 { rs1 < 32 }
    requires bits { bits < 2 ^ 12 }
    ensures { result ≡ add_immediate rd rs1 bits }
{
    Instr::Immediate {
        op: ImmediateOp::Addi,
        rd: register(rd),
        rs1: register(rs1),
        imm: immediate_12(bits),
    }
}

fn upper(op: UpperOp, rd: u8, bits: u32) -> Instr
    requires rd { rd < 32 }
    requires bits { bits < 2 ^ 20 }
    ensures { result ≡ Upper op (reg rd) (imm20 bits) }
{
    Instr::Upper {
        op,
        rd: register(rd),
        imm: immediate_20(bits),
    }
}
