//! The near and far forms of items.
ghost use Rattle.std.specs.Prelude.{◌≡◌, ◌++◌, ◌+◌, ◌<◌, ◌≤◌, ◌/◌, ◌^◌, [], ◌∷◌, OnOk};
ghost use Rattle.std.specs.Int.{w32, to_le_bytes};
ghost use Rattle.sx_rv_isa.specs.Words.{word_of, imm12, imm20, reg};
ghost use Rattle.sx_rv_asm.specs.Items.{form_size};
ghost use Rattle.sx_rv_asm.specs.Labels.{place_in};
ghost use Rattle.sx_rv_asm.specs.Forms.{distance, upper_part, is_within, is_near, inverse, base_of, far_jump, branch_form, jump_form, address_form, bytes_of, form_of};

use crate::items::{Data, Item};
use crate::labels::Labels;
use std::alloc::AllocError;
use sx_rv_isa::{BranchOp, Imm12, Imm20, ImmediateOp, Instr, Reg, UpperOp, encode};

/// The register of jumps that keep no link.
const ZERO: Reg = Reg { number: 0 };

/// The register that far forms overwrite where they have no other one.
const SCRATCH: Reg = Reg { number: 31 };

#[tactic(auto, unfolding(crate::specs::Forms::distance))]
fn distance(start: u32, target: u32) -> u32
    ensures { result ≡ distance start target }
{
    target.wrapping_sub(start)
}

/// The lower part of a distance.
fn lower(distance: u32) -> Imm12
    ensures { result ≡ imm12 distance }
{
    Imm12 {
        bits: (distance % 4096) as u16,
    }
}

/// The upper part of a distance.
#[tactic(auto, unfolding(crate::specs::Forms::upper_part))]
fn upper(distance: u32) -> Imm20
    ensures { result ≡ imm20 (upper_part distance) }
{
    Imm20 {
        bits: ((distance as u64 + 2048) / 4096 % 1048576) as u32,
    }
}

/// The immediate of a jump over a distance.
fn halved(distance: u32) -> Imm20
    ensures { result ≡ imm20 (distance / 2) }
{
    Imm20 {
        bits: distance / 2 % 1048576,
    }
}

fn inverse(condition: BranchOp) -> BranchOp
    ensures { result ≡ inverse condition }
{
    match condition {
        BranchOp::Beq => BranchOp::Bne,
        BranchOp::Bne => BranchOp::Beq,
        BranchOp::Blt => BranchOp::Bge,
        BranchOp::Bge => BranchOp::Blt,
        BranchOp::Bltu => BranchOp::Bgeu,
        BranchOp::Bgeu => BranchOp::Bltu,
    }
}

/// The register that a far jump goes by.
fn base_of(rd: Reg) -> Reg
    ensures { result ≡ base_of rd }
{
    if rd.number == 0 { SCRATCH } else { rd }
}

fn is_within(ahead: u32, behind: u32, start: u32, target: u32) -> bool
    ensures { result ≡ is_within ahead behind start target }
{
    let last = start as u64 + ahead as u64;
    let furthest = target as u64 + behind as u64;
    target as u64 <= last && start as u64 <= furthest
}

/// Whether the near form of an item at an address reaches its label.
pub fn is_near(labels: &Labels, address: u32, item: &Item) -> bool
    ensures { result ≡ is_near (place_in labels.now) address item.now }
{
    match item {
        Item::Plain(_) => false,
        Item::Label(_) => false,
        Item::Branch { to, .. } => is_within(4094, 4096, address, labels.place(*to)),
        Item::Jump { to, .. } => is_within(1048574, 1048576, address, labels.place(*to)),
        Item::Address { .. } => false,
        Item::Bytes(_) => false,
    }
}

/// The bytes that an item takes.
pub fn size(near: bool, item: &Item) -> usize
    ensures { result ≡ form_size near item.now }
{
    match item {
        Item::Plain(_) => 4,
        Item::Label(_) => 0,
        Item::Branch { .. } => if near { 4 } else { 12 },
        Item::Jump { .. } => if near { 4 } else { 8 },
        Item::Address { .. } => 8,
        Item::Bytes(bytes) => bytes.as_slice().len(),
    }
}

fn put(code: &mut Vec<u8>, instr: Instr) -> Result<(), AllocError>
    ensures { OnOk result (code.new.items ≡ code.old.items ++ to_le_bytes w32 (word_of instr)) }
{
    code.extend_from_slice(&encode(&instr).to_le_bytes())?;
    Ok(())
}

fn put_far_jump(code: &mut Vec<u8>, rd: Reg, base: Reg, distance: u32) -> Result<(), AllocError>
    ensures { OnOk result (code.new.items ≡ code.old.items ++ bytes_of (far_jump rd base distance)) }
{
    put(
        code,
        Instr::Upper {
            op: UpperOp::Auipc,
            rd: base,
            imm: upper(distance),
        },
    )?;
    put(
        code,
        Instr::JumpTo {
            rd,
            rs1: base,
            imm: lower(distance),
        },
    )
}

fn put_branch(
    code: &mut Vec<u8>,
    near: bool,
    cond: BranchOp,
    rs1: Reg,
    rs2: Reg,
    address: u32,
    target: u32,
) -> Result<(), AllocError>
    requires { address < 2 ^ 31 }
    ensures { OnOk result (code.new.items ≡ code.old.items ++ bytes_of (branch_form near cond rs1 rs2 address target)) }
{
    if near {
        let imm = lower(distance(address, target) / 2);
        return put(
            code,
            Instr::Branch {
                op: cond,
                rs1,
                rs2,
                imm,
            },
        );
    }
    let op = inverse(cond);
    let imm = Imm12 { bits: 6 };
    put(code, Instr::Branch { op, rs1, rs2, imm })?;
    put_far_jump(code, ZERO, SCRATCH, distance(address + 4, target))
}

fn put_jump(
    code: &mut Vec<u8>,
    near: bool,
    rd: Reg,
    address: u32,
    target: u32,
) -> Result<(), AllocError>
    ensures { OnOk result (code.new.items ≡ code.old.items ++ bytes_of (jump_form near rd address target)) }
{
    let distance = distance(address, target);
    if near {
        let imm = halved(distance);
        put(code, Instr::Jump { rd, imm })
    } else {
        put_far_jump(code, rd, base_of(rd), distance)
    }
}

fn put_address(code: &mut Vec<u8>, rd: Reg, address: u32, target: u32) -> Result<(), AllocError>
    ensures { OnOk result (code.new.items ≡ code.old.items ++ bytes_of (address_form rd address target)) }
{
    let distance = distance(address, target);
    put(
        code,
        Instr::Upper {
            op: UpperOp::Auipc,
            rd,
            imm: upper(distance),
        },
    )?;
    put(
        code,
        Instr::Immediate {
            op: ImmediateOp::Addi,
            rd,
            rs1: rd,
            imm: lower(distance),
        },
    )
}

fn put_data(code: &mut Vec<u8>, bytes: &Data) -> Result<(), AllocError>
    ensures { OnOk result (code.new.items ≡ code.old.items ++ bytes.now) }
{
    code.extend_from_slice(bytes.as_slice())?;
    Ok(())
}

/// Adds the bytes of an item at an address.
#[tactic(auto, unfolding(crate::specs::Forms::form_of))]
pub fn put_item(
    code: &mut Vec<u8>,
    labels: &Labels,
    address: u32,
    near: bool,
    item: &Item,
) -> Result<(), AllocError>
    requires { address < 2 ^ 31 }
    ensures { OnOk result (code.new.items ≡ code.old.items ++ form_of (place_in labels.now) address near item.now) }
{
    match item {
        Item::Plain(instr) => put(code, *instr),
        Item::Label(_) => Ok(()),
        Item::Branch { cond, rs1, rs2, to } => {
            put_branch(code, near, *cond, *rs1, *rs2, address, labels.place(*to))
        }
        Item::Jump { rd, to } => put_jump(code, near, *rd, address, labels.place(*to)),
        Item::Address { rd, to } => put_address(code, *rd, address, labels.place(*to)),
        Item::Bytes(bytes) => put_data(code, bytes),
    }
}
