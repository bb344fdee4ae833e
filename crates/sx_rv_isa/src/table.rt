//! The table of operations, and the arms that it writes.
macro_rules! table {
    ($arms:ident $($given:tt)*) => {
        $arms! { ($($given)*)
            upper [
                (Lui 0b0110111 => upper)
                (Auipc 0b0010111 => add)
            ]
            branch [
                (Beq 0b1100011 0b000 => equal)
                (Bne 0b1100011 0b001 => not_equal)
                (Blt 0b1100011 0b100 => less)
                (Bge 0b1100011 0b101 => not_less)
                (Bltu 0b1100011 0b110 => below)
                (Bgeu 0b1100011 0b111 => not_below)
            ]
            load [
                (Lb 0b0000011 0b000 => (1, true))
                (Lh 0b0000011 0b001 => (2, true))
                (Lw 0b0000011 0b010 => (4, true))
                (Ld 0b0000011 0b011 => (8, true))
                (Lbu 0b0000011 0b100 => (1, false))
                (Lhu 0b0000011 0b101 => (2, false))
                (Lwu 0b0000011 0b110 => (4, false))
            ]
            store [
                (Sb 0b0100011 0b000 => 1)
                (Sh 0b0100011 0b001 => 2)
                (Sw 0b0100011 0b010 => 4)
                (Sd 0b0100011 0b011 => 8)
            ]
            immediate [
                (Addi 0b0010011 0b000 => add)
                (Slti 0b0010011 0b010 => slt)
                (Sltiu 0b0010011 0b011 => sltu)
                (Xori 0b0010011 0b100 => xor)
                (Ori 0b0010011 0b110 => or)
                (Andi 0b0010011 0b111 => and)
                (Addiw 0b0011011 0b000 => addw)
            ]
            shift [
                (Slli 0b0010011 0b001 0b000000 => sll)
                (Srli 0b0010011 0b101 0b000000 => srl)
                (Srai 0b0010011 0b101 0b010000 => sra)
            ]
            shift_word [
                (Slliw 0b0011011 0b001 0b0000000 => sllw)
                (Srliw 0b0011011 0b101 0b0000000 => srlw)
                (Sraiw 0b0011011 0b101 0b0100000 => sraw)
            ]
            register [
                (Add 0b0110011 0b000 0b0000000 => add)
                (Sub 0b0110011 0b000 0b0100000 => sub)
                (Sll 0b0110011 0b001 0b0000000 => sll)
                (Slt 0b0110011 0b010 0b0000000 => slt)
                (Sltu 0b0110011 0b011 0b0000000 => sltu)
                (Xor 0b0110011 0b100 0b0000000 => xor)
                (Srl 0b0110011 0b101 0b0000000 => srl)
                (Sra 0b0110011 0b101 0b0100000 => sra)
                (Or 0b0110011 0b110 0b0000000 => or)
                (And 0b0110011 0b111 0b0000000 => and)
                (Mul 0b0110011 0b000 0b0000001 => mul)
                (Mulh 0b0110011 0b001 0b0000001 => mulh)
                (Mulhsu 0b0110011 0b010 0b0000001 => mulhsu)
                (Mulhu 0b0110011 0b011 0b0000001 => mulhu)
                (Div 0b0110011 0b100 0b0000001 => div)
                (Divu 0b0110011 0b101 0b0000001 => divu)
                (Rem 0b0110011 0b110 0b0000001 => rem)
                (Remu 0b0110011 0b111 0b0000001 => remu)
                (Addw 0b0111011 0b000 0b0000000 => addw)
                (Subw 0b0111011 0b000 0b0100000 => subw)
                (Sllw 0b0111011 0b001 0b0000000 => sllw)
                (Srlw 0b0111011 0b101 0b0000000 => srlw)
                (Sraw 0b0111011 0b101 0b0100000 => sraw)
                (Mulw 0b0111011 0b000 0b0000001 => mulw)
                (Divw 0b0111011 0b100 0b0000001 => divw)
                (Divuw 0b0111011 0b101 0b0000001 => divuw)
                (Remw 0b0111011 0b110 0b0000001 => remw)
                (Remuw 0b0111011 0b111 0b0000001 => remuw)
            ]
        }
    };
}

macro_rules! decode_arms {
    (($word:expr, $opcode:expr, $funct3:expr, $funct7:expr)
        upper [ $(($upper:ident $uppero:literal => $upperd:tt))* ]
        branch [ $(($branch:ident $brancho:literal $branchf:literal => $branchd:tt))* ]
        load [ $(($load:ident $loado:literal $loadf:literal => $loadd:tt))* ]
        store [ $(($store:ident $storeo:literal $storef:literal => $stored:tt))* ]
        immediate [ $(($immediate:ident $immediateo:literal $immediatef:literal => $immediated:tt))* ]
        shift [ $(($shift:ident $shifto:literal $shiftf:literal $shiftg:literal => $shiftd:tt))* ]
        shift_word [ $(($shiftword:ident $shiftwordo:literal $shiftwordf:literal $shiftwordg:literal => $shiftwordd:tt))* ]
        register [ $(($register:ident $registero:literal $registerf:literal $registerg:literal => $registerd:tt))* ]
    ) => {
        match ($opcode, $funct3, $funct7 / 2, $funct7) {
            $(($uppero, _, _, _) => Some(Instr::Upper { op: UpperOp::$upper, rd: rd($word), imm: upper($word) }),)*
            $(($brancho, $branchf, _, _) => Some(Instr::Branch { op: BranchOp::$branch, rs1: rs1($word), rs2: rs2($word), imm: b_imm($word) }),)*
            $(($loado, $loadf, _, _) => Some(Instr::Load { op: LoadOp::$load, rd: rd($word), rs1: rs1($word), imm: i_imm($word) }),)*
            $(($storeo, $storef, _, _) => Some(Instr::Store { op: StoreOp::$store, rs1: rs1($word), rs2: rs2($word), imm: s_imm($word) }),)*
            $(($immediateo, $immediatef, _, _) => Some(Instr::Immediate { op: ImmediateOp::$immediate, rd: rd($word), rs1: rs1($word), imm: i_imm($word) }),)*
            $(($shifto, $shiftf, $shiftg, _) => Some(Instr::Shift { op: ShiftOp::$shift, rd: rd($word), rs1: rs1($word), amount: amount_6($word) }),)*
            $(($shiftwordo, $shiftwordf, _, $shiftwordg) => Some(Instr::ShiftWord { op: ShiftWordOp::$shiftword, rd: rd($word), rs1: rs1($word), amount: amount_5($word) }),)*
            $(($registero, $registerf, _, $registerg) => Some(Instr::Register { op: RegisterOp::$register, rd: rd($word), rs1: rs1($word), rs2: rs2($word) }),)*
            (0b1101111, _, _, _) => Some(Instr::Jump { rd: rd($word), imm: j_imm($word) }),
            (0b1100111, 0, _, _) => Some(Instr::JumpTo { rd: rd($word), rs1: rs1($word), imm: i_imm($word) }),
            (0b0001111, 0, _, _) => Some(Instr::Fence { rd: rd($word), rs1: rs1($word), imm: i_imm($word) }),
            _ => system($word),
        }
    };
}

macro_rules! encode_arms {
    (($instr:expr)
        upper [ $(($upper:ident $uppero:literal => $upperd:tt))* ]
        branch [ $(($branch:ident $brancho:literal $branchf:literal => $branchd:tt))* ]
        load [ $(($load:ident $loado:literal $loadf:literal => $loadd:tt))* ]
        store [ $(($store:ident $storeo:literal $storef:literal => $stored:tt))* ]
        immediate [ $(($immediate:ident $immediateo:literal $immediatef:literal => $immediated:tt))* ]
        shift [ $(($shift:ident $shifto:literal $shiftf:literal $shiftg:literal => $shiftd:tt))* ]
        shift_word [ $(($shiftword:ident $shiftwordo:literal $shiftwordf:literal $shiftwordg:literal => $shiftwordd:tt))* ]
        register [ $(($register:ident $registero:literal $registerf:literal $registerg:literal => $registerd:tt))* ]
    ) => {
        match $instr {
            $(Instr::Upper { op: UpperOp::$upper, rd, imm } => pack_upper($uppero, rd, imm.bits),)*
            $(Instr::Branch { op: BranchOp::$branch, rs1, rs2, imm } => b_word(Row { opcode: $brancho, funct3: $branchf, funct7: 0 }, rs1, rs2, imm),)*
            $(Instr::Load { op: LoadOp::$load, rd, rs1, imm } => i_word(Row { opcode: $loado, funct3: $loadf, funct7: 0 }, rd, rs1, imm),)*
            $(Instr::Store { op: StoreOp::$store, rs1, rs2, imm } => s_word(Row { opcode: $storeo, funct3: $storef, funct7: 0 }, rs1, rs2, imm),)*
            $(Instr::Immediate { op: ImmediateOp::$immediate, rd, rs1, imm } => i_word(Row { opcode: $immediateo, funct3: $immediatef, funct7: 0 }, rd, rs1, imm),)*
            $(Instr::Shift { op: ShiftOp::$shift, rd, rs1, amount } => shift_word(Row { opcode: $shifto, funct3: $shiftf, funct7: $shiftg }, rd, rs1, amount),)*
            $(Instr::ShiftWord { op: ShiftWordOp::$shiftword, rd, rs1, amount } => r_word(Row { opcode: $shiftwordo, funct3: $shiftwordf, funct7: $shiftwordg }, rd, rs1, amount.bits),)*
            $(Instr::Register { op: RegisterOp::$register, rd, rs1, rs2 } => r_word(Row { opcode: $registero, funct3: $registerf, funct7: $registerg }, rd, rs1, rs2.number),)*
            Instr::Jump { rd, imm } => j_word(0b1101111, rd, imm),
            Instr::JumpTo { rd, rs1, imm } => i_word(JUMP_TO, rd, rs1, imm),
            Instr::Fence { rd, rs1, imm } => i_word(FENCE, rd, rs1, imm),
            Instr::System { op: SystemOp::Ecall } => 0x0000_0073,
            Instr::System { op: SystemOp::Ebreak } => 0x0010_0073,
        }
    };
}

macro_rules! execute_arms {
    (($instr:expr, $pc:expr, $first:expr, $second:expr)
        upper [ $(($upper:ident $uppero:literal => $upperd:tt))* ]
        branch [ $(($branch:ident $brancho:literal $branchf:literal => $branchd:tt))* ]
        load [ $(($load:ident $loado:literal $loadf:literal => $loadd:tt))* ]
        store [ $(($store:ident $storeo:literal $storef:literal => $stored:tt))* ]
        immediate [ $(($immediate:ident $immediateo:literal $immediatef:literal => $immediated:tt))* ]
        shift [ $(($shift:ident $shifto:literal $shiftf:literal $shiftg:literal => $shiftd:tt))* ]
        shift_word [ $(($shiftword:ident $shiftwordo:literal $shiftwordf:literal $shiftwordg:literal => $shiftwordd:tt))* ]
        register [ $(($register:ident $registero:literal $registerf:literal $registerg:literal => $registerd:tt))* ]
    ) => {
        match $instr {
            $(Instr::Upper { op: UpperOp::$upper, rd: _, imm } => Effect::Value($upperd($pc, extend::<32>((imm.bits as u64) << 12))),)*
            $(Instr::Branch { op: BranchOp::$branch, rs1: _, rs2: _, imm } => if $branchd($first, $second) { Effect::Branch(add($pc, extend::<13>((imm.bits as u64) * 2))) } else { Effect::Next },)*
            $(Instr::Load { op: LoadOp::$load, rd: _, rs1: _, imm } => { let (bytes, signed) = $loadd; Effect::Load { address: add($first, extend::<12>(imm.bits as u64)), bytes, signed } },)*
            $(Instr::Store { op: StoreOp::$store, rs1: _, rs2: _, imm } => Effect::Store { address: add($first, extend::<12>(imm.bits as u64)), bytes: $stored, value: $second },)*
            $(Instr::Immediate { op: ImmediateOp::$immediate, rd: _, rs1: _, imm } => Effect::Value($immediated($first, extend::<12>(imm.bits as u64))),)*
            $(Instr::Shift { op: ShiftOp::$shift, rd: _, rs1: _, amount } => Effect::Value($shiftd($first, amount.bits as u64)),)*
            $(Instr::ShiftWord { op: ShiftWordOp::$shiftword, rd: _, rs1: _, amount } => Effect::Value($shiftwordd($first, amount.bits as u64)),)*
            $(Instr::Register { op: RegisterOp::$register, rd: _, rs1: _, rs2: _ } => Effect::Value($registerd($first, $second)),)*
            Instr::Jump { rd: _, imm } => Effect::Jump {
                target: add($pc, extend::<21>((imm.bits as u64) * 2)),
                link: add($pc, 4),
            },
            Instr::JumpTo { rd: _, rs1: _, imm } => Effect::Jump {
                target: add($first, extend::<12>(imm.bits as u64)) / 2 * 2,
                link: add($pc, 4),
            },
            Instr::Fence { rd: _, rs1: _, imm: _ } => Effect::Next,
            Instr::System { op: SystemOp::Ecall } => Effect::Environment,
            Instr::System { op: SystemOp::Ebreak } => Effect::Breakpoint,
        }
    };
}

pub(crate) use decode_arms;
pub(crate) use encode_arms;
pub(crate) use execute_arms;
pub(crate) use table;
