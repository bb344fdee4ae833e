//! The fields of an instruction that its operation does not fix, each within its range.
ghost use Rattle.std.specs.Prelude.{◌<◌, ◌^◌};

/// A register's number, from 0 to 31.
#[derive(Clone, Copy, Debug, PartialEq, Eq)]
pub struct Reg {
    pub number: u8,
    pub ghost in_range: { number < 32 },
}

/// Twelve bits of an immediate in two's complement. Its value is theirs, and twice theirs for a
/// branch.
#[derive(Clone, Copy, Debug, PartialEq, Eq)]
pub struct Imm12 {
    pub bits: u16,
    pub ghost in_range: { bits < 4096 },
}

/// Twenty bits of an immediate in two's complement. Its value is theirs times 4096 for LUI and
/// AUIPC, and times 2 for JAL.
#[derive(Clone, Copy, Debug, PartialEq, Eq)]
pub struct Imm20 {
    pub bits: u32,
    pub ghost in_range: { bits < 1048576 },
}

/// How far a 64-bit value is shifted, from 0 to 63.
#[derive(Clone, Copy, Debug, PartialEq, Eq)]
pub struct Amount6 {
    pub bits: u8,
    pub ghost in_range: { bits < 64 },
}

/// How far a 32-bit value is shifted, from 0 to 31.
#[derive(Clone, Copy, Debug, PartialEq, Eq)]
pub struct Amount5 {
    pub bits: u8,
    pub ghost in_range: { bits < 32 },
}
