//! The fixed fields of an operation: a row of the instruction set listings.

/// The fixed fields of an operation. A field that its format does not have is 0.
#[derive(Clone, Copy, Debug, PartialEq, Eq)]
pub struct Row {
    /// Bits 0 to 6 of the word.
    pub opcode: u32,
    /// Bits 12 to 14 of the word.
    pub funct3: u32,
    /// Bits 25 to 31 of the word; for a shift of a 64-bit value bits 26 to 31, the field funct6.
    pub funct7: u32,
}
