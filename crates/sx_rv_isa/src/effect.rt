//! What an instruction does, but for the registers and the memory.

/// What an instruction does, but for the registers and the memory. Values, targets, links and
/// addresses are 64-bit words.
#[derive(Clone, Copy, Debug, PartialEq, Eq)]
pub enum Effect {
    /// The value goes to rd, and the next instruction follows.
    Value(u64),
    /// The link goes to rd, and the instruction at the target follows.
    Jump {
        target: u64,
        link: u64,
    },
    /// A branch that is taken: the instruction at the target follows.
    Branch(u64),
    /// The next instruction follows, and nothing else changes.
    Next,
    /// Bytes of memory, the lowest first, go to rd, extended to 64 bits by their sign or by zeros.
    Load {
        address: u64,
        /// 1, 2, 4 or 8.
        bytes: u8,
        signed: bool,
    },
    /// The lowest bytes of the value go to memory, the lowest first.
    Store {
        address: u64,
        /// 1, 2, 4 or 8.
        bytes: u8,
        /// The whole of rs2.
        value: u64,
    },
    /// A call of the environment (ECALL).
    Environment,
    /// A breakpoint (EBREAK).
    Breakpoint,
}
