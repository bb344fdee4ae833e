//! Why a machine of these instructions cannot go on.

/// A kind of fault of the machine.
#[derive(Clone, Copy, Debug, PartialEq, Eq)]
pub enum MachineKind {
    /// The pc is no multiple of 4.
    FetchMisaligned,
    /// The four bytes at the pc are not all in one segment that may be executed.
    FetchOutside,
    /// The word at the pc is that of no instruction.
    Illegal,
    /// A jump or a branch that is taken goes to an address that is no multiple of 4.
    JumpMisaligned,
    /// A load's address is no multiple of its size.
    LoadMisaligned,
    /// A load's bytes are not all in one segment that may be read.
    LoadOutside,
    /// A store's address is no multiple of its size.
    StoreMisaligned,
    /// A store's bytes are not all in one segment that may be written.
    StoreOutside,
    /// A call of the environment that it does not have.
    Environment,
    /// A breakpoint.
    Breakpoint,
}
