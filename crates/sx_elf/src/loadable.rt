// What a file loads.

/// A segment of memory: `bytes`, and then zeros up to `size`.
#[derive(Drop)]
pub struct Segment {
    /// The address of the first byte.
    pub start: u64,
    /// The rights, as the sum of 1 for execution, 2 for writing and 4 for reading; other bits may be set.
    pub flags: u32,
    /// The bytes that the file gives.
    pub bytes: Vec<u8>,
    /// The size in memory, in bytes.
    pub size: u64,
}

/// What a file loads: segments that are apart, in the order of their program headers.
#[derive(Drop)]
pub struct Loadable {
    /// The address of the first instruction.
    pub entry: u64,
    pub segments: Vec<Segment>,
}
