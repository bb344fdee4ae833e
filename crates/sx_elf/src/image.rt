// What a file is made from.

/// A program in machine code, and the memory that it needs.
#[derive(Drop)]
pub struct Image {
    /// The code and whatever is read with it, from the first instruction on.
    pub code: Vec<u8>,
    /// The globals, in words of 8 bytes.
    pub global_words: u64,
}
