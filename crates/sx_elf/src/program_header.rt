// The header of a segment, and the tests that it has to pass.
use crate::ElfStop;

// Kinds of segments: one that is loaded, and three for a dynamic linker.
const PT_LOAD: u32 = 1;

const PT_DYNAMIC: u32 = 2;

const PT_INTERP: u32 = 3;

const PT_TLS: u32 = 7;

/// A program header, with the fields of "ELF-64 Object File Format" that matter here.
#[derive(Clone, Copy)]
pub(crate) struct ProgramHeader {
    /// Its place among the program headers, from 0.
    pub number: u32,
    /// `p_type`.
    pub kind: u32,
    /// `p_flags`.
    pub flags: u32,
    /// `p_offset`: where the segment begins in the file.
    pub offset: u64,
    /// `p_vaddr`: where it begins in memory.
    pub address: u64,
    /// `p_filesz`: its bytes in the file.
    pub file_size: u64,
    /// `p_memsz`: its bytes in memory.
    pub memory_size: u64,
    /// `p_align`.
    pub align: u64,
}

impl ProgramHeader {
    ghost use Rattle.std.specs.Prelude.{◌≡◌, map};
    ghost use Rattle.sx_elf.specs.Tests.{is_load, is_dynamic, is_aligned, is_well_formed, shares_byte, first_failing, program_header_tests, overlap_test, IsAnswer};

    // Whether its segment is loaded.
    pub(crate) fn is_load(&self) -> bool
        ensures { result ≡ is_load self.now }
    {
        self.kind == PT_LOAD
    }

    // Whether it is for a dynamic linker.
    fn is_dynamic(&self) -> bool
        ensures { result ≡ is_dynamic self.now }
    {
        self.kind == PT_DYNAMIC || self.kind == PT_INTERP || self.kind == PT_TLS
    }

    // Whether the alignment is a power of two or 0, and the address and the offset agree by it.
    fn is_aligned(&self) -> bool
        ensures { result ≡ is_aligned self.now }
    {
        (self.align == 0 || self.align.is_power_of_two())
            && (self.align <= 1 || self.address % self.align == self.offset % self.align)
    }

    // Whether the bytes of the file fit the memory, which ends by 2^63.
    fn is_well_formed(&self) -> bool
        ensures { result ≡ is_well_formed self.now }
    {
        self.file_size <= self.memory_size
            && self.is_aligned()
            && u128::from(self.address) + u128::from(self.memory_size) <= 1 << 63
    }

    // Whether the memory of both has a byte in common.
    fn shares_byte(&self, other: &ProgramHeader) -> bool
        ensures { result ≡ shares_byte self.now other.now }
    {
        let end = u128::from(self.address) + u128::from(self.memory_size);
        let other_end = u128::from(other.address) + u128::from(other.memory_size);
        u128::from(self.address.max(other.address)) < end.min(other_end)
    }

    // Whether it can be loaded from a file of this length.
    pub(crate) fn check(&self, file_length: usize) -> Result<(), ElfStop>
        ensures { IsAnswer (first_failing (program_header_tests file_length self.now)) result }
    {
        if self.is_dynamic() {
            return Err(ElfStop::Dynamic(self.number));
        }
        if !self.is_load() {
            return Ok(());
        }
        if !self.is_well_formed() {
            return Err(ElfStop::BadSegment(self.number));
        }
        let end = u128::from(self.offset) + u128::from(self.file_size);
        if end > file_length as u128 {
            return Err(ElfStop::Short(end));
        }
        Ok(())
    }

    // Whether its memory is apart from that of all others.
    pub(crate) fn check_apart(&self, others: &[ProgramHeader]) -> Result<(), ElfStop>
        ensures { IsAnswer (first_failing (map (overlap_test self.now) others.now)) result }
    {
        for other in others {
            if self.shares_byte(other) {
                return Err(ElfStop::Overlapping(self.number, other.number));
            }
        }
        Ok(())
    }
}
