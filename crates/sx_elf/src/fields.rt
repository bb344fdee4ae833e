// Numbers and program headers at places of a file.
ghost use Rattle.std.specs.Prelude.{◌≡◌, ◌≤◌, ◌+◌, length};
ghost use Rattle.sx_elf.specs.Fields.{half, word, xword, program_header};

use crate::program_header::ProgramHeader;

pub(crate) const FILE_HEADER_BYTES: usize = 64;

pub(crate) const PROGRAM_HEADER_BYTES: u16 = 56;

// Places of the fields of the file header, by their names in "ELF-64 Object File Format".
pub(crate) const E_TYPE: usize = 16;

pub(crate) const E_MACHINE: usize = 18;

pub(crate) const E_ENTRY: usize = 24;

pub(crate) const E_PHOFF: usize = 32;

pub(crate) const E_PHENTSIZE: usize = 54;

pub(crate) const E_PHNUM: usize = 56;

// The number of two bytes that stands at a place.
pub(crate) fn half_at(bytes: &[u8], at: usize) -> u16
    requires { at + 2 ≤ length bytes.now }
    ensures { result ≡ half bytes.now at }
{
    let mut field = [0; 2];
    field.copy_from_slice(&bytes[at..at + 2]);
    u16::from_le_bytes(field)
}

// The number of four bytes that stands at a place.
pub(crate) fn word_at(bytes: &[u8], at: usize) -> u32
    requires { at + 4 ≤ length bytes.now }
    ensures { result ≡ word bytes.now at }
{
    let mut field = [0; 4];
    field.copy_from_slice(&bytes[at..at + 4]);
    u32::from_le_bytes(field)
}

// The number of eight bytes that stands at a place.
pub(crate) fn xword_at(bytes: &[u8], at: usize) -> u64
    requires { at + 8 ≤ length bytes.now }
    ensures { result ≡ xword bytes.now at }
{
    let mut field = [0; 8];
    field.copy_from_slice(&bytes[at..at + 8]);
    u64::from_le_bytes(field)
}

// The program header of this number, which stands at a place.
pub(crate) fn program_header_at(bytes: &[u8], number: u32, at: usize) -> ProgramHeader
    requires { at + 56 ≤ length bytes.now }
    ensures { result ≡ program_header bytes.now number at }
{
    ProgramHeader {
        number,
        kind: word_at(bytes, at),
        flags: word_at(bytes, at + 4),
        offset: xword_at(bytes, at + 8),
        address: xword_at(bytes, at + 16),
        file_size: xword_at(bytes, at + 32),
        memory_size: xword_at(bytes, at + 40),
        align: xword_at(bytes, at + 48),
    }
}
