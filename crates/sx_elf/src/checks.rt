// The tests of a whole file, in their order.
ghost use Rattle.std.specs.Prelude.{◌≤◌, length, OnOk};
ghost use Rattle.sx_elf.specs.Fields.{table_end};
ghost use Rattle.sx_elf.specs.Tests.{first_failing, file_header_tests, overlap_tests, size_tests, IsAnswer};

use crate::ElfStop;
use crate::fields::{
    E_MACHINE, E_PHENTSIZE, E_PHNUM, E_PHOFF, E_TYPE, FILE_HEADER_BYTES, PROGRAM_HEADER_BYTES,
    half_at, xword_at,
};
use crate::program_header::ProgramHeader;

const MAGIC: [u8; 4] = [0x7f, b'E', b'L', b'F'];

// 64 bits, little-endian, version 1.
const CLASS: [u8; 3] = [2, 1, 1];

const EXECUTABLE: u16 = 2;

const RISC_V: u16 = 243;

const MOST_PROGRAM_HEADERS: u16 = 64;

const MOST_MEMORY: u128 = 268_435_456;

// Whether it is a 64-bit little-endian executable for RISC-V, with 1 to 64 program headers that lie
// in the file.
pub(crate) fn check_file_header(bytes: &[u8]) -> Result<(), ElfStop>
    ensures answer { IsAnswer (first_failing (file_header_tests bytes.now)) result }
    ensures long { OnOk result (64 ≤ length bytes.now) }
    ensures table { OnOk result (table_end bytes.now ≤ length bytes.now) }
{
    if bytes.len() < FILE_HEADER_BYTES {
        return Err(ElfStop::Short(FILE_HEADER_BYTES as u128));
    }
    if &bytes[..4] != MAGIC.as_slice() {
        return Err(ElfStop::BadMagic);
    }
    if &bytes[4..7] != CLASS.as_slice() {
        return Err(ElfStop::BadClass);
    }
    if half_at(bytes, E_TYPE) != EXECUTABLE {
        return Err(ElfStop::BadKind);
    }
    if half_at(bytes, E_MACHINE) != RISC_V {
        return Err(ElfStop::BadMachine);
    }
    let count = half_at(bytes, E_PHNUM);
    if half_at(bytes, E_PHENTSIZE) != PROGRAM_HEADER_BYTES
        || count < 1
        || count > MOST_PROGRAM_HEADERS
    {
        return Err(ElfStop::BadTable);
    }
    let end = u128::from(xword_at(bytes, E_PHOFF))
        + u128::from(PROGRAM_HEADER_BYTES) * u128::from(count);
    if end > bytes.len() as u128 {
        return Err(ElfStop::Short(end));
    }
    Ok(())
}

// Whether the memory of all segments is apart.
pub(crate) fn check_overlaps(segments: &[ProgramHeader]) -> Result<(), ElfStop>
    ensures { IsAnswer (first_failing (overlap_tests segments.now)) result }
{
    for (number, segment) in segments.iter().enumerate() {
        segment.check_apart(&segments[number + 1..])?;
    }
    Ok(())
}

// Whether all segments together are small enough.
pub(crate) fn check_size(segments: &[ProgramHeader]) -> Result<(), ElfStop>
    requires { length segments.now ≤ 64 }
    ensures { IsAnswer (first_failing (size_tests segments.now)) result }
{
    let total = segments
        .iter()
        .map(|segment| u128::from(segment.memory_size))
        .sum();
    if total > MOST_MEMORY {
        return Err(ElfStop::TooLarge(total));
    }
    Ok(())
}
