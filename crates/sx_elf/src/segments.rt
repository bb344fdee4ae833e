// The segments of a file that are loaded.
ghost use Rattle.std.specs.Prelude.{◌≡◌, ◌≤◌, ◌+◌, length, map, All, IfOk};
ghost use Rattle.sx_elf.specs.Fields.{table_end};
ghost use Rattle.sx_elf.specs.Tests.{loads, bytes_end, first_failing, segment_tests, IsAnswer};
ghost use Rattle.sx_elf.specs.Loading.{part_in, part_of, parts_in};

use crate::fields::{E_PHNUM, E_PHOFF, PROGRAM_HEADER_BYTES, half_at, program_header_at, xword_at};
use crate::program_header::ProgramHeader;
use crate::{ElfStop, Segment};
use std::alloc::{AllocError, Global};

// The headers of the segments that are loaded, where each program header can be.
pub(crate) fn loads(alloc: Global, bytes: &[u8]) -> Result<Vec<ProgramHeader>, ElfStop>
    requires long { 64 ≤ length bytes.now }
    requires table { table_end bytes.now ≤ length bytes.now }
    ensures answer { IsAnswer (first_failing (segment_tests bytes.now)) result }
    ensures loads { IfOk result (λ v. v.items ≡ loads bytes.now) }
    ensures within { IfOk result (λ v. All (λ header. bytes_end header ≤ length bytes.now) v.items) }
{
    let table = xword_at(bytes, E_PHOFF) as usize;
    let count = half_at(bytes, E_PHNUM);
    let mut found = Vec::new(alloc);
    'headers: for number in 0..count {
        let at = table + usize::from(PROGRAM_HEADER_BYTES) * usize::from(number);
        let header = program_header_at(bytes, u32::from(number), at);
        header.check(bytes.len())?;
        if header.is_load() {
            found.push(header).map_err(AllocError::from)?;
        }
    }
    Ok(found)
}

// A segment with its bytes.
fn segment(alloc: Global, bytes: &[u8], header: &ProgramHeader) -> Result<Segment, AllocError>
    requires { bytes_end header.now ≤ length bytes.now }
    ensures { IfOk result (λ s. part_in s ≡ part_of bytes.now header.now) }
{
    let start = header.offset as usize;
    let end = start + header.file_size as usize;
    Ok(Segment {
        start: header.address,
        flags: header.flags,
        bytes: bytes[start..end].to_vec(alloc)?,
        size: header.memory_size,
    })
}

// All segments with their bytes.
pub(crate) fn segments(
    alloc: Global,
    bytes: &[u8],
    headers: &[ProgramHeader],
) -> Result<Vec<Segment>, AllocError>
    requires { All (λ header. bytes_end header ≤ length bytes.now) headers.now }
    ensures { IfOk result (λ v. parts_in v.items ≡ map (part_of bytes.now) headers.now) }
{
    let mut segments = Vec::with_capacity(alloc, headers.len())?;
    'headers: for header in headers {
        segments.push(segment(alloc, bytes, header)?)?;
    }
    Ok(segments)
}
