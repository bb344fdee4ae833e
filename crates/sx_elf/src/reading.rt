// What a file loads, or why it is refused.
ghost use Rattle.std.specs.Prelude.{◌≡◌, ◌≤◌, List, ℕ, length, IfOk, None};
ghost use Rattle.sx_elf.specs.Tests.{first_fault, IsAnswer};
ghost use Rattle.sx_elf.specs.Loading.{loaded, view, IsLoadable};
ghost use Rattle.sx_elf.specs.Layout.{file_of, loaded_of};

use crate::checks::{check_file_header, check_overlaps, check_size};
use crate::fields::{E_ENTRY, xword_at};
use crate::segments::{loads, segments};
use crate::{ElfStop, Loadable};
use std::alloc::Global;

/// Tells what a file loads.
///
/// It answers the first test that the file fails. Only the bytes of segments are copied: what is
/// zero in memory takes no memory here.
pub fn read(alloc: Global, bytes: &[u8]) -> Result<Loadable, ElfStop>
    ensures answer { IsAnswer (first_fault bytes.now) result }
    ensures loaded { IfOk result (λ l. view l ≡ loaded bytes.now) }
    ensures loadable { IfOk result (λ l. IsLoadable (view l)) }
{
    check_file_header(bytes)?;
    let headers = loads(alloc, bytes)?;
    check_overlaps(&headers)?;
    check_size(&headers)?;
    Ok(Loadable {
        entry: xword_at(bytes, E_ENTRY),
        segments: segments(alloc, bytes, &headers)?,
    })
}

/// What is written is read: the file passes every test and loads the code and zeros.
pub fn read_of_write()
    ensures passes { (code : List ℕ) (words : ℕ) → length code ≤ 138739712 → words ≤ 4259840
        → first_fault (file_of code words) ≡ None }
    ensures loads { (code : List ℕ) (words : ℕ) → length code ≤ 138739712 → words ≤ 4259840
        → loaded (file_of code words) ≡ loaded_of code words }
{}
