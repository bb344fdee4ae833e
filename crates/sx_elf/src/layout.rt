// The file of an image.
ghost use Rattle.std.specs.Prelude.{◌≡◌, ◌≤◌, ◌++◌, length, IfOk, OnOk};
ghost use Rattle.sx_elf.specs.Layout.{file_of, file_header, header_bytes, code_header, data_header, padding, le32, le64};

use crate::program_header::ProgramHeader;
use crate::{Image, NoMemory};
use std::alloc::{AllocError, Global};

const FILE_HEADER: [u8; 64] = [
    0x7f, b'E', b'L', b'F', 2, 1, 1, 0, 0, 0, 0, 0, 0, 0, 0, 0, // magic, class, order, version
    2, 0, 243, 0, 1, 0, 0, 0, // executable, RISC-V, version
    0, 0, 1, 0, 0, 0, 0, 0, // entry
    64, 0, 0, 0, 0, 0, 0, 0, // offset of the program headers
    0, 0, 0, 0, 0, 0, 0, 0, // no section headers
    0, 0, 0, 0, // flags
    64, 0, 56, 0, 2, 0, // sizes of a file header and a program header, two of these
    0, 0, 0, 0, 0, 0, // no section headers
];

// The bytes between the headers and the code, which begins at 0x1000.
const PADDING: usize = 3920;

const PAGE: u64 = 0x1000;

const CODE_START: u64 = 0x10000;

const DATA_START: u64 = 0x1000_0000;

// The head of the record chain and the heap's use, the heap, the routines' bytes and the stack.
const FIXED_MEMORY: u64 = 16 + 16_777_216 + 4096 + 16_777_216;

const LOADED: u32 = 1;

const READ_AND_EXECUTE: u32 = 5;

const READ_AND_WRITE: u32 = 6;

/// Makes the executable of an image: the code from 0x10000 on, which is entered at its first byte,
/// and zeros from 0x10000000 on for the globals, the heap and the stack.
///
/// The code has at most 138,739,712 bytes and the globals at most 4,259,840 words.
pub fn write(alloc: Global, image: &Image) -> Result<Vec<u8>, NoMemory>
    requires code { length image.now.code.items ≤ 138739712 }
    requires words { image.now.global_words ≤ 4259840 }
    ensures { IfOk result (λ v. v.items ≡ file_of image.now.code.items image.now.global_words) }
{
    let mut file = Vec::new(alloc);
    file.extend_from_slice(&FILE_HEADER)?;
    put_program_header(&mut file, &code_header(image.code.len() as u64))?;
    put_program_header(&mut file, &data_header(image.global_words))?;
    put_padding(&mut file)?;
    file.extend_from_slice(&image.code)?;
    Ok(file)
}

fn code_header(len: u64) -> ProgramHeader
    ensures { result ≡ code_header len }
{
    ProgramHeader {
        number: 0,
        kind: LOADED,
        flags: READ_AND_EXECUTE,
        offset: PAGE,
        address: CODE_START,
        file_size: len,
        memory_size: len,
        align: PAGE,
    }
}

fn data_header(global_words: u64) -> ProgramHeader
    requires { global_words ≤ 4259840 }
    ensures { result ≡ data_header global_words }
{
    ProgramHeader {
        number: 1,
        kind: LOADED,
        flags: READ_AND_WRITE,
        offset: 0,
        address: DATA_START,
        file_size: 0,
        memory_size: FIXED_MEMORY + 8 * global_words,
        align: PAGE,
    }
}

fn put_program_header(out: &mut Vec<u8>, header: &ProgramHeader) -> Result<(), AllocError>
    ensures { OnOk result (out.new.items ≡ out.old.items ++ header_bytes header.now) }
{
    put_word(out, header.kind)?;
    put_word(out, header.flags)?;
    put_xword(out, header.offset)?;
    put_xword(out, header.address)?;
    put_xword(out, header.address)?;
    put_xword(out, header.file_size)?;
    put_xword(out, header.memory_size)?;
    put_xword(out, header.align)?;
    Ok(())
}

fn put_word(out: &mut Vec<u8>, number: u32) -> Result<(), AllocError>
    ensures { OnOk result (out.new.items ≡ out.old.items ++ le32 number) }
{
    out.extend_from_slice(&number.to_le_bytes())
}

fn put_xword(out: &mut Vec<u8>, number: u64) -> Result<(), AllocError>
    ensures { OnOk result (out.new.items ≡ out.old.items ++ le64 number) }
{
    out.extend_from_slice(&number.to_le_bytes())
}

#[tactic(auto, unfolding(crate::specs::Layout::padding))]
fn put_padding(out: &mut Vec<u8>) -> Result<(), AllocError>
    ensures { OnOk result (out.new.items ≡ out.old.items ++ padding) }
{
    out.extend_from_slice(&[0; PADDING])?;
    Ok(())
}
