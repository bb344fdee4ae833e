//! From literals to an executable, and to the machine that runs it.
ghost use Rattle.std.specs.Prelude.{◌≡◌, ◌≤◌, length, IfOk, None};
ghost use Rattle.sx_elf.specs.Layout.{file_of};
ghost use Rattle.sx_elf.specs.Tests.{first_fault};
ghost use Rattle.swiftx.specs.Found.{bytes_of_all};
ghost use Rattle.swiftx.specs.PrintCode.{code_of, AreShort};
ghost use Rattle.swiftx.specs.Target.{start};

use crate::print_code::code_of;
use std::alloc::Global;
use sx_elf::{Image, read, write};
use sx_rv_machine::{Machine, load};

/// Want of memory.
#[derive(Clone, Copy, Debug, PartialEq, Eq)]
pub struct NoMemory;

/// The executable that prints these literals.
pub fn built(alloc: Global, literals: &[&[u8]]) -> Result<Vec<u8>, NoMemory>
    requires short { AreShort (bytes_of_all literals.now) }
    requires fits { length (code_of (bytes_of_all literals.now)) ≤ 138739712 }
    ensures { IfOk result (λ file. file.items ≡ file_of (code_of (bytes_of_all literals.now)) 0) }
{
    let Ok(code) = code_of(alloc, literals) else {
        return Err(NoMemory);
    };
    let image = Image {
        code,
        global_words: 0,
    };
    match write(alloc, &image) {
        Ok(file) => Ok(file),
        Err(_) => Err(NoMemory),
    }
}

/// The machine of an executable that was written, at its start, with all memory of its run.
pub fn machine_of(alloc: Global, file: &[u8]) -> Result<Machine, NoMemory>
    requires { first_fault file.now ≡ None }
    ensures { IfOk result (λ machine. machine ≡ start file.now) }
{
    match read(alloc, file) {
        Ok(loadable) => match load(alloc, &loadable) {
            Ok(machine) => Ok(machine),
            Err(_) => Err(NoMemory),
        },
        Err(_) => Err(NoMemory),
    }
}
