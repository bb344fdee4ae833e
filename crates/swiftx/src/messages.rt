//! The lines that are written to the second output.
ghost use Rattle.std.specs.Prelude.{◌≡◌, ◌≤◌, ◌<◌, ◌+◌, ◌++◌, Some, length, IfOk, string_bytes};
ghost use Rattle.arrayvec.specs.ArrayVec.{array_vec_len};
ghost use Rattle.swiftx.specs.Parts.{Said};
ghost use Rattle.swiftx.specs.Lines.{elf_line, kind_word, hex_digit, hex_digits, fault_line};

use crate::outcome::Outcome;
use arrayvec::ArrayVec;
use std::alloc::{AllocError, Global};
use sx_elf::ElfStop;
use sx_io::Sink;
use sx_rv_isa::MachineKind;

pub(crate) const USAGE_LINE: &[u8] =
    b"usage: swiftx check FILE | build FILE -o OUT | run FILE [--steps N] | exec ELF [--steps N] | trace FILE [--steps N] | report FILE | chain FILE --at N | work N\n";

pub(crate) const STORE_LINE: &[u8] = b"store fault\n";

/// The greatest size of the line for a fault of the machine, in bytes.
const MOST_FAULT_LINE: usize = 51;

/// How many hexadecimal digits an address has.
const ADDRESS_DIGITS: u32 = 16;

/// Writes a line, and answers what it is about.
pub(crate) fn say<E: Sink>(err: &mut E, line: &[u8], about: Outcome) -> Outcome
    ensures { Said about result line.now (record { bytes = E.written err.old; faults = E.faults err.old }) (record { bytes = E.written err.new; faults = E.faults err.new }) }
{
    match err.put(line) {
        Ok(()) => about,
        Err(_) => Outcome::SinkFault,
    }
}

/// The line that tells why an executable is refused.
///
/// Its error is want of memory: where that is why the file was not read, no line tells it.
#[tactic(auto, unfolding(crate::specs::Lines::elf_line))]
pub(crate) fn elf_line(alloc: Global, stop: ElfStop) -> Result<String, AllocError>
    ensures { IfOk result (λ line. elf_line stop ≡ Some (string_bytes line)) }
{
    match stop {
        ElfStop::Short(end) => format!(in alloc; "elf short {end}\n"),
        ElfStop::BadMagic => format!(in alloc; "elf bad-magic\n"),
        ElfStop::BadClass => format!(in alloc; "elf bad-class\n"),
        ElfStop::BadKind => format!(in alloc; "elf bad-kind\n"),
        ElfStop::BadMachine => format!(in alloc; "elf bad-machine\n"),
        ElfStop::BadTable => format!(in alloc; "elf bad-table\n"),
        ElfStop::Dynamic(header) => format!(in alloc; "elf dynamic {header}\n"),
        ElfStop::BadSegment(header) => format!(in alloc; "elf bad-segment {header}\n"),
        ElfStop::Overlapping(one, other) => format!(in alloc; "elf overlapping {one} {other}\n"),
        ElfStop::TooLarge(size) => format!(in alloc; "elf too-large {size}\n"),
        ElfStop::NoMemory => Err(AllocError),
    }
}

/// The line for a fault of the machine at an address. It takes no memory.
#[tactic(auto, unfolding(crate::specs::Lines::fault_line))]
pub(crate) fn fault_line(kind: MachineKind, pc: u64) -> ArrayVec<u8, MOST_FAULT_LINE>
    ensures { result.items ≡ fault_line kind pc }
{
    let mut line = ArrayVec::new();
    put(&mut line, b"machine fault ");
    put(&mut line, kind_word(kind));
    put(&mut line, b" at ");
    put_hex_digits(&mut line, ADDRESS_DIGITS, pc);
    line.push(b'\n');
    line
}

// Puts some bytes at the end of a line.
fn put(line: &mut ArrayVec<u8, MOST_FAULT_LINE>, bytes: &[u8])
    requires { array_vec_len line.old + length bytes.now ≤ 51 }
    ensures { line.new.items ≡ line.old.items ++ bytes.now }
{
    line.try_extend_from_slice(bytes).unwrap();
}

// Puts the last so many hexadecimal digits of a number at the end of a line.
#[tactic(auto, unfolding(crate::specs::Lines::hex_digits))]
fn put_hex_digits(line: &mut ArrayVec<u8, MOST_FAULT_LINE>, count: u32, number: u64)
    requires { array_vec_len line.old + count ≤ 50 }
    ensures value { line.new.items ≡ line.old.items ++ hex_digits count number }
    ensures size { array_vec_len line.new ≡ array_vec_len line.old + count }
{
    if count == 0 {
        return;
    }
    put_hex_digits(line, count - 1, number / 16);
    line.push(hex_digit((number % 16) as u8));
}

fn hex_digit(number: u8) -> u8
    requires { number < 16 }
    ensures { result ≡ hex_digit number }
{
    if number < 10 {
        b'0' + number
    } else {
        b'a' - 10 + number
    }
}

#[tactic(auto, unfolding(crate::specs::Lines::kind_word))]
fn kind_word(kind: MachineKind) -> &'static [u8]
    ensures value { result.now ≡ kind_word kind }
    ensures short { length result.now ≤ 16 }
{
    match kind {
        MachineKind::FetchMisaligned => b"fetch-misaligned",
        MachineKind::FetchOutside => b"fetch-outside",
        MachineKind::Illegal => b"illegal",
        MachineKind::JumpMisaligned => b"jump-misaligned",
        MachineKind::LoadMisaligned => b"load-misaligned",
        MachineKind::LoadOutside => b"load-outside",
        MachineKind::StoreMisaligned => b"store-misaligned",
        MachineKind::StoreOutside => b"store-outside",
        MachineKind::Environment => b"environment",
        MachineKind::Breakpoint => b"breakpoint",
    }
}
