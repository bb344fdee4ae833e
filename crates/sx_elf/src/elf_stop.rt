// Why a file is refused.
use std::alloc::AllocError;
use thiserror::Error;

/// Why a file is not loaded. Each of these but `NoMemory` is the first test that the file fails.
#[derive(Clone, Copy, Debug, PartialEq, Eq, Error)]
pub enum ElfStop {
    /// The file has fewer bytes than this, which its headers need.
    #[error("the file ends before byte {0}")]
    Short(u128),
    /// It does not begin with the four magic bytes.
    #[error("not an ELF file")]
    BadMagic,
    /// It is not a 64-bit little-endian file of the format's version 1.
    #[error("not a 64-bit little-endian ELF file")]
    BadClass,
    /// It is not an executable.
    #[error("not an executable")]
    BadKind,
    /// It is not for RISC-V.
    #[error("not for RISC-V")]
    BadMachine,
    /// Its program headers do not have 56 bytes each, or there is none, or there are more than 64.
    #[error("no table of program headers")]
    BadTable,
    /// The program header of this number is for a dynamic linker.
    #[error("program header {0} is for a dynamic linker")]
    Dynamic(u32),
    /// The segment of the program header of this number cannot be loaded as it says.
    #[error("program header {0} is malformed")]
    BadSegment(u32),
    /// The segments of the program headers of these numbers share a byte of memory.
    #[error("the segments of program headers {0} and {1} overlap")]
    Overlapping(u32, u32),
    /// The segments have this many bytes of memory, which is above 268,435,456.
    #[error("{0} bytes of memory are too many")]
    TooLarge(u128),
    /// Memory ran out.
    #[error("out of memory")]
    NoMemory,
}

impl From<AllocError> for ElfStop {
    ghost use Rattle.std.specs.Prelude.{◌≡◌};
    ghost use Rattle.sx_elf.specs.declared.elf_stop.ElfStop.TheVariants.{NoMemory};

    ghost from_gives = { λ _ e. e ≡ NoMemory };

    fn from(_: AllocError) -> ElfStop {
        ElfStop::NoMemory
    }
}
