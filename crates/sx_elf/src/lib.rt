//! Executables in the format ELF-64: [`write()`] makes the file of a program, and [`read()`] tells
//! what a file loads, or the first of its tests that the file fails.
//!
//! The format is that of "ELF-64 Object File Format", for RV64 with little-endian numbers. A file is
//! loaded by its program headers alone: section headers are passed over, and files that need a
//! dynamic linker are refused.
#![tactic(auto)]

mod checks;
mod elf_stop;
mod fields;
mod image;
mod layout;
mod loadable;
mod no_memory;
mod program_header;
mod reading;
mod segments;

pub use elf_stop::ElfStop;
pub use image::Image;
pub use layout::write;
pub use loadable::{Loadable, Segment};
pub use no_memory::NoMemory;
pub use reading::{read, read_of_write};
