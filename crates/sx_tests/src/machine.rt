//! A small program: it writes a line and exits.
use std::test::Fail;
use sx_elf::read;
use sx_io::MemSink;
use sx_rv_isa::MachineKind;
use sx_rv_machine::{Event, RunEnd, load, pc, run, step};

// An executable with one program header at 64, whose segment holds the file from 120 on: `li a0, 1`, `lui a1, 16`,
// `addi a1, a1, 152`, `li a2, 3`, `li a7, 64`, `ecall`, `li a7, 93`, `ecall`, and the line.
const FILE: [u8; 155] = [
    0x7F, b'E', b'L', b'F', 2, 1, 1, 0, 0, 0, 0, 0, 0, 0, 0, 0, // magic, class, order, version
    2, 0, 243, 0, 1, 0, 0, 0, // executable, RISC-V, version
    0x78, 0, 1, 0, 0, 0, 0, 0, // entry
    64, 0, 0, 0, 0, 0, 0, 0, // offset of the program headers
    0, 0, 0, 0, 0, 0, 0, 0, // no section headers
    0, 0, 0, 0, 64, 0, 56, 0, 1, 0, 0, 0, 0, 0, 0, 0, // flags, sizes and counts
    1, 0, 0, 0, 5, 0, 0, 0, // loaded, read and executed
    120, 0, 0, 0, 0, 0, 0, 0, // offset
    0x78, 0, 1, 0, 0, 0, 0, 0, // address
    0x78, 0, 1, 0, 0, 0, 0, 0, // physical address
    35, 0, 0, 0, 0, 0, 0, 0, // bytes in the file
    40, 0, 0, 0, 0, 0, 0, 0, // bytes in memory
    0, 0x10, 0, 0, 0, 0, 0, 0, // alignment
    0x13, 0x05, 0x10, 0x00, 0xB7, 0x05, 0x01, 0x00, 0x93, 0x85, 0x85, 0x09, 0x13, 0x06, 0x30, 0x00,
    0x93, 0x08, 0x00, 0x04, 0x73, 0x00, 0x00, 0x00, 0x93, 0x08, 0xD0, 0x05, 0x73, 0x00, 0x00, 0x00,
    b'h', b'i', b'\n',
];

#[test]
fn writes_and_exits(rt: HostRuntime) -> Result<(), Fail> {
    let mut machine = load(rt.alloc(), &read(rt.alloc(), &FILE)?)?;
    let mut out = MemSink::new(rt.alloc(), 8, Vec::new(rt.alloc()))?;
    let mut err = MemSink::new(rt.alloc(), 8, Vec::new(rt.alloc()))?;
    assert!(rt; run(&mut machine, 5, &mut out, &mut err) == RunEnd::Budget);
    assert_eq!(rt; pc(&machine), 0x1008C);
    assert!(rt; run(&mut machine, 3, &mut out, &mut err) == RunEnd::Exited(3));
    assert!(rt; run(&mut machine, 1, &mut out, &mut err) == RunEnd::Exited(3));
    assert_eq!(rt; out.bytes_now().as_slice(), b"hi\n".as_slice());
    assert!(rt; err.bytes_now().is_empty());
    Ok(())
}

#[test]
fn faults_where_nothing_may_be_executed(rt: HostRuntime) -> Result<(), Fail> {
    let mut file = FILE;
    file[68] = 4;
    let mut machine = load(rt.alloc(), &read(rt.alloc(), &file)?)?;
    let fault = Event::Faulted(MachineKind::FetchOutside, 0x10078);
    assert!(rt; step(&mut machine) == fault);
    assert!(rt; step(&mut machine) == fault);
    Ok(())
}
