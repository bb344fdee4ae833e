// A small executable of another hand is read, and so is one that was written.
use std::test::Fail;
use sx_elf::{ElfStop, Image, read, write};

// Exits with status 93 when it is run: `li a0, 7`, `li a7, 93`, `ecall`.
const CODE: [u8; 12] = [
    0x13, 0x05, 0x70, 0x00, 0x93, 0x08, 0xD0, 0x05, 0x73, 0x00, 0x00, 0x00,
];

// An executable with one program header at 64, whose segment holds the file from 120 on.
const FILE: [u8; 132] = [
    0x7F, b'E', b'L', b'F', 2, 1, 1, 0, 0, 0, 0, 0, 0, 0, 0, 0, // magic, class, order, version
    2, 0, 243, 0, 1, 0, 0, 0, // executable, RISC-V, version
    0x78, 0, 1, 0, 0, 0, 0, 0, // entry
    64, 0, 0, 0, 0, 0, 0, 0, // offset of the program headers
    0, 0, 0, 0, 0, 0, 0, 0, // no section headers
    0, 0, 0, 0, 64, 0, 56, 0, 1, 0, 0, 0, 0, 0, 0, 0, // flags, sizes and counts
    1, 0, 0, 0, 5, 0, 0, 0, // loaded, read and executed
    120, 0, 0, 0, 0, 0, 0, 0, // offset
    0x78, 0, 1, 0, 0, 0, 0, 0, // address
    0x78, 0, 1, 0, 0, 0, 0, 0, // physical address
    12, 0, 0, 0, 0, 0, 0, 0, // bytes in the file
    12, 0, 0, 0, 0, 0, 0, 0, // bytes in memory
    0, 0x10, 0, 0, 0, 0, 0, 0, // alignment
    0x13, 0x05, 0x70, 0x00, 0x93, 0x08, 0xD0, 0x05, 0x73, 0x00, 0x00, 0x00,
];

#[test]
fn a_small_executable(rt: HostRuntime) -> Result<(), Fail> {
    let loadable = read(rt.alloc(), &FILE)?;
    assert_eq!(rt; loadable.entry, 0x10078);
    assert_eq!(rt; loadable.segments.len(), 1);
    let segment = &loadable.segments[0];
    assert_eq!(rt;
        (segment.start, segment.flags, segment.size),
        (0x10078, 5, 12)
    );
    assert_eq!(rt; segment.bytes.as_slice(), CODE.as_slice());
    Ok(())
}

#[test]
fn faults_of_it(rt: HostRuntime) {
    let faults = [
        (0, 0, ElfStop::BadMagic),
        (16, 3, ElfStop::BadKind),
        (18, 62, ElfStop::BadMachine),
        (56, 65, ElfStop::BadTable),
        (64, 3, ElfStop::Dynamic(0)),
        (72, 121, ElfStop::BadSegment(0)),
        (96, 13, ElfStop::BadSegment(0)),
        (107, 17, ElfStop::TooLarge(0x1100_000C)),
    ];
    for (place, byte, stop) in faults {
        let mut file = FILE;
        file[place] = byte;
        assert!(rt;
            read(rt.alloc(), &file).is_err_and(|found| found == stop),
            "byte {place}"
        );
    }
    let short = read(rt.alloc(), &FILE[..131]);
    assert!(rt; short.is_err_and(|found| found == ElfStop::Short(132)));
    let tiny = read(rt.alloc(), &FILE[..63]);
    assert!(rt; tiny.is_err_and(|found| found == ElfStop::Short(64)));
}

#[test]
fn a_written_executable(rt: HostRuntime) -> Result<(), Fail> {
    let code = CODE.to_vec(rt.alloc())?;
    let image = Image {
        code,
        global_words: 2,
    };
    let file = write(rt.alloc(), &image)?;
    assert_eq!(rt; file.len(), 4096 + 12);
    let loadable = read(rt.alloc(), &file)?;
    assert_eq!(rt; loadable.entry, 0x10000);
    assert_eq!(rt; loadable.segments.len(), 2);
    let (code, data) = (&loadable.segments[0], &loadable.segments[1]);
    assert_eq!(rt; (code.start, code.flags, code.size), (0x10000, 5, 12));
    assert_eq!(rt; code.bytes.as_slice(), CODE.as_slice());
    assert_eq!(rt;
        (data.start, data.flags, data.size),
        (0x1000_0000, 6, 33_558_560)
    );
    assert_eq!(rt; data.bytes.len(), 0);
    Ok(())
}
