//! The top call over stores and sinks in memory.
use crate::bench::Bench;
use crate::outcome::{Outcome, code};
use crate::top::swiftx;
use std::alloc::{AllocError, Global};
use std::process::Abort;
use std::test::Fail;
use sx_driver::Fault;
use sx_elf::ElfStop;
use sx_io::{MemSink, MemStore, NoMemory};
use sx_rv_isa::MachineKind;
use sx_rv_machine::pc;

const USAGE: &[u8] =
    b"usage: swiftx check FILE | build FILE -o OUT | run FILE [--steps N] | exec ELF [--steps N] | trace FILE [--steps N] | report FILE | chain FILE --at N | work N\n";

/// What is outside in a test: a store and two sinks, and the bench.
#[derive(Drop)]
struct Desk {
    store: MemStore,
    out: MemSink,
    err: MemSink,
    bench: Bench,
}

impl Desk {
    /// A store with one file; the calls of the store, out and err that are to fail, by their numbers.
    fn with(
        alloc: Global,
        file: &str,
        text: &[u8],
        failing: [Option<u64>; 3],
    ) -> Result<Desk, Fail> {
        let mut files = Vec::new(alloc);
        files.push((String::from_str(alloc, file)?, text.to_vec(alloc)?))?;
        let [store, out, err] = failing;
        Ok(Desk {
            store: MemStore::new(alloc, files, numbers(alloc, store)?),
            out: sink(alloc, numbers(alloc, out)?)?,
            err: sink(alloc, numbers(alloc, err)?)?,
            bench: Bench::new(),
        })
    }

    fn call(&mut self, alloc: Global, line: &str) -> Result<Outcome, Fail> {
        let mut words = Vec::new(alloc);
        for word in line.split_whitespace() {
            words.push(String::from_str(alloc, word)?)?;
        }
        Ok(swiftx(
            alloc,
            &words,
            &mut self.store,
            &mut self.out,
            &mut self.err,
            &mut self.bench,
        ))
    }
}

fn numbers(alloc: Global, number: Option<u64>) -> Result<Vec<u64>, AllocError> {
    let mut all = Vec::new(alloc);
    if let Some(number) = number {
        all.push(number)?;
    }
    Ok(all)
}

fn sink(alloc: Global, failing: Vec<u64>) -> Result<MemSink, Fail> {
    match MemSink::new(alloc, 1000, failing) {
        Ok(sink) => Ok(sink),
        Err(NoMemory) => Err(Fail::from(AllocError)),
    }
}

/// A call over a store with one file ends with this outcome and these outputs.
pub(crate) fn ends(
    rt: &impl Abort,
    alloc: Global,
    line: &str,
    file: &str,
    text: &[u8],
    outcome: Outcome,
    out: &[u8],
    err: &[u8],
) -> Result<(), Fail> {
    let mut desk = Desk::with(alloc, file, text, [None, None, None])?;
    assert_eq!(rt; desk.call(alloc, line)?, outcome, "{line}");
    assert_eq!(rt; desk.out.bytes_now().as_slice(), out, "{line}");
    assert_eq!(rt; desk.err.bytes_now().as_slice(), err, "{line}");
    Ok(())
}

#[test]
fn texts_of_prints_run(rt: HostRuntime) -> Result<(), Fail> {
    let done = Outcome::Exited(0);
    ends(
        &rt,
        rt.alloc(),
        "run hello.swift",
        "hello.swift",
        b"print(\"hello\")",
        done,
        b"hello\n",
        b"",
    )?;
    ends(
        &rt,
        rt.alloc(),
        "run a.swift",
        "a.swift",
        b"",
        done,
        b"",
        b"",
    )?;
    let two = b"print(\"a b~\")\nprint(\"\")\n";
    ends(
        &rt,
        rt.alloc(),
        "run a.swift --steps 19",
        "a.swift",
        two,
        done,
        b"a b~\n\n",
        b"",
    )?;
    ends(
        &rt,
        rt.alloc(),
        "run a.swift --steps 18",
        "a.swift",
        two,
        Outcome::Budget,
        b"a b~\n\n",
        b"",
    )?;
    ends(
        &rt,
        rt.alloc(),
        "run a.swift --steps 8",
        "a.swift",
        two,
        Outcome::Budget,
        b"a b~\n",
        b"",
    )
}

#[test]
fn other_texts_are_refused(rt: HostRuntime) -> Result<(), Fail> {
    let refused = Outcome::Refused(Fault::Unbuilt);
    for text in [
        "print(1)",
        "\n",
        "print(\"a\")\n\n",
        "print(\"\\n\")",
        "print(\"a\") ",
    ] {
        ends(
            &rt,
            rt.alloc(),
            "run a.swift",
            "a.swift",
            text.as_bytes(),
            refused,
            b"",
            b"error unbuilt\n",
        )?;
    }
    Ok(())
}

#[test]
fn other_words_are_told_the_usage(rt: HostRuntime) -> Result<(), Fail> {
    let lines = [
        "",
        "run",
        "run -a",
        "check",
        "check a.swift --steps 1",
        "run a.swift --steps 01",
        "run a.swift --steps",
        "work 901",
    ];
    for line in lines {
        ends(
            &rt,
            rt.alloc(),
            line,
            "a.swift",
            b"",
            Outcome::Usage,
            b"",
            USAGE,
        )?;
    }
    Ok(())
}

#[test]
fn a_failed_read_is_told(rt: HostRuntime) -> Result<(), Fail> {
    let alloc = rt.alloc();
    let mut desk = Desk::with(alloc, "b.swift", b"", [None, None, None])?;
    assert_eq!(rt; desk.call(alloc, "run a.swift")?, Outcome::StoreFault);
    assert_eq!(rt;
        desk.err.bytes_now().as_slice(),
        b"store fault\n".as_slice()
    );
    assert_eq!(rt; desk.store.fault_count(), 1);
    assert_eq!(rt; desk.store.asked_now().len(), 1);
    Ok(())
}

#[test]
fn a_failed_write_ends_the_call(rt: HostRuntime) -> Result<(), Fail> {
    let alloc = rt.alloc();
    let text = b"print(\"hello\")\nprint(\"again\")";
    let mut desk = Desk::with(alloc, "a.swift", text, [None, Some(1), None])?;
    assert_eq!(rt; desk.call(alloc, "run a.swift")?, Outcome::SinkFault);
    assert_eq!(rt; desk.out.bytes_now().len(), 0);
    assert_eq!(rt; desk.out.fault_count(), 1);
    assert!(rt; desk.bench.built.is_some());
    match &desk.bench.machine {
        Some(machine) => assert_eq!(rt; pc(machine), 0x1_001c, "behind the call that wrote"),
        None => panic!(rt; "no machine"),
    }
    let mut desk = Desk::with(alloc, "a.swift", text, [None, None, Some(1)])?;
    assert_eq!(rt; desk.call(alloc, "")?, Outcome::SinkFault);
    Ok(())
}

/// An executable with one segment, whose three instructions exit with status 7. The header's number
/// of program headers, and the segment's kind, flags, place in the file and size in memory are given.
fn exits_with_seven(
    alloc: Global,
    headers: u16,
    kind: u32,
    flags: u32,
    offset: u64,
    size: u64,
) -> Result<Vec<u8>, AllocError> {
    let code = [0x0070_0513_u32, 0x05D0_0893, 0x0000_0073];
    executable(alloc, headers, kind, flags, offset, [12, size], &code)
}

/// An executable that writes its second instruction to output 1 and then to output 2, and runs into what lies behind its
/// code.
fn writes_to_both(alloc: Global) -> Result<Vec<u8>, AllocError> {
    let code = [
        0x0010_0513_u32,
        0x0000_0597,
        0x0040_0613,
        0x0400_0893,
        0x0000_0073,
        0x0020_0513,
        0x0000_0073,
    ];
    executable(alloc, 1, 1, 5, 120, [28, 28], &code)
}

/// An executable with one segment that has this code; its sizes in the file and in memory are given.
fn executable(
    alloc: Global,
    headers: u16,
    kind: u32,
    flags: u32,
    offset: u64,
    sizes: [u64; 2],
    code: &[u32],
) -> Result<Vec<u8>, AllocError> {
    let [in_file, in_memory] = sizes;
    let mut file = Vec::new(alloc);
    file.extend_from_slice(b"\x7fELF\x02\x01\x01\0\0\0\0\0\0\0\0\0")?;
    file.extend_from_slice(&[2, 0, 243, 0, 1, 0, 0, 0])?;
    for number in [0x10078_u64, 64, 0] {
        file.extend_from_slice(&number.to_le_bytes())?;
    }
    file.extend_from_slice(&[0, 0, 0, 0, 64, 0, 56, 0])?;
    file.extend_from_slice(&headers.to_le_bytes())?;
    file.extend_from_slice(&[0; 6])?;
    file.extend_from_slice(&kind.to_le_bytes())?;
    file.extend_from_slice(&flags.to_le_bytes())?;
    for number in [offset, 0x10078, 0x10078, in_file, in_memory, 0x1000] {
        file.extend_from_slice(&number.to_le_bytes())?;
    }
    for word in code {
        file.extend_from_slice(&word.to_le_bytes())?;
    }
    Ok(file)
}

#[test]
fn executables_run(rt: HostRuntime) -> Result<(), Fail> {
    let alloc = rt.alloc();
    let file = exits_with_seven(alloc, 1, 1, 5, 120, 12)?;
    ends(
        &rt,
        alloc,
        "exec x.elf",
        "x.elf",
        &file,
        Outcome::Exited(7),
        b"",
        b"",
    )?;
    ends(
        &rt,
        alloc,
        "exec x.elf --steps 2",
        "x.elf",
        &file,
        Outcome::Budget,
        b"",
        b"",
    )?;
    ends(
        &rt,
        alloc,
        "exec x.elf --steps 3",
        "x.elf",
        &file,
        Outcome::Exited(7),
        b"",
        b"",
    )?;
    let mut desk = Desk::with(alloc, "x.elf", &file, [None, None, None])?;
    desk.call(alloc, "exec x.elf --steps 2")?;
    assert!(rt; desk.bench.built.is_none());
    match &desk.bench.machine {
        Some(machine) => assert_eq!(rt; pc(machine), 0x1_0080),
        None => panic!(rt; "no machine"),
    }
    Ok(())
}

/// An executable's output fails: how many bytes the two outputs have then, their counts, and where the machine stands.
fn breaks(
    rt: &impl Abort,
    alloc: Global,
    failing: [Option<u64>; 3],
    taken: [usize; 2],
    faults: [u64; 2],
    place: u64,
) -> Result<(), Fail> {
    let file = writes_to_both(alloc)?;
    let mut desk = Desk::with(alloc, "x.elf", &file, failing)?;
    assert_eq!(rt; desk.call(alloc, "exec x.elf")?, Outcome::SinkFault);
    assert_eq!(rt; desk.out.bytes_now().len(), taken[0]);
    assert_eq!(rt; desk.err.bytes_now().len(), taken[1]);
    assert_eq!(rt; desk.out.fault_count(), faults[0]);
    assert_eq!(rt; desk.err.fault_count(), faults[1]);
    match &desk.bench.machine {
        Some(machine) => assert_eq!(rt; pc(machine), place),
        None => panic!(rt; "no machine"),
    }
    Ok(())
}

#[test]
fn a_failed_write_ends_an_executable(rt: HostRuntime) -> Result<(), Fail> {
    let alloc = rt.alloc();
    let out_fails = [None, Some(1), None];
    breaks(&rt, alloc, out_fails, [0, 0], [1, 0], 0x1_008c)?;
    let err_fails = [None, None, Some(1)];
    breaks(&rt, alloc, err_fails, [4, 0], [0, 1], 0x1_0094)?;
    let line_fails = [None, None, Some(2)];
    breaks(&rt, alloc, line_fails, [4, 4], [0, 1], 0x1_0094)
}

#[test]
fn a_machine_fault_is_told(rt: HostRuntime) -> Result<(), Fail> {
    let alloc = rt.alloc();
    let file = exits_with_seven(alloc, 1, 1, 4, 120, 12)?;
    let outcome = Outcome::MachineFault(MachineKind::FetchOutside, 0x1_0078);
    let line = b"machine fault fetch-outside at 0000000000010078\n";
    ends(&rt, alloc, "exec x.elf", "x.elf", &file, outcome, b"", line)?;
    let mut desk = Desk::with(alloc, "x.elf", &file, [None, None, Some(1)])?;
    assert_eq!(rt; desk.call(alloc, "exec x.elf")?, Outcome::SinkFault);
    Ok(())
}

#[test]
fn files_that_cannot_be_loaded_are_refused(rt: HostRuntime) -> Result<(), Fail> {
    let alloc = rt.alloc();
    let file = exits_with_seven(alloc, 1, 1, 5, 121, 12)?;
    let outcome = Outcome::ElfRefused(ElfStop::BadSegment(0));
    ends(
        &rt,
        alloc,
        "exec x.elf",
        "x.elf",
        &file,
        outcome,
        b"",
        b"elf bad-segment 0\n",
    )?;
    let file = exits_with_seven(alloc, 1, 3, 5, 120, 12)?;
    let outcome = Outcome::ElfRefused(ElfStop::Dynamic(0));
    ends(
        &rt,
        alloc,
        "exec x.elf",
        "x.elf",
        &file,
        outcome,
        b"",
        b"elf dynamic 0\n",
    )?;
    let file = exits_with_seven(alloc, 0, 1, 5, 120, 12)?;
    let outcome = Outcome::ElfRefused(ElfStop::BadTable);
    ends(
        &rt,
        alloc,
        "exec x.elf",
        "x.elf",
        &file,
        outcome,
        b"",
        b"elf bad-table\n",
    )?;
    let file = exits_with_seven(alloc, 1, 1, 5, 120, 268_435_457)?;
    let outcome = Outcome::ElfRefused(ElfStop::TooLarge(268_435_457));
    ends(
        &rt,
        alloc,
        "exec x.elf",
        "x.elf",
        &file,
        outcome,
        b"",
        b"elf too-large 268435457\n",
    )
}

#[test]
fn each_outcome_has_its_status(rt: HostRuntime) {
    assert_eq!(rt; code(&Outcome::Done), 0);
    assert_eq!(rt; code(&Outcome::Exited(70)), 70);
    assert_eq!(rt; code(&Outcome::Usage), 2);
    assert_eq!(rt; code(&Outcome::StoreFault), 3);
    assert_eq!(rt; code(&Outcome::SinkFault), 4);
    assert_eq!(rt; code(&Outcome::Refused(Fault::Unbuilt)), 5);
    assert_eq!(rt; code(&Outcome::ElfRefused(ElfStop::BadMagic)), 6);
    assert_eq!(rt; code(&Outcome::Budget), 7);
    assert_eq!(rt; code(&Outcome::MachineFault(MachineKind::Illegal, 0)), 8);
    assert_eq!(rt; code(&Outcome::NoMemory), 9);
}
