// Each store and sink once as it should go, and once where it fails.
use std::alloc::{AllocError, Global};
use std::io::{ErrorKind, Write};
use std::test::Fail;
use std::{env, fs, io, process};
use sx_io::{MemSink, MemStore, NullSink, RealSink, RealStore, Sink, SinkStop, Store, StoreStop};

fn file(alloc: Global, name: &str, bytes: &[u8]) -> Result<(String, Vec<u8>), AllocError> {
    Ok((name.to_owned(alloc)?, bytes.to_vec(alloc)?))
}

#[test]
fn a_store_in_memory(rt: HostRuntime) -> Result<(), Fail> {
    let alloc = rt.alloc();
    let files = vec![in alloc; file(alloc, "a", b"hello")?]?;
    let mut store = MemStore::new(alloc, files, vec![in alloc; 3]?);
    assert_eq!(rt; store.read(alloc, "a", 4)?.as_slice(), b"hell".as_slice());
    store.write("b", b"new")?;
    assert_eq!(rt;
        store.write("a", b"lost"),
        Err(StoreStop::Failed),
        "the third call"
    );
    assert_eq!(rt; store.read(alloc, "a", 9)?.as_slice(), b"hello".as_slice());
    assert_eq!(rt; store.read(alloc, "b", 9)?.as_slice(), b"new".as_slice());
    assert!(rt; store.read(alloc, "c", 9).is_err(), "no such file");
    assert_eq!(rt; store.fault_count(), 2);
    assert_eq!(rt; store.files_now().len(), 2);
    assert_eq!(rt;
        store.asked_now().iter().filter(|call| call.write).count(),
        2
    );
    assert_eq!(rt; store.asked_now().len(), 6);
    Ok(())
}

#[test]
fn a_sink_in_memory(rt: HostRuntime) -> Result<(), Fail> {
    let alloc = rt.alloc();
    let mut sink = MemSink::new(alloc, 6, vec![in alloc; 2]?)?;
    sink.put(b"abc")?;
    sink.put(b"")?;
    assert_eq!(rt;
        sink.put(b"lost"),
        Err(SinkStop::Failed),
        "the second put of some bytes"
    );
    assert_eq!(rt; sink.put(b"defg"), Err(SinkStop::Failed), "past the room");
    assert_eq!(rt; sink.bytes_now().as_slice(), b"abcdef".as_slice());
    assert_eq!(rt; sink.fault_count(), 2);
    NullSink.put(b"dropped")?;
    Ok(())
}

#[test]
fn the_machines_files(rt: HostRuntime) -> Result<(), Fail> {
    let alloc = rt.alloc();
    let folder = env::temp_dir(&rt)?;
    let number = process::id(rt.process());
    let name = format!(in alloc; "{}/sx_io-{number}", folder.as_path().display())?;
    let mut store = RealStore::new(&rt);
    store.write(name.as_str(), b"first and longer")?;
    store.write(name.as_str(), b"second")?;
    assert_eq!(rt;
        store.read(alloc, name.as_str(), 3)?.as_slice(),
        b"sec".as_slice()
    );
    assert_eq!(rt;
        store.read(alloc, name.as_str(), 99)?.as_slice(),
        b"second".as_slice()
    );
    assert_eq!(rt; store.fault_count(), 0);
    fs::remove_file(&rt, name.as_str())?;
    for absent in [name.as_str(), "/", "a\0b"] {
        assert!(rt; store.read(alloc, absent, 9).is_err(), "{absent:?}");
    }
    assert_eq!(rt; store.write("/", b"bytes"), Err(StoreStop::Failed));
    assert_eq!(rt; store.fault_count(), 4);
    Ok(())
}

// Takes two bytes at a time, and from the fifth on stops at an error or takes nothing.
#[derive(Drop)]
struct Slow {
    taken: Vec<u8>,
    errs: bool,
}

impl Write for Slow {
    fn write(&mut self, buf: &[u8]) -> io::Result<usize> {
        if self.taken.len() >= 4 {
            return if self.errs {
                Err(io::Error::from(ErrorKind::StorageFull))
            } else {
                Ok(0)
            };
        }
        let count = buf.len().min(2);
        self.taken.extend_from_slice(&buf[..count])?;
        Ok(count)
    }

    fn flush(&mut self) -> io::Result<()> {
        Ok(())
    }
}

#[test]
fn a_writer_as_a_sink(rt: HostRuntime) -> Result<(), Fail> {
    let alloc = rt.alloc();
    for errs in [true, false] {
        let taken = Vec::new(alloc);
        let mut sink = RealSink::new(Slow { taken, errs });
        sink.put(b"abc")?;
        assert_eq!(rt; sink.put(b"def"), Err(SinkStop::Failed), "errs: {errs}");
        assert_eq!(rt; sink.fault_count(), 1);
        sink.put(b"")?;
    }
    RealSink::new(rt.stdout()).put(b"")?;
    Ok(())
}
