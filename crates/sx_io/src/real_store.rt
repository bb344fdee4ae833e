// The machine's files as a store.
ghost use Rattle.std.specs.Prelude.{◌≡◌};

use crate::streams::{read_front, write_whole};
use crate::{Store, StoreStop};
use std::alloc::Global;
use std::fs;
use std::rt::Files;

/// The machine's files, by their paths.
///
/// It tells neither files nor calls. An absent name, a directory and whatever else the machine
/// refuses is a fault.
#[derive(Drop)]
pub struct RealStore<R: Files> {
    runtime: R,
    faults: u64,
}

impl<R: Files> RealStore<R> {
    ghost use Rattle.sx_io.specs.RealStore.{store_faults};

    /// Makes a store of the files that a runtime reaches, such as the one that `main` is handed.
    /// It takes no memory.
    pub fn new(runtime: R) -> RealStore<R>
        ensures { store_faults result ≡ 0 }
    {
        RealStore { runtime, faults: 0 }
    }

    /// How often a call has failed.
    pub fn fault_count(&self) -> u64
        ensures { result ≡ store_faults self.now }
    {
        self.faults
    }
}

// The first `most` bytes of a file.
fn read_file<R: Files>(
    files: &R,
    alloc: Global,
    name: &str,
    most: usize,
) -> Result<Vec<u8>, StoreStop> {
    match fs::open(files, name) {
        Ok(file) => read_front(alloc, file, most),
        Err(_) => Err(StoreStop::Failed),
    }
}

// Replaces a file, or makes it, and says whether it could.
fn write_file<R: Files>(files: &R, name: &str, bytes: &[u8]) -> bool {
    match fs::create(files, name) {
        Ok(mut file) => write_whole(&mut file, bytes).is_ok(),
        Err(_) => false,
    }
}

impl<R: Files> Store for RealStore<R> {
    ghost use Rattle.std.specs.Prelude.{None};
    ghost use Rattle.sx_io.specs.RealStore.{store_faults};

    ghost files = { λ _. None };

    ghost asked = { λ _. None };

    ghost faults = { λ s. store_faults s };

    fn read(&mut self, alloc: Global, name: &str, most: usize) -> Result<Vec<u8>, StoreStop> {
        let result = read_file(&self.runtime, alloc, name, most);
        if let Err(StoreStop::Failed) = result {
            self.faults = self.faults.saturating_add(1);
        }
        result
    }

    fn write(&mut self, name: &str, bytes: &[u8]) -> Result<(), StoreStop> {
        if write_file(&self.runtime, name, bytes) {
            return Ok(());
        }
        self.faults = self.faults.saturating_add(1);
        Err(StoreStop::Failed)
    }
}
