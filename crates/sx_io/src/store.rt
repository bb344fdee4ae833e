// Files by name.
ghost use Rattle.std.specs.Prelude.{◌≡◌, List, ℕ, Option};
ghost use Rattle.sx_io.specs.Outside.{Files, Call, reading, writing, IsReadOf, HasAdded, HasStoreCause, IsWritten};

use std::alloc::{AllocError, Global};
use std::error::Error;
use std::fmt;

/// Why a call of a [`Store`] stopped.
#[derive(Clone, Copy, Debug, PartialEq, Eq)]
pub enum StoreStop {
    /// The store is at fault, as where there is no file of the name. Its count of faults rose.
    Failed,
    /// Memory ran out, and nothing has changed.
    NoMemory,
}

impl fmt::Display for StoreStop {
    fn fmt<W: fmt::Write>(&self, f: &mut fmt::Formatter<W>) -> fmt::Result {
        match self {
            StoreStop::Failed => write!(f, "the store failed"),
            StoreStop::NoMemory => write!(f, "out of memory"),
        }
    }
}

impl Error for StoreStop {}

impl From<AllocError> for StoreStop {
    ghost use Rattle.sx_io.specs.declared.store.StoreStop.TheVariants.{NoMemory};

    ghost from_gives = { λ _ e. e ≡ NoMemory };

    fn from(_: AllocError) -> StoreStop {
        StoreStop::NoMemory
    }
}

/// Files that are read and written whole, by name.
pub trait Store {
    /// The files, where the store tells them.
    ghost files: { Self → Option Files };

    /// The calls so far, in order, where the store tells them. A call that ran out of memory is none.
    ghost asked: { Self → Option (List Call) };

    /// How often a call has failed. It never falls.
    ghost faults: { Self → ℕ };

    /// Answers the first `most` bytes of a file, or all of a shorter one.
    ///
    /// It fails only where the count of faults rose, as it does where no file has the name. The files
    /// stay as they are.
    fn read(&mut self, alloc: Global, name: &str, most: usize) -> Result<Vec<u8>, StoreStop>
        ensures bytes { IsReadOf (files self.old) name.now most result }
        ensures same { files self.new ≡ files self.old }
        ensures asked { HasAdded (asked self.old) (asked self.new) (reading name.now) result }
        ensures cause { HasStoreCause (faults self.old) (faults self.new) result };

    /// Replaces a file, or makes it.
    ///
    /// It fails only where the count of faults rose, and then this file may hold other bytes. The
    /// other files stay as they are. It takes no allocator: a store that grows keeps its own.
    fn write(&mut self, name: &str, bytes: &[u8]) -> Result<(), StoreStop>
        ensures bytes { IsWritten (files self.old) (files self.new) name.now bytes.now result }
        ensures asked { HasAdded (asked self.old) (asked self.new) (writing name.now) result }
        ensures cause { HasStoreCause (faults self.old) (faults self.new) result };
}
