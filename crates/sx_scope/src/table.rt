// Tables by names.

ghost use Rattle.std.specs.Prelude.{◌≡◌, [], OnOk};
ghost use Rattle.sx_scope.specs.Tables.{entry, with_entry};

use indexmap::IndexMap;
use std::alloc::{AllocError, Global};
use std::marker::Model;

/// Entries by names, each name once, in the order in which they were added. Finding one takes the
/// same time however many there are, but for names whose hashes meet.
#[derive(Drop)]
pub struct Table<T> {
    entries: IndexMap<u32, T>,
}

impl<T> Model for Table<T> {
    ghost use Rattle.std.specs.Prelude.{ℕ, List};

    ghost Value = { List (ℕ × T) };

    ghost view = { λ table. table.entries.entries };
}

impl<T: Copy> Table<T> {
    /// A table without entries.
    pub fn new(alloc: Global) -> Table<T>
        ensures { result ≡ [] }
    {
        Table {
            entries: IndexMap::new(alloc),
        }
    }

    /// What stands at the name.
    pub fn get(&self, name: u32) -> Option<T>
        ensures { result ≡ entry self.now name }
    {
        self.entries.get(&name).copied()
    }

    /// Adds an entry at the end, unless there is one at the name.
    pub fn add(&mut self, name: u32, value: T) -> Result<(), AllocError>
        ensures { OnOk result (self.new ≡ with_entry name value self.old) }
    {
        match self.get(name) {
            Some(_) => Ok(()),
            None => match self.entries.insert(name, value) {
                Ok(_) => Ok(()),
                Err(_) => Err(AllocError),
            },
        }
    }
}
