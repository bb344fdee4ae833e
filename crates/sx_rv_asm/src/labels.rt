//! Where labels stand.
ghost use Rattle.std.specs.Prelude.{◌≡◌, ◌==◌, ℕ, OnOk, if◌then◌else◌};

use crate::items::Item;
use std::alloc::{AllocError, Global};
use std::collections::BTreeMap;

/// An address for each label that was set, and 0 for the others.
#[derive(Drop)]
pub struct Labels {
    map: BTreeMap<u32, u32>,
}

impl Labels {
    ghost use Rattle.sx_rv_asm.specs.Labels.{place_in, IsNone, Sets, Notes};

    pub fn new(alloc: Global) -> Self
        ensures { IsNone result }
    {
        Labels {
            map: BTreeMap::new(alloc),
        }
    }

    pub fn place(&self, label: u32) -> u32
        ensures { result ≡ place_in self.now label }
    {
        self.map.get(&label).copied().unwrap_or(0)
    }

    fn set(&mut self, label: u32, address: u32) -> Result<(), AllocError>
        ensures { OnOk result (Sets self.old self.new label address) }
    {
        self.map.insert(label, address)?;
        Ok(())
    }

    /// Sets the label that an item is, if it is one.
    pub fn note(&mut self, item: &Item, address: u32) -> Result<(), AllocError>
        ensures { OnOk result (Notes self.old self.new item.now address) }
    {
        match item {
            Item::Plain(_) => Ok(()),
            Item::Label(label) => self.set(*label, address),
            Item::Branch { .. } => Ok(()),
            Item::Jump { .. } => Ok(()),
            Item::Address { .. } => Ok(()),
            Item::Bytes(_) => Ok(()),
        }
    }
}
