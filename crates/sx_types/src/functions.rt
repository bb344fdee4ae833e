// The numbers of function types.

ghost use Rattle.std.specs.Prelude.{◌≡◌, ◌^◌, ◌<◌, [], length, slice_get, Some, IfOk, OnOk};
ghost use Rattle.sx_types.specs.Functions.{Gains, IsOnce};
ghost use Rattle.sx_types.specs.Same.{number_of};

use crate::types::FunctionType;
use indexmap::IndexSet;
use std::alloc::{AllocError, Global};
use std::marker::Model;

/// The function types of a program, each once, in the order in which they are first seen. Finding
/// one takes the same time however many there are, but for types whose hashes meet.
#[derive(Drop)]
pub struct FunctionTypes {
    seen: IndexSet<FunctionType>,
}

impl Model for FunctionTypes {
    ghost use Rattle.std.specs.Prelude.{List, length, ◌≤◌, ◌^◌};
    ghost use Rattle.sx_types.specs.declared.types.FunctionType.{FunctionType};

    ghost Value = { List FunctionType };

    ghost view = { λ types. types.seen.keys };

    ghost invariant = { λ types. length types.seen.keys ≤ 2 ^ 32 };
}

impl FunctionTypes {
    /// No function types.
    pub fn new(alloc: Global) -> FunctionTypes
        ensures { result ≡ [] }
    {
        FunctionTypes {
            seen: IndexSet::new(alloc),
        }
    }

    /// All of them, by their numbers.
    pub fn as_slice(&self) -> &[FunctionType]
        ensures all { result.now ≡ self.now }
        ensures once { IsOnce self.now }
    {
        self.seen.as_slice()
    }

    /// The number of the function type, or `None` where it isn't among them.
    pub fn find(&self, function: &FunctionType) -> Option<u32>
        ensures { result ≡ number_of self.now function.now }
    {
        match self.seen.get_index_of(function) {
            Some(number) => Some(number as u32),
            None => None,
        }
    }

    /// The number of the function type, which goes last where it is new.
    pub fn number_of(&mut self, function: FunctionType) -> Result<u32, AllocError>
        requires few { length self.old < 2 ^ 32 }
        ensures types { OnOk result (Gains self.old self.new function) }
        ensures number { IfOk result (λ k. slice_get self.new k ≡ Some function) }
    {
        let (number, _) = self.seen.insert_full(function)?;
        Ok(number as u32)
    }
}
