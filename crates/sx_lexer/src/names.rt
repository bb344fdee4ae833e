// The names of a text.

ghost use Rattle.std.specs.Prelude.{◌≡◌, ◌≤◌, ◌<◌, ◌+◌, [], length, map, List, ℕ, IfOk, OnOk};
ghost use Rattle.sx_token.specs.Sound.{contents};
ghost use Rattle.sx_lexer.specs.Names.{index_of, with_name};

use indexmap::IndexSet;
use std::alloc::{AllocError, Global};
use std::marker::Model;

/// The names of a text, each once, in the order in which they are first seen. Finding a name takes
/// the same time however many there are, but for names whose hashes meet.
#[derive(Drop)]
pub struct Names<'a> {
    seen: IndexSet<&'a [u8]>,
}

impl<'a> Model for Names<'a> {
    ghost Value = { List (List ℕ) };

    ghost view = { λ names. map (λ name. name.now) names.seen.keys };
}

impl<'a> Names<'a> {
    /// No names.
    pub fn new(alloc: Global) -> Names<'a>
        ensures { result ≡ [] }
    {
        Names {
            seen: IndexSet::new(alloc),
        }
    }

    /// The index of the name, which goes last where it is new.
    pub fn index_of(&mut self, name: &'a [u8]) -> Result<usize, AllocError>
        ensures names { OnOk result (self.new ≡ with_name self.old name.now) }
        ensures index { IfOk result (λ k. k ≡ index_of self.new name.now) }
        ensures within { IfOk result (λ k. k < length self.new) }
        ensures few { OnOk result (length self.new ≤ length self.old + 1) }
    {
        let (index, _) = self.seen.insert_full(name)?;
        Ok(index)
    }

    /// The names in vectors.
    pub fn to_vecs(&self, alloc: Global) -> Result<Vec<Vec<u8>>, AllocError>
        ensures { IfOk result (λ vecs. contents vecs.items ≡ self.now) }
    {
        let mut vecs = Vec::new(alloc);
        for name in self.seen.as_slice() {
            vecs.push(Vec::from_slice(alloc, name)?)?;
        }
        Ok(vecs)
    }
}
