// A store in memory.
ghost use Rattle.std.specs.Prelude.{◌≡◌, ◌+◌, ◌<◌, ◌↔◌, [], ◌∷◌, ◌++◌, ℕ, Some, None, length, take, Contains, IsTrue, IfSome, IfNone, IfOk, OnOk, OnErr, IsErrOf, string_bytes, vec_len, vec_capacity};
ghost use Rattle.std.specs.FinMap.{insert, get};
ghost use Rattle.sx_io.specs.Files.{place_from, AreApart, calls_of, call_in, files_of};

use crate::{Store, StoreStop};
use std::alloc::{AllocError, Global};

/// A call that a store was asked for: a write or a read of the file `name`.
#[derive(Drop)]
pub struct Asked {
    pub write: bool,
    pub name: String,
}

/// A store in memory that tells its files and its calls, and can be told to fail.
#[derive(Drop)]
pub struct MemStore {
    alloc: Global,
    files: Vec<(String, Vec<u8>)>,
    asked: Vec<Asked>,
    failing: Vec<u64>,
    faults: u64,
}

impl MemStore {
    ghost use Rattle.sx_io.specs.MemStore.{store_files, store_asked, store_faults, store_failing};

    /// Makes a store of files whose names differ. It takes no memory, and keeps the allocator for its
    /// later calls.
    ///
    /// The calls are numbered from 1, and those listed in `failing` fail.
    pub fn new(alloc: Global, files: Vec<(String, Vec<u8>)>, failing: Vec<u64>) -> MemStore
        requires { AreApart files.items }
        ensures files { store_files result ≡ files_of files.items }
        ensures asked { store_asked result ≡ [] }
        ensures failing { store_failing result ≡ failing.items }
        ensures faults { store_faults result ≡ 0 }
    {
        MemStore {
            alloc,
            files,
            asked: Vec::new(alloc),
            failing,
            faults: 0,
        }
    }

    /// The files.
    pub fn files_now(&self) -> &Vec<(String, Vec<u8>)>
        ensures { files_of result.now.items ≡ store_files self.now }
    {
        &self.files
    }

    /// The calls so far, in order.
    pub fn asked_now(&self) -> &Vec<Asked>
        ensures { calls_of result.now.items ≡ store_asked self.now }
    {
        &self.asked
    }

    /// How often a call has failed.
    pub fn fault_count(&self) -> u64
        ensures { result ≡ store_faults self.now }
    {
        self.faults
    }
}

// The index of the first file of this name.
fn place_of(files: &Vec<(String, Vec<u8>)>, name: &str) -> Option<usize>
    ensures place { result ≡ place_from 0 files.now.items name.now }
    ensures within { IfSome result (λ i. i < length files.now.items) }
{
    for (i, file) in files.iter().enumerate() {
        if name == file.0.as_str() {
            return Some(i);
        }
    }
    None
}

// The bytes of the file of this name.
fn find<'a>(files: &'a Vec<(String, Vec<u8>)>, name: &str) -> Option<&'a Vec<u8>>
    ensures none { IfNone result (get (files_of files.now.items) name.now ≡ None) }
    ensures some { IfSome result (λ bytes. get (files_of files.now.items) name.now ≡ Some bytes.now.items) }
{
    match place_of(files, name) {
        Some(place) => {
            let file = &files[place];
            Some(&file.1)
        }
        None => None,
    }
}

// Whether the next call's number is listed.
fn is_next_listed(asked: &Vec<Asked>, failing: &Vec<u64>) -> bool
    ensures { IsTrue result ↔ Contains failing.now.items (length (calls_of asked.now.items) + 1) }
{
    let number = asked.len() as u64 + 1;
    failing.contains(&number)
}

// The first `most` of some bytes.
fn front(alloc: Global, bytes: &[u8], most: usize) -> Result<Vec<u8>, AllocError>
    ensures { IfOk result (λ v. v.items ≡ take most bytes.now) }
{
    if most < bytes.len() {
        bytes[..most].to_vec(alloc)
    } else {
        bytes.to_vec(alloc)
    }
}

// Records a call, after the others.
fn record(alloc: Global, asked: &mut Vec<Asked>, write: bool, name: &str) -> Result<(), AllocError>
    ensures ok { OnOk result (calls_of asked.new.items ≡ calls_of asked.old.items ++ call_in write name.now ∷ []) }
    ensures err { OnErr result (asked.new.items ≡ asked.old.items) }
{
    let name = name.to_owned(alloc)?;
    asked.push(Asked { write, name })?;
    Ok(())
}

// Puts other bytes into a file.
fn replace(files: &mut Vec<(String, Vec<u8>)>, place: usize, name: &str, bytes: Vec<u8>)
    requires place { place_from 0 files.old.items name.now ≡ Some place }
    requires within { place < length files.old.items }
    ensures { files_of files.new.items ≡ insert (files_of files.old.items) name.now bytes.items }
{
    let file = &mut files[place];
    file.1 = bytes;
}

// Adds a file, for which there is room.
fn add(files: &mut Vec<(String, Vec<u8>)>, name: String, bytes: Vec<u8>)
    requires new { place_from 0 files.old.items (string_bytes name) ≡ None }
    requires room { vec_len files.old < vec_capacity files.old }
    ensures { files_of files.new.items ≡ insert (files_of files.old.items) (string_bytes name) bytes.items }
{
    files.push_reserved((name, bytes));
}

impl Store for MemStore {
    ghost use Rattle.sx_io.specs.Outside.{reading, writing, raised, IsReadOf, HasAdded, HasStoreCause, IsWritten};
    ghost use Rattle.sx_io.specs.MemStore.{store_files, store_asked, store_faults, store_failing, IsServed};
    ghost use Rattle.sx_io.specs.declared.store.StoreStop.TheVariants.{Failed};

    ghost files = { λ s. Some (store_files s) };

    ghost asked = { λ s. Some (store_asked s) };

    ghost faults = { λ s. store_faults s };

    /// Fails exactly where the call's number is listed, or no file has the name.
    fn read(&mut self, alloc: Global, name: &str, most: usize) -> Result<Vec<u8>, StoreStop>
        ensures bytes { IsReadOf (Some (store_files self.old)) name.now most result }
        ensures same { Some (store_files self.new) ≡ Some (store_files self.old) }
        ensures asked { HasAdded (Some (store_asked self.old)) (Some (store_asked self.new)) (reading name.now) result }
        ensures cause { HasStoreCause (store_faults self.old) (store_faults self.new) result }
        ensures exact { IsServed self.old (get (store_files self.old) name.now ≡ None) result }
        ensures one_fault { IsErrOf result Failed → store_faults self.new ≡ raised (store_faults self.old) }
        ensures failing { store_failing self.new ≡ store_failing self.old }
    {
        if !is_next_listed(&self.asked, &self.failing)
            && let Some(bytes) = find(&self.files, name)
        {
            let bytes = front(alloc, bytes, most)?;
            record(self.alloc, &mut self.asked, false, name)?;
            return Ok(bytes);
        }
        record(self.alloc, &mut self.asked, false, name)?;
        self.faults = self.faults.saturating_add(1);
        Err(StoreStop::Failed)
    }

    /// Fails exactly where the call's number is listed, and then changes no file.
    fn write(&mut self, name: &str, bytes: &[u8]) -> Result<(), StoreStop>
        ensures bytes { IsWritten (Some (store_files self.old)) (Some (store_files self.new)) name.now bytes.now result }
        ensures asked { HasAdded (Some (store_asked self.old)) (Some (store_asked self.new)) (writing name.now) result }
        ensures cause { HasStoreCause (store_faults self.old) (store_faults self.new) result }
        ensures exact { IsServed self.old ⊥ result }
        ensures kept { OnErr result (store_files self.new ≡ store_files self.old) }
        ensures one_fault { IsErrOf result Failed → store_faults self.new ≡ raised (store_faults self.old) }
        ensures failing { store_failing self.new ≡ store_failing self.old }
    {
        if is_next_listed(&self.asked, &self.failing) {
            record(self.alloc, &mut self.asked, true, name)?;
            self.faults = self.faults.saturating_add(1);
            return Err(StoreStop::Failed);
        }
        let bytes = bytes.to_vec(self.alloc)?;
        match place_of(&self.files, name) {
            Some(place) => {
                record(self.alloc, &mut self.asked, true, name)?;
                replace(&mut self.files, place, name, bytes);
            }
            None => {
                let owned = name.to_owned(self.alloc)?;
                self.files.reserve(1)?;
                record(self.alloc, &mut self.asked, true, name)?;
                add(&mut self.files, owned, bytes);
            }
        }
        Ok(())
    }
}
