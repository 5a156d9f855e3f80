//! A shelf of files in memory.
ghost use Rattle.std.specs.Prelude.{◌≡◌, ◌+◌, ◌≤◌, ◌++◌, ◌∷◌, [], length, map, None, Some, MatchOption, OnOk, OnErr};
ghost use Rattle.std.specs.Prelude.{IsErrOf, string_bytes};
ghost use Rattle.std.specs.List.{position};
ghost use Rattle.std.specs.Str.{bytes_eq};
ghost use Rattle.outside_ports.specs.Faults.{count_after};
ghost use Rattle.outside_ports.specs.Fetches.{Asks, CountsFetch, GivesFile};
ghost use Rattle.outside_ports.specs.MemoryFiles.{FailsExactly, Stores, file_bytes, is_failing_fetch};
ghost use Rattle.outside_ports.specs.MemoryFiles.Entry.{entry_of};

use crate::fault::{FetchFault, count_after};
use crate::shelf::{MAX_LIMIT, Shelf};
use std::alloc::{AllocError, Global};
use std::marker::Model;

/// A shelf that keeps its files in memory, of which single fetches can be made to fail.
///
/// It is seen as its files, the names asked, its faults and the fetches that are to fail.
#[derive(Drop)]
pub struct MemoryShelf {
    files: Vec<StoredFile>,
    asked: Vec<String>,
    faults: u64,
    failing: Vec<u64>,
}

#[derive(Drop)]
struct StoredFile {
    name: String,
    bytes: Vec<u8>,
}

impl Model for MemoryShelf {
    ghost use Rattle.std.specs.Prelude.{map, string_bytes};
    ghost use Rattle.outside_ports.specs.MemoryFiles.{FilesInMemory};

    ghost Value = { FilesInMemory };

    ghost use Rattle.outside_ports.specs.MemoryFiles.Entry.{entry_of};

    ghost view = { λ s. record {
      files = map entry_of s.files.items;
      asked = map string_bytes s.asked.items;
      faults = s.faults;
      failing = s.failing.items;
    } };
}

impl MemoryShelf {
    /// A shelf without files, of which no name was asked and which had no fault.
    pub fn new(alloc: Global) -> MemoryShelf
        ensures { result ≡ record { files = []; asked = []; faults = 0; failing = [] } }
    {
        MemoryShelf {
            files: Vec::new(alloc),
            asked: Vec::new(alloc),
            faults: 0,
            failing: Vec::new(alloc),
        }
    }

    /// Adds a file, in the place of an older one of that name.
    pub fn add(&mut self, name: String, bytes: Vec<u8>) -> Result<(), AllocError>
        ensures stored { OnOk result
            (Stores (file_bytes self.old.files) (string_bytes name) bytes.items (file_bytes self.new.files)) }
        ensures others { self.new ≡ record self.old { files = self.new.files } }
        ensures refused { OnErr result (self.new ≡ self.old) }
    {
        store(&mut self.files, name, bytes)
    }

    /// Makes the fetch number `call` fail. Fetches are numbered from 1, by the names asked.
    pub fn fail_at(&mut self, call: u64) -> Result<(), AllocError>
        ensures ok { OnOk result
            (self.new ≡ record self.old { failing = self.old.failing ++ call ∷ [] }) }
        ensures refused { OnErr result (self.new ≡ self.old) }
    {
        self.failing.push(call)?;
        Ok(())
    }
}

/// The place of the first file of that name.
fn place_of(files: &[StoredFile], name: &String) -> Option<usize>
    ensures { result ≡
        position (λ file. bytes_eq (string_bytes file.name) (string_bytes name.now)) files.now }
{
    files.iter().position(|file| file.name == *name)
}

/// Puts the bytes in the place of an older file of that name, or behind all files.
fn store(files: &mut Vec<StoredFile>, name: String, bytes: Vec<u8>) -> Result<(), AllocError>
    ensures stored { OnOk result (Stores
        (file_bytes (map entry_of files.old.items))
        (string_bytes name) bytes.items
        (file_bytes (map entry_of files.new.items))) }
    ensures refused { OnErr result (files.new.items ≡ files.old.items) }
{
    match place_of(files, &name) {
        Some(place) => files[place].bytes = bytes,
        None => files.push(StoredFile { name, bytes })?,
    }
    Ok(())
}

/// The bytes of the file of that name.
fn file_bytes<'a>(files: &'a [StoredFile], name: &String) -> Option<&'a [u8]>
    ensures { MatchOption result
        (file_bytes (map entry_of files.now) (string_bytes name.now) ≡ None)
        (λ bytes. file_bytes (map entry_of files.now) (string_bytes name.now) ≡ Some bytes.now) }
{
    let place = place_of(files, name)?;
    let file = &files[place];
    Some(file.bytes.as_slice())
}

/// Copies the file up to its end, or to its first byte past the limit.
fn copy_up_to(file: &[u8], limit: u64, into: &mut Vec<u8>) -> Result<(), FetchFault>
    requires empty { into.old.items ≡ [] }
    requires limit { limit ≤ MAX_LIMIT }
    ensures told { GivesFile (Some file.now) limit result into.new.items }
    ensures within { OnOk result (length into.new.items ≤ limit) }
    ensures not_failed { IsErrOf result FetchFault.Failed → ⊥ }
{
    if file.len() as u64 > limit {
        into.extend_from_slice(&file[..limit as usize + 1])?;
        return Err(FetchFault::TooLong);
    }
    into.extend_from_slice(file)?;
    Ok(())
}

impl Shelf for MemoryShelf {
    ghost held = { λ s. Some (file_bytes s.files) };

    ghost asked = { λ s. s.asked };

    ghost faults = { λ s. s.faults };

    fn fetch(&mut self, name: &String, limit: u64, into: &mut Vec<u8>) -> Result<(), FetchFault>
        requires empty { into.old.items ≡ [] }
        requires limit { limit ≤ MAX_LIMIT }
        ensures held { self.new.files ≡ self.old.files }
        ensures failing { self.new.failing ≡ self.old.failing }
        ensures asked { Asks result
            self.old.asked (string_bytes name.now) self.new.asked into.new.items }
        ensures faults { CountsFetch result self.old.faults self.new.faults }
        ensures one_more { IsErrOf result FetchFault.Failed → self.new.faults ≡ count_after self.old.faults }
        ensures never_falls { self.old.faults ≤ self.new.faults }
        ensures told { GivesFile
            (file_bytes self.old.files (string_bytes name.now)) limit result into.new.items }
        ensures within { OnOk result (length into.new.items ≤ limit) }
        ensures too_long { IsErrOf result FetchFault.TooLong → length into.new.items ≡ limit + 1 }
        ensures fails { FailsExactly result (is_failing_fetch self.old (string_bytes name.now)) }
    {
        self.asked.push(name.clone()?)?;
        let call = self.asked.len() as u64;
        if !self.failing.contains(&call) {
            if let Some(file) = file_bytes(&self.files, name) {
                return copy_up_to(file, limit, into);
            }
        }
        self.faults = count_after(self.faults);
        Err(FetchFault::Failed)
    }
}
