//! A shelf over the files of a runtime.
ghost use Rattle.std.specs.Prelude.{◌≡◌, ℕ, ◌+◌, ◌^◌, ◌<◌, ◌≤◌, List, [], ◌++◌, length, None, IfSome, IfOk, OnOk};
ghost use Rattle.std.specs.Prelude.{OnErr, IsErrOf, string_bytes};
ghost use Rattle.std.specs.Io.KnownBytes.{Consumes, IsAtEnd, Keeps};
ghost use Rattle.outside_ports.specs.Faults.{count_after};
ghost use Rattle.outside_ports.specs.Fetches.{Asks, CountsFetch, GivesFile};
ghost use Rattle.outside_ports.specs.ReadBytes.{ReadsUpTo};

use crate::fault::{FetchFault, count_after};
use crate::shelf::{MAX_LIMIT, Shelf};
use std::alloc::Global;
use std::fs;
use std::io::Read;
use std::marker::Model;
use std::rt::Files;

/// How many bytes one read takes at most.
const MAX_BLOCK: usize = 65_536;

/// A shelf over the files of a runtime, which it finds by their paths. It doesn't tell what it
/// holds, and is seen as the names asked and its count of faults.
///
/// A fault is an error at the opening of a file or at a read. It ends the fetch.
#[derive(Drop)]
pub struct FileShelf<R> {
    rt: R,
    asked: Vec<String>,
    faults: u64,
}

impl<R> Model for FileShelf<R> {
    ghost use Rattle.std.specs.Prelude.{map, string_bytes};
    ghost use Rattle.outside_ports.specs.FilePort.{FilePort};

    ghost Value = { FilePort };

    ghost view = { λ s. record {
      asked = map string_bytes s.asked.items;
      faults = s.faults;
    } };
}

impl<R: Files + Drop> FileShelf<R> {
    /// A shelf over the files of `rt`, of which no name was asked and which had no fault.
    pub fn new(alloc: Global, rt: R) -> FileShelf<R>
        ensures { result ≡ record { asked = []; faults = 0 } }
    {
        FileShelf {
            rt,
            asked: Vec::new(alloc),
            faults: 0,
        }
    }
}

/// Reads the file of that name up to its end, or to its first byte past the limit. `Failed` is an
/// error of the runtime.
fn read_file<R: Files>(
    rt: &R,
    name: &String,
    limit: u64,
    into: &mut Vec<u8>,
) -> Result<(), FetchFault>
    requires empty { into.old.items ≡ [] }
    requires limit { limit ≤ MAX_LIMIT }
    ensures most { length into.new.items ≤ limit + 1 }
    ensures within { OnOk result (length into.new.items ≤ limit) }
    ensures too_long { IsErrOf result FetchFault.TooLong → length into.new.items ≡ limit + 1 }
{
    let mut file = fs::open(rt, name.as_str()).map_err(|_| FetchFault::Failed)?;
    read_within(&mut file, limit, into)
}

/// Reads what the file has left up to its end, or to its first byte past the limit. It takes of the
/// file what it reads and no more. `Failed` is an error of a read.
pub(crate) fn read_within<F: Read>(
    file: &mut F,
    limit: u64,
    into: &mut Vec<u8>,
) -> Result<(), FetchFault>
    requires empty { into.old.items ≡ [] }
    requires limit { limit ≤ MAX_LIMIT }
    ensures told { IfSome (F.remaining file.old) (λ left. GivesFile (Some left) limit result into.new.items) }
    ensures took { Consumes (F.remaining file.old) (F.remaining file.new) into.new.items }
    ensures most { length into.new.items ≤ limit + 1 }
    ensures within { OnOk result (length into.new.items ≤ limit) }
    ensures too_long { IsErrOf result FetchFault.TooLong → length into.new.items ≡ limit + 1 }
{
    read_up_to(file, limit as usize + 1, into)?;
    if into.len() as u64 > limit {
        return Err(FetchFault::TooLong);
    }
    Ok(())
}

/// Appends what the file has left, until there are `most` bytes, and takes no more of it.
fn read_up_to<F: Read>(file: &mut F, most: usize, into: &mut Vec<u8>) -> Result<(), FetchFault>
    requires { length into.old.items ≤ most }
    ensures most { length into.new.items ≤ most }
    ensures reads { ReadsUpTo result (F.remaining file.old) most into.old.items into.new.items }
    ensures took { (taken : List ℕ) × (into.new.items ≡ into.old.items ++ taken)
        × Consumes (F.remaining file.old) (F.remaining file.new) taken }
    ensures not_too_long { IsErrOf result FetchFault.TooLong → ⊥ }
{
    while into.len() < most {
        let wanted = (most - into.len()).min(MAX_BLOCK);
        if read_block(file, wanted, into)? == 0 {
            return Ok(());
        }
    }
    Ok(())
}

/// Appends the bytes of one read, which takes at most `wanted`, and answers how many they are.
fn read_block<F: Read>(file: &mut F, wanted: usize, into: &mut Vec<u8>) -> Result<usize, FetchFault>
    requires some { 0 < wanted }
    requires fits { length into.old.items + wanted < 2 ^ 64 }
    ensures within { IfOk result (λ taken. taken ≤ wanted) }
    ensures read { IfOk result (λ taken. (block : List ℕ) × (into.new.items ≡ into.old.items ++ block)
        × (length block ≡ taken) × Consumes (F.remaining file.old) (F.remaining file.new) block) }
    ensures end { IfOk result (λ taken. taken ≡ 0 → IsAtEnd (F.remaining file.new)) }
    ensures refused { OnErr result (into.new.items ≡ into.old.items) }
    ensures kept { OnErr result (Keeps (F.remaining file.old) (F.remaining file.new)) }
    ensures not_too_long { IsErrOf result FetchFault.TooLong → ⊥ }
{
    let start = into.len();
    into.resize(start + wanted, 0)?;
    match file.read(&mut into.as_mut_slice()[start..]) {
        Ok(taken) => {
            into.truncate(start + taken);
            Ok(taken)
        }
        Err(_) => {
            into.truncate(start);
            Err(FetchFault::Failed)
        }
    }
}

impl<R: Files + Drop> Shelf for FileShelf<R> {
    ghost held = { λ _. None };

    ghost asked = { λ s. s.asked };

    ghost faults = { λ s. s.faults };

    fn fetch(&mut self, name: &String, limit: u64, into: &mut Vec<u8>) -> Result<(), FetchFault>
        requires empty { into.old.items ≡ [] }
        requires limit { limit ≤ MAX_LIMIT }
        ensures asked { Asks result
            self.old.asked (string_bytes name.now) self.new.asked into.new.items }
        ensures faults { CountsFetch result self.old.faults self.new.faults }
        ensures one_more { IsErrOf result FetchFault.Failed → self.new.faults ≡ count_after self.old.faults }
        ensures never_falls { self.old.faults ≤ self.new.faults }
        ensures within { OnOk result (length into.new.items ≤ limit) }
        ensures too_long { IsErrOf result FetchFault.TooLong → length into.new.items ≡ limit + 1 }
        ensures most { length into.new.items ≤ limit + 1 }
    {
        self.asked.push(name.clone()?)?;
        let result = read_file(&self.rt, name, limit, into);
        if let Err(FetchFault::Failed) = result {
            self.faults = count_after(self.faults);
        }
        result
    }
}
