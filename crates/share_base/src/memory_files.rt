//! Files in memory.

ghost use Rattle.std.specs.Prelude.{◌≡◌, ◌++◌, ◌∷◌, [], IfOk, OnOk, OnErr, List, ℕ, Option, None};
ghost use Rattle.std.specs.Option.{option_copied};
ghost use Rattle.std.specs.List.{find};
ghost use Rattle.std.specs.Str.{bytes_eq};
ghost use Rattle.share_base.specs.Counts.{one_more};
ghost use Rattle.share_base.specs.Stored.{MemoryStore, FileGives, FileFaults, FileOvers, fails_at};
ghost use Rattle.share_base.specs.Stored.{is_failure, SameFiles, file_named, store_of};

use crate::files::{FileAnswer, Files};
use crate::octets::Octets;
use crate::out_of_memory::OutOfMemory;
use std::alloc::Global;
use std::marker::Model;

/// A file and its name.
#[derive(Debug, Drop)]
pub struct NamedFile {
    /// The bytes of its name.
    pub name: Octets,
    /// Its bytes.
    pub bytes: Octets,
}

/// Files in memory, with a list of the calls that fail, which are numbered from 1. Contracts see it
/// as a `MemoryStore`.
#[derive(Debug, Drop)]
pub struct MemoryFiles {
    alloc: Global,
    files: Vec<NamedFile>,
    failing: Vec<u64>,
    calls: u64,
    faults: u64,
    overs: u64,
}

impl Model for MemoryFiles {
    ghost use Rattle.share_base.specs.Stored.{MemoryStore};

    ghost Value = { MemoryStore };

    ghost view = { λ f. record {
      files = f.files.items;
      failing = f.failing.items;
      calls = f.calls;
      faults = f.faults;
      overs = f.overs;
    } };
}

impl MemoryFiles {
    /// No files. Those readings fail whose numbers are listed, and those of names that aren't held.
    pub fn new(alloc: Global, failing: &[u64]) -> Result<MemoryFiles, OutOfMemory>
        ensures { IfOk result (λ f. f ≡ store_of failing.now) }
    {
        Ok(MemoryFiles {
            alloc,
            files: Vec::new(alloc),
            failing: Vec::from_slice(alloc, failing)?,
            calls: 0,
            faults: 0,
            overs: 0,
        })
    }

    /// Adds a file of a name that isn't held yet. After `OutOfMemory` nothing has changed.
    pub fn add(&mut self, name: &str, bytes: &[u8]) -> Result<(), OutOfMemory>
        requires { file_named self.old.files name.now ≡ None }
        ensures ok { OnOk result
            (self.new
            ≡ record self.old {
              files = self.old.files
                  ++ (record { name = name.now; bytes = bytes.now }) ∷ [];
            }) }
        ensures err { OnErr result (self.new ≡ self.old) }
    {
        let mut file = NamedFile {
            name: Octets::new(self.alloc),
            bytes: Octets::new(self.alloc),
        };
        file.name.extend(name.as_bytes())?;
        file.bytes.extend(bytes)?;
        self.files.push(file)?;
        Ok(())
    }
}

fn has_name(file: &NamedFile, name: &[u8]) -> bool
    ensures { result ≡ bytes_eq file.now.name name.now }
{
    file.name.as_slice() == name
}

fn find_file<'a>(files: &'a [NamedFile], name: &[u8]) -> Option<&'a NamedFile>
    ensures { option_copied result ≡ find (λ f. bytes_eq f.name name.now) files.now }
{
    files.iter().find(|file| has_name(file, name))
}

impl Files for MemoryFiles {
    ghost told = { λ f name. file_named f.files name };

    ghost calls = { λ f. f.calls };

    ghost faults = { λ f. f.faults };

    ghost overs = { λ f. f.overs };

    /// Fails exactly at the listed calls and for names that aren't held.
    fn read_all(&mut self, name: &str, limit: u64) -> FileAnswer
        ensures gives { FileGives result limit (file_named self.old.files name.now) }
        ensures kept { (other : List ℕ)
            → file_named self.new.files other ≡ file_named self.old.files other }
        ensures calls { self.new.calls ≡ one_more self.old.calls }
        ensures faults { FileFaults result self.old.faults self.new.faults }
        ensures overs { FileOvers result self.old.overs self.new.overs }
        ensures fails { is_failure result ≡ fails_at self.old name.now }
        ensures same { SameFiles self.old self.new }
    {
        self.calls = self.calls.saturating_add(1);
        if self.failing.contains(&self.calls) {
            self.faults = self.faults.saturating_add(1);
            return FileAnswer::Failed;
        }
        let Some(file) = find_file(&self.files, name.as_bytes()) else {
            self.faults = self.faults.saturating_add(1);
            return FileAnswer::Failed;
        };
        let bytes = file.bytes.as_slice();
        if bytes.len() as u64 > limit {
            self.overs = self.overs.saturating_add(1);
            return FileAnswer::TooBig;
        }
        let mut copy = Octets::new(self.alloc);
        let Ok(()) = copy.extend(bytes) else {
            return FileAnswer::OutOfMemory;
        };
        FileAnswer::Bytes(copy)
    }
}
