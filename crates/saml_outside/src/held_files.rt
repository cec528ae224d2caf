//! Files in memory.
ghost use Rattle.std.specs.Prelude.{◌≡◌, ◌↔◌, ◌≢◌, ◌^◌, ◌<◌, ◌≤◌, [], ◌∷◌, Some, IsOk, OnOk, OnErr, reverse};
ghost use Rattle.std.specs.List.{find};
ghost use Rattle.std.specs.Option.{option_copied};
ghost use Rattle.std.specs.Str.{bytes_eq};
ghost use Rattle.saml_outside.specs.Counts.{Rose};
ghost use Rattle.saml_outside.specs.Files.{Reads};
ghost use Rattle.saml_outside.specs.InMemory.{after_read};

use crate::{Blob, FileRead, Files, NoMemory, Text};
use std::alloc::Global;
use std::marker::Model;

/// A name, and what the file of that name holds.
#[derive(Debug, Drop)]
struct Entry {
    name: Text,
    bytes: Blob,
}

impl Model for Entry {
    ghost use Rattle.saml_outside.specs.Files.{File};

    ghost Value = { File };

    ghost view = { λ e. record { name = e.name; bytes = e.bytes } };
}

impl Entry {
    fn name(&self) -> &str
        ensures { result.now ≡ self.now.name }
    {
        self.name.as_str()
    }

    fn bytes(&self) -> &[u8]
        ensures { result.now ≡ self.now.bytes }
    {
        self.bytes.as_slice()
    }
}

/// The last entry of that name.
fn newest<'a>(entries: &'a [Entry], name: &str) -> Option<&'a Entry>
    ensures { option_copied result ≡ find (λ f. bytes_eq f.name name.now) (reverse entries.now) }
{
    entries.iter().rev().find(|e| e.name() == name)
}

/// The files, in the order in which they were added. A contract sees the one that was added last in front.
#[derive(Debug, Drop)]
struct Folder {
    entries: Vec<Entry>,
}

impl Model for Folder {
    ghost use Rattle.std.specs.Prelude.{List, reverse};
    ghost use Rattle.saml_outside.specs.Files.{File};

    ghost Value = { List File };

    ghost view = { λ f. reverse f.entries.items };
}

impl Folder {
    fn new(alloc: Global) -> Folder
        ensures { result ≡ [] }
    {
        Folder {
            entries: Vec::new(alloc),
        }
    }

    fn add(&mut self, name: &str, bytes: &[u8]) -> Result<(), NoMemory>
        ensures ok { OnOk result (self.new ≡ record { name = name.now; bytes = bytes.now } ∷ self.old) }
        ensures err { OnErr result (self.new ≡ self.old) }
    {
        let alloc = *self.entries.allocator();
        let name = Text::of(alloc, name)?;
        let bytes = Blob::of(alloc, bytes)?;
        self.entries.push(Entry { name, bytes })?;
        Ok(())
    }

    fn read(&self, name: &str, limit: u64, into: &mut Vec<u8>) -> FileRead
        ensures reads { Reads (Some self.now) name.now limit result into.new.items }
        ensures works { result ≢ FileRead.Failed }
    {
        into.clear();
        let Some(entry) = newest(&self.entries, name) else {
            return FileRead::Absent;
        };
        let bytes = entry.bytes();
        if bytes.len() as u64 > limit {
            return FileRead::TooLong;
        }
        match into.extend_from_slice(bytes) {
            Ok(()) => FileRead::Whole,
            Err(_) => FileRead::NoMemory,
        }
    }
}

/// Files in memory, of which one call of `read_all` may be chosen to fail.
#[derive(Debug, Drop)]
pub struct MemFiles {
    folder: Folder,
    failing: u64,
    faults: u64,
}

impl Model for MemFiles {
    ghost use Rattle.saml_outside.specs.InMemory.{FilesInMemory};

    ghost Value = { FilesInMemory };

    ghost view = { λ m. record { files = m.folder; failing = m.failing; faults = m.faults } };
}

impl MemFiles {
    /// No files, no call that is to fail, and no fault so far. It takes no memory.
    pub fn new(alloc: Global) -> MemFiles
        ensures { result ≡ record { files = []; failing = 0; faults = 0 } }
    {
        MemFiles {
            folder: Folder::new(alloc),
            failing: 0,
            faults: 0,
        }
    }

    /// Adds a file. It hides one of the same name that was there before. Where there is no memory, all is as it was.
    pub fn add(&mut self, name: &str, bytes: &[u8]) -> Result<(), NoMemory>
        ensures ok { OnOk result (self.new ≡ record self.old { files = record { name = name.now; bytes = bytes.now } ∷ self.old.files }) }
        ensures err { OnErr result (self.new ≡ self.old) }
    {
        self.folder.add(name, bytes)
    }

    /// Lets the `k`-th call of `read_all` from now fail, and no other; with 0 none. It replaces the choice of an
    /// earlier `fail_at`. It takes no memory, and never answers `NoMemory`.
    pub fn fail_at(&mut self, k: u64) -> Result<(), NoMemory>
        ensures ok { IsOk result }
        ensures chosen { self.new ≡ record self.old { failing = k } }
    {
        self.failing = k;
        Ok(())
    }
}

impl Files for MemFiles {
    ghost holds = { λ m. Some m.files };

    ghost faults_of = { λ m. m.faults };

    fn read_all(&mut self, name: &str, limit: u64, into: &mut Vec<u8>) -> FileRead
        ensures reads { Reads (Some self.old.files) name.now limit result into.new.items }
        ensures failed { result ≡ FileRead.Failed → Rose self.old.faults self.new.faults }
        ensures same { Some self.new.files ≡ Some self.old.files }
        ensures never_falls { self.old.faults ≤ self.new.faults }
        ensures in_range { self.new.faults < 2 ^ 64 }

        // It fails at the chosen call, and at no other.
        ensures fails { (result ≡ FileRead.Failed) ↔ (self.old.failing ≡ 1) }
        ensures after { self.new ≡ after_read self.old }
    {
        let faults = self.faults;
        let fails = self.failing == 1;
        self.failing = self.failing.saturating_sub(1);
        if fails {
            self.faults = faults.saturating_add(1);
            into.clear();
            return FileRead::Failed;
        }
        self.folder.read(name, limit, into)
    }

    fn faults(&self) -> u64 {
        self.faults
    }
}

/// Files in memory, whose reading never fails: the count of faults is 0.
#[derive(Debug, Drop)]
pub struct SteadyFiles {
    folder: Folder,
}

impl Model for SteadyFiles {
    ghost use Rattle.std.specs.Prelude.{List};
    ghost use Rattle.saml_outside.specs.Files.{File};

    ghost Value = { List File };

    ghost view = { λ s. s.folder };
}

impl SteadyFiles {
    /// No files. It takes no memory.
    pub fn new(alloc: Global) -> SteadyFiles
        ensures { result ≡ [] }
    {
        SteadyFiles {
            folder: Folder::new(alloc),
        }
    }

    /// Adds a file. It hides one of the same name that was there before. Where there is no memory, all is as it was.
    pub fn add(&mut self, name: &str, bytes: &[u8]) -> Result<(), NoMemory>
        ensures ok { OnOk result (self.new ≡ record { name = name.now; bytes = bytes.now } ∷ self.old) }
        ensures err { OnErr result (self.new ≡ self.old) }
    {
        self.folder.add(name, bytes)
    }
}

impl Files for SteadyFiles {
    ghost holds = { λ files. Some files };

    ghost faults_of = { λ _. 0 };

    fn read_all(&mut self, name: &str, limit: u64, into: &mut Vec<u8>) -> FileRead {
        self.folder.read(name, limit, into)
    }

    fn faults(&self) -> u64 {
        0
    }
}
