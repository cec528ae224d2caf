//! Records.
ghost use Rattle.std.specs.Prelude.{◌≡◌, length, IfOk};

use owned_values::NoMemory;
use std::alloc::Global;
use std::marker::Model;

/// The payload of a record: bytes of any kind.
#[derive(Debug, Drop)]
pub struct Record {
    bytes: Vec<u8>,
}

impl Model for Record {
    ghost use Rattle.std.specs.Prelude.{List, ℕ};

    ghost Value = { List ℕ };

    ghost view = { λ r. r.bytes.items };
}

impl Record {
    /// A record of these bytes. It takes no memory.
    pub(crate) fn from_vec(bytes: Vec<u8>) -> Record
        ensures { result ≡ bytes.items }
    {
        Record { bytes }
    }

    /// A copy of `bytes`.
    pub(crate) fn of(alloc: Global, bytes: &[u8]) -> Result<Record, NoMemory>
        ensures { IfOk result (λ r. r ≡ bytes.now) }
    {
        let bytes = Vec::from_slice(alloc, bytes)?;
        Ok(Record { bytes })
    }

    /// How many bytes there are.
    pub fn len(&self) -> usize
        ensures { result ≡ length self.now }
    {
        self.bytes.len()
    }

    /// The bytes themselves.
    pub fn as_slice(&self) -> &[u8]
        ensures { result.now ≡ self.now }
    {
        self.bytes.as_slice()
    }
}
