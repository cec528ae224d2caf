//! What a file of a journal holds, with copies of its payloads.
ghost use Rattle.std.specs.Prelude.{◌≡◌, IfOk};

use crate::{FileText, Header, Record};
use owned_values::NoMemory;
use std::alloc::Global;
use std::marker::Model;

/// What a committed file holds, with records of its own.
#[derive(Debug, Drop)]
pub(crate) struct Stored {
    /// The version of the format, 1 or 2.
    pub(crate) version: u8,
    /// The fields of its header.
    pub(crate) header: Header,
    /// The records behind the header, in the order of the file.
    pub(crate) records: Vec<Record>,
    /// The place behind the last record, in bytes from the start of the file.
    pub(crate) end: u64,
}

impl Model for Stored {
    ghost use Rattle.std.specs.Prelude.{◌≡◌, ◌-◌, ◌^◌, ◌<◌, ◌≤◌, All, length};
    ghost use Rattle.gate_journal.specs.Format.{Committed, end_of, LONGEST_FILE, LONGEST_PAYLOAD};
    ghost use Rattle.gate_journal.specs.Journal.{FitsVersion};

    ghost Value = { Committed };

    ghost view = { λ s. record { version = s.version; header = s.header; payloads = s.records.items } };

    ghost invariant = { λ s. (s.end ≡ end_of s.records.items) × (s.end ≤ LONGEST_FILE)
        × (s.version ≡ 1 → s.header.generation < 2 ^ 64 - 1)
        × All (λ payload. length payload ≤ LONGEST_PAYLOAD) s.records.items
        × (s.version ≡ 1 → FitsVersion 1 s.records.items) };
}

/// What a text holds, with copies of its payloads.
pub(crate) fn stored_of(alloc: Global, text: &FileText<'_>) -> Result<Stored, NoMemory>
    ensures { IfOk result (λ stored. stored ≡ text.now) }
{
    let mut records = Vec::new(alloc);
    let mut payloads = text.payloads();
    while let Some(payload) = payloads.next_payload() {
        records.push(Record::of(alloc, payload)?)?;
    }
    Ok(Stored {
        version: text.version,
        header: text.header,
        records,
        end: payloads.place(),
    })
}
