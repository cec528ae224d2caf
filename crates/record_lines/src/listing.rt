//! How the records of a journal are printed, line by line.
ghost use Rattle.std.specs.Prelude.{◌≡◌, List, Ok, IfOk, OnOk, OnErr};
ghost use Rattle.canon_octets.specs.Places.{AppendsPart};
ghost use Rattle.record_ledger.specs.Rules.{records_of};
ghost use Rattle.record_lines.specs.Judging.{lines};
ghost use Rattle.record_lines.specs.Reading.{line_read, lines_read};

use crate::lists::Lines;
use canon_octets::Octets;
use gate_journal::{FilePayloads, FileText};
use owned_values::{Blob, NoMemory};
use std::alloc::Global;

/// The line of the record that a payload is; nothing where it is none.
fn line_of<S: Lines>(alloc: Global, payload: &[u8], version: u8) -> Result<Blob, NoMemory>
    ensures { IfOk result (λ text. text ≡ line_read S.rules S.line version payload.now) }
{
    match S::read(alloc, payload, version)? {
        Some(entry) => S::line_of(&entry, alloc),
        None => Ok(Blob::new(alloc)),
    }
}

/// Puts the line of each record that payloads are.
fn put_payloads<S: Lines, P: Octets>(
    alloc: Global,
    mut payloads: FilePayloads<'_>,
    version: u8,
    place: &mut P,
) -> Result<(), NoMemory>
    ensures ok { OnOk result (P.appends place.old place.new (lines_read S.rules S.line version payloads.entry.payloads)) }
    ensures err { OnErr result (AppendsPart P.appends place.old place.new (lines_read S.rules S.line version payloads.entry.payloads)) }
{
    while let Some(payload) = payloads.next_payload() {
        let line = line_of::<S>(alloc, payload, version)?;
        place.put(line.as_slice())?;
    }
    Ok(())
}

/// Puts the line of each record of a journal that was judged, in their order.
///
/// # Errors
///
/// `NoMemory`, where memory runs out or the place refuses a piece: a part of the lines from the first byte on may have been
/// put.
pub fn put_lines<S: Lines, P: Octets>(
    alloc: Global,
    file: &FileText<'_>,
    place: &mut P,
) -> Result<(), NoMemory>
    ensures ok { (records : List S.Record) → records_of S.rules file.now.version file.now.payloads ≡ Ok records →
        OnOk result (P.appends place.old place.new (lines S.line records)) }
    ensures err { (records : List S.Record) → records_of S.rules file.now.version file.now.payloads ≡ Ok records →
        OnErr result (AppendsPart P.appends place.old place.new (lines S.line records)) }
{
    put_payloads::<S, P>(alloc, file.payloads(), file.version(), place)
}
