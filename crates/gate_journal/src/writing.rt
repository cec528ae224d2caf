//! How a record is written.
ghost use Rattle.std.specs.Prelude.{◌≡◌, ◌+◌, ◌<◌, ◌≤◌, ◌^◌, ◌++◌, ◌∷◌, [], None, length, vec_capacity, OnOk, IfSome, IsSomeAnd, MatchOption};
ghost use Rattle.crash_disk.specs.Counts.{CountsFaults};
ghost use Rattle.crash_disk.specs.Moments.{LeavesOnly};
ghost use Rattle.crash_disk.specs.Plans.{Follows};
ghost use Rattle.std.specs.Int.{w32, to_be_bytes};
ghost use Rattle.gate_journal.specs.Calls.{writing_record};
ghost use Rattle.gate_journal.specs.Journal.{IsReadyFor, WithOrWithout, Gained};

use crate::format::{CLOSED, OPEN};
use crash_disk::{Disk, Failed, FileNo};

/// Puts the body of a payload into a buffer that has room for it: the length, the payload, and the next gate.
pub(crate) fn fill_body(body: &mut Vec<u8>, payload: &[u8], gate: u8)
    requires room { length payload.now + 5 ≤ vec_capacity body.old }
    requires small { length payload.now < 2 ^ 32 }
    ensures body { body.new.items ≡ to_be_bytes w32 (length payload.now) ++ payload.now ++ gate ∷ [] }
    ensures capacity { vec_capacity body.old ≤ vec_capacity body.new }
{
    body.clear();
    let _ = body.extend_from_slice(&(payload.len() as u32).to_be_bytes());
    let _ = body.extend_from_slice(payload);
    let _ = body.push(gate);
}

/// Writes a record: the body behind the closed gate, then, once that is synced, the open gate in a write of its own.
pub(crate) fn write_record<D: Disk>(
    disk: &mut D,
    file: FileNo,
    end: u64,
    gate: u64,
    body: &mut Vec<u8>,
    payload: &[u8],
) -> Result<(), Failed>
    requires room { length payload.now + 5 ≤ vec_capacity body.old }
    requires small { length payload.now < 2 ^ 32 }
    requires ready { IfSome (D.shows disk.old).told (IsReadyFor file end gate payload.now) }
    ensures moments { LeavesOnly D.shows disk.old disk.new (λ image. IsSomeAnd (D.shows disk.old).told (λ d. WithOrWithout payload.now d image)) }
    ensures ok { OnOk result (MatchOption (D.shows disk.old).told ((D.shows disk.new).told ≡ None) (λ d. IsSomeAnd (D.shows disk.new).told (Gained payload.now d))) }
    ensures faults { CountsFaults result (D.shows disk.old).faults (D.shows disk.new).faults }
    ensures capacity { vec_capacity body.old ≤ vec_capacity body.new }
    ensures calls { Follows D.shows (λ _. writing_record file end gate payload.now) disk.old disk.new result }
{
    fill_body(body, payload, CLOSED);
    disk.write_at(file, end, body)?;
    disk.sync(file)?;
    disk.write_at(file, gate, &[OPEN])?;
    disk.sync(file)
}
