//! Files of a journal that are read where they lie. No disk is asked and nothing is made; no memory is taken, and each
//! payload is a slice of its file.
ghost use Rattle.std.specs.Prelude.{◌≡◌, ◌+◌, ◌-◌, ◌^◌, ◌<◌, ◌≤◌, ◌∷◌, [], true, false, length, slice_index, is_ok, Ok, Err, IfSome, MatchOption, MatchResult};
ghost use Rattle.std.specs.Option.{option_map};
ghost use Rattle.gate_journal.specs.Format.{committed_of, file_of, is_whole, joined, longest_file, longest_payload, number_at, payloads_of, size_of, with_payloads, LONGEST_FILE, LONGEST_PAYLOAD};

use crate::format::{
    COMMITTED, GATE, GENERATION, HEAD, HEAD_LENGTH, LETTERS, LONGEST_FILE, LONGEST_FILE_ONE,
    LONGEST_PAYLOAD, LONGEST_PAYLOAD_ONE, OPEN, VERSION,
};
use crate::{FileNo, Header};
use std::marker::Model;

/// The number of eight bytes from a place on.
fn number_of(file: &[u8], at: usize) -> u64
    requires { at + 8 ≤ length file.now }
    ensures { result ≡ number_at file.now at }
{
    u64::from_be_bytes([
        file[at],
        file[at + 1],
        file[at + 2],
        file[at + 3],
        file[at + 4],
        file[at + 5],
        file[at + 6],
        file[at + 7],
    ])
}

/// How long the payload of the first of these bodies is, where that body is whole.
fn whole_body(bodies: &[u8], longest: usize) -> Option<usize>
    ensures { MatchOption result (is_whole longest bodies.now ≡ false) (λ n. (n ≡ size_of bodies.now) × (is_whole longest bodies.now ≡ true)) }
{
    if bodies.len() < 5 {
        return None;
    }
    let size = u32::from_be_bytes([bodies[0], bodies[1], bodies[2], bodies[3]]) as usize;
    if size > longest || size > bodies.len() - 5 {
        return None;
    }
    Some(size)
}

/// The payloads of a file that are still to come, one after the other.
#[derive(Debug, Drop)]
pub struct FilePayloads<'a> {
    bodies: &'a [u8],
    gate: u8,
    place: u64,
    longest: usize,
}

impl<'a> Model for FilePayloads<'a> {
    ghost use Rattle.std.specs.Prelude.{◌≡◌, ◌+◌, ◌≤◌, true, length, is_ok};
    ghost use Rattle.gate_journal.specs.Format.{payloads_from, LONGEST_FILE, LONGEST_PAYLOAD};
    ghost use Rattle.gate_journal.specs.Texts.{Coming, coming};

    ghost Value = { Coming };

    ghost view = { λ p. coming p.longest p.place p.gate p.bodies.now };

    ghost invariant = { λ p. (is_ok (payloads_from p.longest p.place p.gate p.bodies.now) ≡ true)
        × (p.place + length p.bodies.now ≤ LONGEST_FILE) × (p.longest ≤ LONGEST_PAYLOAD) };
}

impl<'a> FilePayloads<'a> {
    /// The place in the file of the length of the next payload, in bytes; behind the last one the place of the end.
    pub fn place(&self) -> u64
        ensures place { result ≡ self.now.place }
        ensures within { result ≤ LONGEST_FILE }
    {
        self.place
    }

    /// The next payload; none where no more is to come.
    pub fn next_payload(&mut self) -> Option<&'a [u8]>
        ensures payload { MatchOption result ((self.old.payloads ≡ []) × (self.new ≡ self.old)) (λ p. self.old.payloads ≡ p.now ∷ self.new.payloads) }
        ensures place { MatchOption result (self.new.place ≡ self.old.place) (λ p. self.new.place ≡ self.old.place + (length p.now + 5)) }
        ensures within { self.new.place ≤ LONGEST_FILE }
        ensures short { IfSome result (λ p. length p.now ≤ LONGEST_PAYLOAD) }
    {
        if self.gate != OPEN {
            return None;
        }
        let size = whole_body(self.bodies, self.longest)?;
        let payload = &self.bodies[4..4 + size];
        self.gate = self.bodies[4 + size];
        self.bodies = &self.bodies[size + 5..];
        self.place += size as u64 + 5;
        Some(payload)
    }
}

/// What a committed file holds, read where it lies.
#[derive(Debug, Drop)]
pub struct FileText<'a> {
    pub(crate) version: u8,
    pub(crate) header: Header,
    payloads: FilePayloads<'a>,
}

impl<'a> Model for FileText<'a> {
    ghost use Rattle.std.specs.Prelude.{◌≡◌, ◌-◌, ◌^◌, ◌<◌};
    ghost use Rattle.gate_journal.specs.Format.{Committed};
    ghost use Rattle.gate_journal.specs.Journal.{FitsVersion};
    ghost use Rattle.gate_journal.specs.Texts.{committed};

    ghost Value = { Committed };

    ghost view = { λ t. committed t.version t.header t.payloads };

    ghost invariant = { λ t. (t.payloads.place ≡ 72)
        × (t.version ≡ 1 → t.header.generation < 2 ^ 64 - 1)
        × (t.version ≡ 1 → FitsVersion 1 t.payloads.payloads) };
}

impl<'a> FileText<'a> {
    /// The version of the journal, 1 or 2.
    pub fn version(&self) -> u8
        ensures { result ≡ self.now.version }
    {
        self.version
    }

    /// Its payloads, from the first on.
    pub fn payloads(&self) -> FilePayloads<'a>
        ensures { result ≡ record { place = 72; payloads = self.now.payloads } }
    {
        FilePayloads {
            bodies: self.payloads.bodies,
            gate: self.payloads.gate,
            place: self.payloads.place,
            longest: self.payloads.longest,
        }
    }
}

/// Walks over the records of a file, up to the first that is there and is not whole: then its place.
fn walk(file: &[u8], longest: usize) -> Result<(), u64>
    requires long { 72 ≤ length file.now }
    requires longest { longest ≤ LONGEST_PAYLOAD }
    ensures { MatchResult result (λ _. is_ok (payloads_of longest file.now) ≡ true) (λ place. payloads_of longest file.now ≡ Err place) }
{
    let mut at = HEAD;
    let mut gate = file[GATE];
    while gate == OPEN {
        let Some(size) = whole_body(&file[at..], longest) else {
            return Err(at as u64);
        };
        let end = at + 4 + size;
        gate = file[end];
        at = end + 1;
    }
    Ok(())
}

/// What a committed file holds whose payloads have at most this length, by its records.
fn read_records(file: &[u8], longest: usize) -> Result<Option<FileText<'_>>, u64>
    requires long { 72 ≤ length file.now }
    requires short { length file.now ≤ LONGEST_FILE }
    requires longest { longest ≤ LONGEST_PAYLOAD }
    requires last { slice_index file.now 32 ≡ 1 → number_at file.now 8 < 2 ^ 64 - 1 }
    requires one { slice_index file.now 32 ≡ 1 → (longest ≤ longest_payload 1) × (length file.now ≤ longest_file 1) }
    ensures { result ≡ with_payloads file.now (payloads_of longest file.now) }
{
    walk(file, longest)?;
    let header = Header {
        generation: number_of(file, GENERATION),
        horizon: number_of(file, 16),
        next: number_of(file, 24),
    };
    let payloads = FilePayloads {
        bodies: &file[HEAD..],
        gate: file[GATE],
        place: HEAD_LENGTH,
        longest,
    };
    Ok(Some(FileText {
        version: file[VERSION],
        header,
        payloads,
    }))
}

/// What a committed file holds.
#[tactic(auto, unfolding(crate::specs::Format::committed_of))]
fn read_committed(file: &[u8]) -> Result<Option<FileText<'_>>, u64>
    requires long { 72 ≤ length file.now }
    requires short { length file.now ≤ LONGEST_FILE }
    ensures { result ≡ committed_of file.now }
{
    match file[VERSION] {
        1 if file.len() > LONGEST_FILE_ONE => Err(LONGEST_FILE_ONE as u64),
        1 if number_of(file, GENERATION) == u64::MAX => Err(GENERATION as u64),
        1 => read_records(file, LONGEST_PAYLOAD_ONE),
        2 => read_records(file, LONGEST_PAYLOAD),
        _ => Err(VERSION as u64),
    }
}

/// What a file of a journal holds, read where it lies: nothing where it is shorter than its header or not committed, and
/// else the place of its fault, in bytes. It takes no memory.
#[tactic(auto, unfolding(crate::specs::Format::file_of))]
pub fn read_text(file: &[u8]) -> Result<Option<FileText<'_>>, u64>
    ensures { result ≡ file_of file.now }
{
    if file.len() < HEAD {
        return Ok(None);
    }
    if &file[1..8] != LETTERS.as_slice() {
        return Err(1);
    }
    if file.len() > LONGEST_FILE {
        return Err(LONGEST_FILE as u64);
    }
    if file[0] != COMMITTED {
        return Ok(None);
    }
    read_committed(file)
}

/// What two files stand for that are no fault by themselves: what the one with the greater generation holds, and which
/// that is; nothing where neither is committed. Two of one generation are a fault of file 1, at this place.
pub fn newer<'a>(
    zero: Option<FileText<'a>>,
    one: Option<FileText<'a>>,
) -> Result<Option<(FileNo, FileText<'a>)>, u64>
    ensures { MatchResult result
        (λ found. joined (Ok zero.entry) (Ok one.entry) ≡ Ok (option_map (λ pair. record { file = pair.0; holds = pair.1 }) found))
        (λ place. joined (Ok zero.entry) (Ok one.entry) ≡ Err (record { file = FileNo.One; place = place })) }
{
    let (zero, one) = match (zero, one) {
        (None, None) => return Ok(None),
        (Some(zero), None) => return Ok(Some((FileNo::Zero, zero))),
        (None, Some(one)) => return Ok(Some((FileNo::One, one))),
        (Some(zero), Some(one)) => (zero, one),
    };
    if zero.header.generation == one.header.generation {
        return Err(GENERATION as u64);
    }
    if zero.header.generation > one.header.generation {
        Ok(Some((FileNo::Zero, zero)))
    } else {
        Ok(Some((FileNo::One, one)))
    }
}
