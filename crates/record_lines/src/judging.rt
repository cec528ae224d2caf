//! What two files of a journal are judged as.
ghost use Rattle.std.specs.Prelude.{◌≡◌, ◌<◌, ℕ, List, Ok, Err, IfOk, IsOk, MatchOption, length, take};
ghost use Rattle.gate_journal.specs.Format.{end_of, joined};
ghost use Rattle.record_ledger.specs.Rules.{records_of};
ghost use Rattle.record_lines.specs.Judging.{AreRead, IsJudged, ReadsOne};

use gate_journal::{FileNo, FileText, newer};
use owned_values::NoMemory;
use record_ledger::Standing;
use std::alloc::Global;

/// What two files of a journal are judged as.
#[derive(Debug, Drop)]
pub enum Judged<'a> {
    /// They hold no journal yet.
    Nothing,
    /// The journal of this file, each of whose payloads is a record of the ledger.
    Records(FileText<'a>),
    /// They are no ledger: this file is wrong at this place, in bytes.
    Foreign { file: FileNo, place: u64 },
}

/// Reads one payload more into the rows: whether it is a record behind the others.
fn read_one<S: Standing>(
    alloc: Global,
    payload: &[u8],
    version: u8,
    standing: &mut S,
) -> Result<bool, NoMemory>
    requires { (payloads : List (List ℕ)) × AreRead S.rules S.row_rules.stands version payloads standing.old × (length payloads < 4294967295) }
    ensures { IfOk result (λ is. (payloads : List (List ℕ)) →
        AreRead S.rules S.row_rules.stands version payloads standing.old →
        ReadsOne S.rules S.row_rules.stands version payloads payload.now is standing.new) }
{
    let Some(entry) = S::read(alloc, payload, version)? else {
        return Ok(false);
    };
    if !standing.is_next(&entry) {
        return Ok(false);
    }
    standing.reserve(&entry)?;
    standing.put(entry);
    Ok(true)
}

/// The place of the length of the first payload that is no record of the ledger; none where each is one. The rows of the
/// records are kept while it reads.
fn first_foreign<S: Standing>(alloc: Global, file: &FileText<'_>) -> Result<Option<u64>, NoMemory>
    ensures { IfOk result (λ found. MatchOption found
        (IsOk (records_of S.rules file.now.version file.now.payloads))
        (λ place. (n : ℕ) × (records_of S.rules file.now.version file.now.payloads ≡ Err n) × (place ≡ end_of (take n file.now.payloads)))) }
{
    let version = file.version();
    let mut payloads = file.payloads();
    let mut standing = S::new(alloc);
    let mut place = payloads.place();
    while let Some(payload) = payloads.next_payload() {
        if !read_one(alloc, payload, version, &mut standing)? {
            return Ok(Some(place));
        }
        place = payloads.place();
    }
    Ok(None)
}

/// What two files are judged as that are no fault by themselves, as the files of a ledger of this role: the journal of the
/// newer one where each of its payloads is a record, and else the place of the length of the first that is none.
pub fn judge<'a, S: Standing>(
    alloc: Global,
    zero: Option<FileText<'a>>,
    one: Option<FileText<'a>>,
) -> Result<Judged<'a>, NoMemory>
    ensures { IfOk result (IsJudged S.rules (joined (Ok zero.entry) (Ok one.entry))) }
{
    match newer(zero, one) {
        Ok(None) => Ok(Judged::Nothing),
        Ok(Some((file, text))) => match first_foreign::<S>(alloc, &text)? {
            Some(place) => Ok(Judged::Foreign { file, place }),
            None => Ok(Judged::Records(text)),
        },
        Err(place) => Ok(Judged::Foreign {
            file: FileNo::One,
            place,
        }),
    }
}
