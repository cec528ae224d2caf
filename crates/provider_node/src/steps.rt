//! One step over a ledger that is whole: a reply, its record, and the answer.
ghost use Rattle.std.specs.Prelude.{IfErr, OnOk};
ghost use Rattle.crash_disk.specs.Counts.{Rose};
ghost use Rattle.crash_disk.specs.Moments.{LeavesOnly};
ghost use Rattle.http_wire.specs.Views.{request_view};
ghost use Rattle.http_wire.specs.declared.answer.Answer.TheVariants.{Fixed};
ghost use Rattle.gate_journal.specs.Opening.{CausesFaults};
ghost use Rattle.serve_loop.specs.Worlds.{CountsAnswer, HasBytes};
ghost use Rattle.record_ledger.specs.Ledger.{CanCommit};
ghost use Rattle.provider_node.specs.Calls.{CommittingLeaves, MakesCompaction};
ghost use Rattle.provider_node.specs.Replies.{HasNoPlace, IsAgain, IsPage, IsWanted};
ghost use Rattle.provider_node.specs.Serving.{Adds, CanServe, code_of};
ghost use Rattle.provider_node.specs.Step.{Owns, ServesOnDisk, ServingLeaves, provider, seen};

use crate::codes::{DISK_FAULT, FULL, NO_MEMORY, code_of};
use crate::drafted::DraftOutcome;
use crate::replied::Replied;
use crate::role::Role;
use crash_disk::Disk;
use fault_verdicts::Judged;
use gate_journal::OpenFault;
use http_wire::{Answer, HttpRequest};
use record_ledger::{DraftedRecord, RecordLedger};

/// Makes the page of a reply whose record was drafted, and then records it.
fn added<R: Role, D: Disk>(
    role: &R,
    ledger: &mut RecordLedger<R::Rows>,
    reply: &R::Reply,
    draft: DraftedRecord<R::Rows>,
    now: u64,
    disk: &mut D,
) -> Answer
    requires can { CanServe R.Rows.rules (R.key role.now) (seen ledger.old) (D.shows disk.old).told now }
    requires wanted { IsWanted R.replies role.now now reply.now draft }
    requires fits { CanCommit R.Rows.rules R.Rows.row_rules ledger.old draft }
    ensures adds { Adds R.Rows.rules (IsPage R.replies role.now reply.now draft now) draft
        (Rose (D.shows disk.old).faults (D.shows disk.new).faults) result
        (provider role.now (seen ledger.old)) (provider role.now (seen ledger.new))
        (D.shows disk.old).told (D.shows disk.new).told }
    ensures has_bytes { HasBytes result }
    ensures own { Owns R.Rows.rules (D.shows disk.new).told (seen ledger.new) }
    ensures moments { LeavesOnly D.shows disk.old disk.new
        (CommittingLeaves R.Rows.rules draft (seen ledger.old).held (D.shows disk.old).told) }
    ensures faults { CountsAnswer result (D.shows disk.old).faults (D.shows disk.new).faults }
{
    let Ok(bytes) = role.page(reply, &draft, now) else {
        return Answer::Fixed(NO_MEMORY);
    };
    if ledger.commit(disk, draft).is_err() {
        return Answer::Fixed(DISK_FAULT);
    }
    Answer::Full(bytes)
}

/// Makes room by a compaction, as there was no place for the record of a reply.
fn make_room<R: Role, D: Disk>(
    role: &R,
    ledger: &mut RecordLedger<R::Rows>,
    request: &HttpRequest<'_>,
    reply: &R::Reply,
    now: u64,
    disk: &mut D,
) -> Result<(), OpenFault>
    requires can { CanServe R.Rows.rules (R.key role.now) (seen ledger.old) (D.shows disk.old).told now }
    requires wants { R.replies.wants role.now (seen ledger.old).held (request_view request.now) now reply.now }
    requires full { HasNoPlace R.Rows.rules (seen ledger.old).held
        (R.replies.record_for role.now (seen ledger.old).held now reply.now) }
    ensures again { OnOk result (IsAgain R.replies R.Rows.rules R.answers role.now now
        (seen ledger.old) (seen ledger.new) (request_view request.now) reply.now) }
    ensures made { OnOk result
        (MakesCompaction R.Rows.rules now (seen ledger.old).held (D.shows disk.old).told (D.shows disk.new).told) }
    ensures serves { IfErr result (λ fault.
        ServesOnDisk R.Rows.rules R.answers (seen ledger.old).held (request_view request.now) now
        (Rose (D.shows disk.old).faults (D.shows disk.new).faults) (Fixed (code_of fault))
        (provider role.now (seen ledger.old)) (provider role.now (seen ledger.new))
        (D.shows disk.old).told (D.shows disk.new).told) }
    ensures own { Owns R.Rows.rules (D.shows disk.new).told (seen ledger.new) }
    ensures moments { LeavesOnly D.shows disk.old disk.new
        (ServingLeaves R.Rows.rules R.answers role.now (seen ledger.old).held (request_view request.now) now
        (D.shows disk.old).told) }
    ensures faults { CausesFaults result (D.shows disk.old).faults (D.shows disk.new).faults }
{
    role.laws_hold(now);
    ledger.holds_records();
    ledger.compact(disk, now)
}

/// Answers with a reply after a compaction, as there was no place for its record.
fn serve_again<R: Role, D: Disk>(
    role: &R,
    ledger: &mut RecordLedger<R::Rows>,
    request: &HttpRequest<'_>,
    reply: &R::Reply,
    now: u64,
    disk: &mut D,
) -> Answer
    requires can { CanServe R.Rows.rules (R.key role.now) (seen ledger.old) (D.shows disk.old).told now }
    requires wants { R.replies.wants role.now (seen ledger.old).held (request_view request.now) now reply.now }
    requires full { HasNoPlace R.Rows.rules (seen ledger.old).held
        (R.replies.record_for role.now (seen ledger.old).held now reply.now) }
    ensures serves { ServesOnDisk R.Rows.rules R.answers (seen ledger.old).held (request_view request.now) now
        (Rose (D.shows disk.old).faults (D.shows disk.new).faults) result
        (provider role.now (seen ledger.old)) (provider role.now (seen ledger.new))
        (D.shows disk.old).told (D.shows disk.new).told }
    ensures has_bytes { HasBytes result }
    ensures own { Owns R.Rows.rules (D.shows disk.new).told (seen ledger.new) }
    ensures moments { LeavesOnly D.shows disk.old disk.new
        (ServingLeaves R.Rows.rules R.answers role.now (seen ledger.old).held (request_view request.now) now
        (D.shows disk.old).told) }
    ensures faults { CountsAnswer result (D.shows disk.old).faults (D.shows disk.new).faults }
{
    role.laws_hold(now);
    if let Err(fault) = make_room(role, ledger, request, reply, now, disk) {
        return Answer::Fixed(code_of(fault));
    }
    match role.draft(reply, ledger, now) {
        DraftOutcome::Ready(draft) => added(role, ledger, reply, draft, now, disk),
        DraftOutcome::Nothing => unreachable!(),
        DraftOutcome::NoPlace => Answer::Fixed(FULL),
        DraftOutcome::NoMemory => Answer::Fixed(NO_MEMORY),
    }
}

/// Answers with a reply: a second time after a compaction where there was no place for its record.
fn serve<R: Role, D: Disk>(
    role: &R,
    ledger: &mut RecordLedger<R::Rows>,
    request: &HttpRequest<'_>,
    reply: &R::Reply,
    now: u64,
    disk: &mut D,
) -> Answer
    requires can { CanServe R.Rows.rules (R.key role.now) (seen ledger.old) (D.shows disk.old).told now }
    requires wants { R.replies.wants role.now (seen ledger.old).held (request_view request.now) now reply.now }
    ensures serves { ServesOnDisk R.Rows.rules R.answers (seen ledger.old).held (request_view request.now) now
        (Rose (D.shows disk.old).faults (D.shows disk.new).faults) result
        (provider role.now (seen ledger.old)) (provider role.now (seen ledger.new))
        (D.shows disk.old).told (D.shows disk.new).told }
    ensures has_bytes { HasBytes result }
    ensures own { Owns R.Rows.rules (D.shows disk.new).told (seen ledger.new) }
    ensures moments { LeavesOnly D.shows disk.old disk.new
        (ServingLeaves R.Rows.rules R.answers role.now (seen ledger.old).held (request_view request.now) now
        (D.shows disk.old).told) }
    ensures faults { CountsAnswer result (D.shows disk.old).faults (D.shows disk.new).faults }
{
    role.laws_hold(now);
    match role.draft(reply, ledger, now) {
        DraftOutcome::Ready(draft) => added(role, ledger, reply, draft, now, disk),
        DraftOutcome::Nothing => Answer::Fixed(role.refusal(reply).number()),
        DraftOutcome::NoPlace => serve_again(role, ledger, request, reply, now, disk),
        DraftOutcome::NoMemory => Answer::Fixed(NO_MEMORY),
    }
}

/// Answers a request over a ledger that is whole.
pub(crate) fn answer_whole<R: Role, D: Disk>(
    role: &R,
    ledger: &mut RecordLedger<R::Rows>,
    request: &HttpRequest<'_>,
    now: u64,
    disk: &mut D,
) -> Answer
    requires can { CanServe R.Rows.rules (R.key role.now) (seen ledger.old) (D.shows disk.old).told now }
    ensures serves { ServesOnDisk R.Rows.rules R.answers (seen ledger.old).held (request_view request.now) now
        (Rose (D.shows disk.old).faults (D.shows disk.new).faults) result
        (provider role.now (seen ledger.old)) (provider role.now (seen ledger.new))
        (D.shows disk.old).told (D.shows disk.new).told }
    ensures has_bytes { HasBytes result }
    ensures own { Owns R.Rows.rules (D.shows disk.new).told (seen ledger.new) }
    ensures moments { LeavesOnly D.shows disk.old disk.new
        (ServingLeaves R.Rows.rules R.answers role.now (seen ledger.old).held (request_view request.now) now
        (D.shows disk.old).told) }
    ensures faults { CountsAnswer result (D.shows disk.old).faults (D.shows disk.new).faults }
{
    match role.reply(ledger, request, now) {
        Ok(Replied::Plain(answer)) => answer,
        Ok(Replied::ForRecord(reply)) => serve(role, ledger, request, &reply, now, disk),
        Err(Judged::Code(verdict)) => Answer::Fixed(verdict.number()),
        Err(Judged::NoMemory) => Answer::Fixed(NO_MEMORY),
    }
}
