//! What answers requests.
ghost use Rattle.std.specs.Prelude.{◌≤◌, Option, OnOk, OnErr};
ghost use Rattle.crash_disk.specs.Disk.{DiskState};
ghost use Rattle.crash_disk.specs.Moments.{LeavesOnly};
ghost use Rattle.http_wire.specs.Views.{request_view};
ghost use Rattle.gate_journal.specs.Opening.{CausesFaults};
ghost use Rattle.serve_loop.specs.Worlds.{CountsAnswer, HasBytes, NodeRules};

use crash_disk::Disk;
use gate_journal::OpenFault;
use http_wire::{Answer, HttpRequest};
use saml_time::LAST;

/// What answers requests, one after the other, and keeps what it has to keep on a disk.
pub trait Node {
    /// What is said of its calls: when a disk is its own, what an answer, a restart and a compaction do, and what a crash
    /// inside one may leave.
    ghost rules: { NodeRules Self };

    /// Whatever a crash may leave on the disk, as far as it tells, a node can be opened from.
    ghost may_open: { Option DiskState → Type 0 };

    /// Answers a request at a moment.
    fn answer<D: Disk>(&mut self, request: &HttpRequest<'_>, now: u64, disk: &mut D) -> Answer
        requires moment { now ≤ LAST }
        requires own { rules.own self.old (D.shows disk.old).told }
        ensures step { rules.step self.old (D.shows disk.old).told (request_view request.now) now
            (D.shows disk.old).faults (D.shows disk.new).faults result self.new (D.shows disk.new).told }
        ensures has_bytes { HasBytes result }
        ensures own { rules.own self.new (D.shows disk.new).told }
        ensures moments { LeavesOnly D.shows disk.old disk.new
            (rules.leaves self.old (D.shows disk.old).told (request_view request.now) now) }
        ensures faults { CountsAnswer result (D.shows disk.old).faults (D.shows disk.new).faults };

    /// Opens what is kept on the disk again, whatever a crash left there. Where that fails the node goes on owning the
    /// disk if nothing else may be left there than what it can be opened from.
    fn restart<D: Disk>(&mut self, disk: &mut D) -> Result<(), OpenFault>
        ensures reopens { rules.reopens self.old (D.shows disk.old).told
            (D.shows disk.old).faults (D.shows disk.new).faults result self.new (D.shows disk.new).told }
        ensures own { OnOk result (rules.own self.new (D.shows disk.new).told) }
        ensures own_err { OnErr result (may_open (D.shows disk.old).told → rules.own self.new (D.shows disk.new).told) }
        ensures moments { LeavesOnly D.shows disk.old disk.new (rules.reopening_leaves self.old (D.shows disk.old).told) }
        ensures faults { CausesFaults result (D.shows disk.old).faults (D.shows disk.new).faults };

    /// Lets go what is kept on the disk and no longer needed at a moment.
    fn compact<D: Disk>(&mut self, disk: &mut D, now: u64) -> Result<(), OpenFault>
        requires moment { now ≤ LAST }
        requires own { rules.own self.old (D.shows disk.old).told }
        ensures compacts { rules.compacts self.old (D.shows disk.old).told now
            (D.shows disk.old).faults (D.shows disk.new).faults result self.new (D.shows disk.new).told }
        ensures own { rules.own self.new (D.shows disk.new).told }
        ensures moments { LeavesOnly D.shows disk.old disk.new
            (rules.compaction_leaves self.old (D.shows disk.old).told now) }
        ensures faults { CausesFaults result (D.shows disk.old).faults (D.shows disk.new).faults };

    /// Whatever a crash may leave on a disk that is a node's own, a node can be opened from.
    ghost own_may_open: { (node : Self) (disk : Option DiskState) → rules.own node disk → may_open disk };
}
