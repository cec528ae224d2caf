//! Laws of the faults of a replay, each the contract of a function that does nothing.
ghost use Rattle.schedule_replay.specs.Faults.{DisksRunOn, StopsAreSet, RestartsAreAskedOrSet, FailuresAreSet, FaultsAreSetOrOfStops};
ghost use Rattle.schedule_replay.specs.Faults.{EachFaultIsAnswered, EachFaultOfARunIsAnswered};

use serve_loop::Node;

/// In a whole replay disks fail and stop only where its steps set that. Whatever stopped was started again; each stop was
/// set; each restart was asked for or is of a stop; and a call failed only where that was set, or in a step in which its
/// disk stopped. Each sum counts what was to come at first and what is still to come.
pub fn disks_fail_and_stop_where_a_schedule_says<S: Node, P: Node>()
    ensures runs { DisksRunOn S.rules P.rules }
    ensures stops { StopsAreSet S.rules P.rules }
    ensures restarts { RestartsAreAskedOrSet S.rules P.rules }
    ensures fails { FailuresAreSet S.rules P.rules }
    ensures faults { FaultsAreSetOrOfStops S.rules P.rules }
{
    crash_disk::laws::a_disk_in_memory_fails_where_that_was_set();
}

/// A failure has an effect. In a step in which no answer of a node is the page of 50, and no restart and no compaction
/// of it ends with `DiskFault`, no call of its disk fails: the disk's count of faults is as it was. So it is in a whole
/// run of such steps. Answers that were not sent and ends that were not printed, since the disk stopped, are among these.
pub fn each_fault_is_answered<S: Node, P: Node>()
    ensures step { EachFaultIsAnswered S.rules P.rules }
    ensures run { EachFaultOfARunIsAnswered S.rules P.rules }
{}
