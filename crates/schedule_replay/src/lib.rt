//! Whole runs of a deployment: a service provider, an identity provider and their users' agents, step by step as a
//! schedule says, with disks that fail and stop where it says so.
//!
//! ```
//! let schedule = read_schedule(alloc, b"now 1704067200000\nvisit a /app\nsubmit a\n")?;
//! let tally = replay(alloc, &schedule, &mut sp, &mut idp, &mut sp_disk, &mut idp_disk, false, &mut out)?;
//! // 1 now
//! // 2 sp 200 form
//! // 3 idp 200 login
//! // opened 0 responses 0 refused 0 restarts 0
//! ```
//!
//! Any two nodes are run ([`serve_loop::Node`]), each over a disk in memory. An agent's request comes to its node on a
//! connection of its own, whole or, in a `pair`, in pieces that alternate with those of another agent; the node answers
//! it at the moment of the clock, and the agent receives what it sends, or it is lost. Where a disk stops in a request,
//! a restart or a compaction, nothing of it is known but that the node stopped, and the node starts from what the disk
//! holds.
//!
//! A contract sees a deployment (`specs/Deployments.antt`): the clock, each node with its disk and its connections
//! (`specs/Hosts.antt`), what each agent keeps, and what was counted. `Does` of `specs/Steps.antt` says what each step of
//! the grammar does and prints, in the words of the nodes' own contracts and of serve_loop's turns; `Replays` is the run
//! of the first so many steps, and `Ends` of `specs/Runs.antt` says how [`replay`] ended and what it printed;
//! `specs/Asked.antt` lists the requests that the nodes were asked in a run, `specs/Ended.antt` how their restarts and
//! compactions ended, and `specs/Faults.antt` sums the failures and stops that its steps set ([`laws`]). Nothing is
//! assumed of the nodes but their contract.
//!
//! [`replay`] answers [`ReplayFault::WriteFault`] only where the sink's count of faults rose. [`ReplayFault::NoMemory`]
//! may come in place of any answer; it comes where a disk found no memory, before the lines of that step are printed.
//!
//! # What is proved
//!
//! `replay`: a schedule over any two nodes (`serve_loop::Node`), each over a disk in memory. `Does` of
//! `specs/Steps.antt` says what each step of the grammar does and prints, in the words of the nodes' own contracts: an
//! agent's request comes to its node whole or in pieces that alternate with another's, at the moment of the clock; the
//! node serves it as serve_loop says, with memory for each piece; the agent receives what comes back, or it is lost.
//! Where a disk stops, in a request, a restart or a compaction, nothing of it is known but that the node stopped, and
//! it is started again from what the disk holds. `Ends` says how the run ended and what was printed: all steps, or some
//! of them, in order; and, but where memory ran out, what it leaves of both nodes and their disks (`AreLeft`).
//! WriteFault comes only where the sink's count rose. `laws::disks_fail_and_stop_where_a_schedule_says`, over all steps
//! of a run with disks that run at first: a disk that stopped was started again; the stops that it took and the one to
//! come are at most those at first and those that steps set; the restarts that are counted are at most those that steps
//! ask for and those of stops; and the calls that failed and the failure to come are at most those at first and the
//! failures that steps set, and, where stops were set or one was to come, those of the steps in which the disk stopped
//! (`specs/Faults.antt`). `laws::each_fault_is_answered`: a call of a disk fails only in a step in which an answer of
//! its node is the page of 50, or a restart or a compaction of it ends with DiskFault; where none does in all steps,
//! the disk's count of faults is as it was at first.
#![tactic(auto)]

mod agents;
mod fault;
mod host;
pub mod laws;
mod running;
mod sending;
mod stage;
mod steps;
mod tally;
mod words;

pub use fault::ReplayFault;
pub use running::replay;
pub use sending::Sending;
pub use tally::Tally;
