//! The call that serves.
ghost use Rattle.std.specs.Prelude.{◌≡◌, ◌≤◌, List, Err};
ghost use Rattle.crash_disk.specs.Moments.{LeavesOnly};
ghost use Rattle.serve_loop.specs.Worlds.{IsAnswered, world_at};
ghost use Rattle.serve_loop.specs.Turns.{Turn};
ghost use Rattle.serve_loop.specs.Serving.{Serves, MightLeave, CountsLinkFaults};

use crate::turns::Serving;
use crate::{Node, PIECE_ROOM, ServeFault, Served};
use conn_table::Conns;
use crash_disk::Disk;
use event_link::{Clock, Link};
use std::alloc::Global;

/// Takes events of the link until Stop, or until as many were taken as the budget has, and lets the node answer the
/// requests that they bring. It takes memory for the table and for one piece before it begins, and where there is none
/// all is as it was.
pub fn serve<N: Node, L: Link, D: Disk, C: Clock>(
    alloc: Global,
    node: &mut N,
    link: &mut L,
    disk: &mut D,
    clock: &mut C,
    budget: u64,
) -> Result<Served, ServeFault>
    requires { N.rules.own node.old (D.shows disk.old).told }
    // These turns were done; since each point between them a crash leaves what it may leave of the disk there or inside
    // the answer to a later request, and so at any moment of the call what it may leave at the start or inside an
    // answer.
    ensures serves { (turns : List (Turn _)) × Serves (IsAnswered N.rules) N.rules.leaves
        (D.shows disk.new).left_since budget turns (world_at node.old (D.shows disk.old) (L.shows link.old)
        (C.to_come clock.old)) result (world_at node.new (D.shows disk.new) (L.shows link.new) (C.to_come clock.new))
        × LeavesOnly D.shows disk.old disk.new (MightLeave N.rules.leaves (D.shows disk.old).told turns) }
    ensures own { N.rules.own node.new (D.shows disk.new).told }
    ensures faults { (D.shows disk.old).faults ≤ (D.shows disk.new).faults }
    ensures link_faults { CountsLinkFaults result (L.shows link.old).faults (L.shows link.new).faults }
    ensures unchanged { result ≡ Err ServeFault.NoMemory
        → (node.new ≡ node.old) × (link.new ≡ link.old) × (disk.new ≡ disk.old) × (clock.new ≡ clock.old) }
{
    let mut conns = Conns::new(alloc)?;
    let mut into = vec![in alloc; 0; PIECE_ROOM]?;
    let mut serving = Serving {
        conns: &mut conns,
        node,
        link,
        disk,
        clock,
    };
    serving.run(&mut into, budget)
}
