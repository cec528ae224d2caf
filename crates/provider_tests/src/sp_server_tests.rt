//! What no clause says: that there is memory for a call, over a disk in memory.
ghost use Rattle.std.specs.Prelude.{IfOk, Some};
ghost use Rattle.crash_disk.specs.Memory.{state_of};
ghost use Rattle.sp_server.specs.Config.{IsUsable};
ghost use Rattle.request_ledger.specs.Record.{request_rules};
ghost use Rattle.provider_node.specs.Step.{OwnsDisk};

use crash_disk::MemDisk;
use http_wire::{Answer, Found, request_of};
use metadata::Peer;
use owned_values::{Blob, NoMemory, Text};
use serve_loop::Node;
use sp_rules::SpConfig;
use sp_server::{SpNode, SpRole};
use std::alloc::Global;
use std::test::Fail;

fn config(alloc: Global) -> Result<SpConfig, NoMemory>
    ensures { IfOk result IsUsable }
{
    Ok(SpConfig {
        entity: Text::of(alloc, "r")?,
        base: Text::of(alloc, "r")?,
        listen: Text::of(alloc, "l")?,
        idp: Peer {
            entity: Text::of(alloc, "r")?,
            service: Text::of(alloc, "r")?,
            logout: None,
        },
        key_in: Blob::of(alloc, &[0x11; 32])?,
        next_in: None,
        key_out: Blob::of(alloc, &[0x22; 32])?,
        id_key: [0x44; 32],
        skew: 60_000,
    })
}

/// The code of the answer to a request, which comes whole; 0 where it has a page.
fn code_answered(node: &mut SpNode, disk: &mut MemDisk, bytes: &[u8]) -> u16
    requires { OwnsDisk request_rules node.old (Some (state_of disk.old)) }
    ensures { OwnsDisk request_rules node.new (Some (state_of disk.new)) }
{
    let Found::Whole(request) = request_of(bytes) else {
        return 400;
    };
    match node.answer(&request, 0, disk) {
        Answer::Fixed(code) => code,
        Answer::Full(_) => 0,
    }
}

/// A user who leaves without a session.
const LEAVE: &[u8] =
    b"POST /logout HTTP/1.1\r\nContent-Type: application/x-www-form-urlencoded\r\nContent-Length: 0\r\n\r\n";

/// A posted document that is no message of a logout: `<a/>`.
const POSTED: &[u8] =
    b"POST /slo HTTP/1.1\r\nContent-Type: application/x-www-form-urlencoded\r\nContent-Length: 24\r\n\r\nSAMLRequest=PGEvPg%3D%3D";

/// Whether each call of a provider has what it needs.
fn answers(node: &mut SpNode, disk: &mut MemDisk) -> bool
    requires { OwnsDisk request_rules node.old (Some (state_of disk.old)) }
{
    let asked = code_answered(node, disk, b"GET /app HTTP/1.1\r\n\r\n");
    let shown = code_answered(node, disk, b"GET /metadata HTTP/1.1\r\n\r\n");
    let guarded = code_answered(node, disk, b"GET /auth/app HTTP/1.1\r\n\r\n");
    let left = code_answered(node, disk, LEAVE);
    let posted = code_answered(node, disk, POSTED);
    let codes = (asked, shown, guarded, left, posted);
    codes == (0, 0, 401, 33, 30) && node.compact(disk, 0).is_ok() && node.restart(disk).is_ok()
}

#[test]
fn there_is_memory_for_each_call(rt: HostRuntime) -> Result<(), Fail> {
    let alloc = rt.alloc();
    let mut disk = MemDisk::new(alloc);
    let role = SpRole::new(alloc, config(alloc)?, None, None, true);
    let mut node = SpNode::start(alloc, role, &mut disk)?;
    assert!(rt; answers(&mut node, &mut disk));
    Ok(())
}
