//! What no clause says: that there is memory for each call.
ghost use Rattle.std.specs.Prelude.{◌≡◌, Some, codes, IfOk};

use logout_answers::{end_answer, ending_answer, leaving_answer};
use metadata::Peer;
use owned_values::{Blob, NoMemory, Text, Texts};
use peer_keys::LogoutPeer;
use std::alloc::Global;
use std::test::Fail;

fn peer(alloc: Global) -> Result<LogoutPeer, NoMemory>
    ensures { IfOk result (λ peer. peer.peer.logout ≡ Some (codes "r")) }
{
    Ok(LogoutPeer {
        peer: Peer {
            entity: Text::of(alloc, "e")?,
            service: Text::of(alloc, "s")?,
            logout: Some(Text::of(alloc, "r")?),
        },
        key_in: Blob::of(alloc, b"i")?,
        key_out: Blob::of(alloc, b"o")?,
    })
}

#[test]
fn there_is_memory_for_each_answer(rt: HostRuntime) -> Result<(), Fail> {
    let alloc = rt.alloc();
    let peer = peer(alloc)?;
    leaving_answer(alloc, &peer, "r", "r", 0, "r", &Texts::new(alloc))?;
    ending_answer(alloc, &peer, "r", "r", 0, "r", true, Some("s"))?;
    end_answer(alloc, false)?;
    Ok(())
}
