// Tests of what no clause says: a form that was made by others, and that each call succeeds where there is memory.

ghost use Rattle.std.specs.Prelude.{◌≡◌, ◌≤◌, Some, codes, IfOk};

use logout_profile::{
    Judged, Logout, judge_logout, judge_logout_with, logout_request, logout_response,
};
use metadata::Peer;
use owned_values::{Blob, NoMemory, Text, Texts};
use peer_keys::LogoutPeer;
use saml_time::LAST;
use std::alloc::Global;
use std::test::Fail;
use verdict_codes::Verdict;

/// A form with a signed LogoutRequest of the identity provider for alice, which expires at 00:05:00.
const FORM: &[u8] =
    b"SAMLRequest=PHNhbWxwOkxvZ291dFJlcXVlc3QgeG1sbnM6c2FtbHA9InVybjpvYXNpczpuYW1lczp0YzpTQU1MOjIuMDpwcm90b2NvbCIgRGVzdGluYXRpb249Imh0dHA6Ly8xMjcuMC4wLjE6ODA4MS9zbG8iIElEPSJfbDEiIElzc3VlSW5zdGFudD0iMjAyNC0wMS0wMVQwMDowMDowMC4wMDBaIiBOb3RPbk9yQWZ0ZXI9IjIwMjQtMDEtMDFUMDA6MDU6MDAuMDAwWiIgVmVyc2lvbj0iMi4wIj48c2FtbDpJc3N1ZXIgeG1sbnM6c2FtbD0idXJuOm9hc2lzOm5hbWVzOnRjOlNBTUw6Mi4wOmFzc2VydGlvbiI%2BdXJuOmV4YW1wbGU6aWRwPC9zYW1sOklzc3Vlcj48ZHM6U2lnbmF0dXJlIHhtbG5zOmRzPSJodHRwOi8vd3d3LnczLm9yZy8yMDAwLzA5L3htbGRzaWcjIj48ZHM6U2lnbmVkSW5mbz48ZHM6Q2Fub25pY2FsaXphdGlvbk1ldGhvZCBBbGdvcml0aG09Imh0dHA6Ly93d3cudzMub3JnLzIwMDEvMTAveG1sLWV4Yy1jMTRuIyI%2BPC9kczpDYW5vbmljYWxpemF0aW9uTWV0aG9kPjxkczpTaWduYXR1cmVNZXRob2QgQWxnb3JpdGhtPSJodHRwOi8vd3d3LnczLm9yZy8yMDAxLzA0L3htbGRzaWctbW9yZSNobWFjLXNoYTI1NiI%2BPC9kczpTaWduYXR1cmVNZXRob2Q%2BPGRzOlJlZmVyZW5jZSBVUkk9IiNfbDEiPjxkczpUcmFuc2Zvcm1zPjxkczpUcmFuc2Zvcm0gQWxnb3JpdGhtPSJodHRwOi8vd3d3LnczLm9yZy8yMDAwLzA5L3htbGRzaWcjZW52ZWxvcGVkLXNpZ25hdHVyZSI%2BPC9kczpUcmFuc2Zvcm0%2BPGRzOlRyYW5zZm9ybSBBbGdvcml0aG09Imh0dHA6Ly93d3cudzMub3JnLzIwMDEvMTAveG1sLWV4Yy1jMTRuIyI%2BPC9kczpUcmFuc2Zvcm0%2BPC9kczpUcmFuc2Zvcm1zPjxkczpEaWdlc3RNZXRob2QgQWxnb3JpdGhtPSJodHRwOi8vd3d3LnczLm9yZy8yMDAxLzA0L3htbGVuYyNzaGEyNTYiPjwvZHM6RGlnZXN0TWV0aG9kPjxkczpEaWdlc3RWYWx1ZT5yeTJubS9hVVd1dDJRUWpmUFZYUkZPUVFjMGdYUmkwenBTL00wdmZyaElNPTwvZHM6RGlnZXN0VmFsdWU%2BPC9kczpSZWZlcmVuY2U%2BPC9kczpTaWduZWRJbmZvPjxkczpTaWduYXR1cmVWYWx1ZT5iVmxETmR1V0ltQm1JZ3l2SFBtQVZIcU8rdWRGc2FnYllSYVUvd0czbnVnPTwvZHM6U2lnbmF0dXJlVmFsdWU%2BPC9kczpTaWduYXR1cmU%2BPHNhbWw6TmFtZUlEIHhtbG5zOnNhbWw9InVybjpvYXNpczpuYW1lczp0YzpTQU1MOjIuMDphc3NlcnRpb24iPmFsaWNlPC9zYW1sOk5hbWVJRD48L3NhbWxwOkxvZ291dFJlcXVlc3Q%2B&RelayState=rl%261";

/// The moment at which it was issued, and the first at which it has expired by a clock that is a minute slow.
const IN_TIME: u64 = 1_704_067_200_000;

const LATE: u64 = 1_704_067_560_000;

fn peer(alloc: Global, key_in: &[u8]) -> Result<LogoutPeer, NoMemory>
    ensures { IfOk result (λ peer. peer.peer.logout ≡ Some (codes "r")) }
{
    Ok(LogoutPeer {
        peer: Peer {
            entity: Text::of(alloc, "urn:example:idp")?,
            service: Text::of(alloc, "http://127.0.0.1:8080/sso")?,
            logout: Some(Text::of(alloc, "r")?),
        },
        key_in: Blob::of(alloc, key_in)?,
        key_out: Blob::of(alloc, &[0x22; 32])?,
    })
}

/// What is said to the form at a moment, under one key.
fn judged(alloc: Global, address: &str, now: u64) -> Result<Logout, Judged>
    requires { now ≤ LAST }
{
    let peers = [peer(alloc, &[0x11; 32])?];
    judge_logout(alloc, &peers, address, 60_000, now, FORM)
}

/// What is said to the form where its key counts as the second one.
fn judged_with(alloc: Global) -> Result<Logout, Judged> {
    let peers = [peer(alloc, &[0x55; 32])?];
    let second: [u8; 32] = [0x11; 32];
    judge_logout_with(
        alloc,
        &peers,
        Some(&second),
        "http://127.0.0.1:8081/slo",
        60_000,
        IN_TIME,
        FORM,
    )
}

/// Whether it asks, with the relay that was sent, for a logout of alice.
fn asks_for_alice(judged: &Result<Logout, Judged>) -> bool {
    match judged {
        Ok(
            Logout::Ask {
                request,
                peer,
                relay: Some(relay),
            },
        ) => *peer == 0 && request.name.as_str() == "alice" && relay.as_str() == "rl&1",
        _ => false,
    }
}

#[test]
fn a_signed_request_is_obeyed_in_time(rt: HostRuntime) {
    let alloc = rt.alloc();
    let here = "http://127.0.0.1:8081/slo";
    assert!(rt; asks_for_alice(&judged(alloc, here, IN_TIME)));
    assert!(rt; asks_for_alice(&judged_with(alloc)));
    let late = judged(alloc, here, LATE);
    assert!(rt; matches!(late, Err(Judged::Code(Verdict::LogoutNotInTime))));
    let elsewhere = judged(alloc, "http://127.0.0.1:8081/acs", IN_TIME);
    assert!(rt; matches!(elsewhere, Err(Judged::Code(Verdict::LogoutDestination))));
}

#[test]
fn there_is_memory_for_each_message(rt: HostRuntime) -> Result<(), Fail> {
    let alloc = rt.alloc();
    let peer = peer(alloc, b"k")?;
    let indexes = Texts::new(alloc);
    logout_request(alloc, &peer, "r", "r", 0, "r", &indexes)?;
    logout_response(alloc, &peer, "r", "r", 0, "r", true)?;
    Ok(())
}
