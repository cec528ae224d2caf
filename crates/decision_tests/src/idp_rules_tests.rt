//! What no clause says: that there is memory for judging a request and for the address that it is posted to. The form is that
//! of an implementation that shares nothing with this one.

use fault_verdicts::Judged;
use idp_rules::{Asked, IdpConfig, judge_request, sign_on_address};
use metadata::Peer;
use owned_values::{Blob, Text};
use peer_keys::{LogoutPeer, Peers};
use provider_config::SignMode;
use std::alloc::Global;
use std::test::Fail;
use user_store::{UserFault, read_users};

/// A form with an AuthnRequest without a Signature.
const FORM: &[u8] =
    b"SAMLRequest=PHNhbWxwOkF1dGhuUmVxdWVzdCB4bWxuczpzYW1scD0idXJuOm9hc2lzOm5hbWVzOnRjOlNBTUw6Mi4wOnByb3RvY29sIiBBc3NlcnRpb25Db25zdW1lclNlcnZpY2VVUkw9Imh0dHA6Ly8xMjcuMC4wLjE6ODA4MS9hY3MiIERlc3RpbmF0aW9uPSJodHRwOi8vMTI3LjAuMC4xOjgwODAvc3NvIiBJRD0iX3ExIiBJc3N1ZUluc3RhbnQ9IjIwMjQtMDEtMDFUMDA6MDA6MDAuMDAwWiIgUHJvdG9jb2xCaW5kaW5nPSJ1cm46b2FzaXM6bmFtZXM6dGM6U0FNTDoyLjA6YmluZGluZ3M6SFRUUC1QT1NUIiBWZXJzaW9uPSIyLjAiPjxzYW1sOklzc3VlciB4bWxuczpzYW1sPSJ1cm46b2FzaXM6bmFtZXM6dGM6U0FNTDoyLjA6YXNzZXJ0aW9uIj51cm46ZXhhbXBsZTpzcDwvc2FtbDpJc3N1ZXI%2BPC9zYW1scDpBdXRoblJlcXVlc3Q%2B";

/// What is said to the form by a provider with this peer.
fn judged(alloc: Global, entity: &str) -> Result<Asked, Judged> {
    let mut peers = Peers::new(alloc);
    peers.push(LogoutPeer {
        peer: Peer {
            entity: Text::of(alloc, entity)?,
            service: Text::of(alloc, "http://127.0.0.1:8081/acs")?,
            logout: None,
        },
        key_in: Blob::of(alloc, b"i")?,
        key_out: Blob::of(alloc, b"o")?,
    })?;
    judge_request(alloc, peers.as_slice(), "http://127.0.0.1:8080/sso", FORM)
}

#[test]
fn there_is_memory_for_a_request(rt: HostRuntime) {
    let Ok(asked) = judged(rt.alloc(), "urn:example:sp") else {
        panic!(rt; "refused");
    };
    assert!(rt; asked.peer == 0 && asked.request.as_str() == "_q1" && asked.relay.is_none());
    assert!(rt;
        asked.consumer.as_str() == "http://127.0.0.1:8081/acs" && !asked.force && !asked.passive
    );
}

/// A config of one-letter texts.
fn config(alloc: Global) -> Result<IdpConfig, UserFault> {
    Ok(IdpConfig {
        entity: Text::of(alloc, "i")?,
        base: Text::of(alloc, "b")?,
        listen: Text::of(alloc, "l")?,
        peers: Peers::new(alloc),
        users: read_users(alloc, b"")?,
        id_key: [0; 32],
        skew: 0,
        mode: SignMode::Assertion,
        fanout: false,
    })
}

#[test]
fn there_is_memory_for_an_address(rt: HostRuntime) -> Result<(), Fail> {
    let alloc = rt.alloc();
    let config = config(alloc)?;
    let address = sign_on_address(alloc, &config)?;
    assert!(rt; address.as_str() == "b/sso");
    Ok(())
}
