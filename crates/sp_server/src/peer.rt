//! The identity provider, as a logout sees it.
ghost use Rattle.std.specs.Prelude.{◌≡◌, ◌≤◌, IfOk, IfSome};
ghost use Rattle.std.specs.Option.{option_map};
ghost use Rattle.sp_rules.specs.Keys.{usable};
ghost use Rattle.sp_server.specs.Peer as spec;

use metadata::Peer;
use owned_values::{Blob, NoMemory};
use peer_keys::LogoutPeer;
use sp_rules::{SpConfig, UsableKeys};
use std::alloc::Global;

/// The first key that counts now for messages of the identity provider.
fn first_key(config: &SpConfig, now: u64) -> &[u8]
    requires { IfSome config.now.next_in (λ next. next.from ≤ next.until) }
    ensures { result.now ≡ spec.first_bytes config.now.key_in (usable config.now now) }
{
    match config.usable_keys(now) {
        UsableKeys::First(first) => first,
        UsableKeys::Second(second) => second,
        UsableKeys::Both(first, _) => first,
    }
}

/// The key that counts beside it, where there is one.
pub(crate) fn second_key(config: &SpConfig, now: u64) -> Option<&[u8]>
    requires { IfSome config.now.next_in (λ next. next.from ≤ next.until) }
    ensures { option_map (λ key. key.now) result ≡ spec.second_key config.now now }
{
    match config.usable_keys(now) {
        UsableKeys::First(_) | UsableKeys::Second(_) => None,
        UsableKeys::Both(_, second) => Some(second),
    }
}

/// A copy of what the metadata of a provider says of it.
fn copy_of(peer: &Peer) -> Result<Peer, NoMemory>
    ensures { IfOk result (λ copy. copy ≡ peer.now) }
{
    let logout = match &peer.logout {
        Some(logout) => Some(logout.copy()?),
        None => None,
    };
    Ok(Peer {
        entity: peer.entity.copy()?,
        service: peer.service.copy()?,
        logout,
    })
}

/// The identity provider, with the key that counts now for its messages.
pub(crate) fn idp_at(alloc: Global, config: &SpConfig, now: u64) -> Result<LogoutPeer, NoMemory>
    requires { IfSome config.now.next_in (λ next. next.from ≤ next.until) }
    ensures { IfOk result (λ idp. idp ≡ spec.idp_at config.now now) }
{
    Ok(LogoutPeer {
        peer: copy_of(&config.idp)?,
        key_in: Blob::of(alloc, first_key(config, now))?,
        key_out: config.key_out.copy()?,
    })
}
