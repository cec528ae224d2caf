// The two providers of a deployment that a schedule is replayed over.

ghost use Rattle.std.specs.Prelude.{◌≡◌, Ok, IfOk};
ghost use Rattle.user_store.specs.Store.{users as users_in};
ghost use Rattle.replay_runs.specs.Deployed as deployed;

use idp_rules::IdpConfig;
use idp_server::IdpRole;
use metadata::Peer;
use owned_values::{Blob, NoMemory, Text};
use peer_keys::{LogoutPeer, Peers};
use provider_config::SignMode;
use sp_rules::SpConfig;
use sp_server::SpRole;
use std::alloc::Global;
use user_store::{Users, read_users};

const SP_ENTITY: &str = "urn:example:sp";

const SP_BASE: &str = "http://127.0.0.1:8081";

const SP_ADDRESS: &str = "127.0.0.1:8081";

const IDP_ENTITY: &str = "urn:example:idp";

const IDP_BASE: &str = "http://127.0.0.1:8080";

const IDP_ADDRESS: &str = "127.0.0.1:8080";

/// How far the clocks may differ, in milliseconds.
const SKEW: u64 = 60_000;

/// The keys of what the identity provider signs and of what the service provider signs, and those of their IDs.
const KEY_OF_IDP: [u8; 32] = [0x11; 32];

const KEY_OF_SP: [u8; 32] = [0x22; 32];

const IDS_OF_IDP: [u8; 32] = [0x33; 32];

const IDS_OF_SP: [u8; 32] = [0x44; 32];

/// The users: the password of both is `password`.
const USERS: &str =
    "user alice 1 73616c74 120fb6cffcf8b32c43e7225256c4f837a86548c92ccc35480805987cb70be17b
attr mail alice@example.org
attr group staff
attr role reader
user bob 1 73616c74 120fb6cffcf8b32c43e7225256c4f837a86548c92ccc35480805987cb70be17b
attr mail bob@example.org
attr group staff
attr role reader
";

/// A provider as its metadata describes it: its name, where sign-on is posted, and where logout is.
fn peer_of(alloc: Global, entity: &str, service: &str, logout: &str) -> Result<Peer, NoMemory>
    ensures { IfOk result (λ peer. peer ≡ deployed.peer_of entity.now service.now logout.now) }
{
    Ok(Peer {
        entity: Text::of(alloc, entity)?,
        service: Text::of(alloc, service)?,
        logout: Some(Text::of(alloc, logout)?),
    })
}

/// What the service provider is set up with.
fn sp_config(alloc: Global) -> Result<SpConfig, NoMemory>
    ensures { IfOk result (λ config. config ≡ deployed.sp_config) }
{
    let idp = peer_of(
        alloc,
        IDP_ENTITY,
        "http://127.0.0.1:8080/sso",
        "http://127.0.0.1:8080/slo",
    )?;
    Ok(SpConfig {
        entity: Text::of(alloc, SP_ENTITY)?,
        base: Text::of(alloc, SP_BASE)?,
        listen: Text::of(alloc, SP_ADDRESS)?,
        idp,
        key_in: Blob::of(alloc, &KEY_OF_IDP)?,
        next_in: None,
        key_out: Blob::of(alloc, &KEY_OF_SP)?,
        id_key: IDS_OF_SP,
        skew: SKEW,
    })
}

/// The service provider.
pub(crate) fn service_provider(alloc: Global) -> Result<SpRole, NoMemory>
    ensures { IfOk result (λ role. role ≡ deployed.service_provider) }
{
    let config = sp_config(alloc)?;
    Ok(SpRole::new(alloc, config, None, None, false))
}

/// The service provider as the identity provider knows it.
fn peers(alloc: Global) -> Result<Peers, NoMemory>
    ensures { IfOk result (λ peers. peers ≡ deployed.peers) }
{
    let peer = peer_of(
        alloc,
        SP_ENTITY,
        "http://127.0.0.1:8081/acs",
        "http://127.0.0.1:8081/slo",
    )?;
    let mut peers = Peers::new(alloc);
    peers.push(LogoutPeer {
        peer,
        key_in: Blob::of(alloc, &KEY_OF_SP)?,
        key_out: Blob::of(alloc, &KEY_OF_IDP)?,
    })?;
    Ok(peers)
}

/// The users.
fn users(alloc: Global) -> Result<Users, NoMemory>
    ensures { IfOk result (λ all. users_in deployed.users_text ≡ Ok all) }
{
    match read_users(alloc, USERS.as_bytes()) {
        Ok(users) => Ok(users),
        Err(_) => Err(NoMemory),
    }
}

/// What the identity provider is set up with.
fn idp_config(alloc: Global) -> Result<IdpConfig, NoMemory>
    ensures { IfOk result (λ config. deployed.IsIdpConfig config) }
{
    Ok(IdpConfig {
        entity: Text::of(alloc, IDP_ENTITY)?,
        base: Text::of(alloc, IDP_BASE)?,
        listen: Text::of(alloc, IDP_ADDRESS)?,
        peers: peers(alloc)?,
        users: users(alloc)?,
        id_key: IDS_OF_IDP,
        skew: SKEW,
        mode: SignMode::Assertion,
        fanout: false,
    })
}

/// The identity provider.
pub(crate) fn identity_provider(alloc: Global) -> Result<IdpRole, NoMemory>
    ensures { IfOk result (λ role. deployed.IsIdpConfig role) }
{
    let config = idp_config(alloc)?;
    Ok(IdpRole::new(alloc, config))
}
