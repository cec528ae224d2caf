// The identity provider that a registry of metadata lists.

ghost use Rattle.std.specs.Prelude.{◌≡◌, ◌≤◌, length, Ok, Err, IfOk, MatchOption};
ghost use Rattle.xml_spec.specs.declared.TheConstants.{MAX_DOCUMENT_LENGTH};
ghost use Rattle.meta_registry.specs.Aggregate.{peer_in};
ghost use Rattle.meta_registry.specs.declared.fault.PeerFault.{PeerFault};
ghost use Rattle.sp_setup.specs.Views.{Lists, IsUnlisted};

use meta_registry::{PeerFault, Registry, RegistryFault, read_registry};
use metadata::{Peer, Role};
use saml_outside::NoMemory;
use std::alloc::Global;
use xml_spec::MAX_DOCUMENT_LENGTH;

/// What a registry says of a provider, and the moment until which it says so.
#[derive(Debug, Drop)]
pub(crate) struct Source {
    pub(crate) peer: Peer,
    pub(crate) valid_until: u64,
}

/// The identity provider of this name that a registry lists; none where it gives none.
fn source_in(alloc: Global, registry: &Registry, entity: &str) -> Result<Option<Source>, NoMemory>
    ensures { IfOk result (λ found. MatchOption found
        ((fault : PeerFault) × (peer_in registry.now entity.now Role.Idp ≡ Err fault))
        (λ source. (peer_in registry.now entity.now Role.Idp ≡ Ok source.peer) × (registry.now.valid_until ≡ source.valid_until))) }
{
    match registry.peer(alloc, entity, Role::Idp) {
        Ok(peer) => {
            let valid_until = registry.valid_until();
            Ok(Some(Source { peer, valid_until }))
        }
        Err(PeerFault::NoMemory) => Err(NoMemory),
        Err(PeerFault::NotListed(_) | PeerFault::Meta(_)) => Ok(None),
    }
}

/// The identity provider of this name that the registry in these bytes lists, where it is signed with the key; none where
/// it is not, or gives none.
pub(crate) fn source_of(
    alloc: Global,
    bytes: &[u8],
    key: &[u8],
    entity: &str,
) -> Result<Option<Source>, NoMemory>
    requires { length bytes.now ≤ MAX_DOCUMENT_LENGTH }
    ensures { IfOk result (λ found. MatchOption found (IsUnlisted bytes.now key.now entity.now)
        (λ source. Lists bytes.now key.now entity.now source.peer source.valid_until)) }
{
    match read_registry(alloc, bytes, key) {
        Ok(registry) => source_in(alloc, &registry, entity),
        Err(RegistryFault::NoMemory) => Err(NoMemory),
        Err(RegistryFault::Tree(_)) => Ok(None),
        Err(RegistryFault::WrongShape) => Ok(None),
        Err(RegistryFault::Signature(_)) => Ok(None),
    }
}
