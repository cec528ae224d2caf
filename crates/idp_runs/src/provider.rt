// What runs as an identity provider.

use crate::laws::a_run_carries_the_headline;
use idp_ledger::Disk;
use idp_server::IdpRole;
use idp_setup::{SetupFault, set_up};
use provider_run::RunsProvider;
use saml_outside::Files;
use std::alloc::Global;

/// What runs as an identity provider.
///
/// A run of it issues each Assertion to a user with a password or a session; each element that it signs is one of a
/// record, and no form is sent before its record is durable; it ends sessions exactly where their users leave them or a
/// peer ends them, for good; a logout that asks all others asks each in its turn; and what its answers acknowledged is
/// from then on in every image that a crash might leave (its headline: `Says` of `specs/Headline.antt`).
pub struct IdentityProvider;

impl RunsProvider for IdentityProvider {
    ghost use Rattle.idp_setup.specs.Setup.{IsBadSetUp, IsSetUp};
    ghost use Rattle.idp_runs.specs.Headline.{Headline};

    type Role = IdpRole;

    ghost sets_up = { IsSetUp };

    ghost is_bad = { IsBadSetUp };

    ghost listens_at = { λ r. r.listen };

    ghost headline = { Headline };

    fn set_up<F: Files>(alloc: Global, files: &mut F, config: &str) -> Result<IdpRole, SetupFault> {
        let config = set_up(alloc, files, config)?;
        Ok(IdpRole::new(alloc, config))
    }

    fn address(role: &IdpRole) -> &str {
        role.config().listen.as_str()
    }

    fn never_both() {
        idp_setup::laws::a_config_has_one_outcome();
    }

    fn carries_headline<D: Disk>() {
        a_run_carries_the_headline::<D>();
    }
}
