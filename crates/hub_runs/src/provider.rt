// What runs as a hub.

use crate::laws::a_run_carries_the_headline;
use hub_ledger::Disk;
use hub_setup::{SetupFault, set_up};
use identity_hub::HubRole;
use provider_run::RunsProvider;
use saml_outside::Files;
use std::alloc::Global;

/// What runs as a hub.
///
/// A run of it passes a login from above on exactly where a posted form brings it for a request of a provider below
/// that is known, with its name and its attributes and to that provider alone; each signed element is one of a record,
/// no form is sent before its record is durable, and no request upwards backs two logins; where only the provider above
/// makes HMACs that match, each login is one that it recorded, and so is each session below; and what its answers
/// acknowledged is from then on in every image that a crash might leave (its headline: `Says` of
/// `specs/Headline.antt`).
pub struct Hub;

impl RunsProvider for Hub {
    ghost use Rattle.hub_setup.specs.Setup.{IsBadSetUp, IsSetUp};
    ghost use Rattle.hub_runs.specs.Headline.{Headline};

    type Role = HubRole;

    ghost sets_up = { IsSetUp };

    ghost is_bad = { IsBadSetUp };

    ghost listens_at = { λ r. r.upstream.listen };

    ghost headline = { Headline };

    fn set_up<F: Files>(alloc: Global, files: &mut F, config: &str) -> Result<HubRole, SetupFault> {
        let config = set_up(alloc, files, config)?;
        Ok(HubRole::new(alloc, config))
    }

    fn address(role: &HubRole) -> &str {
        role.config().upstream.listen.as_str()
    }

    fn never_both() {
        hub_setup::laws::a_config_has_one_outcome();
    }

    fn carries_headline<D: Disk>() {
        a_run_carries_the_headline::<D>();
    }
}
