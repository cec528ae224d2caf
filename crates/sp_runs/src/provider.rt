// What runs as a service provider.

use crate::laws::a_run_carries_the_headline;
use provider_run::RunsProvider;
use request_ledger::Disk;
use saml_outside::Files;
use sp_server::SpRole;
use sp_setup::{Purpose, SetupFault, set_up};
use std::alloc::Global;

/// What runs as a service provider.
///
/// A run of it opens sessions exactly where a posted form opens one, each of a login that was signed, and no two of one
/// request; it closes them exactly where their users leave them or the identity provider ends them, for good; a guard
/// vouches for exactly the sessions that live and that no policy denies; and what its answers acknowledged is from then
/// on in every image that a crash might leave (its headline: `Says` of `specs/Headline.antt`).
pub struct ServiceProvider;

impl RunsProvider for ServiceProvider {
    ghost use Rattle.sp_runs.specs.Runs.{IsBadFile, IsServedBy};
    ghost use Rattle.sp_runs.specs.Headline.{Headline};

    type Role = SpRole;

    ghost sets_up = { IsServedBy };

    ghost is_bad = { IsBadFile };

    ghost listens_at = { λ r. r.config.listen };

    ghost headline = { Headline };

    fn set_up<F: Files>(alloc: Global, files: &mut F, config: &str) -> Result<SpRole, SetupFault> {
        let setup = set_up(alloc, files, config, Purpose::Serve)?;
        Ok(SpRole::new(alloc, setup.config, setup.policy, setup.expiry, setup.guard))
    }

    fn address(role: &SpRole) -> &str {
        role.config().listen.as_str()
    }

    fn never_both() {
        sp_setup::laws::a_config_has_one_outcome();
    }

    fn carries_headline<D: Disk>() {
        a_run_carries_the_headline::<D>();
    }
}
