//! The role of a service provider.
ghost use Rattle.std.specs.Prelude.{◌≡◌};
ghost use Rattle.sp_server.specs.Config.{IsUsable};
ghost use Rattle.sp_server.specs.Step.{is_expired};

use access_policy::Policy;
use sp_rules::SpConfig;
use std::alloc::Global;
use std::marker::Model;

/// What a service provider is set up with.
#[derive(Debug, Drop)]
pub struct SpRole {
    pub(crate) config: SpConfig,
    pub(crate) policy: Option<Policy>,
    pub(crate) expiry: Option<u64>,
    pub(crate) guard: bool,
    pub(crate) alloc: Global,
}

impl Model for SpRole {
    ghost use Rattle.sp_server.specs.Config.{IsUsable};
    ghost use Rattle.sp_server.specs.Step.{Setup};

    ghost Value = { Setup };

    ghost view = { λ r. record { config = r.config; policy = r.policy; expiry = r.expiry; guard = r.guard } };

    ghost invariant = { λ r. IsUsable r.config };
}

impl SpRole {
    /// A service provider with this config. `policy` decides on the pages of live sessions; without one each is
    /// allowed. `expiry` is the moment at which its registry of metadata ends, in milliseconds since
    /// 1970-01-01T00:00:00Z: from then on nothing is asked, no session is opened, and no logout is served. With `guard`
    /// it tells a proxy who a request comes from.
    pub fn new(
        alloc: Global,
        config: SpConfig,
        policy: Option<Policy>,
        expiry: Option<u64>,
        guard: bool,
    ) -> SpRole
        requires { IsUsable config }
        ensures { result ≡ record { config = config; policy = policy; expiry = expiry; guard = guard } }
    {
        SpRole {
            config,
            policy,
            expiry,
            guard,
            alloc,
        }
    }

    /// The config.
    pub fn config(&self) -> &SpConfig
        ensures { result.now ≡ self.now.config }
    {
        &self.config
    }

    /// Whether the registry has ended.
    pub(crate) fn is_expired(&self, now: u64) -> bool
        ensures { result ≡ is_expired self.now.expiry now }
    {
        self.expiry.is_some_and(|moment| moment <= now)
    }
}
