//! The role of a hub.
ghost use Rattle.std.specs.Prelude.{◌≡◌};
ghost use Rattle.identity_hub.specs.Config.{IsUsable};

use crate::config::HubConfig;
use std::alloc::Global;
use std::marker::Model;

/// What a hub is set up with.
#[derive(Debug, Drop)]
pub struct HubRole {
    pub(crate) config: HubConfig,
    pub(crate) alloc: Global,
}

impl Model for HubRole {
    ghost use Rattle.identity_hub.specs.Config.{IsUsable};
    ghost use Rattle.identity_hub.specs.declared.config.HubConfig.{HubConfig};

    ghost Value = { HubConfig };

    ghost view = { λ r. r.config };

    ghost invariant = { λ r. IsUsable r.config };
}

impl HubRole {
    /// A hub with this config.
    pub fn new(alloc: Global, config: HubConfig) -> HubRole
        requires { IsUsable config }
        ensures { result ≡ config }
    {
        HubRole { config, alloc }
    }

    /// The config.
    pub fn config(&self) -> &HubConfig
        ensures { result.now ≡ self.now }
    {
        &self.config
    }
}
