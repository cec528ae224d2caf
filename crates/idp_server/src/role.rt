//! The role of an identity provider.
ghost use Rattle.std.specs.Prelude.{◌≡◌};
ghost use Rattle.idp_rules.specs.Config.{IsUsable};

use idp_rules::IdpConfig;
use std::alloc::Global;
use std::marker::Model;

/// What an identity provider is set up with.
#[derive(Debug, Drop)]
pub struct IdpRole {
    pub(crate) config: IdpConfig,
    pub(crate) alloc: Global,
}

impl Model for IdpRole {
    ghost use Rattle.idp_rules.specs.Config.{IsUsable};
    ghost use Rattle.idp_rules.specs.declared.config.IdpConfig.{IdpConfig};

    ghost Value = { IdpConfig };

    ghost view = { λ r. r.config };

    ghost invariant = { λ r. IsUsable r.config };
}

impl IdpRole {
    /// An identity provider with this config.
    pub fn new(alloc: Global, config: IdpConfig) -> IdpRole
        requires { IsUsable config }
        ensures { result ≡ config }
    {
        IdpRole { config, alloc }
    }

    /// The config is a usable one.
    pub(crate) fn has_usable_config(&self)
        ensures { IsUsable self.now }
    {
        let _config = &self.config;
    }

    /// The config.
    pub fn config(&self) -> &IdpConfig
        ensures { result.now ≡ self.now }
    {
        &self.config
    }
}
