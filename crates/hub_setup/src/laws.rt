//! Laws of the definitions. Each function does nothing: what it ensures is the law.
ghost use Rattle.std.specs.Prelude.{◌≡◌, ℕ, List, Some};
ghost use Rattle.saml_outside.specs.Files.{File};
ghost use Rattle.identity_hub.specs.declared.config.HubConfig.{HubConfig};
ghost use Rattle.hub_setup.specs.Setup.{IsSetUp, IsBadSetUp};

/// Where it is told what files there are, a config sets one hub up, or one file and line of it are the first that can't be
/// used, and never both.
pub fn a_config_has_one_outcome()
    ensures set_up { (files : List File) (config : List ℕ) (one other : HubConfig) →
        IsSetUp (Some files) config one → IsSetUp (Some files) config other → one ≡ other }
    ensures bad { (files : List File) (config one other : List ℕ) (line number : ℕ) →
        IsBadSetUp (Some files) config one line → IsBadSetUp (Some files) config other number → (one ≡ other) × (line ≡ number) }
    ensures never_both { (files : List File) (config : List ℕ) (one : HubConfig) (file : List ℕ) (line : ℕ) →
        IsSetUp (Some files) config one → ¬ (IsBadSetUp (Some files) config file line) }
{
    meta_registry::laws::a_text_has_one_outcome();
}
