//! Laws of the definitions. Each function does nothing: what it ensures is the law.
ghost use Rattle.std.specs.Prelude.{◌≡◌, ℕ, List, Some};
ghost use Rattle.saml_outside.specs.Files.{File};
ghost use Rattle.idp_rules.specs.declared.config.IdpConfig.{IdpConfig};
ghost use Rattle.idp_setup.specs.Setup.{IsSetUp, IsBadSetUp};

/// Where it is told what files there are, a config sets one provider up, or one file and line of it are the first that
/// can't be used, and never both.
pub fn a_config_has_one_outcome()
    ensures set_up { (files : List File) (config : List ℕ) (one other : IdpConfig) →
        IsSetUp (Some files) config one → IsSetUp (Some files) config other → one ≡ other }
    ensures bad { (files : List File) (config one other : List ℕ) (line number : ℕ) →
        IsBadSetUp (Some files) config one line → IsBadSetUp (Some files) config other number → (one ≡ other) × (line ≡ number) }
    ensures never_both { (files : List File) (config : List ℕ) (one : IdpConfig) (file : List ℕ) (line : ℕ) →
        IsSetUp (Some files) config one → ¬ (IsBadSetUp (Some files) config file line) }
{}
