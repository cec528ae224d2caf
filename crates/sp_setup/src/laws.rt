//! Laws of the definitions. Each function does nothing: what it ensures is the law.
ghost use Rattle.std.specs.Prelude.{◌≡◌, ℕ, List, Some};
ghost use Rattle.saml_outside.specs.Files.{File};
ghost use Rattle.provider_config.specs.declared.line.Purpose.{Purpose};
ghost use Rattle.sp_setup.specs.Laws.{ARegistryTellsTheProvider, WithoutARegistryNothingEnds};
ghost use Rattle.sp_setup.specs.Setup.{Setup, IsSetUp, IsBadSetUp};

/// Where it is told what files there are, a config sets one provider up, or one file and line of it are the first that
/// can't be used, and never both.
pub fn a_config_has_one_outcome()
    ensures set_up { (files : List File) (purpose : Purpose) (config : List ℕ) (one other : Setup) →
        IsSetUp (Some files) purpose config one → IsSetUp (Some files) purpose config other → one ≡ other }
    ensures bad { (files : List File) (purpose : Purpose) (config one other : List ℕ) (line number : ℕ) →
        IsBadSetUp (Some files) purpose config one line → IsBadSetUp (Some files) purpose config other number → (one ≡ other) × (line ≡ number) }
    ensures never_both { (files : List File) (purpose : Purpose) (config : List ℕ) (one : Setup) (file : List ℕ) (line : ℕ) →
        IsSetUp (Some files) purpose config one → ¬ (IsBadSetUp (Some files) purpose config file line) }
{
    meta_registry::laws::a_text_has_one_outcome();
}

/// A config that has a registry has its identity provider from the one descriptor of that name that the registry lists, inside
/// the element that the signature covers, and ends when that element says; without a registry nothing ends.
pub fn a_registry_tells_the_provider()
    ensures tells { ARegistryTellsTheProvider }
    ensures without { WithoutARegistryNothingEnds }
{
    provider_config::laws::no_role_is_named_twice();
    meta_registry::laws::a_peer_is_read_from_a_listed_descriptor();
}
