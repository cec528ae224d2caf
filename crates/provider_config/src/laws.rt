//! Laws of the definitions. Each function does nothing: what it ensures is the law.
ghost use Rattle.std.specs.Prelude.{◌≡◌, ℕ, ◌≤◌, List, length, Ok};
ghost use Rattle.provider_config.specs.Config.{Config, sp_config, AreOfDifferentRoles};
ghost use Rattle.provider_config.specs.declared.line.Purpose.{Purpose};

/// No row of a config takes less than a byte of its text.
pub fn rows_are_fewer_than_bytes()
    ensures asked { (purpose : Purpose) (text : List ℕ) (config : Config) → sp_config purpose text ≡ Ok config → length config.asked ≤ length text }
    ensures opened { (purpose : Purpose) (text : List ℕ) (config : Config) → sp_config purpose text ≡ Ok config → length config.opened ≤ length text }
{}

/// No two files of a service provider's config have one role, so that none takes another's place; a registry has that of
/// metadata.
pub fn no_role_is_named_twice()
    ensures { (purpose : Purpose) (text : List ℕ) (config : Config) → sp_config purpose text ≡ Ok config → AreOfDifferentRoles config.files }
{}
