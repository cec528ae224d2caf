// What runs as a provider.

ghost use Rattle.std.specs.Prelude.{◌≡◌, ◌≤◌, ℕ, List, Option, Some, IfErr, IfOk};
ghost use Rattle.saml_outside.specs.Files.{File};
ghost use Rattle.sp_setup.specs.Faults.{IsFaultOf};
ghost use Rattle.provider_run.specs.Headlines.{EachRunCarries, HeadlineOf};

use crash_disk::Disk;
use provider_node::Role;
use saml_outside::Files;
use sp_setup::SetupFault;
use std::alloc::Global;

/// What runs as a provider: how its role is set up by a config, and at which address it listens.
pub trait RunsProvider {
    /// The role of the provider.
    type Role: Role;

    /// The config in this file sets such a provider up, as far as it is told what files there are.
    ghost sets_up: { Option (List File) → List ℕ → Self.Role → Type 0 };

    /// Of the config in this file, this is the first file that can't be used, the config or one that it names, and
    /// its line.
    ghost is_bad: { Option (List File) → List ℕ → List ℕ → ℕ → Type 0 };

    /// The address at which it listens.
    ghost listens_at: { Self.Role → List ℕ };

    /// What is said of each run.
    ghost headline: { HeadlineOf Self.Role Self.Role.Rows.Record };

    /// Sets a provider up by the config in a file and the files that this names.
    fn set_up<F: Files>(
        alloc: Global,
        files: &mut F,
        config: &str,
    ) -> Result<Self::Role, SetupFault>
        ensures ok { IfOk result (sets_up (F.holds files.old) config.now) }
        ensures err { IfErr result (IsFaultOf (is_bad (F.holds files.old) config.now)
            (F.faults_of files.old) (F.faults_of files.new)) }
        ensures same { F.holds files.new ≡ F.holds files.old }
        ensures never_falls { F.faults_of files.old ≤ F.faults_of files.new };

    /// The address at which the provider listens.
    fn address(role: &Self::Role) -> &str
        ensures { result.now ≡ listens_at role.now };

    /// Where it is told what files there are, a config never sets a provider up and fails to. It does nothing.
    fn never_both()
        ensures { (files : List File) (config : List ℕ) (role : Self.Role) (file : List ℕ) (line : ℕ) →
            sets_up (Some files) config role → ¬ (is_bad (Some files) config file line) };

    /// Each run carries the headline. It does nothing.
    fn carries_headline<D: Disk>()
        ensures { (disk : D) → EachRunCarries
            sets_up is_bad listens_at Self.Role.key Self.Role.Rows.rules Self.Role.answers headline (D.shows disk).left_since };
}
