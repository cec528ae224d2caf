// A service provider is set up.

ghost use Rattle.std.specs.Prelude.{◌≡◌, ◌≤◌, None, IfOk, IfErr, IsTrue, MatchOption};
ghost use Rattle.provider_config.specs.Config.{config_view, has_files};
ghost use Rattle.sp_setup.specs.Config.{next_of, config_of};
ghost use Rattle.sp_setup.specs.Faults.{IsFaultOf};
ghost use Rattle.sp_setup.specs.Files.{in_order};
ghost use Rattle.sp_setup.specs.Setup.{nothing, load, IsBadSetUp};
ghost use Rattle.sp_setup.specs.Views.{IsConfigOf, IsSetUpBy, IsSetUpFrom, IsWithinBounds, HasTexts};

use crate::fault::SetupFault;
use crate::loaded::Loaded;
use access_policy::Policy;
use provider_config::{
    AskedLine, ConfigFault, MAX_CONFIG_LENGTH, OpenedLine, Purpose, SpLines, Times, read_sp_config,
};
use saml_outside::{Blob, Files, read_file};
use sp_rules::{NextKey, SpConfig};
use std::alloc::Global;

/// A service provider that is set up, and the rows that its config names.
#[derive(Debug, Drop)]
pub struct SetUp {
    /// What it is set up with.
    pub config: SpConfig,
    /// Who may see which page; without one each user may see each page.
    pub policy: Option<Policy>,
    /// The moment at which the registry ends that lists the identity provider, in milliseconds since 1970; none without a
    /// registry.
    pub expiry: Option<u64>,
    /// Whether it tells a proxy who a request comes from.
    pub guard: bool,
    /// What it asked before, in the order of the config's lines.
    pub asked: Vec<AskedLine>,
    /// What was answered before.
    pub opened: Vec<OpenedLine>,
}

/// The key that takes over, where there is one.
fn next_of(times: Option<Times>, key: Option<Blob>) -> Option<NextKey>
    ensures { result ≡ next_of times key }
{
    match (times, key) {
        (Some(times), Some(key)) => Some(NextKey {
            key,
            from: times.from,
            until: times.until,
        }),
        _ => None,
    }
}

/// What lines and files say together; none where a file that is needed was not read.
pub fn config_of(lines: SpLines, loaded: Loaded) -> Option<SetUp>
    ensures { MatchOption result (config_of (config_view lines) loaded ≡ None) (IsConfigOf (config_view lines) loaded) }
{
    let idp = loaded.idp?;
    let key_in = loaded.key_in?;
    let key_out = loaded.key_out?;
    let id_key = loaded.id_key?;
    let config = SpConfig {
        entity: lines.entity,
        base: lines.base,
        listen: lines.listen,
        idp,
        key_in,
        next_in: next_of(lines.next_in, loaded.next_in),
        key_out,
        id_key,
        skew: lines.skew,
    };
    Some(SetUp {
        config,
        policy: loaded.policy,
        expiry: loaded.expiry,
        guard: lines.guard,
        asked: lines.asked,
        opened: lines.opened,
    })
}

/// Sets a provider up by the lines of a config, which names each file that is needed.
fn set_up_by<F: Files>(alloc: Global, files: &mut F, lines: SpLines) -> Result<SetUp, SetupFault>
    requires { IsTrue (has_files lines.files.items) }
    ensures ok { IfOk result (IsSetUpBy (F.holds files.old) (config_view lines)) }
    ensures err { IfErr result (IsFaultOf ((in_order load lines.files.items nothing).fails (F.holds files.old)) (F.faults_of files.old) (F.faults_of files.new)) }
    ensures same { F.holds files.new ≡ F.holds files.old }
    ensures never_falls { F.faults_of files.old ≤ F.faults_of files.new }
{
    let loaded = Loaded::of_files(alloc, files, &lines.files)?;
    match config_of(lines, loaded) {
        Some(setup) => Ok(setup),
        None => unreachable!(),
    }
}

/// Sets a provider up by the config in a file and the files that it names.
///
/// `BadFile` tells the first of these files that can't be used: the number of the line where a line of the config or of its
/// policy is bad, else 0. A registry that is not signed with its key, or does not list its provider, can't be used; its key is
/// told by its own name. `ReadFault` comes only where the files' count of faults rose; want of memory may come in place of any other
/// answer. What is set up is within the bounds that judging asks for, and its name and addresses are texts that a document
/// may hold.
pub fn set_up<F: Files>(
    alloc: Global,
    files: &mut F,
    file: &str,
    purpose: Purpose,
) -> Result<SetUp, SetupFault>
    ensures ok { IfOk result (IsSetUpFrom (F.holds files.old) purpose file.now) }
    ensures bounds { IfOk result IsWithinBounds }
    ensures texts { IfOk result (λ setup. HasTexts setup.config) }
    ensures err { IfErr result (IsFaultOf (IsBadSetUp (F.holds files.old) purpose file.now) (F.faults_of files.old) (F.faults_of files.new)) }
    ensures same { F.holds files.new ≡ F.holds files.old }
    ensures never_falls { F.faults_of files.old ≤ F.faults_of files.new }
{
    provider_config::laws::rows_are_fewer_than_bytes();
    canon_laws::a_spelled_tree_is_writable();
    meta_registry::laws::a_peer_is_read_from_a_listed_descriptor();
    let Some(bytes) = read_file(alloc, files, file, MAX_CONFIG_LENGTH as u64)? else {
        return Err(SetupFault::bad_file(alloc, file, 0));
    };
    match read_sp_config(alloc, &bytes, purpose) {
        Ok(lines) => set_up_by(alloc, files, lines),
        Err(ConfigFault::Line(line)) => Err(SetupFault::bad_file(alloc, file, u64::from(line))),
        Err(ConfigFault::NoMemory) => Err(SetupFault::NoMemory),
    }
}
