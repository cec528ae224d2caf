// An identity provider is set up.

ghost use Rattle.std.specs.Prelude.{◌≡◌, ◌≤◌, IfOk, IfErr, IsTrue};
ghost use Rattle.provider_config.specs.IdpConfig.{config_view, has_files};
ghost use Rattle.sp_setup.specs.Faults.{IsFaultOf};
ghost use Rattle.idp_rules.specs.Config.{IsUsable};
ghost use Rattle.idp_setup.specs.Config.{config_of};
ghost use Rattle.idp_setup.specs.Setup.{set_up_by, IsSetUp, IsBadSetUp};

use crate::loaded::Loaded;
use idp_rules::IdpConfig;
use provider_config::{ConfigFault, IdpLines, MAX_CONFIG_LENGTH, read_idp_config};
use saml_outside::{Files, read_file};
use sp_setup::SetupFault;
use std::alloc::Global;

/// What lines and files say together; none where a file that is needed was not read.
fn config_of(lines: IdpLines, loaded: Loaded) -> Option<IdpConfig>
    ensures { result ≡ config_of (config_view lines) loaded }
{
    let users = loaded.users?;
    let id_key = loaded.id_key?;
    Some(IdpConfig {
        entity: lines.entity,
        base: lines.base,
        listen: lines.listen,
        peers: loaded.read.peers,
        users,
        id_key,
        skew: lines.skew,
        mode: lines.sign,
        fanout: lines.fanout,
    })
}

/// Sets a provider up by the lines of the config in a file, which names each file that is needed.
fn set_up_by<F: Files>(
    alloc: Global,
    files: &mut F,
    file: &str,
    lines: IdpLines,
) -> Result<IdpConfig, SetupFault>
    requires { IsTrue (has_files lines.files.items) }
    ensures ok { IfOk result ((set_up_by file.now (config_view lines)).gives (F.holds files.old)) }
    ensures err { IfErr result (IsFaultOf ((set_up_by file.now (config_view lines)).fails (F.holds files.old)) (F.faults_of files.old) (F.faults_of files.new)) }
    ensures same { F.holds files.new ≡ F.holds files.old }
    ensures never_falls { F.faults_of files.old ≤ F.faults_of files.new }
{
    let loaded = Loaded::of_files(alloc, files, &lines.files)?;
    if let Some(line) = loaded.read.doubled {
        return Err(SetupFault::bad_file(alloc, file, u64::from(line)));
    }
    match config_of(lines, loaded) {
        Some(config) => Ok(config),
        None => unreachable!(),
    }
}

/// Sets a provider up by the config in a file and the files that it names.
///
/// `BadFile` tells the first of these files that can't be used: the number of the line where a line of the config or of the
/// users is bad, else 0; or, where all of them are good, the config and the line of the first peer that has the name of one
/// before it. `ReadFault` comes only where the files' count of faults rose; want of memory may come in place of any other
/// answer. A provider can be started with what is set up.
pub fn set_up<F: Files>(alloc: Global, files: &mut F, file: &str) -> Result<IdpConfig, SetupFault>
    ensures ok { IfOk result (IsSetUp (F.holds files.old) file.now) }
    ensures usable { IfOk result IsUsable }
    ensures err { IfErr result (IsFaultOf (IsBadSetUp (F.holds files.old) file.now) (F.faults_of files.old) (F.faults_of files.new)) }
    ensures same { F.holds files.new ≡ F.holds files.old }
    ensures never_falls { F.faults_of files.old ≤ F.faults_of files.new }
{
    canon_laws::a_spelled_tree_is_writable();
    let Some(bytes) = read_file(alloc, files, file, MAX_CONFIG_LENGTH as u64)? else {
        return Err(SetupFault::bad_file(alloc, file, 0));
    };
    match read_idp_config(alloc, &bytes) {
        Ok(lines) => set_up_by(alloc, files, file, lines),
        Err(ConfigFault::Line(line)) => Err(SetupFault::bad_file(alloc, file, u64::from(line))),
        Err(ConfigFault::NoMemory) => Err(SetupFault::NoMemory),
    }
}
