// A hub is set up.

ghost use Rattle.std.specs.Prelude.{◌≡◌, ◌≤◌, [], IfOk, IfErr, IsTrue};
ghost use Rattle.provider_config.specs.HubViews.{config_view, has_files};
ghost use Rattle.provider_config.specs.Config as sp;
ghost use Rattle.sp_setup.specs.Faults.{IsFaultOf};
ghost use Rattle.identity_hub.specs.Config.{IsUsable};
ghost use Rattle.hub_setup.specs.Config.{config_of};
ghost use Rattle.hub_setup.specs.Setup.{set_up_by, IsSetUp, IsBadSetUp};

use crate::loaded::Loaded;
use identity_hub::HubConfig;
use provider_config::{ConfigFault, HubLines, MAX_CONFIG_LENGTH, SpLines, read_hub_config};
use saml_outside::{Files, read_file};
use sp_setup::SetupFault;
use std::alloc::Global;

/// What the lines say as a service provider's config, whose files were read before.
fn upstream_of(alloc: Global, lines: HubLines) -> SpLines
    ensures { sp.config_view result ≡ record (config_view lines).above { files = [] } }
{
    SpLines {
        entity: lines.entity,
        base: lines.base,
        listen: lines.listen,
        skew: lines.skew,
        files: Vec::new(alloc),
        next_in: lines.next_in,
        guard: false,
        asked: Vec::new(alloc),
        opened: Vec::new(alloc),
    }
}

/// What lines and files say together; none where a file that is needed was not read.
fn config_of(alloc: Global, lines: HubLines, loaded: Loaded) -> Option<HubConfig>
    ensures { result ≡ config_of (config_view lines) loaded }
{
    let setup = sp_setup::config_of(upstream_of(alloc, lines), loaded.above)?;
    Some(HubConfig {
        upstream: setup.config,
        peers: loaded.read.peers,
    })
}

/// Sets a hub up by the lines of the config in a file, which names each file that is needed.
fn set_up_by<F: Files>(
    alloc: Global,
    files: &mut F,
    file: &str,
    lines: HubLines,
) -> Result<HubConfig, SetupFault>
    requires { IsTrue (has_files lines.files.items) }
    ensures ok { IfOk result ((set_up_by file.now (config_view lines)).gives (F.holds files.old)) }
    ensures err { IfErr result (IsFaultOf ((set_up_by file.now (config_view lines)).fails (F.holds files.old)) (F.faults_of files.old) (F.faults_of files.new)) }
    ensures same { F.holds files.new ≡ F.holds files.old }
    ensures never_falls { F.faults_of files.old ≤ F.faults_of files.new }
{
    let loaded = Loaded::of_files(alloc, files, &lines.files)?;
    if let Some(line) = loaded.read.doubled {
        return Err(SetupFault::bad_file(alloc, file, u64::from(line)));
    }
    match config_of(alloc, lines, loaded) {
        Some(config) => Ok(config),
        None => unreachable!(),
    }
}

/// Sets a hub up by the config in a file and the files that it names.
///
/// `BadFile` tells the first of these files that can't be used: the number of the line where a line of the config is bad,
/// else 0; or, where all of them are good, the config and the line of the first peer that has the name of one before it.
/// `ReadFault` comes only where the files' count of faults rose; want of memory may come in place of any other answer. A hub
/// can be started with what is set up.
pub fn set_up<F: Files>(alloc: Global, files: &mut F, file: &str) -> Result<HubConfig, SetupFault>
    ensures ok { IfOk result (IsSetUp (F.holds files.old) file.now) }
    ensures usable { IfOk result IsUsable }
    ensures err { IfErr result (IsFaultOf (IsBadSetUp (F.holds files.old) file.now) (F.faults_of files.old) (F.faults_of files.new)) }
    ensures same { F.holds files.new ≡ F.holds files.old }
    ensures never_falls { F.faults_of files.old ≤ F.faults_of files.new }
{
    canon_laws::a_spelled_tree_is_writable();
    meta_registry::laws::a_peer_is_read_from_a_listed_descriptor();
    let Some(bytes) = read_file(alloc, files, file, MAX_CONFIG_LENGTH as u64)? else {
        return Err(SetupFault::bad_file(alloc, file, 0));
    };
    match read_hub_config(alloc, &bytes) {
        Ok(lines) => set_up_by(alloc, files, file, lines),
        Err(ConfigFault::Line(line)) => Err(SetupFault::bad_file(alloc, file, u64::from(line))),
        Err(ConfigFault::NoMemory) => Err(SetupFault::NoMemory),
    }
}
