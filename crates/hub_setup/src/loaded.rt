// What the files that a hub's config names hold.

ghost use Rattle.std.specs.Prelude.{◌≡◌, ◌≤◌, IfOk, IfErr, OnOk};
ghost use Rattle.sp_setup.specs.Faults.{IsFaultOf};
ghost use Rattle.sp_setup.specs.Files.{in_order};
ghost use Rattle.hub_setup.specs.Setup.{nothing, load};

use idp_setup::{PeersRead, read_peer_files};
use provider_config::HubFile;
use saml_outside::{Files, NoMemory};
use sp_setup::SetupFault;
use std::alloc::Global;

/// What the files of a config hold, as far as they were read.
#[derive(Debug, Drop)]
pub(crate) struct Loaded {
    /// Those that a service provider's config names too.
    pub above: sp_setup::Loaded,
    /// The peers, and whether two of them have one name.
    pub read: PeersRead,
}

impl Loaded {
    /// Nothing is read yet. It takes no memory.
    fn nothing(alloc: Global) -> Loaded
        ensures { result ≡ nothing }
    {
        Loaded {
            above: sp_setup::Loaded::nothing(),
            read: PeersRead::nothing(alloc),
        }
    }

    /// Reads the files that a line names, and takes what they hold.
    fn load<F: Files>(
        &mut self,
        alloc: Global,
        files: &mut F,
        named: &HubFile,
    ) -> Result<(), SetupFault>
        ensures ok { OnOk result ((load named.now self.old).gives (F.holds files.old) self.new) }
        ensures err { IfErr result (IsFaultOf ((load named.now self.old).fails (F.holds files.old)) (F.faults_of files.old) (F.faults_of files.new)) }
        ensures same { F.holds files.new ≡ F.holds files.old }
        ensures never_falls { F.faults_of files.old ≤ F.faults_of files.new }
    {
        match named {
            HubFile::Above(file) => {
                self.above.load(alloc, files, file)?;
                Ok(())
            }
            HubFile::Peer(names) => {
                let peer = read_peer_files(alloc, files, names)?;
                match self.read.take(names.line, peer) {
                    Ok(()) => Ok(()),
                    Err(NoMemory) => Err(SetupFault::NoMemory),
                }
            }
        }
    }

    /// Reads the files in order and takes what they hold, or tells the first that can't be used.
    pub(crate) fn of_files<F: Files>(
        alloc: Global,
        files: &mut F,
        named: &[HubFile],
    ) -> Result<Loaded, SetupFault>
        ensures ok { IfOk result ((in_order load named.now nothing).gives (F.holds files.old)) }
        ensures err { IfErr result (IsFaultOf ((in_order load named.now nothing).fails (F.holds files.old)) (F.faults_of files.old) (F.faults_of files.new)) }
        ensures same { F.holds files.new ≡ F.holds files.old }
        ensures never_falls { F.faults_of files.old ≤ F.faults_of files.new }
    {
        let mut loaded = Loaded::nothing(alloc);
        for file in named {
            loaded.load(alloc, files, file)?;
        }
        Ok(loaded)
    }
}
