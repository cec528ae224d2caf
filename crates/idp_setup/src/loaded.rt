// What the files that a config names hold.

ghost use Rattle.std.specs.Prelude.{◌≡◌, ◌≤◌, IfOk, IfErr, OnOk};
ghost use Rattle.sp_setup.specs.Faults.{IsFaultOf};
ghost use Rattle.sp_setup.specs.Files.{in_order};
ghost use Rattle.idp_setup.specs.Setup.{nothing, load};

use crate::peers_read::PeersRead;
use crate::reading::{read_id_key, read_peer_files, read_user_file};
use provider_config::IdpFile;
use saml_outside::{Files, NoMemory};
use sp_setup::SetupFault;
use std::alloc::Global;
use user_store::Users;

/// What the files of a config hold, as far as they were read.
#[derive(Debug, Drop)]
pub(crate) struct Loaded {
    /// The users.
    pub users: Option<Users>,
    /// The key from which IDs are made.
    pub id_key: Option<[u8; 32]>,
    /// The peers, and whether two of them have one name.
    pub read: PeersRead,
}

impl Loaded {
    /// Nothing is read yet. It takes no memory.
    fn nothing(alloc: Global) -> Loaded
        ensures { result ≡ nothing }
    {
        Loaded {
            users: None,
            id_key: None,
            read: PeersRead::nothing(alloc),
        }
    }

    /// Reads the files that a line names, and takes what they hold.
    fn load<F: Files>(
        &mut self,
        alloc: Global,
        files: &mut F,
        named: &IdpFile,
    ) -> Result<(), SetupFault>
        ensures ok { OnOk result ((load named.now self.old).gives (F.holds files.old) self.new) }
        ensures err { IfErr result (IsFaultOf ((load named.now self.old).fails (F.holds files.old)) (F.faults_of files.old) (F.faults_of files.new)) }
        ensures same { F.holds files.new ≡ F.holds files.old }
        ensures never_falls { F.faults_of files.old ≤ F.faults_of files.new }
    {
        match named {
            IdpFile::Users(name) => {
                self.users = Some(read_user_file(alloc, files, name.as_str())?);
                Ok(())
            }
            IdpFile::IdKey(name) => {
                self.id_key = Some(read_id_key(alloc, files, name.as_str())?);
                Ok(())
            }
            IdpFile::Peer(names) => {
                let peer = read_peer_files(alloc, files, names)?;
                match self.read.take(names.line, peer) {
                    Ok(()) => Ok(()),
                    Err(NoMemory) => Err(SetupFault::NoMemory),
                }
            }
        }
    }

    /// Reads the files in order and takes what they hold, or tells the first that can't be used.
    pub(crate) fn of_files<F: Files>(
        alloc: Global,
        files: &mut F,
        named: &[IdpFile],
    ) -> Result<Loaded, SetupFault>
        ensures ok { IfOk result ((in_order load named.now nothing).gives (F.holds files.old)) }
        ensures err { IfErr result (IsFaultOf ((in_order load named.now nothing).fails (F.holds files.old)) (F.faults_of files.old) (F.faults_of files.new)) }
        ensures same { F.holds files.new ≡ F.holds files.old }
        ensures never_falls { F.faults_of files.old ≤ F.faults_of files.new }
    {
        let mut loaded = Loaded::nothing(alloc);
        for file in named {
            loaded.load(alloc, files, file)?;
        }
        Ok(loaded)
    }
}
