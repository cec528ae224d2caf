// The files that a config names are read.

ghost use Rattle.std.specs.Prelude.{◌≡◌, ◌≤◌, IfOk, IfErr};
ghost use Rattle.user_store.specs.Store.{users};
ghost use Rattle.user_store.specs.declared.read.TheConstants.{MAX_USERS_LENGTH};
ghost use Rattle.sp_setup.specs.Faults.{IsFaultOf};
ghost use Rattle.sp_setup.specs.Files.{text_of, key_file, id_key_file, metadata_file};
ghost use Rattle.idp_setup.specs.Setup.{peer_of};

use metadata::{MetaFault, Peer, Role, read_peer};
use peer_keys::LogoutPeer;
use provider_config::PeerFiles;
use saml_outside::{Blob, Files, NoMemory};
use sp_setup::{GREATEST_KEY, ID_KEY, LEAST_KEY, SetupFault, read_whole};
use std::alloc::Global;
use user_store::{MAX_USERS_LENGTH, UserFault, Users, read_users};
use xml_spec::MAX_DOCUMENT_LENGTH;

/// A key of messages.
fn read_key<F: Files>(alloc: Global, files: &mut F, name: &str) -> Result<Blob, SetupFault>
    ensures ok { IfOk result ((key_file name.now).gives (F.holds files.old)) }
    ensures err { IfErr result (IsFaultOf ((key_file name.now).fails (F.holds files.old)) (F.faults_of files.old) (F.faults_of files.new)) }
    ensures same { F.holds files.new ≡ F.holds files.old }
    ensures never_falls { F.faults_of files.old ≤ F.faults_of files.new }
{
    let bytes = read_whole(alloc, files, name, GREATEST_KEY)?;
    if bytes.len() < LEAST_KEY {
        return Err(SetupFault::bad_file(alloc, name, 0));
    }
    match Blob::of(alloc, &bytes) {
        Ok(key) => Ok(key),
        Err(NoMemory) => Err(SetupFault::NoMemory),
    }
}

/// The key from which IDs are made.
pub(crate) fn read_id_key<F: Files>(
    alloc: Global,
    files: &mut F,
    name: &str,
) -> Result<[u8; ID_KEY], SetupFault>
    ensures ok { IfOk result ((id_key_file name.now).gives (F.holds files.old)) }
    ensures err { IfErr result (IsFaultOf ((id_key_file name.now).fails (F.holds files.old)) (F.faults_of files.old) (F.faults_of files.new)) }
    ensures same { F.holds files.new ≡ F.holds files.old }
    ensures never_falls { F.faults_of files.old ≤ F.faults_of files.new }
{
    let bytes = read_whole(alloc, files, name, GREATEST_KEY)?;
    if bytes.len() != ID_KEY {
        return Err(SetupFault::bad_file(alloc, name, 0));
    }
    let mut key = [0; ID_KEY];
    key.copy_from_slice(&bytes);
    Ok(key)
}

/// What the metadata of a service provider says.
fn read_metadata<F: Files>(alloc: Global, files: &mut F, name: &str) -> Result<Peer, SetupFault>
    ensures ok { IfOk result ((metadata_file Role.Sp name.now).gives (F.holds files.old)) }
    ensures err { IfErr result (IsFaultOf ((metadata_file Role.Sp name.now).fails (F.holds files.old)) (F.faults_of files.old) (F.faults_of files.new)) }
    ensures same { F.holds files.new ≡ F.holds files.old }
    ensures never_falls { F.faults_of files.old ≤ F.faults_of files.new }
{
    let bytes = read_whole(alloc, files, name, MAX_DOCUMENT_LENGTH as u64)?;
    match read_peer(alloc, &bytes, Role::Sp) {
        Ok(peer) => Ok(peer),
        Err(MetaFault::NoMemory) => Err(SetupFault::NoMemory),
        Err(_) => Err(SetupFault::bad_file(alloc, name, 0)),
    }
}

/// The users.
pub(crate) fn read_user_file<F: Files>(
    alloc: Global,
    files: &mut F,
    name: &str,
) -> Result<Users, SetupFault>
    ensures ok { IfOk result ((text_of MAX_USERS_LENGTH users name.now).gives (F.holds files.old)) }
    ensures err { IfErr result (IsFaultOf ((text_of MAX_USERS_LENGTH users name.now).fails (F.holds files.old)) (F.faults_of files.old) (F.faults_of files.new)) }
    ensures same { F.holds files.new ≡ F.holds files.old }
    ensures never_falls { F.faults_of files.old ≤ F.faults_of files.new }
{
    let bytes = read_whole(alloc, files, name, MAX_USERS_LENGTH as u64)?;
    match read_users(alloc, &bytes) {
        Ok(users) => Ok(users),
        Err(UserFault::Line(line)) => Err(SetupFault::bad_file(alloc, name, u64::from(line))),
        Err(UserFault::NoMemory) => Err(SetupFault::NoMemory),
    }
}

/// A peer: its metadata and its keys, in the order in which the line of the config names them.
///
/// # Errors
///
/// `BadFile` tells the first of these files that can't be used, with line 0. `ReadFault` comes only where the files' count
/// of faults rose; `NoMemory` may come in place of any other answer.
pub fn read_peer_files<F: Files>(
    alloc: Global,
    files: &mut F,
    names: &PeerFiles,
) -> Result<LogoutPeer, SetupFault>
    ensures ok { IfOk result ((peer_of names.now).gives (F.holds files.old)) }
    ensures err { IfErr result (IsFaultOf ((peer_of names.now).fails (F.holds files.old)) (F.faults_of files.old) (F.faults_of files.new)) }
    ensures same { F.holds files.new ≡ F.holds files.old }
    ensures never_falls { F.faults_of files.old ≤ F.faults_of files.new }
{
    let peer = read_metadata(alloc, files, names.metadata.as_str())?;
    let key_in = read_key(alloc, files, names.key_in.as_str())?;
    let key_out = read_key(alloc, files, names.key_out.as_str())?;
    Ok(LogoutPeer {
        peer,
        key_in,
        key_out,
    })
}
