// What the files that a config names hold.

ghost use Rattle.std.specs.Bool.{MatchBool};
ghost use Rattle.std.specs.Prelude.{◌≡◌, ◌<◌, ◌≤◌, length, Some, IfOk, IfErr, OnOk, MatchOption};
ghost use Rattle.xml_spec.specs.declared.TheConstants.{MAX_DOCUMENT_LENGTH};
ghost use Rattle.sp_setup.specs.Faults.{IsFaultOf};
ghost use Rattle.sp_setup.specs.Files.{whole, in_order, key_file};
ghost use Rattle.sp_setup.specs.Setup.{nothing, load_file, load_registry, load};
ghost use Rattle.sp_setup.specs.Views.{limit_of, Loads, IsUnusable, IsUnlisted, TakesProvider};

use crate::fault::SetupFault;
use crate::limits::{GREATEST_KEY, ID_KEY, LEAST_KEY};
use crate::source::source_of;
use access_policy::{MAX_POLICY_LENGTH, Policy, PolicyFault, read_policy};
use metadata::{MetaFault, Peer, Role, read_peer};
use provider_config::{FileRole, NamedFile, RegistryLine, SpFile};
use saml_outside::{Blob, Files, NoMemory, read_file};
use std::alloc::Global;
use xml_spec::MAX_DOCUMENT_LENGTH;

/// What the files of a config hold, as far as they were read.
#[derive(Debug, Drop)]
pub struct Loaded {
    /// The identity provider.
    pub idp: Option<Peer>,
    /// The key of its messages.
    pub key_in: Option<Blob>,
    /// The key that takes over from it.
    pub next_in: Option<Blob>,
    /// The key of the provider's own messages.
    pub key_out: Option<Blob>,
    /// The key from which its IDs are made.
    pub id_key: Option<[u8; 32]>,
    /// The rules that say who may see which page.
    pub policy: Option<Policy>,
    /// The moment at which the registry ends that lists the identity provider, in milliseconds since 1970.
    pub expiry: Option<u64>,
}

/// The most bytes that a file of this role may have.
fn limit_of(role: FileRole) -> u64
    ensures { result ≡ limit_of role }
{
    match role {
        FileRole::Idp => MAX_DOCUMENT_LENGTH as u64,
        FileRole::Policy => MAX_POLICY_LENGTH as u64,
        FileRole::KeyIn | FileRole::NextIn | FileRole::KeyOut | FileRole::IdKey => GREATEST_KEY,
    }
}

/// Takes a key of messages; what of it can't be used.
fn take_key(alloc: Global, bytes: &[u8], key: &mut Option<Blob>) -> Result<Option<u64>, NoMemory>
    ensures { IfOk result (λ bad. MatchOption bad ((LEAST_KEY ≤ length bytes.now) × (key.new ≡ Some bytes.now)) (λ line. (line ≡ 0) × (length bytes.now < LEAST_KEY))) }
{
    if bytes.len() < LEAST_KEY {
        return Ok(Some(0));
    }
    *key = Some(Blob::of(alloc, bytes)?);
    Ok(None)
}

/// The bytes of a file, which has to be there and may have at most `limit` of them.
///
/// Errors: `BadFile` with line 0, `ReadFault` only where the files' count of faults rose, `NoMemory`.
pub fn read_whole<F: Files>(
    alloc: Global,
    files: &mut F,
    name: &str,
    limit: u64,
) -> Result<Vec<u8>, SetupFault>
    ensures ok { IfOk result (λ bytes. (whole limit name.now).gives (F.holds files.old) bytes.items) }
    ensures err { IfErr result (IsFaultOf ((whole limit name.now).fails (F.holds files.old)) (F.faults_of files.old) (F.faults_of files.new)) }
    ensures same { F.holds files.new ≡ F.holds files.old }
    ensures never_falls { F.faults_of files.old ≤ F.faults_of files.new }
{
    match read_file(alloc, files, name, limit)? {
        Some(bytes) => Ok(bytes),
        None => Err(SetupFault::bad_file(alloc, name, 0)),
    }
}

/// The key in a file, which has to be there and has to have 16 bytes at least.
fn read_key<F: Files>(alloc: Global, files: &mut F, name: &str) -> Result<Vec<u8>, SetupFault>
    ensures ok { IfOk result (λ key. (key_file name.now).gives (F.holds files.old) key.items) }
    ensures err { IfErr result (IsFaultOf ((key_file name.now).fails (F.holds files.old)) (F.faults_of files.old) (F.faults_of files.new)) }
    ensures same { F.holds files.new ≡ F.holds files.old }
    ensures never_falls { F.faults_of files.old ≤ F.faults_of files.new }
{
    let key = read_whole(alloc, files, name, GREATEST_KEY)?;
    if key.len() < LEAST_KEY {
        return Err(SetupFault::bad_file(alloc, name, 0));
    }
    Ok(key)
}

impl Loaded {
    /// Nothing is read yet.
    pub fn nothing() -> Loaded
        ensures { result ≡ nothing }
    {
        Loaded {
            idp: None,
            key_in: None,
            next_in: None,
            key_out: None,
            id_key: None,
            policy: None,
            expiry: None,
        }
    }

    /// Takes the metadata of the identity provider; what of it can't be used.
    fn take_metadata(&mut self, alloc: Global, bytes: &[u8]) -> Result<Option<u64>, NoMemory>
        requires { length bytes.now ≤ MAX_DOCUMENT_LENGTH }
        ensures { IfOk result (λ bad. MatchOption bad (Loads FileRole.Idp bytes.now self.old self.new) (IsUnusable FileRole.Idp bytes.now)) }
    {
        match read_peer(alloc, bytes, Role::Idp) {
            Ok(peer) => {
                self.idp = Some(peer);
                Ok(None)
            }
            Err(MetaFault::NoMemory) => Err(NoMemory),
            Err(_) => Ok(Some(0)),
        }
    }

    /// Takes the key from which IDs are made; what of it can't be used.
    fn take_id_key(&mut self, bytes: &[u8]) -> Option<u64>
        ensures { MatchOption result (Loads FileRole.IdKey bytes.now self.old self.new) (IsUnusable FileRole.IdKey bytes.now) }
    {
        if bytes.len() != ID_KEY {
            return Some(0);
        }
        let mut key = [0; ID_KEY];
        key.copy_from_slice(bytes);
        self.id_key = Some(key);
        None
    }

    /// Takes a policy; the first line of it that can't be used.
    fn take_policy(&mut self, alloc: Global, bytes: &[u8]) -> Result<Option<u64>, NoMemory>
        requires { length bytes.now ≤ MAX_POLICY_LENGTH }
        ensures { IfOk result (λ bad. MatchOption bad (Loads FileRole.Policy bytes.now self.old self.new) (IsUnusable FileRole.Policy bytes.now)) }
    {
        match read_policy(alloc, bytes) {
            Ok(policy) => {
                self.policy = Some(policy);
                Ok(None)
            }
            Err(PolicyFault::Line(line)) => Ok(Some(u64::from(line))),
            Err(PolicyFault::NoMemory) => Err(NoMemory),
        }
    }

    /// Takes what the file of a role holds; the line of it that can't be used, 0 for the whole file.
    fn take(&mut self, alloc: Global, role: FileRole, bytes: &[u8]) -> Result<Option<u64>, NoMemory>
        requires { length bytes.now ≤ limit_of role }
        ensures { IfOk result (λ bad. MatchOption bad (Loads role bytes.now self.old self.new) (IsUnusable role bytes.now)) }
    {
        match role {
            FileRole::Idp => self.take_metadata(alloc, bytes),
            FileRole::KeyIn => take_key(alloc, bytes, &mut self.key_in),
            FileRole::NextIn => take_key(alloc, bytes, &mut self.next_in),
            FileRole::KeyOut => take_key(alloc, bytes, &mut self.key_out),
            FileRole::IdKey => Ok(self.take_id_key(bytes)),
            FileRole::Policy => self.take_policy(alloc, bytes),
        }
    }

    /// Reads one file and takes what it holds.
    fn load_file<F: Files>(
        &mut self,
        alloc: Global,
        files: &mut F,
        named: &NamedFile,
    ) -> Result<(), SetupFault>
        ensures ok { OnOk result ((load_file named.now.role named.now.name self.old).gives (F.holds files.old) self.new) }
        ensures err { IfErr result (IsFaultOf ((load_file named.now.role named.now.name self.old).fails
            (F.holds files.old)) (F.faults_of files.old) (F.faults_of files.new)) }
        ensures same { F.holds files.new ≡ F.holds files.old }
        ensures never_falls { F.faults_of files.old ≤ F.faults_of files.new }
    {
        let name = named.name.as_str();
        let bytes = read_whole(alloc, files, name, limit_of(named.role))?;
        match self.take(alloc, named.role, &bytes)? {
            None => Ok(()),
            Some(line) => Err(SetupFault::bad_file(alloc, name, line)),
        }
    }

    /// Takes the identity provider that a registry lists; whether it lists it.
    fn take_provider(
        &mut self,
        alloc: Global,
        bytes: &[u8],
        key: &[u8],
        entity: &str,
    ) -> Result<bool, NoMemory>
        requires { length bytes.now ≤ MAX_DOCUMENT_LENGTH }
        ensures { IfOk result (λ good. MatchBool good (TakesProvider bytes.now key.now entity.now self.old self.new) (IsUnlisted bytes.now key.now entity.now)) }
    {
        match source_of(alloc, bytes, key, entity)? {
            Some(source) => {
                self.idp = Some(source.peer);
                self.expiry = Some(source.valid_until);
                Ok(true)
            }
            None => Ok(false),
        }
    }

    /// Reads the two files of a registry, and takes the identity provider that it lists.
    fn load_registry<F: Files>(
        &mut self,
        alloc: Global,
        files: &mut F,
        line: &RegistryLine,
    ) -> Result<(), SetupFault>
        ensures ok { OnOk result ((load_registry line.now self.old).gives (F.holds files.old) self.new) }
        ensures err { IfErr result (IsFaultOf ((load_registry line.now self.old).fails (F.holds files.old)) (F.faults_of files.old) (F.faults_of files.new)) }
        ensures same { F.holds files.new ≡ F.holds files.old }
        ensures never_falls { F.faults_of files.old ≤ F.faults_of files.new }
    {
        let limit = MAX_DOCUMENT_LENGTH as u64;
        let bytes = read_whole(alloc, files, line.file.as_str(), limit)?;
        let key = read_key(alloc, files, line.key.as_str())?;
        if self.take_provider(alloc, &bytes, &key, line.entity.as_str())? {
            Ok(())
        } else {
            Err(SetupFault::bad_file(alloc, line.file.as_str(), 0))
        }
    }

    /// Reads what a line names and takes what it holds.
    ///
    /// `BadFile` tells the file that can't be used, with the line of a policy that is bad, else 0. `ReadFault` comes only where
    /// the files' count of faults rose; want of memory may come in place of any other answer. Where it fails, what was read
    /// before is as it was or lost.
    pub fn load<F: Files>(
        &mut self,
        alloc: Global,
        files: &mut F,
        named: &SpFile,
    ) -> Result<(), SetupFault>
        ensures ok { OnOk result ((load named.now self.old).gives (F.holds files.old) self.new) }
        ensures err { IfErr result (IsFaultOf ((load named.now self.old).fails (F.holds files.old)) (F.faults_of files.old) (F.faults_of files.new)) }
        ensures same { F.holds files.new ≡ F.holds files.old }
        ensures never_falls { F.faults_of files.old ≤ F.faults_of files.new }
    {
        match named {
            SpFile::One(file) => self.load_file(alloc, files, file),
            SpFile::Registry(line) => self.load_registry(alloc, files, line),
        }
    }

    /// Reads the files in order and takes what they hold, or tells the first that can't be used.
    pub(crate) fn of_files<F: Files>(
        alloc: Global,
        files: &mut F,
        named: &[SpFile],
    ) -> Result<Loaded, SetupFault>
        ensures ok { IfOk result ((in_order load named.now nothing).gives (F.holds files.old)) }
        ensures err { IfErr result (IsFaultOf ((in_order load named.now nothing).fails (F.holds files.old)) (F.faults_of files.old) (F.faults_of files.new)) }
        ensures same { F.holds files.new ≡ F.holds files.old }
        ensures never_falls { F.faults_of files.old ≤ F.faults_of files.new }
    {
        let mut loaded = Loaded::nothing();
        for file in named {
            loaded.load(alloc, files, file)?;
        }
        Ok(loaded)
    }
}
