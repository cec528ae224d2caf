// What is found in the lines of a config so far.

ghost use Rattle.std.specs.Prelude.{◌≡◌, ◌≤◌, ◌*◌, [], ◌∷◌, ◌++◌, IfOk, IfSome, IsTrue, OnOk};
ghost use Rattle.std.specs.Option.{option_map};
ghost use Rattle.xml_spec.specs.Characters.{IsText};
ghost use Rattle.provider_config.specs.Config as spec;
ghost use Rattle.provider_config.specs.Drafts as drafts;

use crate::config::{
    AskedLine, FileRole, NamedFile, OpenedLine, RegistryLine, SpFile, SpLines, Times,
};
use crate::line::{MILLIS, MOST_SKEW, SpLine};
use owned_values::{NoMemory, Text};
use std::alloc::Global;
use std::marker::Model;

impl FileRole {
    /// Whether the two are one.
    fn is(self, other: FileRole) -> bool
        ensures { result ≡ spec.same_role self other }
    {
        matches!(
            (self, other),
            (FileRole::Idp, FileRole::Idp)
                | (FileRole::KeyIn, FileRole::KeyIn)
                | (FileRole::KeyOut, FileRole::KeyOut)
                | (FileRole::IdKey, FileRole::IdKey)
                | (FileRole::NextIn, FileRole::NextIn)
                | (FileRole::Policy, FileRole::Policy)
        )
    }
}

impl SpFile {
    /// What the file tells; a registry tells what metadata does.
    fn role(&self) -> FileRole
        ensures { result ≡ spec.role_of self.now }
    {
        match self {
            SpFile::One(file) => file.role,
            SpFile::Registry(_) => FileRole::Idp,
        }
    }
}

impl RegistryLine {
    /// The same line.
    fn copy(&self) -> Result<RegistryLine, NoMemory>
        ensures { IfOk result (λ line. line ≡ self.now) }
    {
        Ok(RegistryLine {
            file: self.file.copy()?,
            key: self.key.copy()?,
            entity: self.entity.copy()?,
        })
    }
}

/// One file of this role.
fn one(role: FileRole, name: &Text) -> Result<Option<SpFile>, NoMemory>
    ensures { IfOk result (λ file. file ≡ spec.one role name.now) }
{
    let name = name.copy()?;
    Ok(Some(SpFile::One(NamedFile { role, name })))
}

impl SpLine {
    /// What the line names; none where it names no file.
    pub(crate) fn file(&self) -> Result<Option<SpFile>, NoMemory>
        ensures { IfOk result (λ file. file ≡ spec.file self.now) }
    {
        match self {
            SpLine::Idp(name) => one(FileRole::Idp, name),
            SpLine::KeyIn(name) => one(FileRole::KeyIn, name),
            SpLine::KeyOut(name) => one(FileRole::KeyOut, name),
            SpLine::IdKey(name) => one(FileRole::IdKey, name),
            SpLine::NextIn { file, .. } => one(FileRole::NextIn, file),
            SpLine::Policy(name) => one(FileRole::Policy, name),
            SpLine::Registry(line) => Ok(Some(SpFile::Registry(line.copy()?))),
            _ => Ok(None),
        }
    }
}

/// Whether a file of this role is named.
fn has_file(files: &[SpFile], role: FileRole) -> bool
    ensures { result ≡ spec.has_file role files.now }
{
    files.iter().any(|file| file.role().is(role))
}

/// Whether the files are named that each config names.
fn has_files(files: &[SpFile]) -> bool
    ensures { result ≡ spec.has_files files.now }
{
    has_file(files, FileRole::Idp)
        && has_file(files, FileRole::KeyIn)
        && has_file(files, FileRole::KeyOut)
        && has_file(files, FileRole::IdKey)
}

/// What is found so far.
#[derive(Drop)]
pub(crate) struct Draft {
    entity: Option<Text>,
    base: Option<Text>,
    listen: Option<Text>,
    skew: Option<u64>,
    files: Vec<SpFile>,
    next_in: Option<Times>,
    guard: bool,
    asked: Vec<AskedLine>,
    opened: Vec<OpenedLine>,
}

impl Model for Draft {
    ghost use Rattle.std.specs.Prelude.{◌≤◌, ◌*◌};
    ghost use Rattle.std.specs.Option.{ForSome};
    ghost use Rattle.xml_spec.specs.Characters.{IsText};
    ghost use Rattle.provider_config.specs.Config as spec;
    ghost use Rattle.provider_config.specs.Drafts as drafts;
    ghost use Rattle.provider_config.specs.declared.line.TheConstants.{MILLIS, MOST_SKEW};

    ghost Value = { drafts.Found };

    ghost view = { λ d. record {
      entity = d.entity;
      base = d.base;
      listen = d.listen;
      skew = d.skew;
      files = d.files.items;
      next_in = d.next_in;
      guard = d.guard;
      asked = d.asked.items;
      opened = d.opened.items;
    } };

    ghost invariant = { λ d. ForSome d.entity IsText × ForSome d.base IsText × ForSome d.listen IsText
        × ForSome d.skew (λ milliseconds. milliseconds ≤ MILLIS * MOST_SKEW) × ForSome d.next_in spec.AreInOrder };
}

impl Draft {
    /// Nothing is found.
    pub(crate) fn new(alloc: Global) -> Draft
        ensures { result ≡ drafts.found [] }
    {
        Draft {
            entity: None,
            base: None,
            listen: None,
            skew: None,
            files: Vec::new(alloc),
            next_in: None,
            guard: false,
            asked: Vec::new(alloc),
            opened: Vec::new(alloc),
        }
    }

    /// Whether the key of the line was found, and stands once.
    pub(crate) fn stands(&self, line: &SpLine) -> bool
        ensures { result ≡ drafts.stands line.now self.now }
    {
        match line {
            SpLine::Entity(_) => self.entity.is_some(),
            SpLine::Base(_) => self.base.is_some(),
            SpLine::Listen(_) => self.listen.is_some(),
            SpLine::Idp(_) | SpLine::Registry(_) => {
                has_file(self.files.as_slice(), FileRole::Idp)
            }
            SpLine::KeyIn(_) => has_file(self.files.as_slice(), FileRole::KeyIn),
            SpLine::KeyOut(_) => has_file(self.files.as_slice(), FileRole::KeyOut),
            SpLine::IdKey(_) => has_file(self.files.as_slice(), FileRole::IdKey),
            SpLine::Skew(_) => self.skew.is_some(),
            SpLine::NextIn { .. } => self.next_in.is_some(),
            SpLine::Policy(_) => has_file(self.files.as_slice(), FileRole::Policy),
            SpLine::Guard => self.guard,
            SpLine::Asked(_) | SpLine::Opened(_) => false,
        }
    }

    /// A file is named.
    fn name_file(&mut self, role: FileRole, name: Text) -> Result<(), NoMemory>
        ensures { OnOk result (self.new ≡ record self.old { files = self.old.files ++ SpFile.One (record { role = role; name = name }) ∷ [] }) }
    {
        self.files.push(SpFile::One(NamedFile { role, name }))?;
        Ok(())
    }

    /// The line is found too.
    pub(crate) fn take(&mut self, line: SpLine) -> Result<(), NoMemory>
        requires { spec.IsSound line }
        ensures { OnOk result (self.new ≡ drafts.taken line self.old) }
    {
        match line {
            SpLine::Entity(name) => self.entity = Some(name),
            SpLine::Base(address) => self.base = Some(address),
            SpLine::Listen(place) => self.listen = Some(place),
            SpLine::Idp(name) => self.name_file(FileRole::Idp, name)?,
            SpLine::KeyIn(name) => self.name_file(FileRole::KeyIn, name)?,
            SpLine::KeyOut(name) => self.name_file(FileRole::KeyOut, name)?,
            SpLine::IdKey(name) => self.name_file(FileRole::IdKey, name)?,
            SpLine::Skew(milliseconds) => self.skew = Some(milliseconds),
            SpLine::NextIn { file, times } => {
                self.next_in = Some(times);
                self.name_file(FileRole::NextIn, file)?;
            }
            SpLine::Policy(name) => self.name_file(FileRole::Policy, name)?,
            SpLine::Registry(line) => self.files.push(SpFile::Registry(line))?,
            SpLine::Guard => self.guard = true,
            SpLine::Asked(row) => self.asked.push(row)?,
            SpLine::Opened(row) => self.opened.push(row)?,
        }
        Ok(())
    }

    /// The lines of the config; none where a key is missing.
    pub(crate) fn complete(self) -> Option<SpLines>
        ensures value { option_map spec.config_view result ≡ drafts.complete self }
        ensures skew { IfSome result (λ lines. lines.skew ≤ MILLIS * MOST_SKEW) }
        ensures times { IfSome result (λ lines. IfSome lines.next_in spec.AreInOrder) }
        ensures texts { IfSome result (λ lines. IsText lines.entity × IsText lines.base × IsText lines.listen) }
        ensures files { IfSome result (λ lines. IsTrue (spec.has_files lines.files.items)) }
    {
        let Draft {
            entity,
            base,
            listen,
            skew,
            files,
            next_in,
            guard,
            asked,
            opened,
        } = self;
        if !has_files(files.as_slice()) {
            return None;
        }
        Some(SpLines {
            entity: entity?,
            base: base?,
            listen: listen?,
            skew: skew?,
            files,
            next_in,
            guard,
            asked,
            opened,
        })
    }
}
