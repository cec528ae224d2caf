// Rules, and whether one decides.

ghost use Rattle.std.specs.Prelude.{◌≡◌, [], ◌∷◌, ◌++◌, OnOk, length};
ghost use Rattle.std.specs.List.{list_all, list_any};
ghost use Rattle.std.specs.Str.{bytes_eq};
ghost use Rattle.access_policy.specs.Decide as spec;

use owned_values::{Attribute, NoMemory, Text};
use std::alloc::Global;
use std::marker::Model;

/// The most rules that a policy may have.
pub const MAX_RULES: usize = 1024;

/// The most conditions that a rule may have.
pub const MAX_CONDITIONS: usize = 16;

/// The most bytes that the name of a rule may have.
pub const MAX_NAME_LENGTH: usize = 32;

/// What a rule asks of a session. Names and values compare byte by byte.
#[derive(Debug, Drop)]
pub(crate) enum Condition {
    /// An attribute of this name has this value.
    Has { attribute: Text, value: Text },
    /// No attribute of this name has this value.
    Lacks { attribute: Text, value: Text },
    /// The user has this name.
    User { name: Text },
}

/// Conditions in their order.
#[derive(Debug, Drop)]
pub(crate) struct Conditions {
    items: Vec<Condition>,
}

impl Model for Conditions {
    ghost use Rattle.std.specs.Prelude.{List};
    ghost use Rattle.access_policy.specs.declared.rule.Condition.{Condition};

    ghost Value = { List Condition };

    ghost view = { λ c. c.items.items };
}

/// The paths that a rule is for.
#[derive(Debug, Drop)]
pub(crate) struct Pattern {
    /// The path, or what a path begins with.
    pub path: Text,
    /// Whether the rule is for each path that begins with `path`.
    pub is_prefix: bool,
}

/// A rule.
#[derive(Debug, Drop)]
pub(crate) struct Rule {
    /// The name by which the rule is told to a reader.
    pub name: Text,
    /// Whether it lets a request through, or refuses it.
    pub allows: bool,
    /// The paths that it is for.
    pub pattern: Pattern,
    /// What it asks of the session. All of these have to hold.
    pub conditions: Conditions,
}

/// Whether the value is one of these.
fn is_among(values: &[Text], value: &str) -> bool
    ensures { result ≡ list_any (λ other. bytes_eq other value.now) values.now }
{
    values.iter().any(|other| other.as_str() == value)
}

/// Whether the attribute has this name and this value.
fn states(attribute: &Attribute, name: &str, value: &str) -> bool
    ensures { result ≡ spec.states name.now value.now attribute.now }
{
    attribute.name.as_str() == name && is_among(attribute.values.as_slice(), value)
}

/// Whether an attribute of this name has this value.
fn has_value(attributes: &[Attribute], name: &str, value: &str) -> bool
    ensures { result ≡ list_any (spec.states name.now value.now) attributes.now }
{
    attributes
        .iter()
        .any(|attribute| states(attribute, name, value))
}

impl Condition {
    /// Whether a session of this user with these attributes fulfils it.
    fn holds(&self, name: &str, attributes: &[Attribute]) -> bool
        ensures { result ≡ spec.holds name.now attributes.now self.now }
    {
        match self {
            Condition::Has { attribute, value } => {
                has_value(attributes, attribute.as_str(), value.as_str())
            }
            Condition::Lacks { attribute, value } => {
                !has_value(attributes, attribute.as_str(), value.as_str())
            }
            Condition::User { name: user } => user.as_str() == name,
        }
    }
}

impl Conditions {
    /// No condition. It takes no memory.
    pub(crate) fn new(alloc: Global) -> Conditions
        ensures { result ≡ [] }
    {
        Conditions {
            items: Vec::new(alloc),
        }
    }

    /// How many there are.
    pub(crate) fn len(&self) -> usize
        ensures { result ≡ length self.now }
    {
        self.items.len()
    }

    /// Puts a condition at the end.
    pub(crate) fn push(&mut self, condition: Condition) -> Result<(), NoMemory>
        ensures { OnOk result (self.new ≡ self.old ++ condition ∷ []) }
    {
        self.items.push(condition)?;
        Ok(())
    }

    /// Whether all hold.
    fn all_hold(&self, name: &str, attributes: &[Attribute]) -> bool
        ensures { result ≡ list_all (spec.holds name.now attributes.now) self.now }
    {
        self.items
            .iter()
            .all(|condition| condition.holds(name, attributes))
    }
}

impl Pattern {
    /// Whether it is for this path.
    fn matches(&self, path: &str) -> bool
        ensures { result ≡ spec.matches path.now self.now }
    {
        if self.is_prefix {
            path.as_bytes().starts_with(self.path.as_str().as_bytes())
        } else {
            self.path.as_str() == path
        }
    }
}

impl Rule {
    /// Whether the rule is for this path, and all its conditions hold.
    pub(crate) fn decides(&self, path: &str, name: &str, attributes: &[Attribute]) -> bool
        ensures { result ≡ spec.decides path.now name.now attributes.now self.now }
    {
        self.pattern.matches(path) && self.conditions.all_hold(name, attributes)
    }
}
