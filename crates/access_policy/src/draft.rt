// The rules that are read so far.

ghost use Rattle.std.specs.Prelude.{◌≡◌, [], ◌∷◌, ◌++◌, IfOk, length};
ghost use Rattle.access_policy.specs.Rules.{has_rule};

use crate::policy::Policy;
use crate::rule::Rule;
use owned_values::NoMemory;
use std::alloc::Global;
use std::collections::BTreeSet;
use std::marker::Model;

/// Rules in their order, with their names for look-ups, each in the logarithm of how many there are.
#[derive(Drop)]
pub(crate) struct Draft {
    rules: Vec<Rule>,
    names: BTreeSet<String>,
}

impl Model for Draft {
    ghost use Rattle.std.specs.Prelude.{◌≡◌, List, ℕ};
    ghost use Rattle.std.specs.BTreeSet.{contains_text};
    ghost use Rattle.access_policy.specs.declared.rule.Rule.{Rule};
    ghost use Rattle.access_policy.specs.Rules.{has_rule};

    ghost Value = { List Rule };

    ghost view = { λ d. d.rules.items };

    ghost invariant = { λ d. (name : List ℕ) → contains_text d.names name ≡ has_rule d.rules.items name };
}

impl Draft {
    /// No rule. It takes no memory.
    pub(crate) fn new(alloc: Global) -> Draft
        ensures { result ≡ [] }
    {
        Draft {
            rules: Vec::new(alloc),
            names: BTreeSet::new(alloc),
        }
    }

    /// How many rules there are.
    pub(crate) fn len(&self) -> usize
        ensures { result ≡ length self.now }
    {
        self.rules.len()
    }

    /// Whether a rule has this name.
    pub(crate) fn has(&self, name: &str) -> bool
        ensures { result ≡ has_rule self.now name.now }
    {
        self.names.contains(name)
    }

    /// These rules and one more.
    pub(crate) fn with(self, alloc: Global, rule: Rule) -> Result<Draft, NoMemory>
        ensures { IfOk result (λ rules. rules ≡ self ++ rule ∷ []) }
    {
        let Draft {
            mut rules,
            mut names,
        } = self;
        names.insert(String::from_str(alloc, rule.name.as_str())?)?;
        rules.push(rule)?;
        Ok(Draft { rules, names })
    }

    /// The policy of these rules.
    pub(crate) fn finish(self) -> Policy
        ensures { result ≡ self }
    {
        let Draft { rules, names: _ } = self;
        Policy::of(rules)
    }
}
