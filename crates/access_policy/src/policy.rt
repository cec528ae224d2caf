//! A policy, and what it decides.
ghost use Rattle.std.specs.Prelude.{◌≡◌, find};
ghost use Rattle.std.specs.Option.{option_copied};
ghost use Rattle.access_policy.specs.Decide as spec;

use crate::rule::Rule;
use owned_values::{Attribute, Attributes};
use std::marker::Model;

/// Rules in their order.
#[derive(Debug, Drop)]
pub struct Policy {
    rules: Vec<Rule>,
}

impl Model for Policy {
    ghost use Rattle.std.specs.Prelude.{List};
    ghost use Rattle.access_policy.specs.declared.rule.Rule.{Rule};

    ghost Value = { List Rule };

    ghost view = { λ p. p.rules.items };
}

/// What a policy decides, and the name of the rule that decides it, or `default`.
#[derive(Clone, Copy, Debug, PartialEq, Eq)]
pub struct Decision<'p> {
    /// Whether the rule lets the request through.
    pub allowed: bool,
    /// The name of the rule that decides, or `default` where none does.
    pub rule: &'p str,
}

/// The first of these rules that decides.
fn first_that_decides<'p>(
    rules: &'p [Rule],
    path: &str,
    name: &str,
    attributes: &[Attribute],
) -> Option<&'p Rule>
    ensures { option_copied result ≡ find (spec.decides path.now name.now attributes.now) rules.now }
{
    rules
        .iter()
        .find(|rule| rule.decides(path, name, attributes))
}

impl Policy {
    /// The policy of these rules, in their order.
    pub(crate) fn of(rules: Vec<Rule>) -> Policy
        ensures { result ≡ rules.items }
    {
        Policy { rules }
    }

    /// What the first rule decides that is for this path and whose conditions all hold; without one, `default` denies.
    /// It takes no memory, and its time goes with the policy and the attributes.
    pub fn decide<'p>(&'p self, path: &str, name: &str, attributes: &Attributes) -> Decision<'p>
        ensures { spec.decision_view result ≡ spec.decide self.now path.now name.now attributes.now }
    {
        match first_that_decides(self.rules.as_slice(), path, name, attributes.as_slice()) {
            Some(rule) => Decision {
                allowed: rule.allows,
                rule: rule.name.as_str(),
            },
            None => Decision {
                allowed: false,
                rule: "default",
            },
        }
    }
}
