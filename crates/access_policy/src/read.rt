// A policy is read.

ghost use Rattle.std.specs.Prelude.{◌<◌, ◌≤◌, ◌^◌, [], ◌∷◌, ◌++◌, length};
ghost use Rattle.owned_values.specs.Gives.{Gives};
ghost use Rattle.text_lines.specs.Lines.{with_lines, number_said};
ghost use Rattle.text_lines.specs.Views.{said_view};
ghost use Rattle.access_policy.specs.Rules.{policy, with_rule, fault_of};

use crate::draft::Draft;
use crate::fault::PolicyFault;
use crate::line::rule_of;
use crate::policy::Policy;
use crate::rule::{MAX_RULES, Rule};
use std::alloc::Global;
use text_lines::{Lines, Said};

/// The most bytes that a policy may have.
pub const MAX_POLICY_LENGTH: usize = 262_144;

/// The rule that is said next.
///
/// # Errors
///
/// `Line`, exactly where it is no text, is no rule, has the name of a rule before it, or is one rule too many.
fn next_rule(alloc: Global, draft: &Draft, said: Said<'_>) -> Result<Rule, PolicyFault>
    requires { number_said (said_view said) < 2 ^ 32 }
    ensures { Gives (λ rule. draft.now ++ rule ∷ []) fault_of result (with_lines with_rule draft.now (said_view said.entry ∷ [])) }
{
    match said {
        Said::Line { number, text } => match rule_of(alloc, text)? {
            Some(rule) if draft.len() < MAX_RULES && !draft.has(rule.name.as_str()) => Ok(rule),
            _ => Err(PolicyFault::Line(number as u32)),
        },
        Said::NoText { number } => Err(PolicyFault::Line(number as u32)),
    }
}

/// The policy that a text spells. Time goes with n log n of the text.
///
/// # Errors
///
/// `Line` with the number of the first line that is no text, is no rule, has the name of a rule before it, or is one
/// rule more than [`MAX_RULES`]. `NoMemory` may come in place of any answer.
pub fn read_policy(alloc: Global, text: &[u8]) -> Result<Policy, PolicyFault>
    requires { length text.now ≤ MAX_POLICY_LENGTH }
    ensures { Gives (λ rules. rules) fault_of result (policy text.now) }
{
    let mut draft = Draft::new(alloc);
    let mut lines = Lines::new(text);
    while let Some(said) = lines.next_said() {
        let rule = next_rule(alloc, &draft, said)?;
        draft = draft.with(alloc, rule)?;
    }
    Ok(draft.finish())
}
