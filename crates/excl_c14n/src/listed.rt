//! The prefixes of a PrefixList.
ghost use Rattle.std.specs.Prelude.{◌≡◌, ◌==◌, length, map, IfOk};
ghost use Rattle.xml_spec.specs.Canonical.{listed_prefix};
ghost use Rattle.excl_c14n.specs.Levels.{is_among};

use namespace_scope::Scope;
use owned_values::{NoMemory, Texts};
use std::alloc::Global;
use std::marker::Model;

/// The PrefixList of InclusiveNamespaces (Exclusive C14N 1.0, 3).
#[derive(Drop)]
pub(crate) struct Listed<'d> {
    tokens: &'d Texts,
    /// The prefixes of the tokens, which are only looked up here.
    prefixes: Scope<'d>,
}

impl<'d> Model for Listed<'d> {
    ghost use Rattle.std.specs.Prelude.{List, ℕ};
    ghost use Rattle.excl_c14n.specs.Tables.{HasPrefixes};

    ghost Value = { List (List ℕ) };

    ghost view = { λ l. l.tokens.now };

    ghost invariant = { λ l. HasPrefixes l.tokens.now l.prefixes };
}

/// The prefix that a token stands for.
fn prefix_of_token(token: &str) -> &str
    ensures { result.now ≡ listed_prefix token.now }
{
    if token == "#default" { "" } else { token }
}

impl<'d> Listed<'d> {
    /// The list of these tokens.
    pub(crate) fn new(alloc: Global, tokens: &'d Texts) -> Result<Listed<'d>, NoMemory>
        ensures { IfOk result (λ listed. listed ≡ tokens.now) }
    {
        let mut prefixes = Scope::new(alloc);
        prefixes.push()?;
        for i in 0..tokens.len() {
            prefixes.declare(prefix_of_token(tokens.at(i).as_str()), 0)?;
        }
        Ok(Listed { tokens, prefixes })
    }

    /// Whether the list has no token.
    pub(crate) fn is_empty(&self) -> bool
        ensures { result ≡ (length self.now == 0) }
    {
        self.tokens.is_empty()
    }

    /// Whether a token of the list stands for this prefix.
    pub(crate) fn has(&self, prefix: &str) -> bool
        ensures { result ≡ is_among prefix.now (map listed_prefix self.now) }
    {
        self.prefixes.lookup(prefix).is_some()
    }
}
