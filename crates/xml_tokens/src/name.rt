// Names with the place of their colon.

ghost use Rattle.std.specs.Prelude.{◌≡◌, ◌<◌, ◌≤◌, ◌-◌, length, take, drop, Some, None, is_some};
ghost use Rattle.xml_spec.specs.Characters.{at_colon, prefix_of, local_of, IsName};

use std::marker::Model;

/// How many bytes of a name stand in front of its local part, the colon with them.
fn front_len(name: &str) -> usize
    ensures inside { result ≤ length name.now }
    ensures whole { result ≡ 0 → at_colon name.now ≡ None }
    ensures parts { 0 < result → at_colon name.now ≡ Some (take (result - 1) name.now, drop result name.now) }
{
    for (i, byte) in name.as_bytes().iter().enumerate() {
        if *byte == b':' {
            return i + 1;
        }
    }
    0
}

/// A Name as it is written (XML 1.0, 2.3). Contracts see it as its bytes. Its first colon is looked for once (Namespaces in XML
/// 1.0, 4).
#[derive(Debug, Drop)]
pub struct WrittenName<'a> {
    text: &'a str,
    // how many bytes stand in front of the local part, the colon with them
    front: usize,
}

impl<'a> Model for WrittenName<'a> {
    ghost use Rattle.std.specs.Prelude.{List, ℕ};

    ghost Value = { List ℕ };

    ghost use Rattle.xml_tokens.specs.Names.{IsSplitName};

    ghost view = { λ n. n.text.now };

    ghost invariant = { λ n. IsSplitName n.text.now n.front };
}

impl<'a> WrittenName<'a> {
    /// The name that is written so.
    pub fn new(text: &'a str) -> WrittenName<'a>
        requires { IsName text.now }
        ensures { result ≡ text.now }
    {
        let front = front_len(text);
        WrittenName { text, front }
    }

    /// The whole name.
    pub fn as_str(&self) -> &'a str
        ensures { result.now ≡ self.now }
    {
        self.text
    }

    /// Whether the name has a colon.
    pub fn has_colon(&self) -> bool
        ensures { result ≡ is_some (at_colon self.now) }
    {
        self.front > 0
    }

    /// What stands before the first colon; empty where there is none.
    pub fn prefix(&self) -> &'a str
        ensures { result.now ≡ prefix_of self.now }
    {
        if self.front == 0 {
            return "";
        }
        let text = self.as_str();
        let (prefix, _) = text.split_at(self.front - 1);
        prefix
    }

    /// What stands behind the first colon, or the whole name.
    pub fn local(&self) -> &'a str
        ensures { result.now ≡ local_of self.now }
    {
        let text = self.as_str();
        let (_, local) = text.split_at(self.front);
        local
    }

    /// That it is a Name.
    pub fn is_named(&self)
        ensures { IsName self.now }
    {
        let _ = &self.text;
    }
}
