// A user, and whether a password is its own.

ghost use Rattle.std.specs.Prelude.{◌≡◌, ◌≤◌};
ghost use Rattle.user_store.specs.Store.{is_password};

use hmac_sha256::{pbkdf2, same_tag};
use owned_values::{Attributes, Blob, Text};

/// The bytes of a PBKDF2 value.
pub(crate) const VALUE_LENGTH: usize = 32;

/// A user: its name, and the attributes that are stated of it, in the order of their lines.
#[derive(Debug, Drop)]
pub struct User {
    /// The name that the user logs in by.
    pub name: Text,
    /// The attributes, in the order of their lines.
    pub attributes: Attributes,
    pub(crate) salt: Blob,
    pub(crate) rounds: u32,
    pub(crate) value: [u8; VALUE_LENGTH],
}

impl User {
    /// Whether the user has the value that PBKDF2 gives for this password.
    pub(crate) fn has_password(&self, password: &[u8]) -> bool
        requires { 1 ≤ self.now.rounds }
        ensures { result ≡ is_password password.now self.now }
    {
        same_tag(
            &pbkdf2(password, self.salt.as_slice(), self.rounds),
            &self.value,
        )
    }
}
