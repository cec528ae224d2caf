//! Which key of an identity provider verified a login.
ghost use Rattle.std.specs.Prelude.{◌≡◌, MatchOption};
ghost use Rattle.ledger_records.specs.declared.key_number.KeyNumber.{KeyNumber};
ghost use Rattle.ledger_records.specs.Fields.{key_byte};

/// The number of a key.
#[derive(Clone, Copy, Debug, PartialEq, Eq)]
pub enum KeyNumber {
    /// The key that the config names first.
    First,
    /// The key that follows it.
    Second,
}

impl KeyNumber {
    /// The key of this number, 1 or 2; none where it is another one.
    pub fn of(number: u8) -> Option<KeyNumber>
        ensures { MatchOption result ((key : KeyNumber) → ¬ (key_byte key ≡ number)) (λ key. key_byte key ≡ number) }
    {
        match number {
            1 => Some(KeyNumber::First),
            2 => Some(KeyNumber::Second),
            _ => None,
        }
    }

    /// The number, 1 or 2.
    pub fn number(self) -> u8
        ensures { result ≡ key_byte self }
    {
        match self {
            KeyNumber::First => 1,
            KeyNumber::Second => 2,
        }
    }
}
