//! What an identity provider's ledger records of a logout that asks each provider in turn (SAML Profiles, 4.4.3.3).
ghost use Rattle.std.specs.Prelude.{◌≡◌, ◌∷◌, map};
ghost use Rattle.ledger_records.specs.declared.idp_record.IdpRecord.TheVariants as kinds;
ghost use Rattle.ledger_records.specs.Reading.{Reads, record_in, idp_forms};
ghost use Rattle.ledger_records.specs.IdpRecord.{idp_parts};
ghost use Rattle.ledger_records.specs.Writing.{field_view};

use crate::reading::{Fields, Unread};
use crate::writing::Field;
use logout_turns::{Asker, Turns};
use owned_values::{Text, Texts};

/// A round was begun: sessions were ended, and the provider of the first turn is asked for a logout (SAML Core, 3.7.1).
#[derive(Debug, Drop)]
pub struct Round {
    /// The number that the ID of the answer has; the request has the next one.
    pub first: u64,
    /// When it was recorded, in milliseconds since 1970-01-01T00:00:00Z, as each moment here.
    pub moment: u64,
    /// The moment until which answers are accepted.
    pub until: u64,
    /// The ID of the answer that the asker gets in the end.
    pub message: Text,
    /// The ID of the request to the provider of the first turn.
    pub request: Text,
    /// The cookies of the sessions that were ended.
    pub cookies: Texts,
    /// The provider that asked for the logout; none where the user did.
    pub asker: Option<Asker>,
    /// The providers to ask.
    pub turns: Turns,
    /// Whether there are others that can't be asked.
    pub skipped: bool,
}

/// The provider of a turn answered, and where a turn is left the next one is asked (SAML Core, 3.7.2).
#[derive(Debug, Drop)]
pub struct Told {
    /// The number that the ID of the next request has; 0 where there is none.
    pub first: u64,
    /// When it was recorded.
    pub moment: u64,
    /// The ID of the request that was answered.
    pub request: Text,
    /// Whether the answer confirms the logout (SAML Core, 3.2.2.2, Success).
    pub confirmed: bool,
    /// The ID of the request to the provider of the next turn, where one is left.
    pub next: Option<Text>,
}

impl Round {
    pub(crate) fn fields(&self) -> [Field<'_>; 9]
        ensures { map field_view result ≡ (idp_parts (kinds.Round self.now)).1 }
    {
        [
            Field::Number(self.first),
            Field::Number(self.moment),
            Field::Number(self.until),
            Field::Text(&self.message),
            Field::Text(&self.request),
            Field::Texts(&self.cookies),
            Field::Asker(&self.asker),
            Field::Turns(&self.turns),
            Field::Flag(self.skipped),
        ]
    }

    pub(crate) fn read(mut fields: Fields<'_>) -> Result<Round, Unread>
        ensures { Reads (λ r. idp_parts (kinds.Round r)) result (record_in idp_forms (17 ∷ fields.entry.rest.now)) }
    {
        let first = fields.number()?;
        let moment = fields.number()?;
        let until = fields.number()?;
        let message = fields.text()?;
        let request = fields.text()?;
        let cookies = fields.texts()?;
        let asker = fields.asker()?;
        let turns = fields.turns()?;
        let skipped = fields.flag()?;
        fields.end()?;
        Ok(Round {
            first,
            moment,
            until,
            message,
            request,
            cookies,
            asker,
            turns,
            skipped,
        })
    }
}

impl Told {
    pub(crate) fn fields(&self) -> [Field<'_>; 5]
        ensures { map field_view result ≡ (idp_parts (kinds.Told self.now)).1 }
    {
        [
            Field::Number(self.first),
            Field::Number(self.moment),
            Field::Text(&self.request),
            Field::Flag(self.confirmed),
            Field::Optional(&self.next),
        ]
    }

    pub(crate) fn read(mut fields: Fields<'_>) -> Result<Told, Unread>
        ensures { Reads (λ r. idp_parts (kinds.Told r)) result (record_in idp_forms (18 ∷ fields.entry.rest.now)) }
    {
        let first = fields.number()?;
        let moment = fields.number()?;
        let request = fields.text()?;
        let confirmed = fields.flag()?;
        let next = fields.optional()?;
        fields.end()?;
        Ok(Told {
            first,
            moment,
            request,
            confirmed,
            next,
        })
    }
}
