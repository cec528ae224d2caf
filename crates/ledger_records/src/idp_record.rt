//! What an identity provider's ledger records.
ghost use Rattle.std.specs.Prelude.{◌≡◌, ◌∷◌, ◌<◌, ◌^◌, map, length, IfOk, IfSome, IfNone};
ghost use Rattle.ledger_records.specs.declared.idp_record.IdpRecord.{IdpRecord};
ghost use Rattle.ledger_records.specs.declared.idp_record.IdpRecord.TheVariants as kinds;
ghost use Rattle.ledger_records.specs.Reading.{Reads, record_in, idp_forms};
ghost use Rattle.ledger_records.specs.IdpRecord.{idp_parts, idp_bytes, IsIdpPayload};
ghost use Rattle.ledger_records.specs.Found.{idp_record};
ghost use Rattle.ledger_records.specs.Writing.{field_view, capped};

use crate::idp_round::{Round, Told};
use crate::reading::{Fields, Unread};
use crate::writing::{Field, payload_len_of, payload_of};
use owned_values::{Attributes, Blob, NoMemory, Text, Texts};
use std::alloc::Global;

const PENDING: u8 = 11;

const ISSUED: u8 = 12;

const ENDED: u8 = 13;

const LEFT: u8 = 14;

const CONFIRMED: u8 = 15;

const SPOKE: u8 = 16;

const ROUND: u8 = 17;

const TOLD: u8 = 18;

/// A request for a login came, and the user is asked for a password (SAML Core, 3.4.1).
#[derive(Debug, Drop)]
pub struct Pending {
    /// The number that the ID of this login has.
    pub first: u64,
    /// When it was recorded, in milliseconds since 1970-01-01T00:00:00Z, as each moment here.
    pub moment: u64,
    /// The moment until which the password is accepted.
    pub until: u64,
    /// The ID of this login, which its page holds.
    pub pending: Text,
    /// The ID of the request.
    pub request: Text,
    /// The entity that asked.
    pub peer: Text,
    /// The address to which the answer goes.
    pub consumer: Text,
    /// The relay state of the request, where it has one (SAML Bindings, 3.5.3).
    pub relay: Option<Text>,
}

/// An assertion was issued (SAML Profiles, 4.1.3.5).
#[derive(Debug, Drop)]
pub struct Issued {
    /// The first number drawn: that of the assertion, then that of the message, and where the login was pending those of
    /// the cookie and the index.
    pub first: u64,
    /// When it was recorded.
    pub moment: u64,
    /// The login that was pending; none where the user had a session.
    pub pending: Option<Text>,
    /// The cookie of the session.
    pub cookie: Text,
    /// The index of the session (SAML Core, 2.7.2).
    pub index: Text,
    /// The moment until which the session lives.
    pub session_end: u64,
    /// The ID of the assertion.
    pub assertion: Text,
    /// The ID of the answer in which it went.
    pub message: Text,
    /// The name of the user.
    pub user: Text,
    /// The entity that asked.
    pub peer: Text,
    /// The address to which the answer went.
    pub consumer: Text,
    /// The ID of the request.
    pub request: Text,
    /// The relay state of the request, where it has one (SAML Bindings, 3.5.3).
    pub relay: Option<Text>,
    /// The moment until which the assertion is accepted.
    pub until: u64,
    /// What the assertion states of the user (SAML Core, 2.7.3).
    pub attributes: Attributes,
}

/// A service provider asked for a logout: sessions were ended, and an answer was sent (SAML Core, 3.7.2).
#[derive(Debug, Drop)]
pub struct Ended {
    /// The number that the ID of the answer has.
    pub first: u64,
    /// When it was recorded.
    pub moment: u64,
    /// The cookies of the sessions that were ended.
    pub cookies: Texts,
    /// The ID of the answer.
    pub message: Text,
    /// The ID of the request that it answers.
    pub request: Text,
    /// The entity that asked.
    pub peer: Text,
    /// Whether other participants were not told (SAML Core, 3.2.2.2, PartialLogout).
    pub partial: bool,
}

/// A logout was begun here: a session was ended, and a request was sent to a service provider (SAML Core, 3.7.1).
#[derive(Debug, Drop)]
pub struct Left {
    /// The number that the ID of the request has.
    pub first: u64,
    /// When it was recorded.
    pub moment: u64,
    /// The moment until which an answer is accepted.
    pub until: u64,
    /// The cookie of the session that was ended.
    pub cookie: Text,
    /// The ID of the request.
    pub request: Text,
    /// The entity to which it was sent.
    pub peer: Text,
}

/// A service provider answered a request for a logout. No number is drawn.
#[derive(Debug, Drop)]
pub struct Confirmed {
    /// When it was recorded.
    pub moment: u64,
    /// The ID of the request that was answered.
    pub request: Text,
}

/// An answer without an assertion was sent (SAML Core, 3.2.2).
#[derive(Debug, Drop)]
pub struct Spoke {
    /// The number that the ID of the answer has.
    pub first: u64,
    /// When it was recorded.
    pub moment: u64,
    /// The ID of the answer.
    pub message: Text,
    /// The ID of the request that it answers.
    pub request: Text,
    /// The entity that asked.
    pub peer: Text,
}

/// A record of an identity provider.
#[derive(Debug, Drop)]
pub enum IdpRecord {
    /// A login was begun.
    Pending(Pending),
    /// An assertion was issued.
    Issued(Issued),
    /// A service provider ended sessions.
    Ended(Ended),
    /// A logout was begun here, and one service provider was asked.
    Left(Left),
    /// A service provider answered a request for a logout.
    Confirmed(Confirmed),
    /// An answer without an assertion was sent.
    Spoke(Spoke),
    /// A logout was begun that asks service providers one after another.
    Round(Round),
    /// A service provider that was asked so answered.
    Told(Told),
}

impl Pending {
    fn fields(&self) -> [Field<'_>; 8]
        ensures { map field_view result ≡ (idp_parts (kinds.Pending self.now)).1 }
    {
        [
            Field::Number(self.first),
            Field::Number(self.moment),
            Field::Number(self.until),
            Field::Text(&self.pending),
            Field::Text(&self.request),
            Field::Text(&self.peer),
            Field::Text(&self.consumer),
            Field::Optional(&self.relay),
        ]
    }

    fn read(mut fields: Fields<'_>) -> Result<Pending, Unread>
        ensures { Reads (λ r. idp_parts (kinds.Pending r)) result (record_in idp_forms (11 ∷ fields.entry.rest.now)) }
    {
        let first = fields.number()?;
        let moment = fields.number()?;
        let until = fields.number()?;
        let pending = fields.text()?;
        let request = fields.text()?;
        let peer = fields.text()?;
        let consumer = fields.text()?;
        let relay = fields.optional()?;
        fields.end()?;
        Ok(Pending {
            first,
            moment,
            until,
            pending,
            request,
            peer,
            consumer,
            relay,
        })
    }
}

impl Issued {
    fn fields(&self) -> [Field<'_>; 15]
        ensures { map field_view result ≡ (idp_parts (kinds.Issued self.now)).1 }
    {
        [
            Field::Number(self.first),
            Field::Number(self.moment),
            Field::Optional(&self.pending),
            Field::Text(&self.cookie),
            Field::Text(&self.index),
            Field::Number(self.session_end),
            Field::Text(&self.assertion),
            Field::Text(&self.message),
            Field::Text(&self.user),
            Field::Text(&self.peer),
            Field::Text(&self.consumer),
            Field::Text(&self.request),
            Field::Optional(&self.relay),
            Field::Number(self.until),
            Field::Attributes(&self.attributes),
        ]
    }

    fn read(mut fields: Fields<'_>) -> Result<Issued, Unread>
        ensures { Reads (λ r. idp_parts (kinds.Issued r)) result (record_in idp_forms (12 ∷ fields.entry.rest.now)) }
    {
        let first = fields.number()?;
        let moment = fields.number()?;
        let pending = fields.optional()?;
        let cookie = fields.text()?;
        let index = fields.text()?;
        let session_end = fields.number()?;
        let assertion = fields.text()?;
        let message = fields.text()?;
        let user = fields.text()?;
        let peer = fields.text()?;
        let consumer = fields.text()?;
        let request = fields.text()?;
        let relay = fields.optional()?;
        let until = fields.number()?;
        let attributes = fields.attributes()?;
        fields.end()?;
        Ok(Issued {
            first,
            moment,
            pending,
            cookie,
            index,
            session_end,
            assertion,
            message,
            user,
            peer,
            consumer,
            request,
            relay,
            until,
            attributes,
        })
    }
}

impl Ended {
    fn fields(&self) -> [Field<'_>; 7]
        ensures { map field_view result ≡ (idp_parts (kinds.Ended self.now)).1 }
    {
        [
            Field::Number(self.first),
            Field::Number(self.moment),
            Field::Texts(&self.cookies),
            Field::Text(&self.message),
            Field::Text(&self.request),
            Field::Text(&self.peer),
            Field::Flag(self.partial),
        ]
    }

    fn read(mut fields: Fields<'_>) -> Result<Ended, Unread>
        ensures { Reads (λ r. idp_parts (kinds.Ended r)) result (record_in idp_forms (13 ∷ fields.entry.rest.now)) }
    {
        let first = fields.number()?;
        let moment = fields.number()?;
        let cookies = fields.texts()?;
        let message = fields.text()?;
        let request = fields.text()?;
        let peer = fields.text()?;
        let partial = fields.flag()?;
        fields.end()?;
        Ok(Ended {
            first,
            moment,
            cookies,
            message,
            request,
            peer,
            partial,
        })
    }
}

impl Left {
    fn fields(&self) -> [Field<'_>; 6]
        ensures { map field_view result ≡ (idp_parts (kinds.Left self.now)).1 }
    {
        [
            Field::Number(self.first),
            Field::Number(self.moment),
            Field::Number(self.until),
            Field::Text(&self.cookie),
            Field::Text(&self.request),
            Field::Text(&self.peer),
        ]
    }

    fn read(mut fields: Fields<'_>) -> Result<Left, Unread>
        ensures { Reads (λ r. idp_parts (kinds.Left r)) result (record_in idp_forms (14 ∷ fields.entry.rest.now)) }
    {
        let first = fields.number()?;
        let moment = fields.number()?;
        let until = fields.number()?;
        let cookie = fields.text()?;
        let request = fields.text()?;
        let peer = fields.text()?;
        fields.end()?;
        Ok(Left {
            first,
            moment,
            until,
            cookie,
            request,
            peer,
        })
    }
}

impl Confirmed {
    fn fields(&self) -> [Field<'_>; 3]
        ensures { map field_view result ≡ (idp_parts (kinds.Confirmed self.now)).1 }
    {
        [
            Field::NoNumber,
            Field::Number(self.moment),
            Field::Text(&self.request),
        ]
    }

    fn read(mut fields: Fields<'_>) -> Result<Confirmed, Unread>
        ensures { Reads (λ r. idp_parts (kinds.Confirmed r)) result (record_in idp_forms (15 ∷ fields.entry.rest.now)) }
    {
        fields.no_number()?;
        let moment = fields.number()?;
        let request = fields.text()?;
        fields.end()?;
        Ok(Confirmed { moment, request })
    }
}

impl Spoke {
    fn fields(&self) -> [Field<'_>; 5]
        ensures { map field_view result ≡ (idp_parts (kinds.Spoke self.now)).1 }
    {
        [
            Field::Number(self.first),
            Field::Number(self.moment),
            Field::Text(&self.message),
            Field::Text(&self.request),
            Field::Text(&self.peer),
        ]
    }

    fn read(mut fields: Fields<'_>) -> Result<Spoke, Unread>
        ensures { Reads (λ r. idp_parts (kinds.Spoke r)) result (record_in idp_forms (16 ∷ fields.entry.rest.now)) }
    {
        let first = fields.number()?;
        let moment = fields.number()?;
        let message = fields.text()?;
        let request = fields.text()?;
        let peer = fields.text()?;
        fields.end()?;
        Ok(Spoke {
            first,
            moment,
            message,
            request,
            peer,
        })
    }
}

impl IdpRecord {
    /// The payload that keeps the record in a journal.
    pub fn payload(&self, alloc: Global) -> Result<Blob, NoMemory>
        requires { length (idp_bytes self.now) < 2 ^ 32 }
        ensures { IfOk result (λ payload. IsIdpPayload payload self.now) }
    {
        match self {
            IdpRecord::Pending(pending) => payload_of(alloc, PENDING, &pending.fields()),
            IdpRecord::Issued(issued) => payload_of(alloc, ISSUED, &issued.fields()),
            IdpRecord::Ended(ended) => payload_of(alloc, ENDED, &ended.fields()),
            IdpRecord::Left(left) => payload_of(alloc, LEFT, &left.fields()),
            IdpRecord::Confirmed(confirmed) => payload_of(alloc, CONFIRMED, &confirmed.fields()),
            IdpRecord::Spoke(spoke) => payload_of(alloc, SPOKE, &spoke.fields()),
            IdpRecord::Round(round) => payload_of(alloc, ROUND, &round.fields()),
            IdpRecord::Told(told) => payload_of(alloc, TOLD, &told.fields()),
        }
    }

    /// How many bytes that payload has, or `u64::MAX` where it would have more.
    pub fn payload_len(&self) -> u64
        ensures { result ≡ capped (length (idp_bytes self.now)) }
    {
        match self {
            IdpRecord::Pending(pending) => payload_len_of(&pending.fields()),
            IdpRecord::Issued(issued) => payload_len_of(&issued.fields()),
            IdpRecord::Ended(ended) => payload_len_of(&ended.fields()),
            IdpRecord::Left(left) => payload_len_of(&left.fields()),
            IdpRecord::Confirmed(confirmed) => payload_len_of(&confirmed.fields()),
            IdpRecord::Spoke(spoke) => payload_len_of(&spoke.fields()),
            IdpRecord::Round(round) => payload_len_of(&round.fields()),
            IdpRecord::Told(told) => payload_len_of(&told.fields()),
        }
    }
}

/// The record whose kind and fields stand in a payload.
fn record_of(alloc: Global, payload: &[u8]) -> Result<IdpRecord, Unread>
    ensures { Reads idp_parts result (record_in idp_forms payload.now) }
{
    let Some((kind, rest)) = payload.split_first() else {
        return Err(Unread::Malformed);
    };
    let fields = Fields { alloc, rest };
    match *kind {
        PENDING => Ok(IdpRecord::Pending(Pending::read(fields)?)),
        ISSUED => Ok(IdpRecord::Issued(Issued::read(fields)?)),
        ENDED => Ok(IdpRecord::Ended(Ended::read(fields)?)),
        LEFT => Ok(IdpRecord::Left(Left::read(fields)?)),
        CONFIRMED => Ok(IdpRecord::Confirmed(Confirmed::read(fields)?)),
        SPOKE => Ok(IdpRecord::Spoke(Spoke::read(fields)?)),
        ROUND => Ok(IdpRecord::Round(Round::read(fields)?)),
        TOLD => Ok(IdpRecord::Told(Told::read(fields)?)),
        _ => Err(Unread::Malformed),
    }
}

/// The record that a payload of a journal is; none exactly where it is no record of an identity provider. Both versions of
/// the journal have one form.
pub fn read_idp_record(alloc: Global, payload: &[u8]) -> Result<Option<IdpRecord>, NoMemory>
    ensures found { IfOk result (λ found. IfSome found (IsIdpPayload payload.now)) }
    ensures none { IfOk result (λ found. IfNone found ((r : IdpRecord) → ¬ (IsIdpPayload payload.now r))) }
    ensures is { IfOk result (λ found. found ≡ idp_record payload.now) }
{
    if payload.len() > u32::MAX as usize {
        return Ok(None);
    }
    match record_of(alloc, payload) {
        Ok(record) => Ok(Some(record)),
        Err(Unread::Malformed) => Ok(None),
        Err(Unread::NoMemory) => Err(NoMemory),
    }
}
