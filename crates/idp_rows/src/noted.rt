//! A record, with the session that it begins.
ghost use Rattle.std.specs.Prelude.{◌≡◌, IfOk};
ghost use Rattle.idp_rows.specs.Kept.{session_begun};

use crate::row::SessionRow;
use ledger_records::IdpRecord;
use owned_values::NoMemory;
use std::marker::Model;

/// A record, and the row of the session that it begins. Contracts see it as the record.
#[derive(Debug, Drop)]
pub struct Noted {
    pub(crate) entry: IdpRecord,
    pub(crate) session: Option<SessionRow>,
}

impl Model for Noted {
    ghost use Rattle.std.specs.Prelude.{◌≡◌};
    ghost use Rattle.ledger_records.specs.declared.idp_record.IdpRecord.{IdpRecord};
    ghost use Rattle.idp_rows.specs.Kept.{session_begun};

    ghost Value = { IdpRecord };

    ghost view = { λ n. n.entry };

    ghost invariant = { λ n. n.session ≡ session_begun n.entry };
}

/// The session that a record begins.
fn session_begun(entry: &IdpRecord) -> Result<Option<SessionRow>, NoMemory>
    ensures { IfOk result (λ session. session ≡ session_begun entry.now) }
{
    let IdpRecord::Issued(r) = entry else {
        return Ok(None);
    };
    if r.pending.is_none() {
        return Ok(None);
    }
    Ok(Some(SessionRow {
        cookie: r.cookie.copy()?,
        index: r.index.copy()?,
        user: r.user.copy()?,
        attributes: r.attributes.copy()?,
        until: r.session_end,
        ended: false,
    }))
}

impl Noted {
    /// A record with the session that it begins.
    pub fn new(entry: IdpRecord) -> Result<Noted, NoMemory>
        ensures { IfOk result (λ noted. noted ≡ entry) }
    {
        let session = session_begun(&entry)?;
        Ok(Noted { entry, session })
    }

    /// The record.
    pub fn entry(&self) -> &IdpRecord
        ensures { result.now ≡ self.now }
    {
        &self.entry
    }
}
