//! What the records of an identity provider stand for.
ghost use Rattle.std.specs.Prelude.{◌≡◌, ◌≤◌, ◌<◌, ◌^◌, true, false, [], Some, length, slice_get, option_copied, OnOk, IfSome, IfNone};
ghost use Rattle.std.specs.List.{list_any};
ghost use Rattle.std.specs.Str.{bytes_eq};
ghost use Rattle.ledger_records.specs.declared.idp_record.IdpRecord.TheVariants as kinds;
ghost use Rattle.idp_rows.specs.declared.row.SessionRow.{SessionRow};
ghost use Rattle.idp_rows.specs.RowsOf.{rows_of_kind};
ghost use Rattle.idp_rows.specs.Finding.{pending_found, session_found, is_waiting_now, last_peer, has_issued};
ghost use Rattle.round_rows.specs.Kept.{IsRoundOf};
ghost use Rattle.idp_rows.specs.Record.{is_answer_free, is_free, is_issue_free, is_next};
ghost use Rattle.ledger_rules.specs.Order.{IsOrder};
ghost use Rattle.idp_rows.specs.Order.{keys_of};
ghost use Rattle.idp_rows.specs.Kept.{HasRoom, KeepsRoom, AreFew, IsAfter, session_begun};

use crate::checks::{are_fresh, are_xml_texts, is_dated};
use crate::key::IdpKey;
use crate::lefts::Lefts;
use crate::noted::Noted;
use crate::pendings::Pendings;
use crate::row::{IssuedRow, LeftRow, PendingRow, SessionRow};
use crate::sessions::Sessions;
use ledger_records::IdpRecord;
use ledger_records::idp_record::{Confirmed, Ended, Issued, Left, Pending, Spoke};
use ledger_records::idp_round::{Round, Told};
use owned_values::NoMemory;
use round_rows::{NextRequest, RoundRow, RoundRows};
use std::alloc::Global;
use std::marker::Model;

/// The rows of records, and the least number above all that were drawn.
#[derive(Debug, Drop)]
pub struct KeptRows {
    pendings: Pendings,
    sessions: Sessions,
    lefts: Lefts,
    rounds: RoundRows,
    next: u64,
}

impl Model for KeptRows {
    ghost use Rattle.std.specs.Prelude.{◌≤◌, ◌^◌};
    ghost use Rattle.ledger_rules.specs.Numbers.{AreBelow};
    ghost use Rattle.idp_rows.specs.Kept.{StandingView};

    ghost Value = { StandingView };

    ghost view = { λ s. record {
      rows = record { pendings = s.pendings.rows; issues = s.sessions.issues; sessions = s.sessions.rows; lefts = s.lefts.rows; rounds = s.rounds.rows };
      next = s.next;
      spare = record { pendings = s.pendings.spare; issues = s.sessions.spare; lefts = s.lefts.spare; rounds = s.rounds.spare };
    } };

    ghost invariant = { λ s. AreBelow s.next s.pendings.numbers × AreBelow s.next s.sessions.numbers
        × AreBelow s.next s.lefts.numbers × AreBelow s.next s.rounds.numbers × (s.next ≤ 2 ^ 63) };
}

impl KeptRows {
    /// What no records stand for. It takes no memory.
    pub fn new(alloc: Global) -> KeptRows
        ensures rows { result.rows ≡ record { pendings = []; issues = []; sessions = []; lefts = []; rounds = [] } }
        ensures next { result.next ≡ 0 }
    {
        KeptRows {
            pendings: Pendings::new(alloc),
            sessions: Sessions::new(alloc),
            lefts: Lefts::new(alloc),
            rounds: RoundRows::new(alloc),
            next: 0,
        }
    }

    /// The pending rows.
    pub fn pendings(&self) -> &[PendingRow]
        ensures { result.now ≡ self.now.rows.pendings }
    {
        self.pendings.rows()
    }

    /// The places of the rows in the order of a key.
    pub fn order(&self, key: IdpKey) -> &[u32]
        ensures { IsOrder (keys_of key self.now.rows) result.now }
    {
        match key {
            IdpKey::PendingId => self.pendings.order(),
            IdpKey::SessionCookie => self.sessions.order(),
        }
    }

    /// The issued rows.
    pub fn issues(&self) -> &[IssuedRow]
        ensures { result.now ≡ self.now.rows.issues }
    {
        self.sessions.issues()
    }

    /// The rows of sessions.
    pub fn sessions(&self) -> &[SessionRow]
        ensures { result.now ≡ self.now.rows.sessions }
    {
        self.sessions.rows()
    }

    /// The rows of logouts.
    pub fn lefts(&self) -> &[LeftRow]
        ensures { result.now ≡ self.now.rows.lefts }
    {
        self.lefts.rows()
    }

    /// The rows of rounds.
    pub fn rounds(&self) -> &[RoundRow]
        ensures { result.now ≡ self.now.rows.rounds }
    {
        self.rounds.rows()
    }

    /// The round that waits for the answer to a request.
    pub fn waiting_round(&self, request: &str) -> Option<&RoundRow>
        ensures { IsRoundOf self.now.rows.rounds request.now (option_copied result) }
    {
        self.rounds.waiting(request)
    }

    /// The least number above all that were drawn.
    pub fn next_free(&self) -> u64
        ensures next { result ≡ self.now.next }
        ensures end { result ≤ 2 ^ 63 }
    {
        self.next
    }

    /// The login of an ID that is not used and is visible.
    pub fn pending(&self, pending: &str, now: u64, horizon: u64) -> Option<&PendingRow>
        ensures { option_copied result ≡ pending_found self.now.rows.pendings pending.now now horizon }
    {
        self.pendings.find(pending, now, horizon)
    }

    /// The session of a cookie that is not ended and is visible.
    pub fn session(&self, cookie: &str, now: u64, horizon: u64) -> Option<&SessionRow>
        ensures { option_copied result ≡ session_found self.now.rows.sessions cookie.now now horizon }
    {
        self.sessions.find(cookie, now, horizon)
    }

    /// Whether there is a logout of a request that is not confirmed and is visible.
    pub fn is_waiting(&self, request: &str, now: u64, horizon: u64) -> bool
        ensures { result ≡ is_waiting_now self.now.rows.lefts request.now now horizon }
    {
        self.lefts.is_waiting_now(request, now, horizon)
    }

    /// The peer to which the last assertion in the session of a cookie went, none where there is no such session.
    pub fn last_peer(&self, cookie: &str) -> Option<&str>
        ensures some { IfSome result (λ peer. peer.now ≡ last_peer self.now.rows.issues cookie.now) }
        ensures none { IfNone result (list_any (λ row. bytes_eq row.cookie cookie.now) self.now.rows.sessions ≡ false) }
    {
        self.sessions.last_peer(cookie)
    }

    /// Whether an assertion was issued in the session at a place to this peer, or to another one.
    pub fn has_issued(&self, place: usize, peer: &str, beside: bool) -> bool
        requires { place < length self.now.rows.sessions }
        ensures { (row : SessionRow) → slice_get self.now.rows.sessions place ≡ Some row → result ≡ has_issued beside self.now.rows.issues row.cookie peer.now }
    {
        self.sessions.has_issued(place, peer, beside)
    }

    /// How many rows there are of a record's kind, where it has rows.
    pub fn rows_of_kind(&self, entry: &IdpRecord) -> Option<usize>
        ensures { result ≡ rows_of_kind self.now.rows entry.now }
    {
        match entry {
            IdpRecord::Pending(_) => Some(self.pendings().len()),
            IdpRecord::Issued(_) => Some(self.issues().len()),
            IdpRecord::Left(_) => Some(self.lefts().len()),
            IdpRecord::Round(_) => Some(self.rounds().len()),
            IdpRecord::Ended(_)
            | IdpRecord::Confirmed(_)
            | IdpRecord::Spoke(_)
            | IdpRecord::Told(_) => None,
        }
    }

    /// Whether the login that an Issued names, or the session, is there and free for it.
    fn is_issue_free(&self, r: &Issued) -> bool
        ensures { result ≡ is_issue_free self.now.rows r.now.pending r.now.cookie }
    {
        match &r.pending {
            Some(pending) => self.pendings.is_unused(pending.as_str()),
            None => self.sessions.is_unended(r.cookie.as_str()),
        }
    }

    /// Whether the round that a Told answers waits for it, and whether it has the next request that it should.
    fn is_answer_free(&self, r: &Told) -> bool
        ensures { result ≡ is_answer_free self.now.rows.rounds r.now }
    {
        match self.rounds.waiting(r.request.as_str()) {
            Some(row) => match r.next {
                Some(_) => row.is_turn_left(),
                None => !row.is_turn_left() && r.first == 0,
            },
            None => false,
        }
    }

    /// Whether each row that a record names is there, and free for it.
    fn is_free(&self, entry: &IdpRecord) -> bool
        ensures { result ≡ is_free self.now.rows entry.now }
    {
        match entry {
            IdpRecord::Pending(_) => true,
            IdpRecord::Issued(r) => self.is_issue_free(r),
            IdpRecord::Ended(r) => self.sessions.are_unended(r.cookies.as_slice()),
            IdpRecord::Left(r) => self.sessions.is_unended(r.cookie.as_str()),
            IdpRecord::Confirmed(r) => self.lefts.is_waiting(r.request.as_str()),
            IdpRecord::Spoke(_) => true,
            IdpRecord::Round(r) => self.sessions.are_unended(r.cookies.as_slice()),
            IdpRecord::Told(r) => self.is_answer_free(r),
        }
    }

    /// Whether a record may come behind those that stand here.
    pub fn comes_next(&self, entry: &IdpRecord) -> bool
        ensures { result ≡ is_next self.now.rows self.now.next entry.now }
    {
        self.is_free(entry)
            && are_fresh(self.next, entry)
            && are_xml_texts(entry)
            && is_dated(entry)
    }

    /// Makes room for the rows of a record, so that `put` takes no memory. It changes nothing else, and takes away no room.
    pub fn make_room(&mut self, entry: &IdpRecord) -> Result<(), NoMemory>
        ensures rows { self.new.rows ≡ self.old.rows }
        ensures next { self.new.next ≡ self.old.next }
        ensures ok { OnOk result (HasRoom self.new.spare entry.now) }
        ensures kept { KeepsRoom self.old.spare self.new.spare }
    {
        match entry {
            IdpRecord::Pending(_) => self.pendings.reserve(),
            IdpRecord::Issued(_) => self.sessions.reserve(),
            IdpRecord::Left(_) => self.lefts.reserve(),
            IdpRecord::Round(_) | IdpRecord::Told(_) => self.rounds.reserve(),
            IdpRecord::Ended(_) | IdpRecord::Confirmed(_) | IdpRecord::Spoke(_) => Ok(()),
        }
    }

    /// Puts a record behind those that stand here, where there is room for its rows. It takes no memory.
    pub fn put_entry(&mut self, noted: Noted)
        requires few { AreFew self.old.rows }
        requires is { is_next self.old.rows self.old.next noted ≡ true }
        requires room { HasRoom self.old.spare noted }
        ensures { IsAfter self.old self.new noted }
    {
        let Noted { entry, session } = noted;
        match entry {
            IdpRecord::Pending(r) => self.put_pending(r),
            IdpRecord::Issued(r) => self.put_issued(r, session),
            IdpRecord::Ended(r) => self.put_ended(r),
            IdpRecord::Left(r) => self.put_left(r),
            IdpRecord::Confirmed(r) => self.put_confirmed(r),
            IdpRecord::Spoke(r) => self.put_spoke(r),
            IdpRecord::Round(r) => self.put_round(r),
            IdpRecord::Told(r) => self.put_told(r),
        }
    }

    /// Puts a pending row.
    fn put_pending(&mut self, r: Pending)
        requires few { AreFew self.old.rows }
        requires is { is_next self.old.rows self.old.next (kinds.Pending r) ≡ true }
        requires room { HasRoom self.old.spare (kinds.Pending r) }
        ensures { IsAfter self.old self.new (kinds.Pending r) }
    {
        let row = PendingRow {
            until: r.until,
            pending: r.pending,
            request: r.request,
            peer: r.peer,
            consumer: r.consumer,
            relay: r.relay,
            used: false,
        };
        self.pendings.put(row, r.first);
        self.next = r.first + 1;
    }

    /// Uses the login that was pending, and puts the issued row, and the session that it begins.
    fn put_issued(&mut self, r: Issued, session: Option<SessionRow>)
        requires few { AreFew self.old.rows }
        requires is { is_next self.old.rows self.old.next (kinds.Issued r) ≡ true }
        requires session { session ≡ session_begun (kinds.Issued r) }
        requires room { HasRoom self.old.spare (kinds.Issued r) }
        ensures { IsAfter self.old self.new (kinds.Issued r) }
    {
        let row = IssuedRow {
            pending: r.pending,
            cookie: r.cookie,
            index: r.index,
            session_end: r.session_end,
            assertion: r.assertion,
            message: r.message,
            user: r.user,
            peer: r.peer,
            consumer: r.consumer,
            request: r.request,
            relay: r.relay,
            until: r.until,
            attributes: r.attributes,
        };
        self.pendings.use_up(&row.pending);
        match session {
            Some(session) => {
                self.sessions.begin(session, row, r.first + 2);
                self.next = r.first + 4;
            }
            None => {
                self.sessions.issue(row);
                self.next = r.first + 2;
            }
        }
    }

    /// Ends the sessions of an answered logout.
    fn put_ended(&mut self, r: Ended)
        requires { is_next self.old.rows self.old.next (kinds.Ended r) ≡ true }
        ensures { IsAfter self.old self.new (kinds.Ended r) }
    {
        self.sessions.end_all(r.cookies.as_slice());
        self.next = r.first + 1;
    }

    /// Ends a session and puts the row of its logout.
    fn put_left(&mut self, r: Left)
        requires is { is_next self.old.rows self.old.next (kinds.Left r) ≡ true }
        requires room { HasRoom self.old.spare (kinds.Left r) }
        ensures { IsAfter self.old self.new (kinds.Left r) }
    {
        self.sessions.end(r.cookie.as_str());
        let row = LeftRow {
            request: r.request,
            until: r.until,
            confirmed: false,
        };
        self.lefts.put(row, r.first);
        self.next = r.first + 1;
    }

    /// Confirms a logout.
    fn put_confirmed(&mut self, r: Confirmed)
        ensures { IsAfter self.old self.new (kinds.Confirmed r) }
    {
        self.lefts.confirm(r.request.as_str());
    }

    /// Ends the sessions of a round, and puts its row.
    fn put_round(&mut self, r: Round)
        requires few { AreFew self.old.rows }
        requires is { is_next self.old.rows self.old.next (kinds.Round r) ≡ true }
        requires room { HasRoom self.old.spare (kinds.Round r) }
        ensures { IsAfter self.old self.new (kinds.Round r) }
    {
        self.sessions.end_all(r.cookies.as_slice());
        let row = RoundRow {
            request: r.request,
            message: r.message,
            asker: r.asker,
            turns: r.turns,
            skipped: r.skipped,
            told: 0,
            confirmed: 0,
            until: r.until,
        };
        self.rounds.put(row, r.first + 1);
        self.next = r.first + 2;
    }

    /// Counts an answer to a round, and gives it its next request, where it has one.
    fn put_told(&mut self, r: Told)
        requires few { AreFew self.old.rows }
        requires is { is_next self.old.rows self.old.next (kinds.Told r) ≡ true }
        requires room { HasRoom self.old.spare (kinds.Told r) }
        ensures { IsAfter self.old self.new (kinds.Told r) }
    {
        let Told {
            first,
            moment: _,
            request,
            confirmed,
            next,
        } = r;
        match next {
            Some(id) => {
                let next = NextRequest { id, number: first };
                self.rounds.tell(request.as_str(), confirmed, Some(next));
                self.next = first + 1;
            }
            None => self.rounds.tell(request.as_str(), confirmed, None),
        }
    }

    /// Takes the number of an answer without an assertion.
    fn put_spoke(&mut self, r: Spoke)
        requires { is_next self.old.rows self.old.next (kinds.Spoke r) ≡ true }
        ensures { IsAfter self.old self.new (kinds.Spoke r) }
    {
        self.next = r.first + 1;
    }
}
