//! The sessions, and the assertions that were issued in them.
ghost use Rattle.std.specs.Prelude.{◌≡◌, ◌<◌, ◌≤◌, true, false, [], ◌∷◌, ◌++◌, Some, map, length, slice_get, option_copied, OnOk, IfSome, IfNone};
ghost use Rattle.std.specs.List.{list_any, list_all};
ghost use Rattle.std.specs.Str.{bytes_eq};
ghost use Rattle.ledger_rules.specs.Numbers.{AreBelow, has_number};
ghost use Rattle.idp_rows.specs.RowsOf.{ended_where, is_among};
ghost use Rattle.idp_rows.specs.Finding.{session_found, has_issued, last_peer};
ghost use Rattle.idp_rows.specs.Record.{is_unended};
ghost use Rattle.idp_rows.specs.Kept.{IsRowAt};
ghost use Rattle.ledger_rules.specs.Order.{one_text, IsOrder};
ghost use Rattle.idp_rows.specs.declared.row.SessionRow.{SessionRow};

use crate::issues::Issues;
use crate::row::{IssuedRow, SessionRow};
use ledger_rules::{Numbers, RowPlaces};
use owned_values::{NoMemory, Text};
use std::alloc::Global;
use std::marker::Model;

/// The rows of sessions, the numbers of their cookies, by which they are found, their places, which are in the order of their
/// cookies, the issued rows, and with each session the place of its last one.
#[derive(Debug, Drop)]
pub(crate) struct Sessions {
    rows: Vec<SessionRow>,
    numbers: Numbers,
    places: RowPlaces,
    last: Vec<u32>,
    issues: Issues,
}

impl Model for Sessions {
    ghost use Rattle.std.specs.Prelude.{◌-◌, min, vec_len, vec_capacity};
    ghost use Rattle.idp_rows.specs.Kept.{SessionsView, HaveNumbers, ComeInOrder, AreLast, cookies};

    ghost Value = { SessionsView };

    ghost view = { λ s. record {
      rows = s.rows.items;
      issues = s.issues.rows;
      numbers = s.numbers.listed;
      spare = min (min (min (vec_capacity s.rows - vec_len s.rows) s.numbers.spare) (min (vec_capacity s.last - vec_len s.last) s.issues.spare)) s.places.spare;
    } };

    ghost invariant = { λ s. HaveNumbers s.numbers.listed (cookies s.rows.items) × AreLast s.rows.items s.last.items s.issues.rows
        × ComeInOrder (cookies s.rows.items) s.places.count };
}

impl Sessions {
    /// No sessions. It takes no memory.
    pub(crate) fn new(alloc: Global) -> Sessions
        ensures rows { result.rows ≡ [] }
        ensures issues { result.issues ≡ [] }
        ensures numbers { result.numbers ≡ [] }
    {
        Sessions {
            rows: Vec::new(alloc),
            numbers: Numbers::new(alloc),
            places: RowPlaces::new(alloc),
            last: Vec::new(alloc),
            issues: Issues::new(alloc),
        }
    }

    /// The rows.
    pub(crate) fn rows(&self) -> &[SessionRow]
        ensures { result.now ≡ self.now.rows }
    {
        self.rows.as_slice()
    }

    /// The issued rows.
    pub(crate) fn issues(&self) -> &[IssuedRow]
        ensures { result.now ≡ self.now.issues }
    {
        self.issues.rows()
    }

    /// The places of the rows in the order of their cookies.
    pub(crate) fn order(&self) -> &[u32]
        ensures { IsOrder (map (λ row. one_text row.cookie) self.now.rows) result.now }
    {
        self.places.as_slice()
    }

    /// The place of the session of a cookie.
    fn place(&self, cookie: &str) -> Option<usize>
        ensures some { IfSome result (IsRowAt (λ row. row.cookie) self.now.rows cookie.now) }
        ensures none { IfNone result (list_any (λ row. bytes_eq row.cookie cookie.now) self.now.rows ≡ false) }
    {
        let place = self.numbers.place_of(cookie)?;
        if self.rows[place].cookie.as_str() == cookie {
            Some(place)
        } else {
            None
        }
    }

    /// Whether there is a session of a cookie that is not ended.
    pub(crate) fn is_unended(&self, cookie: &str) -> bool
        ensures { result ≡ is_unended self.now.rows cookie.now }
    {
        match self.place(cookie) {
            Some(place) => !self.rows[place].ended,
            None => false,
        }
    }

    /// Whether each of these is the cookie of a session that is not ended.
    pub(crate) fn are_unended(&self, cookies: &[Text]) -> bool
        ensures { result ≡ list_all (is_unended self.now.rows) cookies.now }
    {
        cookies
            .iter()
            .all(|cookie| self.is_unended(cookie.as_str()))
    }

    /// The session of a cookie that is not ended and is visible.
    pub(crate) fn find(&self, cookie: &str, now: u64, horizon: u64) -> Option<&SessionRow>
        ensures { option_copied result ≡ session_found self.now.rows cookie.now now horizon }
    {
        let place = self.place(cookie)?;
        let row = &self.rows[place];
        if !row.ended && now.max(horizon) < row.until {
            Some(row)
        } else {
            None
        }
    }

    /// The peer to which the last assertion in the session of a cookie went, none where there is no such session.
    pub(crate) fn last_peer(&self, cookie: &str) -> Option<&str>
        ensures some { IfSome result (λ peer. peer.now ≡ last_peer self.now.issues cookie.now) }
        ensures none { IfNone result (list_any (λ row. bytes_eq row.cookie cookie.now) self.now.rows ≡ false) }
    {
        let place = self.place(cookie)?;
        Some(self.issues.last_peer(self.last[place]))
    }

    /// Whether an assertion was issued in the session at a place to this peer, or to another one.
    pub(crate) fn has_issued(&self, place: usize, peer: &str, beside: bool) -> bool
        requires { place < length self.now.rows }
        ensures { (row : SessionRow) → slice_get self.now.rows place ≡ Some row → result ≡ has_issued beside self.now.issues row.cookie peer.now }
    {
        self.issues.has_issued(self.last[place], peer, beside)
    }

    /// Makes room for one session and one assertion at least. It changes nothing else, and takes away no room.
    pub(crate) fn reserve(&mut self) -> Result<(), NoMemory>
        ensures rows { self.new.rows ≡ self.old.rows }
        ensures issues { self.new.issues ≡ self.old.issues }
        ensures numbers { self.new.numbers ≡ self.old.numbers }
        ensures ok { OnOk result (0 < self.new.spare) }
        ensures kept { self.old.spare ≤ self.new.spare }
    {
        self.rows.reserve(1)?;
        self.numbers.reserve()?;
        self.places.reserve()?;
        self.last.reserve(1)?;
        self.issues.reserve()
    }

    /// Begins a session, whose cookie begins with this number, with its first assertion, where there is room. It takes no memory.
    pub(crate) fn begin(&mut self, row: SessionRow, issue: IssuedRow, number: u64)
        requires few { length self.old.issues < 4294967295 }
        requires few_rows { length self.old.rows < 4294967295 }
        requires below { AreBelow number self.old.numbers }
        requires has { has_number number row.cookie ≡ true }
        requires same { issue.cookie ≡ row.cookie }
        requires room { 0 < self.old.spare }
        ensures rows { self.new.rows ≡ self.old.rows ++ row ∷ [] }
        ensures issues { self.new.issues ≡ self.old.issues ++ issue ∷ [] }
        ensures numbers { self.new.numbers ≡ self.old.numbers ++ number ∷ [] }
    {
        let place = self.issues.rows().len() as u32;
        self.issues.put(issue, None);
        match self.rows.push(row) {
            Ok(()) => {}
            Err(_) => unreachable!(),
        }
        self.numbers.put(number);
        self.places.put_next();
        match self.last.push(place) {
            Ok(()) => {}
            Err(_) => unreachable!(),
        }
    }

    /// Puts an assertion that was issued in a session, where there is room. It takes no memory.
    pub(crate) fn issue(&mut self, issue: IssuedRow)
        requires few { length self.old.issues < 4294967295 }
        requires there { list_any (λ row. bytes_eq row.cookie issue.cookie) self.old.rows ≡ true }
        requires room { 0 < self.old.spare }
        ensures rows { self.new.rows ≡ self.old.rows }
        ensures issues { self.new.issues ≡ self.old.issues ++ issue ∷ [] }
        ensures numbers { self.new.numbers ≡ self.old.numbers }
    {
        let Some(session) = self.place(issue.cookie.as_str()) else {
            unreachable!();
        };
        let place = self.issues.rows().len() as u32;
        self.issues.put(issue, Some(self.last[session]));
        self.last[session] = place;
    }

    /// Ends the session of a cookie, where there is one.
    pub(crate) fn end(&mut self, cookie: &str)
        ensures { self.new ≡ record self.old { rows = ended_where (λ row. bytes_eq cookie.now row.cookie) self.old.rows } }
    {
        if let Some(place) = self.place(cookie) {
            self.rows[place].ended = true;
        }
    }

    /// Ends the sessions of these cookies, one by one.
    pub(crate) fn end_all(&mut self, cookies: &[Text])
        ensures { self.new ≡ record self.old { rows = ended_where (λ row. is_among row.cookie cookies.now) self.old.rows } }
    {
        for cookie in cookies {
            self.end(cookie.as_str());
        }
    }
}
