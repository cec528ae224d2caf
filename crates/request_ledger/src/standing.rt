//! What the records of a service provider stand for.
ghost use Rattle.std.specs.Prelude.{◌≡◌, ◌≤◌, ◌<◌, ◌^◌, ◌++◌, ◌∷◌, true, false, ◌&&◌, not, [], OnOk, IfOk, IfSome, IfNone};
ghost use Rattle.std.specs.List.{list_all};
ghost use Rattle.ledger_records.specs.declared.sp_record.SpRecord.TheVariants as kinds;
ghost use Rattle.std.specs.Str.{bytes_eq};
ghost use Rattle.request_ledger.specs.RowsOf.{is_among, closed_where, rows_after, rows_of_kind};
ghost use Rattle.request_rows.specs.Rows.{is_spent};
ghost use Rattle.request_rows.specs.Indexed.{room};
ghost use Rattle.request_ledger.specs.Record.{is_asked, is_open, is_waiting, is_free, is_next};
ghost use Rattle.request_ledger.specs.Standing.{rows_in, HasMarkRoom, HasRoom, KeepsRoom, KnowsSpent, AreFew, AreSpent, IsAfter, IsAskedAt, IsOpenAt, IsWaitingAt};

use crate::checks::{are_fresh, are_xml_texts, moment_of};
use ledger_records::SpRecord;
use ledger_records::sp_record::{Asked, Confirmed, Ended, Left, Opened};
use ledger_rules::{LAST, Numbers};
use owned_values::{NoMemory, Text};
use request_rows::{AskedRow, KeptRows, LeftRow, OpenedRow, Rows};
use std::alloc::Global;
use std::marker::Model;

/// The rows of records, the numbers by which they are found, and the least number above all that were drawn.
#[derive(Debug, Drop)]
pub(crate) struct RequestStanding {
    rows: KeptRows,
    asked: Numbers,
    opened: Numbers,
    left: Numbers,
    next: u64,
}

impl Model for RequestStanding {
    ghost use Rattle.std.specs.Prelude.{◌≤◌, ◌^◌, min, map};
    ghost use Rattle.request_ledger.specs.Standing.{StandingView, rows_in, HaveNumbers, AreCounted};

    ghost Value = { StandingView };

    ghost view = { λ s. record {
      rows = rows_in s.rows.rows;
      is_indexed = s.rows.is_indexed;
      next = s.next;
      spare = record {
        asked = min s.rows.rows.spare.asked s.asked.spare;
        opened = min s.rows.rows.spare.opened s.opened.spare;
        left = min s.rows.rows.spare.left s.left.spare;
      };
    } };

    ghost invariant = { λ s. HaveNumbers s.next s.asked.listed (map (λ row. row.request) s.rows.rows.asked)
        × HaveNumbers s.next s.opened.listed (map (λ row. row.token) s.rows.rows.opened)
        × HaveNumbers s.next s.left.listed (map (λ row. row.request) s.rows.rows.left)
        × (s.next ≤ 2 ^ 63) × AreCounted s.rows.rows };
}

/// Puts the mark of a request that is not spent behind the others, where there is room. It takes no memory.
fn put_mark(spent: &mut Vec<bool>)
    requires { 0 < room spent.old }
    ensures { spent.new.items ≡ spent.old.items ++ false ∷ [] }
{
    match spent.push(false) {
        Ok(()) => {}
        Err(_) => unreachable!(),
    }
}

impl RequestStanding {
    /// What no records stand for. It takes no memory.
    pub(crate) fn empty(alloc: Global) -> RequestStanding
        ensures rows { result.rows ≡ record { asked = []; opened = []; left = [] } }
        ensures next { result.next ≡ 0 }
    {
        RequestStanding {
            rows: KeptRows::new(alloc),
            asked: Numbers::new(alloc),
            opened: Numbers::new(alloc),
            left: Numbers::new(alloc),
            next: 0,
        }
    }

    /// The same with indexes of its rows. Where there is no memory all is let go.
    pub(crate) fn indexed(self, alloc: Global) -> Result<RequestStanding, NoMemory>
        ensures rows { IfOk result (λ standing. standing.rows ≡ self.rows) }
        ensures next { IfOk result (λ standing. standing.next ≡ self.next) }
        ensures indexed { IfOk result (λ standing. standing.is_indexed ≡ true) }
    {
        let rows = self.rows.indexed(alloc)?;
        Ok(RequestStanding {
            rows,
            asked: self.asked,
            opened: self.opened,
            left: self.left,
            next: self.next,
        })
    }

    /// The rows, with their indexes.
    pub(crate) fn rows(&self) -> &Rows
        requires { self.now.is_indexed ≡ true }
        ensures { rows_in result.now ≡ self.now.rows }
    {
        self.rows.rows()
    }

    /// The least number above all that were drawn.
    pub(crate) fn next_free(&self) -> u64
        ensures next { result ≡ self.now.next }
        ensures end { result ≤ 2 ^ 63 }
    {
        self.next
    }

    /// The place of the row of a request.
    fn asked_place(&self, request: &str) -> Option<usize>
        ensures some { IfSome result (IsAskedAt self.now.rows.asked request.now) }
        ensures none { IfNone result (is_asked self.now.rows.asked request.now ≡ false) }
    {
        let place = self.asked.place_of(request)?;
        if self.rows.asked()[place].request.as_str() == request {
            Some(place)
        } else {
            None
        }
    }

    /// The place of the session of a token that is not closed.
    fn open_place(&self, token: &str) -> Option<u32>
        ensures some { IfSome result (IsOpenAt self.now.rows.opened token.now) }
        ensures none { IfNone result (is_open self.now.rows.opened token.now ≡ false) }
    {
        let place = self.opened.place_of(token)?;
        let row = &self.rows.opened()[place];
        if row.token.as_str() == token && !row.closed {
            Some(place as u32)
        } else {
            None
        }
    }

    /// The place of the logout of a request that is not confirmed.
    fn waiting_place(&self, request: &str) -> Option<u32>
        ensures some { IfSome result (IsWaitingAt self.now.rows.left request.now) }
        ensures none { IfNone result (is_waiting self.now.rows.left request.now ≡ false) }
    {
        let place = self.left.place_of(request)?;
        let row = &self.rows.left()[place];
        if row.request.as_str() == request && !row.confirmed {
            Some(place as u32)
        } else {
            None
        }
    }

    /// Whether a request is spent whose row is at a place: by its mark while rows are gathered, and by their index from then on.
    fn is_spent_at(&self, place: usize, request: &str, marks: &Option<Vec<bool>>) -> bool
        requires at { IsAskedAt self.now.rows.asked request.now place }
        requires knows { KnowsSpent self.now marks.now }
        ensures { result ≡ is_spent self.now.rows.opened request.now }
    {
        match marks {
            Some(spent) => spent[place],
            None => self.rows.rows().is_spent(request),
        }
    }

    /// Whether this request was asked and is not spent.
    fn is_unspent(&self, request: &str, marks: &Option<Vec<bool>>) -> bool
        requires { KnowsSpent self.now marks.now }
        ensures { result ≡ (is_asked self.now.rows.asked request.now && not (is_spent self.now.rows.opened request.now)) }
    {
        match self.asked_place(request) {
            Some(place) => !self.is_spent_at(place, request, marks),
            None => false,
        }
    }

    /// Whether each row that a record names is there, and free for it.
    fn is_free(&self, entry: &SpRecord, marks: &Option<Vec<bool>>) -> bool
        requires { KnowsSpent self.now marks.now }
        ensures { result ≡ is_free self.now.rows entry.now }
    {
        match entry {
            SpRecord::Asked(_) => true,
            SpRecord::Opened(r) => self.is_unspent(r.request.as_str(), marks),
            SpRecord::Left(r) => self.is_open(r.token.as_str()),
            SpRecord::Ended(r) => self.are_open(r.tokens.as_slice()),
            SpRecord::Confirmed(r) => self.is_waiting(r.request.as_str()),
        }
    }

    /// Whether there is a session of a token that is not closed.
    fn is_open(&self, token: &str) -> bool
        ensures { result ≡ is_open self.now.rows.opened token.now }
    {
        self.open_place(token).is_some()
    }

    /// Whether each of these is the token of a session that is not closed.
    fn are_open(&self, tokens: &[Text]) -> bool
        ensures { result ≡ list_all (is_open self.now.rows.opened) tokens.now }
    {
        tokens.iter().all(|token| self.is_open(token.as_str()))
    }

    /// Whether there is a logout of a request that is not confirmed.
    fn is_waiting(&self, request: &str) -> bool
        ensures { result ≡ is_waiting self.now.rows.left request.now }
    {
        self.waiting_place(request).is_some()
    }

    /// Whether a record may come behind those that stand here.
    pub(crate) fn comes_next(&self, entry: &SpRecord, marks: &Option<Vec<bool>>) -> bool
        requires { KnowsSpent self.now marks.now }
        ensures { result ≡ is_next self.now.rows self.now.next entry.now }
    {
        self.is_free(entry, marks)
            && are_fresh(self.next, entry)
            && are_xml_texts(entry)
            && moment_of(entry) <= LAST
    }

    /// Marks the request of a session that may come next.
    fn mark_spent(&self, r: &Opened, spent: &mut Vec<bool>)
        requires is { is_next self.now.rows self.now.next (kinds.Opened r.now) ≡ true }
        requires spent { AreSpent spent.old.items self.now.rows }
        ensures { AreSpent spent.new.items (rows_after self.now.rows (kinds.Opened r.now)) }
    {
        if let Some(place) = self.asked_place(r.request.as_str()) {
            spent[place] = true;
        }
    }

    /// Makes the marks of spent requests those behind a record that may come next, where there is room for one more. It takes
    /// no memory.
    pub(crate) fn mark(&self, entry: &SpRecord, spent: &mut Vec<bool>)
        requires is { is_next self.now.rows self.now.next entry.now ≡ true }
        requires room { HasMarkRoom (room spent.old) entry.now }
        requires spent { AreSpent spent.old.items self.now.rows }
        ensures { AreSpent spent.new.items (rows_after self.now.rows entry.now) }
    {
        let _next = self.next;
        match entry {
            SpRecord::Asked(_) => put_mark(spent),
            SpRecord::Opened(r) => self.mark_spent(r, spent),
            SpRecord::Left(_) => {}
            SpRecord::Ended(_) => {}
            SpRecord::Confirmed(_) => {}
        }
    }

    /// How many rows there are of a record's kind, where it has rows.
    pub(crate) fn kept_of_kind(&self, entry: &SpRecord) -> Option<usize>
        ensures { result ≡ rows_of_kind self.now.rows entry.now }
    {
        match entry {
            SpRecord::Asked(_) => Some(self.rows.asked().len()),
            SpRecord::Opened(_) => Some(self.rows.opened().len()),
            SpRecord::Left(_) => Some(self.rows.left().len()),
            SpRecord::Ended(_) | SpRecord::Confirmed(_) => None,
        }
    }

    /// Makes room for the row of a record, so that `put` takes no memory. It changes nothing else, and takes away no room.
    pub(crate) fn make_room(&mut self, entry: &SpRecord) -> Result<(), NoMemory>
        ensures rows { self.new.rows ≡ self.old.rows }
        ensures indexed { self.new.is_indexed ≡ self.old.is_indexed }
        ensures next { self.new.next ≡ self.old.next }
        ensures ok { OnOk result (HasRoom self.new.spare entry.now) }
        ensures kept { KeepsRoom self.old.spare self.new.spare }
    {
        match entry {
            SpRecord::Asked(_) => {
                self.rows.reserve_asked()?;
                self.asked.reserve()
            }
            SpRecord::Opened(_) => {
                self.rows.reserve_opened()?;
                self.opened.reserve()
            }
            SpRecord::Left(_) => {
                self.rows.reserve_left()?;
                self.left.reserve()
            }
            SpRecord::Ended(_) | SpRecord::Confirmed(_) => Ok(()),
        }
    }

    /// Puts a record behind those that stand here, where there is room for its row. It takes no memory.
    pub(crate) fn put_entry(&mut self, entry: SpRecord)
        requires few { AreFew self.old.rows }
        requires is { is_next self.old.rows self.old.next entry ≡ true }
        requires room { HasRoom self.old.spare entry }
        ensures { IsAfter self.old self.new entry }
    {
        match entry {
            SpRecord::Asked(r) => self.put_asked(r),
            SpRecord::Opened(r) => self.put_opened(r),
            SpRecord::Left(r) => self.put_left(r),
            SpRecord::Ended(r) => self.put_ended(r),
            SpRecord::Confirmed(r) => self.put_confirmed(r),
        }
    }

    /// Closes the session of a token, where one is open.
    fn close(&mut self, token: &str)
        ensures { self.new ≡ record self.old { rows = record self.old.rows { opened = closed_where (λ row. bytes_eq token.now row.token) self.old.rows.opened } } }
    {
        if let Some(place) = self.open_place(token) {
            self.rows.close(place);
        }
    }

    /// Closes the sessions of these tokens, one by one.
    fn close_all(&mut self, tokens: &[Text])
        ensures { self.new ≡ record self.old { rows = record self.old.rows { opened = closed_where (λ row. is_among row.token tokens.now) self.old.rows.opened } } }
    {
        for token in tokens {
            self.close(token.as_str());
        }
    }

    /// Puts an asked row.
    fn put_asked(&mut self, r: Asked)
        requires few { AreFew self.old.rows }
        requires is { is_next self.old.rows self.old.next (kinds.Asked r) ≡ true }
        requires room { HasRoom self.old.spare (kinds.Asked r) }
        ensures { IsAfter self.old self.new (kinds.Asked r) }
    {
        self.rows.put_asked(AskedRow {
            request: r.request,
            relay: r.relay,
            target: r.target,
            until: r.until,
        });
        self.asked.put(r.first);
        self.next = r.first + 2;
    }

    /// Puts an opened row.
    fn put_opened(&mut self, r: Opened)
        requires few { AreFew self.old.rows }
        requires is { is_next self.old.rows self.old.next (kinds.Opened r) ≡ true }
        requires room { HasRoom self.old.spare (kinds.Opened r) }
        ensures { IsAfter self.old self.new (kinds.Opened r) }
    {
        self.rows.put_opened(OpenedRow {
            request: r.request,
            issuer: r.issuer,
            assertion: r.assertion,
            assertion_until: r.assertion_until,
            token: r.token,
            name: r.name,
            index: r.index,
            attributes: r.attributes,
            until: r.until,
            closed: false,
            key: r.key.number(),
        });
        self.opened.put(r.first);
        self.next = r.first + 1;
    }

    /// Closes a session and puts the row of its logout.
    fn put_left(&mut self, r: Left)
        requires few { AreFew self.old.rows }
        requires is { is_next self.old.rows self.old.next (kinds.Left r) ≡ true }
        requires room { HasRoom self.old.spare (kinds.Left r) }
        ensures { IsAfter self.old self.new (kinds.Left r) }
    {
        self.close(r.token.as_str());
        self.rows.put_left(LeftRow {
            request: r.request,
            until: r.until,
            confirmed: false,
        });
        self.left.put(r.first);
        self.next = r.first + 1;
    }

    /// Closes the sessions of an answered logout.
    fn put_ended(&mut self, r: Ended)
        requires few { AreFew self.old.rows }
        requires is { is_next self.old.rows self.old.next (kinds.Ended r) ≡ true }
        ensures { IsAfter self.old self.new (kinds.Ended r) }
    {
        self.close_all(r.tokens.as_slice());
        self.next = r.first + 1;
    }

    /// Confirms a logout.
    fn put_confirmed(&mut self, r: Confirmed)
        ensures { IsAfter self.old self.new (kinds.Confirmed r) }
    {
        if let Some(place) = self.waiting_place(r.request.as_str()) {
            self.rows.confirm(place);
        }
    }
}
