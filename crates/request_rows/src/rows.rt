//! The rows, with their indexes.
ghost use Rattle.std.specs.Prelude.{◌≡◌, ◌<◌, ◌≤◌, ◌+◌, ◌&&◌, not, [], ◌∷◌, ◌++◌, length, IfOk, OnOk, OnErr, option_copied};
ghost use Rattle.request_rows.specs.Rows.{visible, asked_row, is_spent, is_seen, session_row, closed_at, confirmed_at};
ghost use Rattle.ledger_rules.specs.Order.{IsOrder};
ghost use Rattle.request_rows.specs.Order.{keys_of};
ghost use Rattle.request_rows.specs.Indexed.{room};

use crate::index::{Index, Lists};
use crate::key::{Key, RowKey};
use crate::row::{AskedRow, LeftRow, OpenedRow};
use owned_values::NoMemory;
use std::alloc::Global;
use std::marker::Model;

/// How many rows of one kind there may be, so that 32 bits hold each place.
pub const ROW_LIMIT: usize = 4_294_967_295;

/// Rows of three kinds, each in the order in which they came, and an index of the asked and opened rows by each of their
/// keys.
#[derive(Debug, Drop)]
pub struct Rows {
    lists: Lists,
    left: Vec<LeftRow>,
    asked_request: Index,
    opened_request: Index,
    opened_assertion: Index,
    opened_token: Index,
}

impl Model for Rows {
    ghost use Rattle.std.specs.Prelude.{◌≤◌, min, length};
    ghost use Rattle.request_rows.specs.Rows.{RowsView};
    ghost use Rattle.ledger_rules.specs.Order.{IsOrder};
    ghost use Rattle.request_rows.specs.Order.{keys_of};
    ghost use Rattle.request_rows.specs.Indexed.{room};
    ghost use Rattle.request_rows.specs.declared.key.RowKey.TheVariants.{AskedRequest, OpenedRequest, OpenedAssertion, OpenedToken};

    ghost Value = { RowsView };

    ghost view = { λ r. record {
      asked = r.lists.asked.items;
      opened = r.lists.opened.items;
      left = r.left.items;
      spare = record {
        asked = min (room r.lists.asked) (room r.asked_request.places);
        opened = min (min (room r.lists.opened) (room r.opened_request.places)) (min (room r.opened_assertion.places) (room r.opened_token.places));
        left = room r.left;
      };
    } };

    ghost invariant = { λ r.
        (IsOrder (keys_of AskedRequest r.lists.asked.items r.lists.opened.items) r.asked_request.places.items)
        × (IsOrder (keys_of OpenedRequest r.lists.asked.items r.lists.opened.items) r.opened_request.places.items)
        × (IsOrder (keys_of OpenedAssertion r.lists.asked.items r.lists.opened.items) r.opened_assertion.places.items)
        × (IsOrder (keys_of OpenedToken r.lists.asked.items r.lists.opened.items) r.opened_token.places.items) };
}

/// Whether what holds until a moment is visible.
fn is_visible(until: u64, now: u64, horizon: u64) -> bool
    ensures { result ≡ visible until now horizon }
{
    now.max(horizon) < until
}

/// Whether a session is neither closed nor past.
fn is_live(row: &OpenedRow, now: u64, horizon: u64) -> bool
    ensures { result ≡ (not row.now.closed && visible row.now.until now horizon) }
{
    !row.closed && is_visible(row.until, now, horizon)
}

/// Puts a row at the end of a list that has room for it.
pub(crate) fn put_last<T: Drop>(list: &mut Vec<T>, row: T)
    requires { 0 < room list.old }
    ensures items { list.new.items ≡ list.old.items ++ row ∷ [] }
    ensures room { room list.old ≤ room list.new + 1 }
{
    match list.push(row) {
        Ok(()) => {}
        Err(_) => unreachable!(),
    }
}

impl Rows {
    /// No rows. It takes no memory.
    pub fn new(alloc: Global) -> Rows
        ensures asked { result.asked ≡ [] }
        ensures opened { result.opened ≡ [] }
        ensures left { result.left ≡ [] }
    {
        Rows {
            lists: Lists {
                asked: Vec::new(alloc),
                opened: Vec::new(alloc),
            },
            left: Vec::new(alloc),
            asked_request: Index::new(alloc),
            opened_request: Index::new(alloc),
            opened_assertion: Index::new(alloc),
            opened_token: Index::new(alloc),
        }
    }

    /// The rows of these lists, with an index that is sorted once by each key. Where there is no memory they are let go.
    pub(crate) fn of(alloc: Global, lists: Lists, left: Vec<LeftRow>) -> Result<Rows, NoMemory>
        requires asked { length lists.asked.items ≤ ROW_LIMIT }
        requires opened { length lists.opened.items ≤ ROW_LIMIT }
        ensures asked { IfOk result (λ rows. rows.asked ≡ lists.asked.items) }
        ensures opened { IfOk result (λ rows. rows.opened ≡ lists.opened.items) }
        ensures left { IfOk result (λ rows. rows.left ≡ left.items) }
    {
        let asked_request = Index::of(alloc, &lists, RowKey::AskedRequest)?;
        let opened_request = Index::of(alloc, &lists, RowKey::OpenedRequest)?;
        let opened_assertion = Index::of(alloc, &lists, RowKey::OpenedAssertion)?;
        let opened_token = Index::of(alloc, &lists, RowKey::OpenedToken)?;
        Ok(Rows {
            lists,
            left,
            asked_request,
            opened_request,
            opened_assertion,
            opened_token,
        })
    }

    /// The asked rows, in the order in which they came.
    pub fn asked(&self) -> &[AskedRow]
        ensures { result.now ≡ self.now.asked }
    {
        self.lists.asked.as_slice()
    }

    /// The opened rows, in the order in which they came.
    pub fn opened(&self) -> &[OpenedRow]
        ensures { result.now ≡ self.now.opened }
    {
        self.lists.opened.as_slice()
    }

    /// The rows of logouts that were asked for, in the order in which they came.
    pub fn left(&self) -> &[LeftRow]
        ensures { result.now ≡ self.now.left }
    {
        self.left.as_slice()
    }

    /// The places of the rows, counted from 0, in the order of this key: each place once, and of two neighbours the first
    /// has the lesser key by bytes, or an equal key and the lesser place.
    pub fn order(&self, key: RowKey) -> &[u32]
        ensures { IsOrder (keys_of key self.now.asked self.now.opened) result.now }
    {
        match key {
            RowKey::AskedRequest => self.asked_request.places.as_slice(),
            RowKey::OpenedRequest => self.opened_request.places.as_slice(),
            RowKey::OpenedAssertion => self.opened_assertion.places.as_slice(),
            RowKey::OpenedToken => self.opened_token.places.as_slice(),
        }
    }

    /// The first visible row of a request that was asked, none where there is none.
    pub fn asked_row(&self, request: &str, now: u64, horizon: u64) -> Option<&AskedRow>
        ensures { option_copied result ≡ asked_row self.now.asked request.now now horizon }
    {
        let places = self
            .asked_request
            .places_of(&self.lists, RowKey::AskedRequest, Key::one(request));
        for place in places {
            let row = &self.lists.asked[*place as usize];
            if is_visible(row.until, now, horizon) {
                return Some(row);
            }
        }
        None
    }

    /// Whether a session was opened for this request, visible or not, closed or not.
    pub fn is_spent(&self, request: &str) -> bool
        ensures { result ≡ is_spent self.now.opened request.now }
    {
        let places = self
            .opened_request
            .places_of(&self.lists, RowKey::OpenedRequest, Key::one(request));
        !places.is_empty()
    }

    /// Whether a session was opened by this issuer's assertion, which may not come again yet.
    pub fn is_seen(&self, issuer: &str, assertion: &str, now: u64, horizon: u64) -> bool
        ensures { result ≡ is_seen self.now.opened issuer.now assertion.now now horizon }
    {
        let key = Key {
            first: issuer,
            second: assertion,
        };
        let places = self
            .opened_assertion
            .places_of(&self.lists, RowKey::OpenedAssertion, key);
        for place in places {
            if is_visible(
                self.lists.opened[*place as usize].assertion_until,
                now,
                horizon,
            ) {
                return true;
            }
        }
        false
    }

    /// The first session of a token that is not closed and is visible, none where there is none.
    pub fn session_row(&self, token: &str, now: u64, horizon: u64) -> Option<&OpenedRow>
        ensures { option_copied result ≡ session_row self.now.opened token.now now horizon }
    {
        let places = self
            .opened_token
            .places_of(&self.lists, RowKey::OpenedToken, Key::one(token));
        for place in places {
            let row = &self.lists.opened[*place as usize];
            if is_live(row, now, horizon) {
                return Some(row);
            }
        }
        None
    }

    /// Puts a row behind the asked ones. Where there is no memory all is as before, and the row is let go.
    pub fn add_asked(&mut self, row: AskedRow) -> Result<(), NoMemory>
        requires { length self.old.asked < ROW_LIMIT }
        ensures ok { OnOk result (self.new ≡ record self.old { asked = self.old.asked ++ row ∷ []; spare = record self.old.spare { asked = self.new.spare.asked } }) }
        ensures err { OnErr result (self.new ≡ self.old) }
    {
        self.reserve_asked()?;
        self.put_asked(row);
        Ok(())
    }

    /// Puts a row behind the opened ones. Where there is no memory all is as before, and the row is let go.
    pub fn add_opened(&mut self, row: OpenedRow) -> Result<(), NoMemory>
        requires { length self.old.opened < ROW_LIMIT }
        ensures ok { OnOk result (self.new ≡ record self.old { opened = self.old.opened ++ row ∷ []; spare = record self.old.spare { opened = self.new.spare.opened } }) }
        ensures err { OnErr result (self.new ≡ self.old) }
    {
        self.reserve_opened()?;
        self.put_opened(row);
        Ok(())
    }

    /// Makes room for one asked row at least. It changes nothing else, and takes away no room; where
    /// there is no memory all is as before.
    pub fn reserve_asked(&mut self) -> Result<(), NoMemory>
        ensures same { self.new ≡ record self.old { spare = record self.old.spare { asked = self.new.spare.asked } } }
        ensures ok { OnOk result (0 < self.new.spare.asked) }
        ensures err { OnErr result (self.new ≡ self.old) }
        ensures kept { self.old.spare.asked ≤ self.new.spare.asked }
    {
        self.lists.asked.reserve(1)?;
        self.asked_request.reserve()
    }

    /// Makes room for one opened row at least. It changes nothing else, and takes away no room; where
    /// there is no memory all is as before.
    pub fn reserve_opened(&mut self) -> Result<(), NoMemory>
        ensures same { self.new ≡ record self.old { spare = record self.old.spare { opened = self.new.spare.opened } } }
        ensures ok { OnOk result (0 < self.new.spare.opened) }
        ensures err { OnErr result (self.new ≡ self.old) }
        ensures kept { self.old.spare.opened ≤ self.new.spare.opened }
    {
        self.lists.opened.reserve(1)?;
        self.opened_request.reserve()?;
        self.opened_assertion.reserve()?;
        self.opened_token.reserve()
    }

    /// Makes room for one row of a logout at least. It changes nothing else, and takes away no room; where
    /// there is no memory all is as before.
    pub fn reserve_left(&mut self) -> Result<(), NoMemory>
        ensures same { self.new ≡ record self.old { spare = record self.old.spare { left = self.new.spare.left } } }
        ensures ok { OnOk result (0 < self.new.spare.left) }
        ensures err { OnErr result (self.new ≡ self.old) }
        ensures kept { self.old.spare.left ≤ self.new.spare.left }
    {
        self.left.reserve(1)?;
        Ok(())
    }

    /// Puts a row behind the asked ones, where there is room. It takes no memory.
    pub fn put_asked(&mut self, row: AskedRow)
        requires few { length self.old.asked < ROW_LIMIT }
        requires room { 0 < self.old.spare.asked }
        ensures rows { self.new ≡ record self.old { asked = self.old.asked ++ row ∷ []; spare = record self.old.spare { asked = self.new.spare.asked } } }
        ensures room { self.old.spare.asked ≤ self.new.spare.asked + 1 }
    {
        let place = self.lists.asked.len();
        let by_request = self.asked_request.rank(
            &self.lists,
            RowKey::AskedRequest,
            Key::one(row.request.as_str()),
            place,
        );
        put_last(&mut self.lists.asked, row);
        self.asked_request.put(by_request, place as u32);
    }

    /// Puts a row behind the opened ones, where there is room. It takes no memory.
    pub fn put_opened(&mut self, row: OpenedRow)
        requires few { length self.old.opened < ROW_LIMIT }
        requires room { 0 < self.old.spare.opened }
        ensures rows { self.new ≡ record self.old { opened = self.old.opened ++ row ∷ []; spare = record self.old.spare { opened = self.new.spare.opened } } }
        ensures room { self.old.spare.opened ≤ self.new.spare.opened + 1 }
    {
        let place = self.lists.opened.len();
        let by_request = self.opened_request.rank(
            &self.lists,
            RowKey::OpenedRequest,
            Key::one(row.request.as_str()),
            place,
        );
        let by_assertion = self.opened_assertion.rank(
            &self.lists,
            RowKey::OpenedAssertion,
            Key {
                first: row.issuer.as_str(),
                second: row.assertion.as_str(),
            },
            place,
        );
        let by_token = self.opened_token.rank(
            &self.lists,
            RowKey::OpenedToken,
            Key::one(row.token.as_str()),
            place,
        );
        put_last(&mut self.lists.opened, row);
        self.opened_request.put(by_request, place as u32);
        self.opened_assertion.put(by_assertion, place as u32);
        self.opened_token.put(by_token, place as u32);
    }

    /// Puts a row behind those of logouts, where there is room. It takes no memory.
    pub fn put_left(&mut self, row: LeftRow)
        requires { 0 < self.old.spare.left }
        ensures rows { self.new ≡ record self.old { left = self.old.left ++ row ∷ []; spare = record self.old.spare { left = self.new.spare.left } } }
        ensures room { self.old.spare.left ≤ self.new.spare.left + 1 }
    {
        put_last(&mut self.left, row);
    }

    /// Closes the opened row at a place, counted from 0.
    pub fn close(&mut self, place: u32)
        requires { place < length self.old.opened }
        ensures { self.new ≡ record self.old { opened = closed_at self.old.opened place } }
    {
        self.lists.opened[place as usize].closed = true;
    }

    /// Confirms the row of a logout at a place, counted from 0.
    pub fn confirm(&mut self, place: u32)
        requires { place < length self.old.left }
        ensures { self.new ≡ record self.old { left = confirmed_at self.old.left place } }
    {
        self.left[place as usize].confirmed = true;
    }
}
