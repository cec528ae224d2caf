//! The logouts that were begun here.
ghost use Rattle.std.specs.Prelude.{◌≡◌, ◌<◌, ◌≤◌, true, false, [], ◌∷◌, ◌++◌, OnOk, IfSome, IfNone};
ghost use Rattle.std.specs.List.{list_any};
ghost use Rattle.std.specs.Str.{bytes_eq};
ghost use Rattle.ledger_rules.specs.Numbers.{AreBelow, has_number};
ghost use Rattle.idp_rows.specs.RowsOf.{confirmed_where};
ghost use Rattle.idp_rows.specs.Finding.{is_waiting_now};
ghost use Rattle.idp_rows.specs.Record.{is_waiting};
ghost use Rattle.idp_rows.specs.Kept.{IsRowAt};

use crate::row::LeftRow;
use ledger_rules::Numbers;
use owned_values::NoMemory;
use std::alloc::Global;
use std::marker::Model;

/// The rows of logouts, and the numbers by which they are found.
#[derive(Debug, Drop)]
pub(crate) struct Lefts {
    rows: Vec<LeftRow>,
    numbers: Numbers,
}

impl Model for Lefts {
    ghost use Rattle.std.specs.Prelude.{◌-◌, min, vec_len, vec_capacity};
    ghost use Rattle.idp_rows.specs.Kept.{LeftsView, HaveNumbers, requests};

    ghost Value = { LeftsView };

    ghost view = { λ l. record {
      rows = l.rows.items;
      numbers = l.numbers.listed;
      spare = min (vec_capacity l.rows - vec_len l.rows) l.numbers.spare;
    } };

    ghost invariant = { λ l. HaveNumbers l.numbers.listed (requests l.rows.items) };
}

impl Lefts {
    /// No logouts. It takes no memory.
    pub(crate) fn new(alloc: Global) -> Lefts
        ensures rows { result.rows ≡ [] }
        ensures numbers { result.numbers ≡ [] }
    {
        Lefts {
            rows: Vec::new(alloc),
            numbers: Numbers::new(alloc),
        }
    }

    /// The rows.
    pub(crate) fn rows(&self) -> &[LeftRow]
        ensures { result.now ≡ self.now.rows }
    {
        self.rows.as_slice()
    }

    /// The place of the logout of a request.
    fn place(&self, request: &str) -> Option<usize>
        ensures some { IfSome result (IsRowAt (λ row. row.request) self.now.rows request.now) }
        ensures none { IfNone result (list_any (λ row. bytes_eq row.request request.now) self.now.rows ≡ false) }
    {
        let place = self.numbers.place_of(request)?;
        if self.rows[place].request.as_str() == request {
            Some(place)
        } else {
            None
        }
    }

    /// Whether there is a logout of a request that is not confirmed.
    pub(crate) fn is_waiting(&self, request: &str) -> bool
        ensures { result ≡ is_waiting self.now.rows request.now }
    {
        match self.place(request) {
            Some(place) => !self.rows[place].confirmed,
            None => false,
        }
    }

    /// Whether there is a logout of a request that is not confirmed and is visible.
    pub(crate) fn is_waiting_now(&self, request: &str, now: u64, horizon: u64) -> bool
        ensures { result ≡ is_waiting_now self.now.rows request.now now horizon }
    {
        match self.place(request) {
            Some(place) => {
                let row = &self.rows[place];
                !row.confirmed && now.max(horizon) < row.until
            }
            None => false,
        }
    }

    /// Makes room for one row at least. It changes nothing else, and takes away no room.
    pub(crate) fn reserve(&mut self) -> Result<(), NoMemory>
        ensures rows { self.new.rows ≡ self.old.rows }
        ensures numbers { self.new.numbers ≡ self.old.numbers }
        ensures ok { OnOk result (0 < self.new.spare) }
        ensures kept { self.old.spare ≤ self.new.spare }
    {
        self.rows.reserve(1)?;
        self.numbers.reserve()
    }

    /// Puts a row behind the others, whose request begins with this number, where there is room. It takes no memory.
    pub(crate) fn put(&mut self, row: LeftRow, number: u64)
        requires below { AreBelow number self.old.numbers }
        requires has { has_number number row.request ≡ true }
        requires room { 0 < self.old.spare }
        ensures rows { self.new.rows ≡ self.old.rows ++ row ∷ [] }
        ensures numbers { self.new.numbers ≡ self.old.numbers ++ number ∷ [] }
    {
        match self.rows.push(row) {
            Ok(()) => {}
            Err(_) => unreachable!(),
        }
        self.numbers.put(number);
    }

    /// Confirms the logout of a request, where there is one.
    pub(crate) fn confirm(&mut self, request: &str)
        ensures rows { self.new.rows ≡ confirmed_where (λ row. bytes_eq request.now row.request) self.old.rows }
        ensures numbers { self.new.numbers ≡ self.old.numbers }
        ensures spare { self.new.spare ≡ self.old.spare }
    {
        if let Some(place) = self.place(request) {
            self.rows[place].confirmed = true;
        }
    }
}
