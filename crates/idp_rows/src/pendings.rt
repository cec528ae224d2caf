//! The logins that are pending.
ghost use Rattle.std.specs.Prelude.{◌≡◌, ◌<◌, ◌≤◌, true, false, [], ◌∷◌, ◌++◌, map, length, option_copied, OnOk, IfSome, IfNone};
ghost use Rattle.std.specs.List.{list_any};
ghost use Rattle.ledger_rules.specs.Numbers.{AreBelow, has_number};
ghost use Rattle.std.specs.Str.{bytes_eq};
ghost use Rattle.owned_values.specs.Options.{is_there};
ghost use Rattle.idp_rows.specs.RowsOf.{used_where};
ghost use Rattle.idp_rows.specs.Finding.{pending_found};
ghost use Rattle.idp_rows.specs.Record.{is_unused};
ghost use Rattle.idp_rows.specs.Kept.{IsRowAt};
ghost use Rattle.ledger_rules.specs.Order.{one_text, IsOrder};

use crate::row::PendingRow;
use ledger_rules::{Numbers, RowPlaces};
use owned_values::{NoMemory, Text};
use std::alloc::Global;
use std::marker::Model;

/// The rows of pending logins, the numbers by which they are found, and their places, which are in the order of their IDs.
#[derive(Debug, Drop)]
pub(crate) struct Pendings {
    rows: Vec<PendingRow>,
    numbers: Numbers,
    places: RowPlaces,
}

impl Model for Pendings {
    ghost use Rattle.std.specs.Prelude.{◌-◌, min, vec_len, vec_capacity};
    ghost use Rattle.idp_rows.specs.Kept.{PendingsView, HaveNumbers, ComeInOrder, pending_ids};

    ghost Value = { PendingsView };

    ghost view = { λ p. record {
      rows = p.rows.items;
      numbers = p.numbers.listed;
      spare = min (min (vec_capacity p.rows - vec_len p.rows) p.numbers.spare) p.places.spare;
    } };

    ghost invariant = { λ p. HaveNumbers p.numbers.listed (pending_ids p.rows.items) × ComeInOrder (pending_ids p.rows.items) p.places.count };
}

impl Pendings {
    /// No logins. It takes no memory.
    pub(crate) fn new(alloc: Global) -> Pendings
        ensures rows { result.rows ≡ [] }
        ensures numbers { result.numbers ≡ [] }
    {
        Pendings {
            rows: Vec::new(alloc),
            numbers: Numbers::new(alloc),
            places: RowPlaces::new(alloc),
        }
    }

    /// The rows.
    pub(crate) fn rows(&self) -> &[PendingRow]
        ensures { result.now ≡ self.now.rows }
    {
        self.rows.as_slice()
    }

    /// The places of the rows in the order of their IDs.
    pub(crate) fn order(&self) -> &[u32]
        ensures { IsOrder (map (λ row. one_text row.pending) self.now.rows) result.now }
    {
        self.places.as_slice()
    }

    /// The place of the login of an ID.
    fn place(&self, pending: &str) -> Option<usize>
        ensures some { IfSome result (IsRowAt (λ row. row.pending) self.now.rows pending.now) }
        ensures none { IfNone result (list_any (λ row. bytes_eq row.pending pending.now) self.now.rows ≡ false) }
    {
        let place = self.numbers.place_of(pending)?;
        if self.rows[place].pending.as_str() == pending {
            Some(place)
        } else {
            None
        }
    }

    /// Whether there is a login of an ID that is not used.
    pub(crate) fn is_unused(&self, pending: &str) -> bool
        ensures { result ≡ is_unused self.now.rows pending.now }
    {
        match self.place(pending) {
            Some(place) => !self.rows[place].used,
            None => false,
        }
    }

    /// The login of an ID that is not used and is visible.
    pub(crate) fn find(&self, pending: &str, now: u64, horizon: u64) -> Option<&PendingRow>
        ensures { option_copied result ≡ pending_found self.now.rows pending.now now horizon }
    {
        let place = self.place(pending)?;
        let row = &self.rows[place];
        if !row.used && now.max(horizon) < row.until {
            Some(row)
        } else {
            None
        }
    }

    /// Makes room for one row at least. It changes nothing else, and takes away no room.
    pub(crate) fn reserve(&mut self) -> Result<(), NoMemory>
        ensures rows { self.new.rows ≡ self.old.rows }
        ensures numbers { self.new.numbers ≡ self.old.numbers }
        ensures ok { OnOk result (0 < self.new.spare) }
        ensures kept { self.old.spare ≤ self.new.spare }
    {
        self.rows.reserve(1)?;
        self.numbers.reserve()?;
        self.places.reserve()
    }

    /// Puts a row behind the others, whose ID begins with this number, where there is room. It takes no memory.
    pub(crate) fn put(&mut self, row: PendingRow, number: u64)
        requires few { length self.old.rows < 4294967295 }
        requires below { AreBelow number self.old.numbers }
        requires has { has_number number row.pending ≡ true }
        requires room { 0 < self.old.spare }
        ensures rows { self.new.rows ≡ self.old.rows ++ row ∷ [] }
        ensures numbers { self.new.numbers ≡ self.old.numbers ++ number ∷ [] }
    {
        match self.rows.push(row) {
            Ok(()) => {}
            Err(_) => unreachable!(),
        }
        self.numbers.put(number);
        self.places.put_next();
    }

    /// Uses the login that was pending, where there is one.
    pub(crate) fn use_up(&mut self, pending: &Option<Text>)
        ensures rows { self.new.rows ≡ used_where (λ row. is_there row.pending pending.now) self.old.rows }
        ensures numbers { self.new.numbers ≡ self.old.numbers }
        ensures spare { self.new.spare ≡ self.old.spare }
    {
        if let Some(id) = pending {
            self.use_id(id.as_str());
        }
    }

    /// Uses the login of an ID, where there is one.
    fn use_id(&mut self, pending: &str)
        ensures rows { self.new.rows ≡ used_where (λ row. bytes_eq pending.now row.pending) self.old.rows }
        ensures numbers { self.new.numbers ≡ self.old.numbers }
        ensures spare { self.new.spare ≡ self.old.spare }
    {
        if let Some(place) = self.place(pending) {
            self.rows[place].used = true;
        }
    }
}
