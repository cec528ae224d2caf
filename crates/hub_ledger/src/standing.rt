//! What the records of a hub stand for.
ghost use Rattle.std.specs.Prelude.{◌≡◌, ◌≤◌, ◌<◌, ◌+◌, ◌^◌, ◌++◌, ◌∷◌, true, false, ◌&&◌, not, [], OnOk, IfOk, IfSome, IfNone};
ghost use Rattle.ledger_records.specs.declared.hub_record.HubRecord.TheVariants as kinds;
ghost use Rattle.hub_ledger.specs.RowsOf.{rows_of_kind};
ghost use Rattle.request_rows.specs.Rows.{is_spent};
ghost use Rattle.hub_ledger.specs.Record.{is_free, is_next, is_routed};
ghost use Rattle.hub_ledger.specs.Standing.{HasRoom, KeepsRoom, AreFew, IsAfter, IsAskedAt};
ghost use Rattle.std.specs.List.{list_any};
ghost use Rattle.std.specs.Option.{option_map};
ghost use Rattle.request_rows.specs.Indexed.{room};
ghost use Rattle.hub_ledger.specs.Finding.{routed_row, routed_view};
ghost use Rattle.std.specs.Str.{bytes_eq};

use crate::checks::{are_fresh, are_xml_texts, goes_to, is_dated};
use crate::row::{BelowRow, RoutedRow};
use ledger_records::HubRecord;
use ledger_records::hub_record::{Backed, Routed};
use ledger_rules::Numbers;
use owned_values::{NoMemory, Text};
use request_rows::{AskedRow, KeptRows, OpenedRow, Rows};
use std::alloc::Global;
use std::marker::Model;

/// The rows of records, the numbers by which requests upwards are found, the mark of each whether it is spent, and the least number
/// above all that were drawn.
#[derive(Debug, Drop)]
pub struct HubStanding {
    rows: KeptRows,
    below: Vec<BelowRow>,
    spent: Vec<bool>,
    numbers: Numbers,
    next: u64,
    alloc: Global,
}

impl Model for HubStanding {
    ghost use Rattle.std.specs.Prelude.{◌≤◌, ◌^◌, min, map};
    ghost use Rattle.request_rows.specs.Indexed.{room};
    ghost use Rattle.hub_ledger.specs.Standing.{StandingView, rows_with, HaveNumbers, AreCounted, AreSpent};

    ghost Value = { StandingView };

    ghost view = { λ s. record {
      rows = rows_with s.rows.rows s.below.items;
      is_indexed = s.rows.is_indexed;
      next = s.next;
      spare = record {
        asked = min (min s.rows.rows.spare.asked s.numbers.spare) (min (room s.below) (room s.spent));
        opened = s.rows.rows.spare.opened;
      };
    } };

    ghost invariant = { λ s. HaveNumbers s.next s.numbers.listed (map (λ row. row.request) s.rows.rows.asked)
        × AreSpent s.spent.items (rows_with s.rows.rows s.below.items) × (s.next ≤ 2 ^ 63)
        × AreCounted (rows_with s.rows.rows s.below.items) };
}

/// Puts a value behind the others, where there is room. It takes no memory.
fn put_last<T: Drop>(values: &mut Vec<T>, value: T)
    requires { 0 < room values.old }
    ensures items { values.new.items ≡ values.old.items ++ value ∷ [] }
    ensures room { room values.old ≤ room values.new + 1 }
{
    match values.push(value) {
        Ok(()) => {}
        Err(_) => unreachable!(),
    }
}

impl HubStanding {
    /// What no records stand for. It takes no memory.
    pub(crate) fn empty(alloc: Global) -> HubStanding
        ensures rows { result.rows ≡ record { asked = []; below = []; opened = [] } }
        ensures next { result.next ≡ 0 }
    {
        HubStanding {
            rows: KeptRows::new(alloc),
            below: Vec::new(alloc),
            spent: Vec::new(alloc),
            numbers: Numbers::new(alloc),
            next: 0,
            alloc,
        }
    }

    /// The same with indexes of its rows. Where there is no memory all is let go.
    pub(crate) fn indexed(self, alloc: Global) -> Result<HubStanding, NoMemory>
        ensures rows { IfOk result (λ standing. standing.rows ≡ self.rows) }
        ensures next { IfOk result (λ standing. standing.next ≡ self.next) }
        ensures indexed { IfOk result (λ standing. standing.is_indexed ≡ true) }
    {
        let rows = self.rows.indexed(alloc)?;
        Ok(HubStanding {
            rows,
            below: self.below,
            spent: self.spent,
            numbers: self.numbers,
            next: self.next,
            alloc,
        })
    }

    /// The rows of requests upwards and of passed logins, with their indexes.
    pub(crate) fn rows(&self) -> &Rows
        requires { self.now.is_indexed ≡ true }
        ensures asked { result.now.asked ≡ self.now.rows.asked }
        ensures opened { result.now.opened ≡ self.now.rows.opened }
    {
        self.rows.rows()
    }

    /// The least number above all that were drawn.
    pub(crate) fn next_free(&self) -> u64
        ensures next { result ≡ self.now.next }
        ensures end { result ≤ 2 ^ 63 }
    {
        self.next
    }

    /// The place of the row of a request upwards.
    fn asked_place(&self, request: &str) -> Option<usize>
        ensures some { IfSome result (IsAskedAt self.now.rows.asked request.now) }
        ensures none { IfNone result (list_any (λ row. bytes_eq row.request request.now) self.now.rows.asked ≡ false) }
    {
        let place = self.numbers.place_of(request)?;
        if self.rows.asked()[place].request.as_str() == request {
            Some(place)
        } else {
            None
        }
    }

    /// Whether a login answers a request that is not spent, and is passed on to the request below for which that was sent.
    fn is_free_for(&self, r: &Backed) -> bool
        ensures { result ≡ (is_routed self.now.rows.asked self.now.rows.below r.now && not (is_spent self.now.rows.opened r.now.request)) }
    {
        match self.asked_place(r.request.as_str()) {
            Some(place) => goes_to(r, &self.below[place]) && !self.spent[place],
            None => false,
        }
    }

    /// Whether each row that a record names is there, and free for it.
    fn is_free(&self, entry: &HubRecord) -> bool
        ensures { result ≡ is_free self.now.rows entry.now }
    {
        match entry {
            HubRecord::Routed(_) | HubRecord::Spoke(_) => true,
            HubRecord::Backed(r) => self.is_free_for(r),
        }
    }

    /// Whether a record may come behind those that stand here.
    pub(crate) fn comes_next(&self, entry: &HubRecord) -> bool
        ensures { result ≡ is_next self.now.rows self.now.next entry.now }
    {
        self.is_free(entry)
            && are_fresh(self.next, entry)
            && are_xml_texts(entry)
            && is_dated(entry)
    }

    /// How many rows there are of a record's kind, where it has rows.
    pub(crate) fn kept_of_kind(&self, entry: &HubRecord) -> Option<usize>
        ensures { result ≡ rows_of_kind self.now.rows entry.now }
    {
        match entry {
            HubRecord::Routed(_) => Some(self.rows.asked().len()),
            HubRecord::Backed(_) => Some(self.rows.opened().len()),
            HubRecord::Spoke(_) => None,
        }
    }

    /// Makes room for the rows of a record, so that `put_entry` takes no memory. It changes nothing else, and takes away no room.
    pub(crate) fn make_room(&mut self, entry: &HubRecord) -> Result<(), NoMemory>
        ensures rows { self.new.rows ≡ self.old.rows }
        ensures indexed { self.new.is_indexed ≡ self.old.is_indexed }
        ensures next { self.new.next ≡ self.old.next }
        ensures ok { OnOk result (HasRoom self.new.spare entry.now) }
        ensures kept { KeepsRoom self.old.spare self.new.spare }
    {
        match entry {
            HubRecord::Routed(_) => {
                self.rows.reserve_asked()?;
                self.below.reserve(1)?;
                self.spent.reserve(1)?;
                self.numbers.reserve()
            }
            HubRecord::Backed(_) => self.rows.reserve_opened(),
            HubRecord::Spoke(_) => Ok(()),
        }
    }

    /// Puts a record behind those that stand here, where there is room for its rows. It takes no memory.
    pub(crate) fn put_entry(&mut self, entry: HubRecord)
        requires few { AreFew self.old.rows }
        requires is { is_next self.old.rows self.old.next entry ≡ true }
        requires room { HasRoom self.old.spare entry }
        ensures { IsAfter self.old self.new entry }
    {
        match entry {
            HubRecord::Routed(r) => self.put_routed(r),
            HubRecord::Backed(r) => self.put_backed(r),
            HubRecord::Spoke(r) => self.next = r.first + 1,
        }
    }

    /// Puts the rows of a request that was passed upwards.
    fn put_routed(&mut self, r: Routed)
        requires few { AreFew self.old.rows }
        requires is { is_next self.old.rows self.old.next (kinds.Routed r) ≡ true }
        requires room { HasRoom self.old.spare (kinds.Routed r) }
        ensures { IsAfter self.old self.new (kinds.Routed r) }
    {
        self.rows.put_asked(AskedRow {
            request: r.request,
            relay: r.relay,
            target: Text::new(self.alloc),
            until: r.until,
        });
        put_last(
            &mut self.below,
            BelowRow {
                peer: r.peer,
                consumer: r.consumer,
                request: r.below,
                relay: r.below_relay,
            },
        );
        put_last(&mut self.spent, false);
        self.numbers.put(r.first);
        self.next = r.first + 2;
    }

    /// Marks a request upwards as spent, and puts the row of the login that answers it.
    fn put_backed(&mut self, r: Backed)
        requires few { AreFew self.old.rows }
        requires is { is_next self.old.rows self.old.next (kinds.Backed r) ≡ true }
        requires room { HasRoom self.old.spare (kinds.Backed r) }
        ensures { IsAfter self.old self.new (kinds.Backed r) }
    {
        let Some(place) = self.asked_place(r.request.as_str()) else {
            unreachable!();
        };
        self.rows.put_opened(OpenedRow {
            request: r.request,
            issuer: r.issuer,
            assertion: r.above,
            assertion_until: r.assertion_until,
            token: Text::new(self.alloc),
            name: r.name,
            index: Some(r.index),
            attributes: r.attributes,
            until: r.until,
            closed: true,
            key: r.key.number(),
        });
        self.spent[place] = true;
        self.next = r.first + 3;
    }

    /// The row of a request upwards that is visible and not spent, and that of the request below.
    pub(crate) fn routed(&self, request: &str, now: u64, horizon: u64) -> Option<RoutedRow<'_>>
        ensures { option_map routed_view result ≡ routed_row self.now.rows request.now now horizon }
    {
        let place = self.asked_place(request)?;
        let asked = &self.rows.asked()[place];
        if self.spent[place] || asked.until <= now.max(horizon) {
            return None;
        }
        Some(RoutedRow {
            asked,
            below: &self.below[place],
        })
    }
}
