//! The rows of rounds.
ghost use Rattle.std.specs.Prelude.{◌≡◌, ℕ, ◌≤◌, ◌<◌, ◌+◌, true, false, [], ◌∷◌, ◌++◌, length, option_copied, OnOk, IfSome, IfNone};
ghost use Rattle.std.specs.List.{list_any};
ghost use Rattle.std.specs.Str.{bytes_eq};
ghost use Rattle.ledger_rules.specs.Numbers.{AreBelow, has_number};
ghost use Rattle.round_rows.specs.Rounds.{answered, id_of, waits_for};
ghost use Rattle.round_rows.specs.Kept.{AreFew, HasItAlone, HasRequestAt, IsRoundOf, numbers_with};

use crate::row::{NextRequest, RoundRow};
use ledger_rules::Numbers;
use owned_values::NoMemory;
use std::alloc::Global;
use std::marker::Model;

/// The rows of rounds, the numbers of all requests that they made, and with each number the place of its round.
#[derive(Debug, Drop)]
pub struct RoundRows {
    rows: Vec<RoundRow>,
    numbers: Numbers,
    places: Vec<u32>,
}

impl Model for RoundRows {
    ghost use Rattle.std.specs.Prelude.{◌-◌, min, vec_len, vec_capacity};
    ghost use Rattle.round_rows.specs.Kept.{RoundsView, ArePlaced};

    ghost Value = { RoundsView };

    ghost view = { λ r. record {
      rows = r.rows.items;
      numbers = r.numbers.listed;
      spare = min (min (vec_capacity r.rows - vec_len r.rows) r.numbers.spare) (vec_capacity r.places - vec_len r.places);
    } };

    ghost invariant = { λ r. ArePlaced r.rows.items r.numbers.listed r.places.items };
}

impl RoundRows {
    /// No rounds. It takes no memory.
    pub fn new(alloc: Global) -> RoundRows
        ensures rows { result.rows ≡ [] }
        ensures numbers { result.numbers ≡ [] }
    {
        RoundRows {
            rows: Vec::new(alloc),
            numbers: Numbers::new(alloc),
            places: Vec::new(alloc),
        }
    }

    /// The rows, in the order in which they came.
    pub fn rows(&self) -> &[RoundRow]
        ensures { result.now ≡ self.now.rows }
    {
        self.rows.as_slice()
    }

    /// The place of the round whose last request has this ID.
    fn place(&self, request: &str) -> Option<usize>
        ensures some { IfSome result (HasRequestAt self.now.rows request.now) }
        ensures none { IfNone result (list_any (λ row. bytes_eq row.request request.now) self.now.rows ≡ false) }
    {
        let at = self.numbers.place_of(request)?;
        let place = self.places[at] as usize;
        if self.rows[place].request.as_str() == request {
            Some(place)
        } else {
            None
        }
    }

    /// The round that waits for the answer to a request, none where no round does. No other row has that request. It
    /// takes no memory: it halves what is left at each step.
    pub fn waiting(&self, request: &str) -> Option<&RoundRow>
        ensures round { IsRoundOf self.now.rows request.now (option_copied result) }
        ensures only { IfSome result (λ row. HasItAlone self.now.rows request.now row.now) }
    {
        let place = self.place(request)?;
        let row = &self.rows[place];
        if row.is_done() { None } else { Some(row) }
    }

    /// Makes room for one round and one request at least. It changes nothing else, and takes away no room.
    pub fn reserve(&mut self) -> Result<(), NoMemory>
        ensures rows { self.new.rows ≡ self.old.rows }
        ensures numbers { self.new.numbers ≡ self.old.numbers }
        ensures ok { OnOk result (0 < self.new.spare) }
        ensures kept { self.old.spare ≤ self.new.spare }
    {
        self.rows.reserve(1)?;
        self.numbers.reserve()?;
        self.places.reserve(1)?;
        Ok(())
    }

    /// Puts a round behind the others, whose request begins with this number, where there is room. It takes no memory.
    pub fn put(&mut self, row: RoundRow, number: u64)
        requires few { length self.old.rows < 4294967295 }
        requires below { AreBelow number self.old.numbers }
        requires has { has_number number row.request ≡ true }
        requires room { 0 < self.old.spare }
        ensures rows { self.new.rows ≡ self.old.rows ++ row ∷ [] }
        ensures numbers { self.new.numbers ≡ self.old.numbers ++ number ∷ [] }
    {
        let place = self.rows.len() as u32;
        match self.rows.push(row) {
            Ok(()) => {}
            Err(_) => unreachable!(),
        }
        self.numbers.put(number);
        match self.places.push(place) {
            Ok(()) => {}
            Err(_) => unreachable!(),
        }
    }

    /// Counts an answer to the request for which a round waits, and where a request follows lets the round wait for that one.
    /// No other row had the request, so no other is changed. It takes no memory.
    pub fn tell(&mut self, request: &str, confirmed: bool, next: Option<NextRequest>)
        requires few { AreFew self.old.rows }
        requires waits { list_any (waits_for request.now) self.old.rows ≡ true }
        requires below { IfSome next (λ n. AreBelow n.number self.old.numbers) }
        requires has { IfSome next (λ n. has_number n.number n.id ≡ true) }
        requires room { IfSome next (λ n. 0 < self.old.spare) }
        ensures rows { self.new.rows ≡ answered request.now confirmed (id_of next) self.old.rows }
        ensures only { (place : ℕ) × HasRequestAt self.old.rows request.now place }
        ensures numbers { self.new.numbers ≡ numbers_with next self.old.numbers }
    {
        let Some(place) = self.place(request) else {
            unreachable!();
        };
        let row = &mut self.rows[place];
        match next {
            Some(next) => {
                row.take_answer(confirmed, Some(next.id));
                self.numbers.put(next.number);
                match self.places.push(place as u32) {
                    Ok(()) => {}
                    Err(_) => unreachable!(),
                }
            }
            None => row.take_answer(confirmed, None),
        }
    }
}
