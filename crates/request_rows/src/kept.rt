//! Rows that are gathered before they are indexed.
ghost use Rattle.std.specs.Prelude.{◌≡◌, ◌<◌, ◌≤◌, ◌+◌, [], ◌∷◌, ◌++◌, true, length, IfOk, OnOk, OnErr};
ghost use Rattle.request_rows.specs.Rows.{closed_at, confirmed_at};
ghost use Rattle.request_rows.specs.Indexed.{room};

use crate::index::Lists;
use crate::row::{AskedRow, LeftRow, OpenedRow};
use crate::rows::{ROW_LIMIT, Rows, put_last};
use owned_values::NoMemory;
use std::alloc::Global;
use std::marker::Model;

/// Closes the row at a place.
fn close_at(rows: &mut Vec<OpenedRow>, place: u32)
    requires { place < length rows.old.items }
    ensures items { rows.new.items ≡ closed_at rows.old.items place }
    ensures room { room rows.new ≡ room rows.old }
{
    rows[place as usize].closed = true;
}

/// Confirms the row at a place.
fn confirm_at(rows: &mut Vec<LeftRow>, place: u32)
    requires { place < length rows.old.items }
    ensures items { rows.new.items ≡ confirmed_at rows.old.items place }
    ensures room { room rows.new ≡ room rows.old }
{
    rows[place as usize].confirmed = true;
}

/// Rows without indexes.
#[derive(Debug, Drop)]
struct GatheredRows {
    lists: Lists,
    left: Vec<LeftRow>,
}

/// Rows that are gathered, or that have their indexes.
#[derive(Debug, Drop)]
enum Stage {
    Gathered(GatheredRows),
    Indexed(Rows),
}

/// The rows of a ledger: gathered while its records are read, and indexed from then on.
///
/// A row whose key comes before others costs an index a move of all places behind it. While rows are gathered nothing is
/// moved, and [`indexed`](KeptRows::indexed) makes each index by one sort.
#[derive(Debug, Drop)]
pub struct KeptRows {
    stage: Stage,
}

impl Model for KeptRows {
    ghost use Rattle.request_rows.specs.Kept.{KeptView, kept_view};

    ghost Value = { KeptView };

    ghost view = { λ k. kept_view k.stage };
}

impl KeptRows {
    /// No rows, with more to be gathered. It takes no memory.
    pub fn new(alloc: Global) -> KeptRows
        ensures asked { result.rows.asked ≡ [] }
        ensures opened { result.rows.opened ≡ [] }
        ensures left { result.rows.left ≡ [] }
    {
        let lists = Lists {
            asked: Vec::new(alloc),
            opened: Vec::new(alloc),
        };
        KeptRows {
            stage: Stage::Gathered(GatheredRows {
                lists,
                left: Vec::new(alloc),
            }),
        }
    }

    /// The same rows with their indexes. Where there is no memory they are let go.
    pub fn indexed(self, alloc: Global) -> Result<KeptRows, NoMemory>
        requires asked { length self.rows.asked ≤ ROW_LIMIT }
        requires opened { length self.rows.opened ≤ ROW_LIMIT }
        ensures rows { IfOk result (λ kept. kept.rows ≡ record self.rows { spare = kept.rows.spare }) }
        ensures indexed { IfOk result (λ kept. kept.is_indexed ≡ true) }
    {
        let rows = match self.stage {
            Stage::Gathered(gathered) => Rows::of(alloc, gathered.lists, gathered.left)?,
            Stage::Indexed(rows) => rows,
        };
        Ok(KeptRows {
            stage: Stage::Indexed(rows),
        })
    }

    /// The rows with their indexes.
    pub fn rows(&self) -> &Rows
        requires { self.now.is_indexed ≡ true }
        ensures { result.now ≡ self.now.rows }
    {
        match &self.stage {
            Stage::Gathered(_) => unreachable!(),
            Stage::Indexed(rows) => rows,
        }
    }

    /// The asked rows, in the order in which they came.
    pub fn asked(&self) -> &[AskedRow]
        ensures { result.now ≡ self.now.rows.asked }
    {
        match &self.stage {
            Stage::Gathered(gathered) => gathered.lists.asked.as_slice(),
            Stage::Indexed(rows) => rows.asked(),
        }
    }

    /// The opened rows, in the order in which they came.
    pub fn opened(&self) -> &[OpenedRow]
        ensures { result.now ≡ self.now.rows.opened }
    {
        match &self.stage {
            Stage::Gathered(gathered) => gathered.lists.opened.as_slice(),
            Stage::Indexed(rows) => rows.opened(),
        }
    }

    /// The rows of logouts that were asked for, in the order in which they came.
    pub fn left(&self) -> &[LeftRow]
        ensures { result.now ≡ self.now.rows.left }
    {
        match &self.stage {
            Stage::Gathered(gathered) => gathered.left.as_slice(),
            Stage::Indexed(rows) => rows.left(),
        }
    }

    /// Makes room for one asked row at least. It changes nothing else, and takes away no room; where
    /// there is no memory all is as before.
    pub fn reserve_asked(&mut self) -> Result<(), NoMemory>
        ensures same { self.new ≡ record self.old { rows = record self.old.rows { spare = record self.old.rows.spare { asked = self.new.rows.spare.asked } } } }
        ensures ok { OnOk result (0 < self.new.rows.spare.asked) }
        ensures err { OnErr result (self.new ≡ self.old) }
        ensures kept { self.old.rows.spare.asked ≤ self.new.rows.spare.asked }
    {
        match &mut self.stage {
            Stage::Gathered(gathered) => Ok(gathered.lists.asked.reserve(1)?),
            Stage::Indexed(rows) => rows.reserve_asked(),
        }
    }

    /// Makes room for one opened row at least. It changes nothing else, and takes away no room; where
    /// there is no memory all is as before.
    pub fn reserve_opened(&mut self) -> Result<(), NoMemory>
        ensures same { self.new ≡ record self.old { rows = record self.old.rows { spare = record self.old.rows.spare { opened = self.new.rows.spare.opened } } } }
        ensures ok { OnOk result (0 < self.new.rows.spare.opened) }
        ensures err { OnErr result (self.new ≡ self.old) }
        ensures kept { self.old.rows.spare.opened ≤ self.new.rows.spare.opened }
    {
        match &mut self.stage {
            Stage::Gathered(gathered) => Ok(gathered.lists.opened.reserve(1)?),
            Stage::Indexed(rows) => rows.reserve_opened(),
        }
    }

    /// Makes room for one row of a logout at least. It changes nothing else, and takes away no room; where
    /// there is no memory all is as before.
    pub fn reserve_left(&mut self) -> Result<(), NoMemory>
        ensures same { self.new ≡ record self.old { rows = record self.old.rows { spare = record self.old.rows.spare { left = self.new.rows.spare.left } } } }
        ensures ok { OnOk result (0 < self.new.rows.spare.left) }
        ensures err { OnErr result (self.new ≡ self.old) }
        ensures kept { self.old.rows.spare.left ≤ self.new.rows.spare.left }
    {
        match &mut self.stage {
            Stage::Gathered(gathered) => Ok(gathered.left.reserve(1)?),
            Stage::Indexed(rows) => rows.reserve_left(),
        }
    }

    /// Puts a row behind the asked ones, where there is room. It takes no memory.
    pub fn put_asked(&mut self, row: AskedRow)
        requires few { length self.old.rows.asked < ROW_LIMIT }
        requires room { 0 < self.old.rows.spare.asked }
        ensures rows { self.new ≡ record self.old {
          rows = record self.old.rows {
            asked = self.old.rows.asked ++ row ∷ [];
            spare = record self.old.rows.spare { asked = self.new.rows.spare.asked };
          };
        } }
        ensures room { self.old.rows.spare.asked ≤ self.new.rows.spare.asked + 1 }
    {
        match &mut self.stage {
            Stage::Gathered(gathered) => put_last(&mut gathered.lists.asked, row),
            Stage::Indexed(rows) => rows.put_asked(row),
        }
    }

    /// Puts a row behind the opened ones, where there is room. It takes no memory.
    pub fn put_opened(&mut self, row: OpenedRow)
        requires few { length self.old.rows.opened < ROW_LIMIT }
        requires room { 0 < self.old.rows.spare.opened }
        ensures rows { self.new ≡ record self.old {
          rows = record self.old.rows {
            opened = self.old.rows.opened ++ row ∷ [];
            spare = record self.old.rows.spare { opened = self.new.rows.spare.opened };
          };
        } }
        ensures room { self.old.rows.spare.opened ≤ self.new.rows.spare.opened + 1 }
    {
        match &mut self.stage {
            Stage::Gathered(gathered) => put_last(&mut gathered.lists.opened, row),
            Stage::Indexed(rows) => rows.put_opened(row),
        }
    }

    /// Puts a row behind those of logouts, where there is room. It takes no memory.
    pub fn put_left(&mut self, row: LeftRow)
        requires { 0 < self.old.rows.spare.left }
        ensures rows { self.new ≡ record self.old {
          rows = record self.old.rows {
            left = self.old.rows.left ++ row ∷ [];
            spare = record self.old.rows.spare { left = self.new.rows.spare.left };
          };
        } }
        ensures room { self.old.rows.spare.left ≤ self.new.rows.spare.left + 1 }
    {
        match &mut self.stage {
            Stage::Gathered(gathered) => put_last(&mut gathered.left, row),
            Stage::Indexed(rows) => rows.put_left(row),
        }
    }

    /// Closes the opened row at a place, counted from 0.
    pub fn close(&mut self, place: u32)
        requires { place < length self.old.rows.opened }
        ensures { self.new ≡ record self.old { rows = record self.old.rows { opened = closed_at self.old.rows.opened place } } }
    {
        match &mut self.stage {
            Stage::Gathered(gathered) => close_at(&mut gathered.lists.opened, place),
            Stage::Indexed(rows) => rows.close(place),
        }
    }

    /// Confirms the row of a logout at a place, counted from 0.
    pub fn confirm(&mut self, place: u32)
        requires { place < length self.old.rows.left }
        ensures { self.new ≡ record self.old { rows = record self.old.rows { left = confirmed_at self.old.rows.left place } } }
    {
        match &mut self.stage {
            Stage::Gathered(gathered) => confirm_at(&mut gathered.left, place),
            Stage::Indexed(rows) => rows.confirm(place),
        }
    }
}
