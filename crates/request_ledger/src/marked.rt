//! The rows of records, and marks of spent requests while the records are read.
ghost use Rattle.std.specs.Prelude.{◌≡◌, ◌≤◌, ◌^◌, true, [], IfOk, OnOk};
ghost use Rattle.request_ledger.specs.RowsOf.{rows_of_kind};
ghost use Rattle.request_ledger.specs.Record.{is_next};
ghost use Rattle.request_ledger.specs.Standing.{rows_in, marked_spare, HasMark, HasRoom, KeepsMarks, KeepsRoom, KnowsSpent, KnowsSpentAfter, AreFew, IsAfter};

use crate::standing::RequestStanding;
use ledger_records::SpRecord;
use owned_values::NoMemory;
use request_rows::Rows;
use std::alloc::Global;
use std::marker::Model;

/// What the records of a service provider stand for, and for each request that was asked a mark whether it is spent: while
/// rows are gathered no index says this, and none is left when they have their indexes.
#[derive(Debug, Drop)]
pub struct Marked {
    standing: RequestStanding,
    marks: Option<Vec<bool>>,
}

impl Model for Marked {
    ghost use Rattle.request_ledger.specs.Standing.{StandingView, KnowsSpent, marked_spare};

    ghost Value = { StandingView };

    ghost view = { λ m. record {
      rows = m.standing.rows;
      is_indexed = m.standing.is_indexed;
      next = m.standing.next;
      spare = marked_spare m.standing.spare m.marks;
    } };

    ghost invariant = { λ m. KnowsSpent m.standing m.marks };
}

/// Makes room for one mark more, while there are marks.
fn reserve_mark(marks: &mut Option<Vec<bool>>) -> Result<(), NoMemory>
    ensures same { KeepsMarks marks.old marks.new }
    ensures ok { OnOk result (HasMark marks.new) }
{
    match marks {
        Some(spent) => Ok(spent.reserve(1)?),
        None => Ok(()),
    }
}

/// Makes the marks those behind a record that may come next, while there are marks. It takes no memory.
fn mark_next(standing: &RequestStanding, entry: &SpRecord, marks: &mut Option<Vec<bool>>)
    requires is { is_next standing.now.rows standing.now.next entry.now ≡ true }
    requires room { HasRoom (marked_spare standing.now.spare marks.old) entry.now }
    requires knows { KnowsSpent standing.now marks.old }
    ensures { KnowsSpentAfter standing.now entry.now marks.new }
{
    match marks {
        Some(spent) => standing.mark(entry, spent),
        None => {}
    }
}

impl Marked {
    /// What no records stand for. It takes no memory.
    pub(crate) fn empty(alloc: Global) -> Marked
        ensures rows { result.rows ≡ record { asked = []; opened = []; left = [] } }
        ensures next { result.next ≡ 0 }
    {
        Marked {
            standing: RequestStanding::empty(alloc),
            marks: Some(Vec::new(alloc)),
        }
    }

    /// The same with indexes of its rows, and without marks. Where there is no memory all is let go.
    pub(crate) fn indexed(self, alloc: Global) -> Result<Marked, NoMemory>
        ensures rows { IfOk result (λ marked. marked.rows ≡ self.rows) }
        ensures next { IfOk result (λ marked. marked.next ≡ self.next) }
        ensures indexed { IfOk result (λ marked. marked.is_indexed ≡ true) }
    {
        let standing = self.standing.indexed(alloc)?;
        Ok(Marked {
            standing,
            marks: None,
        })
    }

    /// The rows, with their indexes.
    pub(crate) fn rows(&self) -> &Rows
        requires { self.now.is_indexed ≡ true }
        ensures { rows_in result.now ≡ self.now.rows }
    {
        self.standing.rows()
    }

    /// The least number above all that were drawn.
    pub(crate) fn next_free(&self) -> u64
        ensures next { result ≡ self.now.next }
        ensures end { result ≤ 2 ^ 63 }
    {
        self.standing.next_free()
    }

    /// How many rows there are of a record's kind, where it has rows.
    pub(crate) fn kept_of_kind(&self, entry: &SpRecord) -> Option<usize>
        ensures { result ≡ rows_of_kind self.now.rows entry.now }
    {
        self.standing.kept_of_kind(entry)
    }

    /// Whether a record may come behind those that stand here.
    pub(crate) fn comes_next(&self, entry: &SpRecord) -> bool
        ensures { result ≡ is_next self.now.rows self.now.next entry.now }
    {
        self.standing.comes_next(entry, &self.marks)
    }

    /// Makes room for the row of a record, so that `put` takes no memory. It changes nothing else, and takes away no room.
    pub(crate) fn make_room(&mut self, entry: &SpRecord) -> Result<(), NoMemory>
        ensures rows { self.new.rows ≡ self.old.rows }
        ensures indexed { self.new.is_indexed ≡ self.old.is_indexed }
        ensures next { self.new.next ≡ self.old.next }
        ensures ok { OnOk result (HasRoom self.new.spare entry.now) }
        ensures kept { KeepsRoom self.old.spare self.new.spare }
    {
        self.standing.make_room(entry)?;
        reserve_mark(&mut self.marks)
    }

    /// Puts a record behind those that stand here, where there is room for its row. It takes no memory.
    pub(crate) fn put_entry(&mut self, entry: SpRecord)
        requires few { AreFew self.old.rows }
        requires is { is_next self.old.rows self.old.next entry ≡ true }
        requires room { HasRoom self.old.spare entry }
        ensures { IsAfter self.old self.new entry }
    {
        mark_next(&self.standing, &entry, &mut self.marks);
        self.standing.put_entry(entry);
    }
}
