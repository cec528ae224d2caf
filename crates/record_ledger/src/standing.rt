//! What records stand for.
ghost use Rattle.std.specs.Prelude.{◌≡◌, ◌≤◌, ◌<◌, ◌^◌, ◌∷◌, ◌++◌, ◌↔◌, [], List, Some, All, IsTrue, IfOk, IfSome, OnOk, length, option_copied};
ghost use Rattle.ledger_rules.specs.Numbers.{NUMBER_END};
ghost use Rattle.record_ledger.specs.Rules.{RecordRules, RowRules, CanPut, next_of};
ghost use Rattle.record_ledger.specs.Drafts.{capped};
ghost use Rattle.record_ledger.specs.Linking.{LinkRules, LinkLaws, row_number};
ghost use Rattle.record_ledger.specs.Marks.{StaysRecord};
ghost use Rattle.record_ledger.specs.Laws.{AreFreshlyDrawn, AreRowsOfRecords, IsOneByteMore, KeepsItself};

use owned_values::{Blob, NoMemory, Text};
use std::alloc::Global;

/// The rows that the records of a ledger stand for, and what these records are.
pub trait Standing: Drop {
    /// A record.
    type Record: Drop;

    /// What is said of the records.
    ghost rules: { RecordRules Self.Record };

    /// What is said of the rows.
    ghost row_rules: { RowRules Self.Record Self };

    /// How the rows that records name are found.
    ghost link_rules: { LinkRules Self.Record };

    /// The record that a payload of a journal is; none exactly where it is no record.
    fn read(alloc: Global, payload: &[u8], version: u8) -> Result<Option<Self::Record>, NoMemory>
        ensures is { IfOk result (λ found. found ≡ rules.found version payload.now) }
        ensures spelled { IfOk result (λ found. IfSome found (λ r. payload.now ≡ rules.bytes version r)) };

    /// The payload that keeps a record in a journal of version 2.
    fn payload(entry: &Self::Record, alloc: Global) -> Result<Blob, NoMemory>
        requires { length (rules.bytes 2 entry.now) < 2 ^ 32 }
        ensures spelled { IfOk result (λ payload. payload ≡ rules.bytes 2 entry.now) }
        ensures found { OnOk result (rules.found 2 (rules.bytes 2 entry.now) ≡ Some entry.now) };

    /// How many bytes that payload has, or `u64::MAX` where it would have more.
    fn payload_len(entry: &Self::Record) -> u64
        ensures { result ≡ capped (length (rules.bytes 2 entry.now)) };

    /// Whether the numbers that a record draws are below the end.
    fn are_before_end(entry: &Self::Record) -> bool
        ensures { IsTrue result ↔ All (λ d. d.number < NUMBER_END) (rules.drawn entry.now) };

    /// Whether a row of a record is visible at a moment.
    fn has_visible(entry: &Self::Record, now: u64, horizon: u64) -> bool
        ensures { result ≡ rules.has_visible now horizon entry.now };

    /// The IDs of the rows whose records are linked to the one that names them.
    fn named(entry: &Self::Record) -> &[Text]
        ensures { result.now ≡ link_rules.named entry.now };

    /// The ID of the row to whose record a record is itself linked.
    fn within(entry: &Self::Record) -> Option<&Text>
        ensures { option_copied result ≡ link_rules.within entry.now };

    /// The number by which a record's row is found, where it has one.
    fn row_number(entry: &Self::Record) -> Option<u64>
        requires { IfSome (row_number rules link_rules entry.now) (λ n. n < NUMBER_END) }
        ensures { result ≡ row_number rules link_rules entry.now };

    /// What no records stand for. It takes no memory.
    fn new(alloc: Global) -> Self
        ensures { row_rules.stands result [] };

    /// The least number above all that were drawn.
    fn next(&self) -> u64
        ensures next { (records : List Self.Record) → row_rules.stands self.now records → result ≡ next_of rules records }
        ensures end { result ≤ 2 ^ 63 };

    /// How many rows there are of a record's kind, where it has rows.
    fn rows_of_kind(&self, entry: &Self::Record) -> Option<usize>
        ensures { (records : List Self.Record) → row_rules.stands self.now records → result ≡ rules.rows_of_kind records entry.now };

    /// Whether a record may come behind those that stand here.
    fn is_next(&self, entry: &Self::Record) -> bool
        ensures { (records : List Self.Record) → row_rules.stands self.now records → result ≡ rules.is_record records entry.now };

    /// Makes room for the rows of a record, so that `put` takes no memory. It changes nothing else, and takes away no room.
    fn reserve(&mut self, entry: &Self::Record) -> Result<(), NoMemory>
        ensures same { (records : List Self.Record) → row_rules.stands self.old records → row_rules.stands self.new records }
        ensures ready { row_rules.is_ready self.old → row_rules.is_ready self.new }
        ensures ok { OnOk result (row_rules.has_room self.new entry.now) }
        ensures kept { row_rules.keeps_room self.old self.new };

    /// Puts a record behind those that stand here, where there is room for its rows. It takes no memory.
    fn put(&mut self, entry: Self::Record)
        requires { CanPut rules row_rules self.old entry }
        ensures stands { (records : List Self.Record) → row_rules.stands self.old records → row_rules.stands self.new (records ++ entry ∷ []) }
        ensures ready { row_rules.is_ready self.old → row_rules.is_ready self.new };

    /// The same, ready to be asked for rows. It is called once, when all records were read. Where there is no memory all is
    /// let go.
    fn ready(self, alloc: Global) -> Result<Self, NoMemory>
        ensures stands { IfOk result (λ standing. (records : List Self.Record) → row_rules.stands self records → row_rules.stands standing records) }
        ensures ready { IfOk result row_rules.is_ready };

    /// What holds of the records and of their rows. It does nothing.
    fn laws_hold()
        ensures bytes { IsOneByteMore rules }
        ensures fresh { AreFreshlyDrawn rules }
        ensures rows { AreRowsOfRecords rules }
        ensures room { KeepsItself row_rules }
        ensures kept { StaysRecord rules }
        ensures links { LinkLaws rules link_rules };
}
