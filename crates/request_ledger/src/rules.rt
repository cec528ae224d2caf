//! What a ledger asks of the records of a service provider, and of their rows.
ghost use Rattle.request_ledger.specs.Record.{request_rules};
ghost use Rattle.request_ledger.specs.Standing.{request_row_rules};
ghost use Rattle.request_ledger.specs.Linking.{request_links};

use crate::checks::are_before_end;
use crate::marked::Marked;
use crate::naming::{has_visible, named, row_number};
use ledger_records::laws::a_record_is_found_in_its_payload;
use ledger_records::{SpRecord, read_sp_record};
use owned_values::{Blob, NoMemory, Text};
use record_ledger::Standing;
use std::alloc::Global;

impl Standing for Marked {
    type Record = SpRecord;

    ghost rules = { request_rules };

    ghost row_rules = { request_row_rules };

    ghost link_rules = { request_links };

    fn read(alloc: Global, payload: &[u8], version: u8) -> Result<Option<SpRecord>, NoMemory> {
        read_sp_record(alloc, payload, version)
    }

    fn payload(entry: &SpRecord, alloc: Global) -> Result<Blob, NoMemory> {
        a_record_is_found_in_its_payload();
        entry.payload(alloc)
    }

    fn payload_len(entry: &SpRecord) -> u64 {
        entry.payload_len()
    }

    fn are_before_end(entry: &SpRecord) -> bool {
        are_before_end(entry)
    }

    fn has_visible(entry: &SpRecord, now: u64, horizon: u64) -> bool {
        has_visible(entry, now, horizon)
    }

    fn named(entry: &SpRecord) -> &[Text] {
        named(entry)
    }

    fn within(_entry: &SpRecord) -> Option<&Text> {
        None
    }

    fn row_number(entry: &SpRecord) -> Option<u64> {
        row_number(entry)
    }

    fn new(alloc: Global) -> Marked {
        Marked::empty(alloc)
    }

    fn next(&self) -> u64 {
        self.next_free()
    }

    fn rows_of_kind(&self, entry: &SpRecord) -> Option<usize> {
        self.kept_of_kind(entry)
    }

    fn is_next(&self, entry: &SpRecord) -> bool {
        self.comes_next(entry)
    }

    fn reserve(&mut self, entry: &SpRecord) -> Result<(), NoMemory> {
        self.make_room(entry)
    }

    fn put(&mut self, entry: SpRecord) {
        self.put_entry(entry);
    }

    fn ready(self, alloc: Global) -> Result<Marked, NoMemory> {
        self.indexed(alloc)
    }

    fn laws_hold() {}
}
