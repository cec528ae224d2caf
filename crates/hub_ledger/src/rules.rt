//! What a ledger asks of the records of a hub, and of their rows.
ghost use Rattle.hub_ledger.specs.Record.{hub_rules};
ghost use Rattle.hub_ledger.specs.Standing.{hub_row_rules};
ghost use Rattle.hub_ledger.specs.Linking.{hub_links};

use crate::checks::are_before_end;
use crate::naming::{has_visible, named, row_number};
use crate::standing::HubStanding;
use ledger_records::laws::a_record_is_found_in_its_payload;
use ledger_records::{HubRecord, read_hub_record};
use owned_values::{Blob, NoMemory, Text};
use std::alloc::Global;

impl record_ledger::Standing for HubStanding {
    type Record = HubRecord;

    ghost rules = { hub_rules };

    ghost row_rules = { hub_row_rules };

    ghost link_rules = { hub_links };

    fn read(alloc: Global, payload: &[u8], _version: u8) -> Result<Option<HubRecord>, NoMemory> {
        read_hub_record(alloc, payload)
    }

    fn payload(entry: &HubRecord, alloc: Global) -> Result<Blob, NoMemory> {
        a_record_is_found_in_its_payload();
        entry.payload(alloc)
    }

    fn payload_len(entry: &HubRecord) -> u64 {
        entry.payload_len()
    }

    fn are_before_end(entry: &HubRecord) -> bool {
        are_before_end(entry)
    }

    fn has_visible(entry: &HubRecord, now: u64, horizon: u64) -> bool {
        has_visible(entry, now, horizon)
    }

    fn named(entry: &HubRecord) -> &[Text] {
        named(entry)
    }

    fn within(_entry: &HubRecord) -> Option<&Text> {
        None
    }

    fn row_number(entry: &HubRecord) -> Option<u64> {
        row_number(entry)
    }

    fn new(alloc: Global) -> HubStanding {
        HubStanding::empty(alloc)
    }

    fn next(&self) -> u64 {
        self.next_free()
    }

    fn rows_of_kind(&self, entry: &HubRecord) -> Option<usize> {
        self.kept_of_kind(entry)
    }

    fn is_next(&self, entry: &HubRecord) -> bool {
        self.comes_next(entry)
    }

    fn reserve(&mut self, entry: &HubRecord) -> Result<(), NoMemory> {
        self.make_room(entry)
    }

    fn put(&mut self, entry: HubRecord) {
        self.put_entry(entry);
    }

    fn ready(self, alloc: Global) -> Result<HubStanding, NoMemory> {
        self.indexed(alloc)
    }

    fn laws_hold() {}
}
