//! What a ledger asks of the records of an identity provider, and of their rows.
ghost use Rattle.idp_ledger.specs.Record.{idp_rules};
ghost use Rattle.idp_ledger.specs.Standing.{idp_row_rules};
ghost use Rattle.idp_ledger.specs.Linking.{idp_links};

use crate::checks::are_before_end;
use crate::naming::{has_visible, named, row_number, within};
use crate::standing::IdpStanding;
use idp_rows::{KeptRows, Noted};
use ledger_records::laws::a_record_is_found_in_its_payload;
use ledger_records::read_idp_record;
use owned_values::{Blob, NoMemory, Text};
use std::alloc::Global;

impl record_ledger::Standing for IdpStanding {
    type Record = Noted;

    ghost rules = { idp_rules };

    ghost row_rules = { idp_row_rules };

    ghost link_rules = { idp_links };

    fn read(alloc: Global, payload: &[u8], _version: u8) -> Result<Option<Noted>, NoMemory> {
        match read_idp_record(alloc, payload)? {
            Some(entry) => Ok(Some(Noted::new(entry)?)),
            None => Ok(None),
        }
    }

    fn payload(entry: &Noted, alloc: Global) -> Result<Blob, NoMemory> {
        a_record_is_found_in_its_payload();
        entry.entry().payload(alloc)
    }

    fn payload_len(entry: &Noted) -> u64 {
        entry.entry().payload_len()
    }

    fn are_before_end(entry: &Noted) -> bool {
        are_before_end(entry.entry())
    }

    fn has_visible(entry: &Noted, now: u64, horizon: u64) -> bool {
        has_visible(entry.entry(), now, horizon)
    }

    fn named(entry: &Noted) -> &[Text] {
        named(entry.entry())
    }

    fn within(entry: &Noted) -> Option<&Text> {
        within(entry.entry())
    }

    fn row_number(entry: &Noted) -> Option<u64> {
        row_number(entry.entry())
    }

    fn new(alloc: Global) -> IdpStanding {
        IdpStanding {
            kept: KeptRows::new(alloc),
        }
    }

    fn next(&self) -> u64 {
        self.kept.next_free()
    }

    fn rows_of_kind(&self, entry: &Noted) -> Option<usize> {
        self.kept.rows_of_kind(entry.entry())
    }

    fn is_next(&self, entry: &Noted) -> bool {
        self.kept.comes_next(entry.entry())
    }

    fn reserve(&mut self, entry: &Noted) -> Result<(), NoMemory> {
        self.kept.make_room(entry.entry())
    }

    fn put(&mut self, entry: Noted) {
        self.kept.put_entry(entry);
    }

    fn ready(self, _alloc: Global) -> Result<IdpStanding, NoMemory> {
        Ok(self)
    }

    fn laws_hold() {}
}
