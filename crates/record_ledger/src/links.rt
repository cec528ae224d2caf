//! Which record is linked to which.
ghost use Rattle.std.specs.Prelude.{◌≡◌, ◌<◌, ◌++◌, ◌∷◌, [], ℕ, List, Some, true, map, length, slice_index, set, IfSome, OnOk};
ghost use Rattle.ledger_rules.specs.Numbers.{has_number, AreBelow};

use crate::standing::Standing;
use ledger_rules::Numbers;
use owned_values::{NoMemory, Text};
use std::alloc::Global;

/// Of each record the one to which it is linked, and the numbers of rows with the places of their records.
#[derive(Debug, Drop)]
pub(crate) struct Links {
    pub(crate) links: Vec<Option<u32>>,
    pub(crate) numbers: Numbers,
    pub(crate) places: Vec<u32>,
}

impl Links {
    ghost use Rattle.std.specs.Option.{option_to_list};
    ghost use Rattle.record_ledger.specs.Linking.{AreRows, ArePlaced, CanTake, HaveRows, IsLinked, IsOwnLink, LinksThem};

    /// No links.
    pub(crate) fn new<S: Standing>(alloc: Global) -> Links
        ensures { IsLinked S.rules S.link_rules [] result }
    {
        S::laws_hold();
        Links {
            links: Vec::new(alloc),
            numbers: Numbers::new(alloc),
            places: Vec::new(alloc),
        }
    }

    /// Links the record whose row has an ID to the one at a place.
    fn link(&mut self, id: &str, place: u32)
        requires { ArePlaced self.old }
        ensures links { (p : ℕ) → p < length self.old.numbers.listed →
            has_number (slice_index self.old.numbers.listed p) id.now ≡ true →
            self.new.links.items ≡ set self.old.links.items (slice_index self.old.places.items p) (Some place) }
        ensures long { length self.new.links.items ≡ length self.old.links.items }
        ensures numbers { self.new.numbers ≡ self.old.numbers }
        ensures places { self.new.places ≡ self.old.places }
    {
        if let Some(row) = self.numbers.place_of(id) {
            let named = self.places[row];
            self.links[named as usize] = Some(place);
        }
    }

    /// Links the records whose rows have these IDs to the one at a place.
    fn link_all<S: Standing>(&mut self, ids: &[Text], place: u32)
        requires { ArePlaced self.old }
        ensures links { (records : List S.Record) → AreRows S.rules S.link_rules records self.old →
            HaveRows S.rules S.link_rules records ids.now →
            LinksThem S.rules S.link_rules records ids.now place self.old.links.items self.new.links.items }
        ensures numbers { self.new.numbers ≡ self.old.numbers }
        ensures places { self.new.places ≡ self.old.places }
    {
        S::laws_hold();
        for id in ids {
            self.link(id.as_str(), place);
        }
    }

    /// Puts the row of a number at a place, where there is one.
    fn put_row(&mut self, number: Option<u64>, place: u32) -> Result<(), NoMemory>
        requires { IfSome number (λ n. AreBelow n self.old.numbers.listed) }
        ensures numbers { OnOk result (self.new.numbers.listed ≡ self.old.numbers.listed ++ option_to_list number) }
        ensures places { OnOk result (self.new.places.items ≡ self.old.places.items ++ map (λ n. place) (option_to_list number)) }
        ensures links { self.new.links ≡ self.old.links }
    {
        if let Some(number) = number {
            self.numbers.reserve()?;
            self.numbers.put(number);
            self.places.push(place)?;
        }
        Ok(())
    }

    /// The place of the record to which a record is itself linked, none for other records.
    fn own_link<S: Standing>(&self, entry: &S::Record) -> Option<u32>
        requires { ArePlaced self.now }
        ensures { (records : List S.Record) → AreRows S.rules S.link_rules records self.now →
            S.rules.is_record records entry.now ≡ true → IsOwnLink S.rules S.link_rules records entry.now result }
    {
        S::laws_hold();
        let id = S::within(entry)?;
        let row = self.numbers.place_of(id.as_str())?;
        Some(self.places[row])
    }

    /// Takes the record behind the others, and links to it those that it names, or it to the one that it names itself.
    pub(crate) fn take<S: Standing>(&mut self, entry: &S::Record) -> Result<(), NoMemory>
        requires { CanTake S.rules S.link_rules self.old entry.now }
        ensures { OnOk result ((records : List S.Record) → IsLinked S.rules S.link_rules records self.old →
            S.rules.is_record records entry.now ≡ true →
            IsLinked S.rules S.link_rules (records ++ entry.now ∷ []) self.new) }
    {
        S::laws_hold();
        let place = self.links.len() as u32;
        let number = S::row_number(entry);
        let own = self.own_link::<S>(entry);
        self.links.push(own)?;
        self.link_all::<S>(S::named(entry), place);
        self.put_row(number, place)
    }

    /// `take` of a record that is not needed any more, so that there is one place where it is let go.
    pub(crate) fn take_own<S: Standing>(&mut self, entry: S::Record) -> Result<(), NoMemory>
        requires { CanTake S.rules S.link_rules self.old entry }
        ensures { OnOk result ((records : List S.Record) → IsLinked S.rules S.link_rules records self.old →
            S.rules.is_record records entry ≡ true → IsLinked S.rules S.link_rules (records ++ entry ∷ []) self.new) }
    {
        self.take::<S>(&entry)
    }
}
