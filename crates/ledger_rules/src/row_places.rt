//! The places of rows that come in the order of their keys.
ghost use Rattle.std.specs.Prelude.{◌≡◌, ◌<◌, ◌≤◌, ◌+◌, OnOk, OnErr};
ghost use Rattle.std.specs.List.{range_with_len};

use owned_values::NoMemory;
use std::alloc::Global;
use std::marker::Model;

/// The places of rows, counted from 0, where each row has a greater key than the one before it.
#[derive(Debug, Drop)]
pub struct RowPlaces {
    places: Vec<u32>,
}

impl Model for RowPlaces {
    ghost use Rattle.std.specs.Prelude.{◌≡◌, ◌-◌, length, vec_len, vec_capacity};
    ghost use Rattle.std.specs.List.{range_with_len};
    ghost use Rattle.ledger_rules.specs.RowPlaces.{RowPlacesView};

    ghost Value = { RowPlacesView };

    ghost view = { λ p. record { count = length p.places.items; spare = vec_capacity p.places - vec_len p.places } };

    ghost invariant = { λ p. p.places.items ≡ range_with_len 0 (length p.places.items) };
}

impl RowPlaces {
    /// No places. It takes no memory.
    pub fn new(alloc: Global) -> RowPlaces
        ensures { result.count ≡ 0 }
    {
        RowPlaces {
            places: Vec::new(alloc),
        }
    }

    /// Makes room for one place at least. It takes away no room; where there is no memory all is as before.
    pub fn reserve(&mut self) -> Result<(), NoMemory>
        ensures same { self.new.count ≡ self.old.count }
        ensures ok { OnOk result (0 < self.new.spare) }
        ensures err { OnErr result (self.new ≡ self.old) }
        ensures kept { self.old.spare ≤ self.new.spare }
    {
        self.places.reserve(1)?;
        Ok(())
    }

    /// Puts the next place behind the others, where there is room. It takes no memory.
    pub fn put_next(&mut self)
        requires few { self.old.count < 4294967296 }
        requires room { 0 < self.old.spare }
        ensures count { self.new.count ≡ self.old.count + 1 }
        ensures room { self.old.spare ≤ self.new.spare + 1 }
    {
        let place = self.places.len() as u32;
        match self.places.push(place) {
            Ok(()) => {}
            Err(_) => unreachable!(),
        }
    }

    /// The places: 0, 1, and so on.
    pub fn as_slice(&self) -> &[u32]
        ensures { result.now ≡ range_with_len 0 self.now.count }
    {
        self.places.as_slice()
    }
}
