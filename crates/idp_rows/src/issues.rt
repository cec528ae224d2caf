//! The assertions that were issued.
ghost use Rattle.std.specs.Prelude.{◌≡◌, ◌<◌, ◌≤◌, ℕ, List, [], ◌∷◌, ◌++◌, Some, length, OnOk};
ghost use Rattle.idp_rows.specs.Finding.{has_issued, last_peer};
ghost use Rattle.idp_rows.specs.Kept.{last_place};

use crate::row::IssuedRow;
use owned_values::NoMemory;
use std::alloc::Global;
use std::marker::Model;

/// The issued rows, and with each the place of the one before it in the same session.
#[derive(Debug, Drop)]
pub(crate) struct Issues {
    rows: Vec<IssuedRow>,
    previous: Vec<Option<u32>>,
}

impl Model for Issues {
    ghost use Rattle.std.specs.Prelude.{◌-◌, min, vec_len, vec_capacity};
    ghost use Rattle.idp_rows.specs.Kept.{IssuesView, ArePrevious};

    ghost Value = { IssuesView };

    ghost view = { λ s. record {
      rows = s.rows.items;
      spare = min (vec_capacity s.rows - vec_len s.rows) (vec_capacity s.previous - vec_len s.previous);
    } };

    ghost invariant = { λ s. ArePrevious s.rows.items s.previous.items };
}

impl Issues {
    /// No assertions. It takes no memory.
    pub(crate) fn new(alloc: Global) -> Issues
        ensures { result.rows ≡ [] }
    {
        Issues {
            rows: Vec::new(alloc),
            previous: Vec::new(alloc),
        }
    }

    /// The rows.
    pub(crate) fn rows(&self) -> &[IssuedRow]
        ensures { result.now ≡ self.now.rows }
    {
        self.rows.as_slice()
    }

    /// The peer to which the assertion at the place went that is the last one in a session.
    pub(crate) fn last_peer(&self, last: u32) -> &str
        requires { last < length self.now.rows }
        ensures { (cookie : List ℕ) → last_place self.now.rows cookie ≡ Some last → result.now ≡ last_peer self.now.rows cookie }
    {
        self.rows[last as usize].peer.as_str()
    }

    /// Whether an assertion was issued to this peer, or to another one, in the session whose last one is at the place. It
    /// goes back over those of the session.
    pub(crate) fn has_issued(&self, last: u32, peer: &str, beside: bool) -> bool
        requires { last < length self.now.rows }
        ensures { (cookie : List ℕ) → last_place self.now.rows cookie ≡ Some last → result ≡ has_issued beside self.now.rows cookie peer.now }
    {
        let mut next = Some(last);
        while let Some(place) = next {
            let is_peer = self.rows[place as usize].peer.as_str() == peer;
            if is_peer != beside {
                return true;
            }
            next = self.previous[place as usize];
        }
        false
    }

    /// Makes room for one row at least. It changes nothing else, and takes away no room.
    pub(crate) fn reserve(&mut self) -> Result<(), NoMemory>
        ensures rows { self.new.rows ≡ self.old.rows }
        ensures ok { OnOk result (0 < self.new.spare) }
        ensures kept { self.old.spare ≤ self.new.spare }
    {
        self.rows.reserve(1)?;
        self.previous.reserve(1)?;
        Ok(())
    }

    /// Puts a row behind the others, where there is room. `previous` is the place of the one before it in the same session.
    /// It takes no memory.
    pub(crate) fn put(&mut self, row: IssuedRow, previous: Option<u32>)
        requires previous { previous ≡ last_place self.old.rows row.cookie }
        requires room { 0 < self.old.spare }
        ensures rows { self.new.rows ≡ self.old.rows ++ row ∷ [] }
    {
        match self.rows.push(row) {
            Ok(()) => {}
            Err(_) => unreachable!(),
        }
        match self.previous.push(previous) {
            Ok(()) => {}
            Err(_) => unreachable!(),
        }
    }
}
