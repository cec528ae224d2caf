//! Laws of the definitions that the contracts cite. Each function does nothing: what it ensures is the law.
ghost use Rattle.std.specs.Prelude.{◌≡◌, ◌+◌, ◌<◌, ℕ, List, [], ◌∷◌, ◌++◌, length, take};
ghost use Rattle.event_link.specs.declared.arrival.Arrival.TheVariants.{Bytes};
ghost use Rattle.event_link.specs.declared.link.LinkEvent.TheVariants.{Piece};
ghost use Rattle.event_link.specs.Clocks.{now_of, later_of, moment_at};
ghost use Rattle.event_link.specs.Links.{IsPut, in_front, next_of};

use crate::Arrival;

/// A clock gives its moments in their order, and then the last one for ever.
pub fn moments_come_in_order()
    ensures first { (moments : List ℕ) → now_of moments ≡ moment_at moments 0 }
    ensures later { (moments : List ℕ) (k : ℕ) → moment_at (later_of moments) k ≡ moment_at moments (k + 1) }
{}

/// The bytes of a piece are as many as its event says, and lie in front.
pub fn the_bytes_of_a_piece_lie_in_front()
    ensures count { (room conn n : ℕ) (coming : List Arrival) → (next_of room coming).event ≡ Piece conn n → length (next_of room coming).bytes ≡ n }
    ensures front { (room conn n : ℕ) (coming : List Arrival) (before : List ℕ) →
        (next_of room coming).event ≡ Piece conn n →
        take n (in_front (next_of room coming).bytes before) ≡ (next_of room coming).bytes }
{}

/// Of a piece that is cut no byte is lost: those that are given and those that are still to come are its bytes.
pub fn a_cut_piece_loses_nothing()
    ensures { (room conn : ℕ) (bytes : List ℕ) (later : List Arrival) → room < length bytes →
        (rest : List ℕ) × ((next_of room (Bytes conn bytes ∷ later)).later ≡ Bytes conn rest ∷ later)
        × ((next_of room (Bytes conn bytes ∷ later)).bytes ++ rest ≡ bytes) }
{}

/// Two sendings on a connection are as one of all their bytes, and one of no bytes is as none.
pub fn sendings_add_up()
    ensures two { (conn : ℕ) (a b : List ℕ) (first middle last : ℕ → List ℕ) → IsPut conn a first middle → IsPut conn b middle last → IsPut conn (a ++ b) first last }
    ensures none { (conn : ℕ) (sent : ℕ → List ℕ) → IsPut conn [] sent sent }
{}
