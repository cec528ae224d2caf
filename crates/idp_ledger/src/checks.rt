//! Whether a record's numbers are below the end.
ghost use Rattle.std.specs.Prelude.{◌<◌, ◌↔◌, All, IsTrue};
ghost use Rattle.ledger_rules.specs.Numbers.{NUMBER_END};
ghost use Rattle.idp_rows.specs.Record.{drawn};

use ledger_records::IdpRecord;
use ledger_rules::END_OF_NUMBERS;

/// Whether the numbers that a record draws are below the end.
pub(crate) fn are_before_end(entry: &IdpRecord) -> bool
    ensures { IsTrue result ↔ All (λ d. d.number < NUMBER_END) (drawn entry.now) }
{
    match entry {
        IdpRecord::Pending(r) => r.first < END_OF_NUMBERS,
        IdpRecord::Issued(r) => match r.pending {
            Some(_) => r.first < END_OF_NUMBERS - 3,
            None => r.first < END_OF_NUMBERS - 1,
        },
        IdpRecord::Ended(r) => r.first < END_OF_NUMBERS,
        IdpRecord::Left(r) => r.first < END_OF_NUMBERS,
        IdpRecord::Confirmed(_) => true,
        IdpRecord::Spoke(r) => r.first < END_OF_NUMBERS,
        IdpRecord::Round(r) => r.first < END_OF_NUMBERS - 1,
        IdpRecord::Told(r) => match r.next {
            Some(_) => r.first < END_OF_NUMBERS,
            None => true,
        },
    }
}
