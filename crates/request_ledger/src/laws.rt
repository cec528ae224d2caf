//! Laws of a ledger, each the contract of a function that does nothing.
ghost use Rattle.request_ledger.specs.Laws.{ImagesHoldRecords, KeptAreRecords, CompactionsChangeNoAnswer, NoRequestOpensTwice, NoRequestOpensTwiceInARun, SessionsStay};

/// What an image stands for has records of the ledger, each behind those before it.
pub fn images_hold_records()
    ensures { ImagesHoldRecords }
{}

/// What is kept of records of a ledger are records of a ledger.
pub fn kept_are_records()
    ensures { KeptAreRecords }
{}

/// From the moment of a compaction on it changes no answer.
pub fn compactions_change_no_answer()
    ensures { CompactionsChangeNoAnswer }
{}

/// No ledger has two sessions of one request.
pub fn no_request_opens_twice()
    ensures { NoRequestOpensTwice }
{}

/// No run opens two sessions for one request, those included whose records were left out since.
pub fn no_request_opens_twice_in_a_run()
    ensures { NoRequestOpensTwiceInARun }
{}

/// A session that is kept, and ends behind each moment at which a run compacts the ledger, has a row to the end of the run, open or
/// closed as it was left.
pub fn sessions_stay()
    ensures { SessionsStay }
{}
