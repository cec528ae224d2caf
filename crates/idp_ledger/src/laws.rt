//! Laws of a ledger, each the contract of a function that does nothing.
ghost use Rattle.idp_ledger.specs.Laws.{ImagesHoldRecords, KeptAreRecords, CompactionsChangeNoAnswer, EachIssueHasItsCause, EachRoundHasItsRecord, RoundsAreCounted, SessionsStay};
ghost use Rattle.idp_ledger.specs.Turns.{RoundsAskInTurn};

/// What an image stands for has records of the ledger, each behind those before it.
pub fn images_hold_records()
    ensures { ImagesHoldRecords }
{}

/// What is kept of records of a ledger are records of a ledger.
pub fn kept_are_records()
    ensures { KeptAreRecords }
{}

/// From the moment of a compaction on it changes no answer.
pub fn compactions_change_no_answer()
    ensures { CompactionsChangeNoAnswer }
{}

/// Each assertion was issued for a login that was pending and not used before, or in a session that was not ended.
pub fn each_issue_has_its_cause()
    ensures { EachIssueHasItsCause }
{}

/// A session that is kept, and ends behind each moment at which a run compacts the ledger, has a row to the end of the run, open or
/// ended as it was left.
pub fn sessions_stay()
    ensures { SessionsStay }
{}

/// Each row of a round is that of a record that began it, with the answers that came later.
pub fn each_round_has_its_record()
    ensures { EachRoundHasItsRecord }
{}

/// A row counts the answers to its round, and says whether all providers confirmed.
pub fn rounds_are_counted()
    ensures { RoundsAreCounted }
{}

/// The providers of a round are asked in turn, each once: the answer at each place is one to the request at that place, and a
/// request more follows it exactly where a turn is left.
pub fn rounds_ask_in_turn()
    ensures { RoundsAskInTurn }
{}
