//! Laws of a service provider, each the contract of a function that does nothing.
ghost use Rattle.std.specs.Prelude.{ℕ, List, Contains};
ghost use Rattle.provider_node.specs.Causes.{GivesNoOwnCode};
ghost use Rattle.provider_node.specs.Histories.{AnyMoment};
ghost use Rattle.sp_server.specs.Guarding.{AGuardTellsExactly, EqualRowsAreVouchedForAlike, OnlyASessionIsVouchedFor};
ghost use Rattle.sp_server.specs.Histories.{WhatIsAcknowledgedIsKeptOnce};
ghost use Rattle.sp_server.specs.Logouts.{OnlyWhereAUserLeaves, OnlyWhereSessionsEnd, NothingElseCloses, WhereverAUserLeaves, WhereverSessionsEnd, AClosedSessionStaysClosed, SessionsStayClosedInAService};
ghost use Rattle.sp_server.specs.Recorded.{IsPosted, WhatIsAskedIsRecorded};
ghost use Rattle.provider_node.specs.Recorded.{WhatIsAnsweredIsRecorded};
ghost use Rattle.sp_server.specs.Sessions.{OnlyWhereAFormOpens, WhereverAFormOpens};
ghost use Rattle.sp_server.specs.Staying.{WasOpened, IsAsLeft};
ghost use Rattle.provider_node.specs.Staying.{SessionsStayInAService, SessionsStayOverStarts, WhatWasOpenedIsAsLeft};
ghost use Rattle.sp_server.specs.Step.{Answers};
ghost use Rattle.request_ledger.specs.Record.{request_rules};
ghost use Rattle.request_ledger.specs.Laws.{AnswerAlike};
ghost use Rattle.provider_node.specs.Starving.{RowsAnswerAsBefore};
ghost use Rattle.sp_server.specs.Starts.{SessionsStayClosedOverStarts, WhatIsAcknowledgedIsKeptOnceOverStarts};
ghost use Rattle.sp_server.specs.Verdicts.{CompactionsChangeNoVerdict};

/// Over each list of events, moments, disk faults and openings: what an answer acknowledged is in the history of every
/// ledger that a crash may leave, and no two sessions are of one request.
pub fn what_is_acknowledged_is_kept_once()
    ensures { WhatIsAcknowledgedIsKeptOnce }
{
    request_ledger::laws::images_hold_records();
    request_ledger::laws::no_request_opens_twice_in_a_run();
}

/// Over each list of starts of a provider, each of which opens what a crash of the one before it may have left: what an
/// answer acknowledged is in the history of every ledger that may be opened behind them, and no two sessions are of one
/// request. So it is at whatever moments their requests were asked; and where each was asked at one of these moments,
/// each compaction in such a history was at one of them.
pub fn what_is_acknowledged_is_kept_once_over_starts()
    ensures any { WhatIsAcknowledgedIsKeptOnceOverStarts AnyMoment }
    ensures at { (moments : List ℕ) → WhatIsAcknowledgedIsKeptOnceOverStarts (Contains moments) }
{
    request_ledger::laws::images_hold_records();
    request_ledger::laws::no_request_opens_twice_in_a_run();
}

/// And a session that was closed, at first or by what an answer acknowledged, is live in no ledger that may be opened
/// behind them.
pub fn sessions_stay_closed_over_starts()
    ensures { SessionsStayClosedOverStarts }
{
    request_ledger::laws::images_hold_records();
    request_ledger::laws::compactions_change_no_answer();
    a_closed_session_stays_closed();
}

/// A session is recorded only where a posted form opens it, and wherever one does, where there is room, at once or
/// behind one compaction, the disk does not fail and memory is found.
pub fn a_session_opens_exactly()
    ensures only { OnlyWhereAFormOpens }
    ensures wherever { WhereverAFormOpens }
{
    sp_rules::laws::a_form_has_one_verdict();
    request_ledger::laws::compactions_change_no_answer();
}

/// A session is closed only where its user leaves it or the identity provider ends it, by nothing else, and wherever
/// either does, where there is room, the disk does not fail and memory is found.
pub fn a_session_is_closed_exactly()
    ensures only_left { OnlyWhereAUserLeaves }
    ensures only_ended { OnlyWhereSessionsEnd }
    ensures nothing_else { NothingElseCloses }
    ensures wherever_left { WhereverAUserLeaves }
    ensures wherever_ended { WhereverSessionsEnd }
{
    logout_profile::laws::a_logout_form_has_one_verdict();
    request_ledger::laws::compactions_change_no_answer();
}

/// A session that is closed is never found live again, whatever is recorded, compacted and opened since.
pub fn a_closed_session_stays_closed()
    ensures { AClosedSessionStaysClosed }
{
    request_ledger::laws::compactions_change_no_answer();
}

/// Over each list of events, moments, disk faults and openings: a session that is closed is live at no later request,
/// and in no ledger that a crash may leave since.
pub fn sessions_stay_closed_in_a_service()
    ensures { SessionsStayClosedInAService }
{
    request_ledger::laws::images_hold_records();
    a_closed_session_stays_closed();
}

/// Each form and each page that is answered to what is posted stands for one record, and so does each form that asks
/// for a login; behind the step this is in every image that a crash may leave: no message is sent before its record is
/// durable.
pub fn what_is_answered_is_recorded()
    ensures posted { WhatIsAnsweredIsRecorded request_rules Answers IsPosted }
    ensures asked { WhatIsAskedIsRecorded }
{}

/// From the moment of a compaction on each form has the verdict that it had without.
pub fn compactions_change_no_verdict()
    ensures { CompactionsChangeNoVerdict }
{
    request_ledger::laws::compactions_change_no_answer();
}

/// A guard answers 200 exactly where the session of the request's cookie lives at that moment, and there is no policy
/// or it allows the path, which is plain then; want of memory aside. It names that session's user and values, in two
/// lines that hold nothing else, depends on nothing but the session's row, and records nothing.
pub fn a_guard_tells_exactly()
    ensures tells { AGuardTellsExactly }
    ensures only { OnlyASessionIsVouchedFor }
    ensures alike { EqualRowsAreVouchedForAlike }
{
    http_wire::laws::an_answer_has_one_status();
    http_wire::laws::a_vouched_answer_is_read_again();
}

/// Where there was no memory for an answer and the ledger was not broken, all that may be asked of its rows at that
/// moment is answered behind the request as before.
pub fn what_is_visible_stays()
    ensures { RowsAnswerAsBefore request_rules Answers AnswerAlike }
{
    request_ledger::laws::compactions_change_no_answer();
}

/// A session whose answer went out is as it was left in each ledger that came from the one at the start by events,
/// among them its record's: where it ends behind each moment at which the ledger was compacted it has its row, closed
/// only where a record that was added since closes it, and until then and until its end this row is the one that is
/// found by its token. A request stays spent while it could be answered.
pub fn what_was_opened_is_as_left()
    ensures { WhatWasOpenedIsAsLeft request_rules WasOpened IsAsLeft }
{
    request_ledger::laws::images_hold_records();
    request_ledger::laws::sessions_stay();
}

/// Over each list of events, moments, disk faults and openings: each session whose answer went out is as it was left
/// in every image that a crash may leave.
pub fn sessions_stay_in_a_service()
    ensures { SessionsStayInAService request_rules WasOpened IsAsLeft Answers }
{
    request_ledger::laws::images_hold_records();
    request_ledger::laws::sessions_stay();
}

/// And over each list of starts, of which each opens what a crash of the one before it may have left.
pub fn sessions_stay_over_starts()
    ensures { SessionsStayOverStarts request_rules WasOpened IsAsLeft Answers }
{
    request_ledger::laws::images_hold_records();
    request_ledger::laws::sessions_stay();
}

/// No answer where nothing fails is one of the codes that a provider answers for itself: 50 to 53.
pub fn no_definition_gives_an_own_code()
    ensures { GivesNoOwnCode Answers }
{}
