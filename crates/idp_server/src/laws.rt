//! Laws of an identity provider, each the contract of a function that does nothing.
ghost use Rattle.std.specs.Prelude.{ℕ, List, Contains};
ghost use Rattle.provider_node.specs.Causes.{GivesNoOwnCode};
ghost use Rattle.provider_node.specs.Histories.{AnyMoment};
ghost use Rattle.idp_server.specs.Issues.{AnswersHaveAskers, AnswersHaveUsers, IsPosted, RefusalsHaveAskers, ServicesHaveUsers};
ghost use Rattle.provider_node.specs.Recorded.{WhatIsAnsweredIsRecorded};
ghost use Rattle.idp_server.specs.Histories.{AnEndedSessionStaysEnded, SessionsStayEndedInAService, SessionsStayEndedOverStarts, WhatIsAcknowledgedIsKept, WhatIsAcknowledgedIsKeptOverStarts};
ghost use Rattle.idp_server.specs.Logouts.{AnswersEndExactly, ServicesEndExactly, SessionsEndBeforeTheAnswer, WhereverAPeerEnds, WhereverAUserLeaves};
ghost use Rattle.idp_server.specs.Outcomes.{RoundsBeginWithTheFirst, RoundsEndAsConfirmed};
ghost use Rattle.idp_server.specs.Signed.{EachSignedElementIsOfARecord, NoOtherPageIsUnrecorded};
ghost use Rattle.idp_server.specs.Staying.{Began, IsAsLeft};
ghost use Rattle.provider_node.specs.Staying.{SessionsStayInAService, SessionsStayOverStarts, WhatWasOpenedIsAsLeft};
ghost use Rattle.idp_server.specs.Step.{Answers};
ghost use Rattle.idp_ledger.specs.Record.{idp_rules};
ghost use Rattle.idp_ledger.specs.Laws.{AnswerAlike};
ghost use Rattle.provider_node.specs.Starving.{RowsAnswerAsBefore};

/// Each Assertion that is issued has a password or a session: it answers a login that was pending and not used, for a
/// user whose password was posted with it; or it lies in a session that lives, of the request's cookie, and states the
/// user of that.
pub fn each_issue_has_a_password_or_a_session()
    ensures answers { AnswersHaveUsers }
    ensures services { ServicesHaveUsers }
{}

/// Each login that is pending, for which a user is asked for a password, was asked for by a form of a peer, and has the
/// peer's name, the ID of its request, its address and its relay state; and so was each Response without an Assertion,
/// where the user may not be asked.
pub fn each_question_has_an_asker()
    ensures questions { AnswersHaveAskers }
    ensures refusals { RefusalsHaveAskers }
{}

/// Each form and each page that is answered to what is posted stands for one record, and behind the step this is in
/// every image that a crash may leave: no Response, login page or message of a logout is sent before its record is
/// durable.
pub fn what_is_answered_is_recorded()
    ensures { WhatIsAnsweredIsRecorded idp_rules Answers IsPosted }
{}

/// A session is ended exactly where its user leaves it, by a POST with its cookie while it lives, or where a peer asks
/// for it by a LogoutRequest that is accepted: what is recorded lists the sessions that it asks to end, and no others.
/// And wherever one does, where there is room, the disk does not fail and memory is found, it is ended. A logout is
/// over only where it waits and a LogoutResponse to it is accepted.
pub fn a_session_is_ended_exactly()
    ensures answers { AnswersEndExactly }
    ensures services { ServicesEndExactly }
    ensures wherever_left { WhereverAUserLeaves }
    ensures wherever_ended { WhereverAPeerEnds }
{
    logout_profile::laws::a_logout_form_has_one_verdict();
    idp_ledger::laws::compactions_change_no_answer();
}

/// A session that was ended is never found live again, whatever is recorded, compacted and opened since.
pub fn an_ended_session_stays_ended()
    ensures { AnEndedSessionStaysEnded }
{
    idp_ledger::laws::compactions_change_no_answer();
}

/// Over each list of events, moments, disk faults and openings: what an answer acknowledged is in the history of every
/// ledger that a crash may leave, and in none of these a session lives that was ended.
pub fn what_is_acknowledged_is_kept()
    ensures { WhatIsAcknowledgedIsKept }
{
    idp_ledger::laws::images_hold_records();
    idp_ledger::laws::compactions_change_no_answer();
}

/// Over each list of events, moments, disk faults and openings: a session that is ended is live at no later request,
/// and in no ledger that a crash may leave since.
pub fn sessions_stay_ended_in_a_service()
    ensures { SessionsStayEndedInAService }
{
    idp_ledger::laws::images_hold_records();
    an_ended_session_stays_ended();
}

/// Over each list of starts of a provider, each of which opens what a crash of the one before it may have left: what an
/// answer acknowledged is in the history of every ledger that may be opened behind them. So it is at whatever moments
/// their requests were asked; and where each was asked at one of these moments, each compaction in such a history was
/// at one of them.
pub fn what_is_acknowledged_is_kept_over_starts()
    ensures any { WhatIsAcknowledgedIsKeptOverStarts AnyMoment }
    ensures at { (moments : List ℕ) → WhatIsAcknowledgedIsKeptOverStarts (Contains moments) }
{
    idp_ledger::laws::images_hold_records();
}

/// And a session that was ended, at first or by what an answer acknowledged, is live in no ledger that may be opened
/// behind them.
pub fn sessions_stay_ended_over_starts()
    ensures { SessionsStayEndedOverStarts }
{
    idp_ledger::laws::images_hold_records();
    idp_ledger::laws::compactions_change_no_answer();
    an_ended_session_stays_ended();
}

/// In each of the images that a crash may leave behind an answer to a user who leaves, or to a message of a logout,
/// every session is ended that the answer's record ends: those of a logout that asks all others are ended before the
/// first of them is asked.
pub fn sessions_end_before_the_answer()
    ensures { SessionsEndBeforeTheAnswer }
{
    what_is_answered_is_recorded();
    a_session_is_ended_exactly();
}

/// The elements that are signed in an answer are those that its record stands for: its Assertion, the Response with
/// this, or both; its LogoutRequest or LogoutResponse; with the key of what is sent to the record's peer. And the answer
/// is of the record's kind: the page where the user logs in for a login that is pending, a Response at its address with
/// its relay state and its cookie for one that was issued, one without an Assertion where the user may not be asked, a
/// message or the page at the end for a record of a logout.
pub fn each_signed_element_is_of_a_record()
    ensures { EachSignedElementIsOfARecord }
{
    logout_profile::laws::what_an_obeyed_form_says();
}

/// A page that stands for no record is the metadata.
pub fn no_other_page_is_unrecorded()
    ensures { NoOtherPageIsUnrecorded }
{}

/// A logout that asks all others asks the provider of the first turn first, and behind each answer the one of the next
/// turn. It ends with Success exactly where none was skipped, as many providers answered as there are turns, and each
/// confirmed; no other answer of the round says how it ended.
pub fn a_round_ends_as_confirmed()
    ensures begins { RoundsBeginWithTheFirst }
    ensures ends { RoundsEndAsConfirmed }
{
    idp_ledger::laws::rounds_are_counted();
}

/// Where there was no memory for an answer and the ledger was not broken, all that may be asked of its rows at that
/// moment is answered behind the request as before.
pub fn what_is_visible_stays()
    ensures { RowsAnswerAsBefore idp_rules Answers AnswerAlike }
{
    idp_ledger::laws::compactions_change_no_answer();
}

/// A session whose answer went out is as it was left in each ledger that came from the one at the start by events,
/// among them its record's: where it ends behind each moment at which the ledger was compacted it has its row, ended
/// only where a record that was added since ends it, and its cookie finds that row until then and until its end.
pub fn what_was_begun_is_as_left()
    ensures { WhatWasOpenedIsAsLeft idp_rules Began IsAsLeft }
{
    idp_ledger::laws::images_hold_records();
    idp_ledger::laws::sessions_stay();
}

/// Over each list of events, moments, disk faults and openings: each session whose answer went out is as it was left
/// in every image that a crash may leave.
pub fn sessions_stay_in_a_service()
    ensures { SessionsStayInAService idp_rules Began IsAsLeft Answers }
{
    idp_ledger::laws::images_hold_records();
    idp_ledger::laws::sessions_stay();
}

/// And over each list of starts, of which each opens what a crash of the one before it may have left.
pub fn sessions_stay_over_starts()
    ensures { SessionsStayOverStarts idp_rules Began IsAsLeft Answers }
{
    idp_ledger::laws::images_hold_records();
    idp_ledger::laws::sessions_stay();
}

/// No answer where nothing fails is one of the codes that a provider answers for itself: 50 to 53.
pub fn no_definition_gives_an_own_code()
    ensures { GivesNoOwnCode Answers }
{}
