//! Laws of a hub, each the contract of a function that does nothing.
ghost use Rattle.std.specs.Prelude.{ℕ, List, Contains};
ghost use Rattle.provider_node.specs.Causes.{GivesNoOwnCode};
ghost use Rattle.provider_node.specs.Histories.{AnyMoment};
ghost use Rattle.identity_hub.specs.Histories.{WhatIsAcknowledgedIsKeptOnce, WhatIsAcknowledgedIsKeptOnceOverStarts};
ghost use Rattle.identity_hub.specs.Passing.{EachRefusalIsOfOneBelow, EachRequestUpwardsIsOfOneBelow, NothingIsAskedOfAUserWhoMayNotBeAsked, OnlyWhereALoginIsBrought, WhereverALoginIsBrought};
ghost use Rattle.identity_hub.specs.Recorded.{IsPosted};
ghost use Rattle.identity_hub.specs.Step.{Answers};
ghost use Rattle.hub_ledger.specs.Record.{hub_rules};
ghost use Rattle.provider_node.specs.Recorded.{WhatIsAnsweredIsRecorded};
ghost use Rattle.identity_hub.specs.Signed.{EachSignedElementIsOfARecord, NoOtherPageIsUnrecorded};

/// A login is passed on only where a posted form brings it, over the hub's rows, for the request of a provider below
/// that is known: with the name and the attributes of the login from above, to that provider alone. And wherever a form
/// brings one, where there is room, at once or behind one compaction, the disk does not fail and memory is found.
pub fn a_login_is_passed_on_exactly()
    ensures only { OnlyWhereALoginIsBrought }
    ensures wherever { WhereverALoginIsBrought }
{
    sp_rules::laws::a_form_has_one_verdict();
    hub_ledger::laws::compactions_change_no_answer();
    sp_answers::laws::like_rows_are_judged_alike();
}

/// A request is sent upwards only where a form of a provider below that is known asks for a login of a user who may be
/// asked: for that provider, with its address, the ID of its request and its relay state. And a Response without an
/// Assertion only where such a form says that the user may not be asked.
pub fn each_request_upwards_is_of_one_below()
    ensures asked { EachRequestUpwardsIsOfOneBelow }
    ensures refused { EachRefusalIsOfOneBelow }
{}

/// No login is asked for above where the user of a request below may not be asked: it is answered that the user could
/// not be authenticated passively.
pub fn nothing_is_asked_of_a_user_who_may_not_be_asked()
    ensures { NothingIsAskedOfAUserWhoMayNotBeAsked }
{
    idp_rules::laws::a_request_has_one_verdict();
}

/// For those below a hub signs nothing but the Assertions of its records of logins that it passed on, each for the
/// provider of the record; and for the one above the requests of its records. A login goes to the record's address with
/// the relay state of the request below, and so does a Response without an Assertion, in which nothing is signed.
pub fn each_signed_element_is_of_a_record()
    ensures { EachSignedElementIsOfARecord }
{
    idp_answers::laws::a_response_is_signed_by_its_mode();
}

/// A page that stands for no record is the metadata.
pub fn no_other_page_is_unrecorded()
    ensures { NoOtherPageIsUnrecorded }
{}

/// Each form that is answered to what is posted stands for one record, which is in every image that a crash may leave
/// behind the step: no message is sent before its record is durable.
pub fn what_is_answered_is_recorded()
    ensures { WhatIsAnsweredIsRecorded hub_rules Answers IsPosted }
{}

/// Over each list of events, moments, disk faults and openings: what an answer acknowledged is in the history of every
/// ledger that a crash may leave, and no request upwards backs two logins: neither of such a history, nor of those that
/// were acknowledged with those at the start.
pub fn what_is_acknowledged_is_kept_once()
    ensures { WhatIsAcknowledgedIsKeptOnce }
{
    hub_ledger::laws::images_hold_records();
    hub_ledger::laws::no_request_backs_twice_in_a_run();
}

/// And over each list of starts, of which each opens what a crash of the one before it may have left: at whatever
/// moments their requests were asked; and where each was asked at one of these moments, each compaction in such a
/// history was at one of them.
pub fn what_is_acknowledged_is_kept_once_over_starts()
    ensures any { WhatIsAcknowledgedIsKeptOnceOverStarts AnyMoment }
    ensures at { (moments : List ℕ) → WhatIsAcknowledgedIsKeptOnceOverStarts (Contains moments) }
{
    hub_ledger::laws::images_hold_records();
    hub_ledger::laws::no_request_backs_twice_in_a_run();
}

/// No answer where nothing fails is one of the codes that a provider answers for itself: 50 to 53.
pub fn no_definition_gives_an_own_code()
    ensures { GivesNoOwnCode Answers }
{}
