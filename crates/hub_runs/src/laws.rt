//! The laws of whole runs, each the contract of a function that does nothing.
ghost use Rattle.hub_runs.specs.Headline.{Headline, TheHeadlineHoldsOverStarts, address, key};
ghost use Rattle.provider_run.specs.Headlines.{EachRunCarries, EachRunIsAStart};
ghost use Rattle.std.specs.Prelude.{ℕ, List, Contains};
ghost use Rattle.provider_node.specs.Histories.{AnyMoment};
ghost use Rattle.provider_run.specs.Joining.{EachDiskOfARunGoesOn};
ghost use Rattle.identity_hub.specs.Step.{Answers};
ghost use Rattle.hub_ledger.specs.Record.{hub_rules};
ghost use Rattle.hub_setup.specs.Setup.{IsBadSetUp, IsSetUp};
ghost use Rattle.hub_runs.specs.Laws.{EachLoginGoesBack, EachLoginInAnImageHasItsRequest, EachLoginWasRecorded, EachLoginWasSigned, EachRequestLeavesItToTheOneAbove, EachSessionBelowIsOfALoginAbove, WhatIsVisibleStays};

use hub_ledger::Disk;

/// A login that is passed on goes back to the request below for which one was sent upwards: this stands in the ledger
/// over which it is passed on, and in each image that a crash may leave with the login.
pub fn each_login_goes_back_to_its_request()
    ensures goes { EachLoginGoesBack }
    ensures images { EachLoginInAnImageHasItsRequest }
{
    identity_hub::laws::a_login_is_passed_on_exactly();
    hub_ledger::laws::images_hold_records();
    hub_ledger::laws::each_login_has_its_request();
}

/// If only the provider above makes HMACs that match, and no other text has the hash of one that it signed: each login
/// that is passed on is one that it signed, and where it is an identity provider one that it recorded for the hub.
pub fn each_login_is_of_one_above()
    ensures signed { EachLoginWasSigned }
    ensures recorded { EachLoginWasRecorded }
{
    login_origin::a_login_was_signed();
    passed_logins::a_login_that_is_passed_on_was_recorded();
}

/// Over both hops, and all requests of one run or of several starts: each session that a provider below opens, where
/// nobody but the hub makes HMACs that match for what it signs, is of a login that the hub passed on to this provider;
/// and that stands in a record which the hub had at the start, or was passed on at one of these requests, and is one
/// that the provider above recorded for the hub, where in the form of this one request nobody else makes HMACs that
/// match for what that signed.
pub fn each_session_below_is_of_a_login_above()
    ensures { EachSessionBelowIsOfALoginAbove }
{
    passed_logins::a_session_below_was_passed_on();
    each_login_is_of_one_above();
}

/// What is sent upwards, read again, says nothing of IsPassive and of ForceAuthn: it is left to the provider above
/// whether it asks the user.
pub fn each_request_leaves_it_to_the_one_above()
    ensures { EachRequestLeavesItToTheOneAbove }
{
    element_make::a_made_element_spells_its_tree();
    xml_spec::no_bytes_spell_two_trees();
}

/// Where there was no memory for an answer and the ledger was not broken, all that may be asked of its rows at that
/// moment is answered behind the request as before.
pub fn what_is_visible_stays()
    ensures { WhatIsVisibleStays }
{
    hub_ledger::laws::compactions_change_no_answer();
}

/// A run passes a login from above on exactly where a posted form brings it for a request of a provider below that is
/// known, with its name and its attributes and to that provider alone; each element that it signs is one of a record,
/// and no form is sent before its record is in every image that a crash may leave. The provider above is asked only
/// where a provider below that is known asked by a form, and nobody above where the user may not be. No request upwards
/// backs two logins, and each login goes back to the request below for which that was sent. From each point of the run
/// on, also inside later requests, what was acknowledged by then is in the history of each ledger that a crash might
/// leave. And where only the provider above makes HMACs that match, each login is one that it signed, and each session
/// below of one that it recorded.
pub fn a_run_carries_the_headline<D: Disk>()
    ensures { (disk : D) → EachRunCarries IsSetUp IsBadSetUp address key hub_rules Answers Headline (D.shows disk).left_since }
{
    hub_ledger::laws::images_hold_records();
    identity_hub::laws::no_definition_gives_an_own_code();
    identity_hub::laws::a_login_is_passed_on_exactly();
    identity_hub::laws::each_request_upwards_is_of_one_below();
    identity_hub::laws::each_signed_element_is_of_a_record();
    identity_hub::laws::no_other_page_is_unrecorded();
    identity_hub::laws::what_is_answered_is_recorded();
    identity_hub::laws::nothing_is_asked_of_a_user_who_may_not_be_asked();
    identity_hub::laws::what_is_acknowledged_is_kept_once();
    each_login_goes_back_to_its_request();
    each_login_is_of_one_above();
    each_session_below_is_of_a_login_above();
    what_is_visible_stays();
}

/// The same sentence over all starts of a hub, each of which opens what a crash of the one before it may have left: of
/// each request, also of one that a crash cut, and of each record, which stood there at first or is one that a request
/// adds.
pub fn the_headline_holds_over_starts()
    ensures { TheHeadlineHoldsOverStarts }
{
    identity_hub::laws::no_definition_gives_an_own_code();
    identity_hub::laws::a_login_is_passed_on_exactly();
    identity_hub::laws::each_request_upwards_is_of_one_below();
    identity_hub::laws::each_signed_element_is_of_a_record();
    identity_hub::laws::no_other_page_is_unrecorded();
    identity_hub::laws::what_is_answered_is_recorded();
    identity_hub::laws::nothing_is_asked_of_a_user_who_may_not_be_asked();
    identity_hub::laws::what_is_acknowledged_is_kept_once_over_starts();
    each_login_goes_back_to_its_request();
    each_login_is_of_one_above();
    each_session_below_is_of_a_login_above();
    what_is_visible_stays();
}

/// A run that served is a start of its hub. So by the laws of starts what several runs acknowledged is kept, once, over
/// restarts with crashes between them.
pub fn a_run_is_a_start()
    ensures { EachRunIsAStart IsSetUp address key hub_rules Answers }
{
    hub_ledger::laws::images_hold_records();
}

/// Where a run is next behind starts of its hub, on a disk that tells, each disk that it leaves where it is stopped at
/// one of its moments is one from which a later start goes on: for each moment at which the run may have left it, as
/// behind a start of this run that was cut at that moment, inside the opening, inside the answer to the request that
/// was asked then, or behind the turns that were done by then. It may be one that a crash left, which holds an image,
/// or one of a process that was killed, of which a crash may still leave several. So runs that were stopped, and those
/// that ended, join into one service, of which the laws of starts speak, with the moments of all its requests, those in
/// which it was stopped too.
pub fn each_disk_of_a_run_goes_on<D: Disk>()
    ensures any { (disk : D) → EachDiskOfARunGoesOn IsSetUp IsBadSetUp address key hub_rules Answers
        (D.shows disk).left_since AnyMoment }
    ensures at { (disk : D) (moments : List ℕ) → EachDiskOfARunGoesOn IsSetUp IsBadSetUp address key hub_rules Answers
        (D.shows disk).left_since (Contains moments) }
{
    hub_ledger::laws::images_hold_records();
}
