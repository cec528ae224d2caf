//! The laws of whole runs, each the contract of a function that does nothing.
ghost use Rattle.idp_runs.specs.Headline.{Headline, address, key};
ghost use Rattle.provider_run.specs.Headlines.{EachRunCarries, EachRunIsAStart};
ghost use Rattle.std.specs.Prelude.{ℕ, List, Contains};
ghost use Rattle.provider_node.specs.Histories.{AnyMoment};
ghost use Rattle.provider_run.specs.Joining.{EachDiskOfARunGoesOn};
ghost use Rattle.idp_server.specs.Step.{Answers};
ghost use Rattle.idp_ledger.specs.Record.{idp_rules};
ghost use Rattle.idp_setup.specs.Setup.{IsBadSetUp, IsSetUp};

use idp_ledger::Disk;

/// A run issues each Assertion to a user whose password was posted, or in the user's live session; each element that it
/// signs is one of a record; a user is asked for a password only where a peer asked for a login; and no form is sent
/// before its record is in every image that a crash may leave. It ends sessions exactly where their users leave them,
/// by a POST with their cookie, or where a peer asks for it by a LogoutRequest that is accepted, in every such image
/// before it answers; and one that is ended is live at no later request, and in no ledger that a crash may leave since.
/// From each point of the run on, also inside later requests, what was acknowledged by then is in the history of each
/// ledger that a crash might leave, and each session whose answer went out is as it was left. A logout that asks all
/// others asks each in its turn, and says Success exactly where each confirmed. And each request of it is served by
/// what the provider was set up with.
pub fn a_run_carries_the_headline<D: Disk>()
    ensures { (disk : D) → EachRunCarries IsSetUp IsBadSetUp address key idp_rules Answers Headline (D.shows disk).left_since }
{
    idp_ledger::laws::images_hold_records();
    idp_ledger::laws::rounds_ask_in_turn();
    idp_server::laws::no_definition_gives_an_own_code();
    idp_server::laws::each_issue_has_a_password_or_a_session();
    idp_server::laws::each_question_has_an_asker();
    idp_server::laws::each_signed_element_is_of_a_record();
    idp_server::laws::no_other_page_is_unrecorded();
    idp_server::laws::what_is_answered_is_recorded();
    idp_server::laws::a_session_is_ended_exactly();
    idp_server::laws::sessions_end_before_the_answer();
    idp_server::laws::a_round_ends_as_confirmed();
    idp_server::laws::what_is_acknowledged_is_kept();
    idp_server::laws::sessions_stay_ended_in_a_service();
    idp_server::laws::sessions_stay_in_a_service();
    idp_server::laws::what_was_begun_is_as_left();
    idp_server::laws::what_is_visible_stays();
}

/// A run that served is a start of its provider. So by the laws of starts of `idp_server` what several runs
/// acknowledged is kept, and what is ended stays so, over restarts with crashes between them.
pub fn a_run_is_a_start()
    ensures { EachRunIsAStart IsSetUp address key idp_rules Answers }
{
    idp_ledger::laws::images_hold_records();
}

/// Where a run is next behind starts of its provider, on a disk that tells, each disk that it leaves where it is
/// stopped at one of its moments is one from which a later start goes on: for each moment at which the run may have
/// left it, as behind a start of this run that was cut at that moment, inside the opening, inside the answer to the
/// request that was asked then, or behind the turns that were done by then. It may be one that a crash left, which
/// holds an image, or one of a process that was killed, of which a crash may still leave several. So runs that were
/// stopped, and those that ended, join into one service, of which the laws of starts speak, with the moments of all its
/// requests, those in which it was stopped too.
pub fn each_disk_of_a_run_goes_on<D: Disk>()
    ensures any { (disk : D) → EachDiskOfARunGoesOn IsSetUp IsBadSetUp address key idp_rules Answers
        (D.shows disk).left_since AnyMoment }
    ensures at { (disk : D) (moments : List ℕ) → EachDiskOfARunGoesOn IsSetUp IsBadSetUp address key idp_rules Answers
        (D.shows disk).left_since (Contains moments) }
{
    idp_ledger::laws::images_hold_records();
}
