//! The laws of whole runs, each the contract of a function that does nothing.
ghost use Rattle.sp_runs.specs.Headline.{Headline};
ghost use Rattle.provider_run.specs.Headlines.{EachRunCarries, EachRunIsAStart};
ghost use Rattle.std.specs.Prelude.{ℕ, List, Contains};
ghost use Rattle.provider_node.specs.Histories.{AnyMoment};
ghost use Rattle.provider_run.specs.Joining.{EachDiskOfARunGoesOn};
ghost use Rattle.sp_server.specs.Step.{Answers};
ghost use Rattle.request_ledger.specs.Record.{request_rules};
ghost use Rattle.sp_runs.specs.Runs.{IsBadFile, IsServedBy, address, key};
ghost use Rattle.sp_runs.specs.Laws.{AnEndedRegistryAddsNothing, AnEndedRegistryAsksNothing, AnEndedRegistryRecordsNothing, ARunUsesWhatItsRegistryLists, ASessionIsShownByItsRow, EachRequestIsServedByTheSameSetup, EachSessionWasSigned, EqualRowsAreShownAlike, NoImageHasARequestTwice, SessionsStayClosedInARun, WhatARunAcknowledgedIsKeptOnce, WithoutARegistryNothingIsExpired};

use request_ledger::Disk;
use request_ledger::laws::{images_hold_records, no_request_opens_twice};

/// Whatever image a crash leaves at a moment of a run, where it stands for a ledger no two of its sessions answer one
/// request.
pub fn no_image_has_a_request_twice()
    ensures { NoImageHasARequestTwice }
{
    images_hold_records();
    no_request_opens_twice();
}

/// Where a provider was started on a disk that tells and served: what its answers acknowledged is in the history of
/// every ledger that a crash may leave behind the run, and no two sessions are of one request, those at the start and
/// those that were let go included.
pub fn what_a_run_acknowledged_is_kept_once()
    ensures { WhatARunAcknowledgedIsKeptOnce }
{
    images_hold_records();
    sp_server::laws::what_is_acknowledged_is_kept_once();
}

/// In such a run a session that is closed is live at no later request, and in no ledger that a crash may leave since.
pub fn sessions_stay_closed_in_a_run()
    ensures { SessionsStayClosedInARun }
{
    images_hold_records();
    sp_server::laws::sessions_stay_closed_in_a_service();
}

/// A run that served is a start of its provider. So by the laws of starts of `sp_server` what several runs acknowledged
/// is kept, once, over restarts with crashes between them.
pub fn a_run_is_a_start()
    ensures { EachRunIsAStart IsServedBy address key request_rules Answers }
{
    images_hold_records();
}

/// If only the identity provider makes HMACs that match, and no other text has the hash of one that it signed: each
/// session that is given is that of a login which it signed.
pub fn each_session_was_signed()
    ensures { EachSessionWasSigned }
{
    login_origin::a_login_was_signed();
}

/// A run whose config has a registry has its identity provider from the one descriptor of that name that the registry
/// lists, inside the element that the signature covers, at each of its requests; and from the moment on at which the
/// registry ends it asks for no login, opens no session and serves no logout: nothing is recorded, and no request adds
/// a record, whatever is answered. A run whose config has none never answers that one has ended.
pub fn a_registry_tells_and_ends()
    ensures tells { ARunUsesWhatItsRegistryLists }
    ensures same { EachRequestIsServedByTheSameSetup }
    ensures ends { AnEndedRegistryRecordsNothing }
    ensures adds_none { AnEndedRegistryAddsNothing }
    ensures asks { AnEndedRegistryAsksNothing }
    ensures without { WithoutARegistryNothingIsExpired }
{
    sp_setup::laws::a_registry_tells_the_provider();
}

/// What a live session is shown depends on the policy, the path and the session's own row alone, want of memory aside.
pub fn a_session_is_shown_by_its_row()
    ensures shown { ASessionIsShownByItsRow }
    ensures alike { EqualRowsAreShownAlike }
{}

/// A run opens sessions exactly where a posted form opens one, each of a login that was signed where only the
/// identity provider makes HMACs that match, and no two sessions are of one request, wherever a crash stops. It
/// closes sessions exactly where their users leave them or the identity provider ends them, and one that is closed is
/// never live again. No message of a logout is sent before its record is durable. A guard answers 200
/// exactly to the sessions that live and that no policy denies. From each point of the run on, also inside later
/// requests, what was acknowledged by then is in the history of each ledger that a crash might leave, and each
/// session whose answer went out is as it was left. A live session is shown what the policy says of its row,
/// and the run keeps to its registry, up to the moment at which this ends.
pub fn a_run_carries_the_headline<D: Disk>()
    ensures { (disk : D) → EachRunCarries IsServedBy IsBadFile address key request_rules Answers Headline
        (D.shows disk).left_since }
{
    images_hold_records();
    sp_server::laws::no_definition_gives_an_own_code();
    sp_server::laws::a_session_opens_exactly();
    sp_server::laws::a_session_is_closed_exactly();
    sp_server::laws::what_is_answered_is_recorded();
    sp_server::laws::a_guard_tells_exactly();
    each_session_was_signed();
    what_a_run_acknowledged_is_kept_once();
    sessions_stay_closed_in_a_run();
    sp_server::laws::sessions_stay_in_a_service();
    sp_server::laws::what_was_opened_is_as_left();
    sp_server::laws::what_is_visible_stays();
    a_registry_tells_and_ends();
    a_session_is_shown_by_its_row();
}

/// Where a run is next behind starts of its provider, on a disk that tells, each disk that it leaves where it is
/// stopped at one of its moments is one from which a later start goes on: for each moment at which the run may have
/// left it, as behind a start of this run that was cut at that moment, inside the opening, inside the answer to the
/// request that was asked then, or behind the turns that were done by then. It may be one that a crash left, which
/// holds an image, or one of a process that was killed, of which a crash may still leave several. So runs that were
/// stopped, and those that ended, join into one service, of which the laws of starts speak, with the moments of all its
/// requests, those in which it was stopped too.
pub fn each_disk_of_a_run_goes_on<D: Disk>()
    ensures any { (disk : D) → EachDiskOfARunGoesOn IsServedBy IsBadFile address key request_rules Answers
        (D.shows disk).left_since AnyMoment }
    ensures at { (disk : D) (moments : List ℕ) → EachDiskOfARunGoesOn IsServedBy IsBadFile address key request_rules Answers
        (D.shows disk).left_since (Contains moments) }
{
    images_hold_records();
}
