//! A service provider and an identity provider in one world, each over all its starts, wherever crashes stop them: no
//! request opens two sessions; where only the identity provider makes HMACs that match and no hash collides, each
//! session is one that it recorded; and none lives again that was closed or ended.
//!
//! The world is two lists of starts (`specs/Together.antt`): each start opens what a crash of the one before it may
//! have left, and then serves any list of connections, pieces, moments and faults. A run of either program is such a
//! start (`sp_runs::laws::a_run_is_a_start`, `idp_runs::laws::a_run_is_a_start`), and from each disk that it leaves where
//! it is stopped a later one goes on (`each_disk_of_a_run_goes_on` of both). What passes between the two is not asked
//! for: whatever a form holds that comes to the service provider, and whoever brings it.
//!
//! # What is proved
//!
//! One law over all starts of a service provider and of an identity provider, wherever crashes stop them
//! (`the_headline_holds_of_both`): a session is opened exactly where a posted form opens one, also where a crash cut
//! the request, and each record behind these starts stood there at first or is one that a request of theirs adds; each
//! that is given, with whatever answer, is of a login that the identity provider recorded, for this provider, to its
//! address and in its time, in these starts or before, where nobody else makes HMACs that match and no hash collides;
//! what the service provider acknowledged is kept, once, and no request opens two; a session of the service provider
//! that was closed, and one of the identity provider that was ended, at first or by what an answer of these starts
//! acknowledged, is live in no ledger that may be opened behind them; and a session whose answer went out is found
//! there as it was left, at both, for each list of moments among which are all of these starts. [HEADLINE](HEADLINE.md)
//! has it word by word.
#![tactic(auto)]

ghost use Rattle.both_providers.specs.Together.{TheHeadlineHoldsOfBoth};

/// Over all starts of a service provider and of an identity provider: a session is opened exactly where a posted form opens one, also
/// where a crash cut the request, and each record that stands behind these starts stood there at first or is one that a request of
/// theirs adds, whatever was answered; each that is given is that of a login which the identity provider recorded, for this provider, to its
/// address and in its time, with an answer that stands for the record, or whose record its ledger had at first: for each list of such
/// records, where nobody else makes HMACs that match and no hash collides; what the service provider acknowledged is kept, once: no
/// request opens two sessions; a session of the service provider that was closed, and one of the identity provider that was ended, at
/// first or by what an answer acknowledged, is live in no ledger that may be opened behind these starts; and at both each session whose
/// answer went out is there as it was left.
pub fn the_headline_holds_of_both()
    ensures { TheHeadlineHoldsOfBoth }
{
    sp_server::laws::a_session_opens_exactly();
    sp_server::laws::what_is_acknowledged_is_kept_once_over_starts();
    sp_server::laws::sessions_stay_closed_over_starts();
    sp_server::laws::sessions_stay_over_starts();
    idp_ledger::laws::images_hold_records();
    idp_server::laws::sessions_stay_ended_over_starts();
    idp_server::laws::sessions_stay_over_starts();
    recorded_logins::a_session_that_is_opened_was_recorded();
    recorded_logins::a_recorded_login_has_a_recorded_session();
}
