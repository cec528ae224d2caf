//! The law of replays, the contract of a function that does nothing.
ghost use Rattle.replay_starts.specs.Replayed.{AReplayIsStarts};

use provider_node::Role;

/// What a replay does to two providers is a list of starts of either, in which it was asked what the agents sent, each
/// request at one of the moments at which the clock stood.
pub fn a_replay_is_starts<S: Role, P: Role>()
    ensures { AReplayIsStarts S.Rows.rules S.answers P.Rows.rules P.answers }
{}
