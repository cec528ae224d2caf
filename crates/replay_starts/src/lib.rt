//! A run of a schedule over two providers, as a list of starts of either.
//!
//! `schedule_replay` says of two nodes, whatever nodes they are, what each step of a schedule does to them.
//! `provider_node` says what is kept over starts of a provider, of which each opens what the one before it may have
//! left. This crate says that the first is a case of the second: what a replay does to a provider, its restarts, the
//! stops and failures of its disk and its compactions among it, is a list of such starts, in which it was asked what the
//! agents' bytes completed, and nothing else (`specs/Replayed.antt`).
//!
//! # What is proved
//!
//! `laws::a_replay_is_starts`: of each run of a schedule over two providers that were started there are two lists of
//! starts, from the ledgers on that were opened at first (`AreStartsOf`). Each start opens what is left behind the
//! ones before it: by a request that was cut or answered, by a restart that failed, inside a compaction or behind it.
//! In them each provider was asked the requests that the agents' bytes completed, in order, each at its moment and in
//! its state, with its answer, and no other; and the disks that the run leaves hold nothing but what is left behind them.
//! Each request was asked, and each compaction was begun, at one of the moments at which the clock stood in the steps
//! that were done (`moments_in_run`).
#![tactic(auto)]

pub mod laws;
