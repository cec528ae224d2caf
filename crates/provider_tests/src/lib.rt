//! What the clauses of the providers do not say: that calls succeed with ample memory.
#![tactic(auto)]

#[cfg(test)]
mod hub_setup_tests;
#[cfg(test)]
mod identity_hub_tests;
#[cfg(test)]
mod idp_answers_tests;
#[cfg(test)]
mod idp_server_tests;
#[cfg(test)]
mod logout_answers_tests;
#[cfg(test)]
mod record_lines_tests;
#[cfg(test)]
mod replay_runs_tests;
#[cfg(test)]
mod sp_answers_tests;
#[cfg(test)]
mod sp_server_tests;
