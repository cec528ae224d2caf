//! What the clauses of the decisions do not say: that calls succeed with ample memory, and that memory is all they ask for.
#![tactic(auto)]

#[cfg(test)]
mod access_policy_tests;
#[cfg(test)]
mod idp_rules_tests;
#[cfg(test)]
mod logout_profile_tests;
#[cfg(test)]
mod provider_config_tests;
#[cfg(test)]
mod sp_rules_tests;
