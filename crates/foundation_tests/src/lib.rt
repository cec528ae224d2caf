//! What the clauses of the foundations do not say: the examples of the standards, and that calls succeed with ample memory.
#![tactic(auto)]

#[cfg(test)]
mod byte_runs_tests;
#[cfg(test)]
mod hmac_sha256_tests;
#[cfg(test)]
mod namespace_scope_tests;
#[cfg(test)]
mod owned_values_tests;
#[cfg(test)]
mod saml_ids_tests;
#[cfg(test)]
mod saml_names_tests;
#[cfg(test)]
mod saml_outside_tests;
#[cfg(test)]
mod saml_time_tests;
#[cfg(test)]
mod text_lines_tests;
#[cfg(test)]
mod xml_chars_tests;
