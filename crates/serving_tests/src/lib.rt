//! What the clauses of serving do not say: heads that others write, and that calls succeed with ample memory.
#![tactic(auto)]

#[cfg(test)]
mod conn_table_tests;
#[cfg(test)]
mod http_wire_tests;
#[cfg(test)]
mod serve_loop_tests;
