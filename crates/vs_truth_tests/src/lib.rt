//! Tests of exact search over members whose words lie beside one another, so that runs have several rows.
#![tactic(auto)]

#[cfg(test)]
mod run_tests;
