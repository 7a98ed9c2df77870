//! Tests of kinds and certificates.
#![tactic(auto)]

#[cfg(test)]
mod certificates;
#[cfg(test)]
mod kinds;
