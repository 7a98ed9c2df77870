//! Tests of the rules of a driver and its certificate.
#![tactic(auto)]

#[cfg(test)]
mod rows;
#[cfg(test)]
mod tables;
