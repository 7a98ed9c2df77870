//! Tests of the runtime services.
#![tactic(auto)]

#[cfg(test)]
mod services;
