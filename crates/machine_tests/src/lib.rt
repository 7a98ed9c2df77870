//! Tests of a machine whose host calls guest code.
#![tactic(auto)]

#[cfg(test)]
mod calls;
