//! Tests of the services on events, timers and task priority levels.
#![tactic(auto)]

#[cfg(test)]
mod calls;
#[cfg(test)]
mod creations;
#[cfg(test)]
mod levels;
#[cfg(test)]
mod notices;
#[cfg(test)]
mod waits;
