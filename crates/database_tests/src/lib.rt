//! Tests of handles, protocols, events, variables and time.
#![tactic(auto)]

#[cfg(test)]
mod events;
#[cfg(test)]
mod handles;
#[cfg(test)]
mod protocols;
#[cfg(test)]
mod time;
#[cfg(test)]
mod variables;
