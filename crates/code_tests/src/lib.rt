//! Tests of numbers, instructions and images.
#![tactic(auto)]

#[cfg(test)]
mod images;
#[cfg(test)]
mod numbers;
#[cfg(test)]
mod readings;
#[cfg(test)]
mod relocations;
#[cfg(test)]
mod steps;
