//! Tests of images that come into RAM and go again.
#![tactic(auto)]

#[cfg(test)]
mod application;
#[cfg(test)]
mod images;
#[cfg(test)]
mod ram;
