//! Tests of assembly texts, scripts, lines and what image files hold.
#![tactic(auto)]

#[cfg(test)]
mod assembly;
#[cfg(test)]
mod image_dumps;
#[cfg(test)]
mod image_lines;
#[cfg(test)]
mod lines;
#[cfg(test)]
mod outcomes;
#[cfg(test)]
mod scripts;
#[cfg(test)]
mod steps;
