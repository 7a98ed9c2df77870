//! Tests of memory, pages, pool and the services over them.
#![tactic(auto)]

#[cfg(test)]
mod arena;
#[cfg(test)]
mod calls;
#[cfg(test)]
mod console;
#[cfg(test)]
mod descriptors;
#[cfg(test)]
mod memory;
#[cfg(test)]
mod page_map;
#[cfg(test)]
mod pool;
#[cfg(test)]
mod services;
#[cfg(test)]
mod tables;
#[cfg(test)]
mod views;
