//! Tests of what the program's objects and calls do where no clause says it: the objects over the system, and recordings, servers,
//! pulls, sessions and summaries whose threads run beside each other.
#![tactic(auto)]

#[cfg(test)]
mod memory;
#[cfg(test)]
mod outside;
#[cfg(test)]
mod pulling;
#[cfg(test)]
mod recording;
#[cfg(test)]
mod serving;
#[cfg(test)]
mod sessions;
#[cfg(test)]
mod shared;
#[cfg(test)]
mod summing;
