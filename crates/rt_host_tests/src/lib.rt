//! Tests of the program on a host and on a desk in memory.
#![tactic(auto)]

#[cfg(test)]
mod host_in_memory;
#[cfg(test)]
mod tests;
