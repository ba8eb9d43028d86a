//! Tests of `rt_admit`, `rt_server`, the queues, `rt_core`, and of what is said of sets and reasons.
#![tactic(auto)]

#[cfg(test)]
mod tests;
