//! Tests of `rt_sink`, `rt_isa`, `rt_exec` and `rt_text`.
#![tactic(auto)]

#[cfg(test)]
mod tests;
