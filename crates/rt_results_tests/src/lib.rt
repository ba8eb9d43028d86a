//! Tests of reports, traces and charts, and of `rt_programs`.
#![tactic(auto)]

#[cfg(test)]
mod tests;
