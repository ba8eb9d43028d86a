//! Tests of `rt_token`, `rt_asm`, `rt_file_hints::source_hints` and `rt_show::listing`.
#![tactic(auto)]

#[cfg(test)]
mod tests;
