//! Tests of `rt_image`, `rt_set`, `rt_elf` and `rt_file_hints`.
#![tactic(auto)]

#[cfg(test)]
mod hints;
#[cfg(test)]
mod making;
#[cfg(test)]
mod tests;
