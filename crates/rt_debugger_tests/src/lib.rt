//! Tests of the debugger and of sessions of gdb.
#![tactic(auto)]

#[cfg(test)]
mod tests;
