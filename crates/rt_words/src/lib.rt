//! Words that all crates share: the sizes that are allowed, where RAM begins, sums modulo 2^32, hexadecimal digits, and
//! steps that stop at the first refusal.
#![tactic(auto)]

mod hexadecimal;
mod limits;
mod or_memory;

pub use hexadecimal::{hex_byte, hex_word, hex_words};
pub use limits::{
    MAX_IMAGE, MAX_LINE, MAX_RAM, MAX_SYMBOLS, MAX_TICKS, MAX_WORD, RAM_BASE, is_ram_size,
};
pub use or_memory::OrMemory;

#[cfg(test)]
mod tests;
