//! The instructions of RV32I: the table of rows, its words both ways, and the text of a word
//! (RISC-V Unprivileged ISA 20191213, chapter 2, RV32I version 2.1).
#![tactic(auto)]

mod decoding;
mod encoding;
mod fields;
mod instruction;
mod laws;
mod mnemonics;
mod number;
mod operands;
mod printing;

pub use decoding::decode;
pub use encoding::encode;
pub use instruction::Ins;
pub use laws::{one_row, one_word};
pub use number::{Imm12, Off13, Off21, Order12, Reg, Shamt, Upper20};
pub use operands::{WORD_LINE_LEN, WordLine};
pub use printing::{disasm, push_word_text};
