//! The text of a word.

ghost use Rattle.std.specs.Prelude.{◌≡◌, ◌+◌, ◌≤◌, ◌++◌, length, take, true, false, OnOk, OnErr};
ghost use Rattle.std.specs.String.{string_bytes};
ghost use Rattle.arrayvec.specs.ArrayVec.{array_vec_len};
ghost use Rattle.rt_isa.specs.Print.{data_text, text};

use crate::decoding::decode;
use crate::mnemonics::name_of;
use crate::operands::{WORD_LINE_LEN, WordLine, push_operands};
use rt_sink::push_text;
use rt_words::hex_word;
use std::alloc::AllocError;
use std::str::from_utf8;

/// Appends the text of a word's instruction at an address: at most 25 bytes. False for a word that has none.
#[inline(always)]
fn push_statement(line: &mut WordLine, address: u32, word: u32) -> bool
    requires { array_vec_len line.old + 25 ≤ WORD_LINE_LEN }
    ensures text { result ≡ true → line.new.items ≡ line.old.items ++ text address word }
    ensures none { result ≡ false → data_text word ≡ text address word }
    ensures front { result ≡ false → take (length line.old.items) line.new.items ≡ line.old.items }
    ensures room { array_vec_len line.new ≤ array_vec_len line.old + 25 }
{
    match decode(word) {
        Some(instruction) => {
            push_text(line, name_of(&instruction));
            push_operands(line, address, instruction)
        }
        None => false,
    }
}

/// Appends the text of a word that stands at an address: at most 25 bytes.
#[inline(always)]
pub fn push_word_text(line: &mut WordLine, address: u32, word: u32)
    requires { array_vec_len line.old + 25 ≤ WORD_LINE_LEN }
    ensures text { line.new.items ≡ line.old.items ++ text address word }
    ensures room { array_vec_len line.new ≤ array_vec_len line.old + 25 }
{
    let start = line.len();
    if push_statement(line, address, word) {
        return;
    }
    line.truncate(start);
    push_text(line, b".word 0x");
    push_text(line, &hex_word(word));
}

/// Appends the text of a word that stands at address `pc`: its row's name with its operands, as
/// assembly is written, or `.word` with its number where no row matches it, or where it is a FENCE
/// other than `fence` and `fence set,set`. Registers go by number, targets are addresses modulo 2^32.
/// Without memory for it `out` stays as it was.
pub fn disasm(pc: u32, word: u32, out: &mut String) -> Result<(), AllocError>
    ensures ok { OnOk result (string_bytes out.new ≡ string_bytes out.old ++ text pc word) }
    ensures err { OnErr result (string_bytes out.new ≡ string_bytes out.old) }
{
    let mut line = WordLine::new();
    push_word_text(&mut line, pc, word);
    match from_utf8(&line) {
        Ok(text) => out.push_str(text),
        Err(_) => unreachable!(),
    }
}
