//! The lines of words and bytes.

ghost use Rattle.std.specs.Prelude.{◌≡◌, ℕ, List, ◌+◌, ◌<◌, ◌≤◌, ◌++◌, codes, drop, length, IfOk, OnOk};
ghost use Rattle.std.specs.List.Sorted.{IsNonDecreasingBy};
ghost use Rattle.arrayvec.specs.ArrayVec.{array_vec_len};
ghost use Rattle.rt_words.specs.Base.{base};
ghost use Rattle.rt_words.specs.Hex.{hex};
ghost use Rattle.rt_image.specs.ObjectFile.{Label, labels};
ghost use Rattle.rt_image.specs.declared.object.Symbol.{Symbol};
ghost use Rattle.rt_show.specs.listing.Listing.{names_at, remark, word_line, byte_line, lines_from};

use crate::listing::names::push_names;
use byteorder::{ByteOrder, LittleEndian};
use rt_image::Symbol;
use rt_isa::{WORD_LINE_LEN, WordLine, push_word_text};
use rt_sink::{push_byte, push_text};
use rt_words::{MAX_IMAGE, RAM_BASE, hex_byte, hex_word};
use std::alloc::{AllocError, Global};

/// Appends what ends the line of an address.
#[inline(always)]
fn push_remark(line: &mut WordLine, address: u32)
    requires { array_vec_len line.old + 11 ≤ WORD_LINE_LEN }
    ensures text { line.new.items ≡ line.old.items ++ remark address }
    ensures room { array_vec_len line.new ≤ array_vec_len line.old + 11 }
{
    push_text(line, b" # ");
    push_text(line, &hex_word(address));
}

/// Appends what follows the text of a word.
#[inline(always)]
fn push_word_end(line: &mut WordLine, address: u32, word: u32)
    requires { array_vec_len line.old + 21 ≤ WORD_LINE_LEN }
    ensures { line.new.items ≡ line.old.items ++ remark address ++ codes " " ++ hex 8 word ++ codes "\n" }
{
    push_remark(line, address);
    push_byte(line, b' ');
    push_text(line, &hex_word(word));
    push_byte(line, b'\n');
}

/// Appends the line of a word.
#[inline(always)]
fn push_word(out: &mut Vec<u8>, address: u32, word: u32) -> Result<(), AllocError>
    ensures { OnOk result (out.new.items ≡ out.old.items ++ word_line address word) }
{
    let mut line = WordLine::new();
    push_text(&mut line, b"    ");
    push_word_text(&mut line, address, word);
    push_word_end(&mut line, address, word);
    out.extend_from_slice(&line)
}

/// Appends the line of a byte.
fn push_last_byte(out: &mut Vec<u8>, address: u32, byte: u8) -> Result<(), AllocError>
    ensures { OnOk result (out.new.items ≡ out.old.items ++ byte_line address byte) }
{
    let mut line = WordLine::new();
    push_text(&mut line, b"    .byte 0x");
    push_text(&mut line, &hex_byte(byte));
    push_remark(&mut line, address);
    push_byte(&mut line, b'\n');
    out.extend_from_slice(&line)
}

/// Appends the line of the first word, or of the first byte where no whole word is left, and
/// answers how many bytes it shows.
fn push_item(out: &mut Vec<u8>, address: u32, bytes: &[u8]) -> Result<usize, AllocError>
    requires { 0 < length bytes.now }
    ensures size { IfOk result (λ size. (0 < size) × (size ≤ length bytes.now)) }
    ensures line { IfOk result (λ size. (line : List ℕ) × (out.new.items ≡ out.old.items ++ line)
        × ((symbols : List Label) → lines_from symbols address bytes.now
        ≡ names_at address symbols ++ line ++ lines_from symbols (address + size) (drop size bytes.now))) }
{
    if bytes.len() < 4 {
        push_last_byte(out, address, bytes[0])?;
        return Ok(1);
    }
    push_word(out, address, LittleEndian::read_u32(bytes))?;
    Ok(4)
}

/// The lines of the bytes of an image, at most 1,048,576 of them, with those of symbols
/// that rise by their addresses.
pub fn lines(alloc: Global, symbols: &[Symbol], bytes: &[u8]) -> Result<Vec<u8>, AllocError>
    requires few { length bytes.now ≤ MAX_IMAGE }
    requires sorted { IsNonDecreasingBy (λ (s : Symbol). s.address) symbols.now }
    ensures { IfOk result (λ text. text.items ≡ lines_from (labels symbols.now) base bytes.now) }
{
    let mut out = Vec::new(alloc);
    // All of them are left at first.
    let (_, mut above) = symbols.split_at(0);
    let mut rest = bytes;
    let mut address = RAM_BASE;
    while !rest.is_empty() {
        above = push_names(&mut out, above, address)?;
        let size = push_item(&mut out, address, rest)?;
        let (_item, after) = rest.split_at(size);
        rest = after;
        address += size as u32;
    }
    push_names(&mut out, above, address)?;
    Ok(out)
}
