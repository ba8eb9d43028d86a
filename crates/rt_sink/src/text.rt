//! Exact text without memory: a line is built up in a small buffer of its own.

ghost use Rattle.std.specs.Prelude.{◌≡◌, ◌+◌, ◌<◌, ◌≤◌, ◌++◌, ◌∷◌, [], length, decimal};
ghost use Rattle.arrayvec.specs.ArrayVec.{array_vec_len};
ghost use Rattle.rt_words.specs.Hex.{hex};

use arrayvec::ArrayVec;
use itoa::Buffer;
use rt_words::hex_word;

/// The bytes that a line can hold.
pub const LINE_LEN: usize = 160;

/// A line as it is built up, of at most `LINE_LEN` bytes.
pub type LineBuffer = ArrayVec<u8, LINE_LEN>;

/// Appends the bytes.
#[inline(always)]
pub fn push_text<const N: usize>(out: &mut ArrayVec<u8, N>, text: &[u8])
    requires { array_vec_len out.old + length text.now ≤ N }
    ensures text { out.new.items ≡ out.old.items ++ text.now }
    ensures room { array_vec_len out.new ≡ array_vec_len out.old + length text.now }
{
    out.try_extend_from_slice(text).unwrap();
}

/// Appends one byte.
#[inline(always)]
pub fn push_byte<const N: usize>(out: &mut ArrayVec<u8, N>, byte: u8)
    requires { array_vec_len out.old < N }
    ensures text { out.new.items ≡ out.old.items ++ byte ∷ [] }
    ensures room { array_vec_len out.new ≡ array_vec_len out.old + 1 }
{
    out.push(byte);
}

/// Appends the number in decimal, without leading zeros: 1 to 20 bytes.
#[inline]
pub fn push_decimal<const N: usize>(out: &mut ArrayVec<u8, N>, number: u64)
    requires { array_vec_len out.old + 20 ≤ N }
    ensures text { out.new.items ≡ out.old.items ++ decimal number }
    ensures room { array_vec_len out.new ≤ array_vec_len out.old + 20 }
{
    if number < 10 {
        push_byte(out, b'0' + number as u8);
        return;
    }
    let mut digits = Buffer::new();
    push_text(out, digits.format(number).as_bytes());
}

/// Appends the eight hexadecimal digits of a word.
#[inline(always)]
pub fn push_hex<const N: usize>(out: &mut ArrayVec<u8, N>, word: u32)
    requires { array_vec_len out.old + 8 ≤ N }
    ensures text { out.new.items ≡ out.old.items ++ hex 8 word }
    ensures room { array_vec_len out.new ≡ array_vec_len out.old + 8 }
{
    push_text(out, &hex_word(word));
}
