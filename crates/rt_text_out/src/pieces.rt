//! The pieces that texts are made of.

ghost use Rattle.std.specs.Prelude.{◌≡◌, ℕ, ◌+◌, ◌≤◌, List, [], ◌∷◌, length, decimal};
ghost use Rattle.rt_words.specs.Hex.{hex};

use crate::out::{Out, Text};
use itoa::Buffer;
use rt_words::hex_word;

/// The most bytes of a piece that is told as it is: those of a line, and so of a name.
pub const BYTES_LEN: usize = 512;

/// The most bytes of a word.
pub const WORD_LEN: usize = 16;

/// Bytes as they are, at most so many.
#[derive(Clone, Copy)]
pub struct Bytes<'a, const MOST: usize> {
    pub bytes: &'a [u8],
    ghost few: { length bytes.now ≤ MOST },
}

/// These bytes as they are.
#[inline(always)]
pub fn plain(bytes: &[u8]) -> Bytes<'_, BYTES_LEN>
    requires { length bytes.now ≤ BYTES_LEN }
    ensures { result.bytes.now ≡ bytes.now }
{
    Bytes { bytes }
}

/// These letters as they are, in a line that is gathered.
#[inline(always)]
pub fn word(letters: &[u8]) -> Bytes<'_, WORD_LEN>
    requires { length letters.now ≤ WORD_LEN }
    ensures { result.bytes.now ≡ letters.now }
{
    Bytes { bytes: letters }
}

impl<'a, const MOST: usize> Text for Bytes<'a, MOST> {
    ghost text = { λ x. x.bytes.now };

    ghost most = { MOST };

    #[inline(always)]
    fn offer<O: Out>(&self, out: &mut O) {
        out.put(self.bytes);
    }
}

/// One byte.
#[derive(Clone, Copy)]
pub struct Byte(pub u8);

impl Text for Byte {
    ghost text = { λ x. x.0 ∷ [] };

    ghost most = { 1 };

    #[inline(always)]
    fn offer<O: Out>(&self, out: &mut O) {
        out.put(&[self.0]);
    }
}

/// A number in decimal, without leading zeros.
#[derive(Clone, Copy)]
pub struct Decimal(pub u64);

impl Text for Decimal {
    ghost text = { λ x. decimal x.0 };

    ghost most = { 20 };

    #[inline(always)]
    fn offer<O: Out>(&self, out: &mut O) {
        if self.0 < 10 {
            out.put(&[b'0' + self.0 as u8]);
            return;
        }
        let mut digits = Buffer::new();
        out.put(digits.format(self.0).as_bytes());
    }
}

/// The eight hexadecimal digits of a word.
#[derive(Clone, Copy)]
pub struct Hex(pub u32);

impl Text for Hex {
    ghost text = { λ x. hex 8 x.0 };

    ghost most = { 8 };

    #[inline(always)]
    fn offer<O: Out>(&self, out: &mut O) {
        out.put(&hex_word(self.0));
    }
}
