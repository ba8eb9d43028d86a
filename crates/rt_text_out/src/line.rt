//! Lines that are built up in a small buffer, and offered in one piece.

ghost use Rattle.std.specs.Prelude.{◌≡◌, ℕ, ◌+◌, ◌≤◌, ◌++◌, List, length};
ghost use Rattle.rt_text_out.specs.Fits.{Fits};

use crate::out::{Out, Text};
use arrayvec::ArrayVec;
use rt_sink::LINE_LEN;

/// The bytes stand behind those that it has, where there is room for them.
impl<const N: usize> Out for ArrayVec<u8, N> {
    ghost use Rattle.rt_text_out.specs.Fits.{Fits, fits-nothing, fits-joined};

    ghost offers = { λ v text w. Fits N v.items text w.items };

    ghost nothing = { λ x. fits-nothing N _ };

    ghost joined = { λ x a y b z first second. fits-joined N _ a _ b _ first second };

    #[inline(always)]
    fn put(&mut self, bytes: &[u8]) {
        let _fits = self.try_extend_from_slice(bytes);
    }
}

/// A text of so many bytes at most, offered in one piece.
#[derive(Drop)]
pub struct Gathered<T: Text, const ROOM: usize> {
    pub pieces: T,
    ghost few: { T.most ≤ ROOM },
    ghost small: { ROOM ≤ 4096 },
}

/// A text of a line at most, offered in one piece.
pub type InOne<T> = Gathered<T, LINE_LEN>;

impl<T: Text, const ROOM: usize> Text for Gathered<T, ROOM> {
    ghost text = { λ x. T.text x.pieces };

    ghost most = { T.most };

    #[inline(always)]
    fn offer<O: Out>(&self, out: &mut O) {
        let mut line = ArrayVec::<u8, ROOM>::new();
        self.pieces.offer(&mut line);
        out.put(&line);
    }
}
