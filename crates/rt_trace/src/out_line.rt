//! The line of a task's output.

ghost use Rattle.std.specs.Prelude.{◌≡◌, ◌+◌, ◌*◌, ◌≤◌, ◌++◌, length};
ghost use Rattle.rt_trace.specs.OutLine.{gap, bytes_text, out_text};

use rt_text_out::{Decimal, Out, Text, word};
use rt_words::hex_byte;

/// Bytes, so many at most, as two digits for each.
#[derive(Clone, Copy)]
pub struct Digits<'a, const MOST: usize> {
    pub bytes: &'a [u8],
    ghost few: { length bytes.now ≤ MOST },
}

impl<'a, const MOST: usize> Text for Digits<'a, MOST> {
    ghost text = { λ x. bytes_text x.bytes.now };

    ghost most = { 2 * MOST };

    fn offer<O: Out>(&self, out: &mut O) {
        for byte in self.bytes {
            out.put(&hex_byte(*byte));
        }
    }
}

/// A space before what follows, where there is something.
#[tactic(auto, using(crate::proofs::LineTexts::gap_none, crate::proofs::LineTexts::gap_some))]
fn gap(count: usize) -> &'static [u8]
    ensures text { result.now ≡ gap count }
    ensures short { length result.now ≤ 1 }
{
    if count > 0 { b" " } else { b"" }
}

/// The out line of a task's output: the number of its bytes, and two digits for each.
#[derive(Clone, Copy)]
pub struct OutLine<'a, const MOST: usize>(pub Digits<'a, MOST>);

impl<'a, const MOST: usize> Text for OutLine<'a, MOST> {
    ghost text = { λ x. out_text x.0.bytes.now };

    ghost most = { 2 * MOST + 68 };

    fn offer<O: Out>(&self, out: &mut O) {
        let bytes = self.0.bytes;
        let count = Decimal(bytes.len() as u64);
        let gap = word(gap(bytes.len()));
        (word(b"out "), count, gap, self.0, word(b"\n")).offer(out);
    }
}
