//! A list, whose items are shown one behind the other.

ghost use Rattle.std.specs.Prelude.{◌≡◌, ℕ, ◌*◌, ◌^◌, ◌≤◌, List, length, All};
ghost use Rattle.rt_text_out.specs.Lines.{lines};

use crate::out::{Out, Text};

/// How the items of a list are shown.
pub trait Line<T> {
    ghost use Rattle.std.specs.Prelude.{◌≡◌, ℕ, ◌≤◌, List, length};

    // Which items may be shown, a fact; the text of the one of this number, and the most bytes that such a text has.
    ghost may: { Self → T → Type 0 };

    ghost fact: { (by : Self) (item : T) (p q : may by item) → p ≡ q };

    ghost line: { Self → ℕ → T → List ℕ };

    ghost most: { ℕ };

    /// Offers the text of the item of this number.
    fn offer_line<O: Out>(&self, number: u32, item: &T, out: &mut O)
        requires { may self.now item.now }
        ensures offers { O.offers out.old (line self.now number item.now) out.new }
        ensures short { length (line self.now number item.now) ≤ most };
}

/// The texts of the items of a list, numbered from 0 on.
#[derive(Drop)]
pub struct Each<'a, T, L: Line<T>> {
    pub items: &'a [T],
    pub by: L,
    ghost few: { length items.now ≤ 2 ^ 32 },
    ghost may: { All (L.may by) items.now } by { Prim.hlevel L.fact },
}

impl<'a, T, L: Line<T>> Text for Each<'a, T, L> {
    ghost use Rattle.rt_text_out.specs.Lines.{lines};

    ghost text = { λ x. lines (L.line x.by) 0 x.items.now };

    ghost most = { L.most * 4294967296 };

    fn offer<O: Out>(&self, out: &mut O) {
        for (number, shown) in self.items.iter().enumerate() {
            self.by.offer_line(number as u32, shown, out);
        }
    }
}
