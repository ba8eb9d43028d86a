//! One text behind the other.

ghost use Rattle.std.specs.Prelude.{◌≡◌, ℕ, ◌+◌, ◌≤◌, ◌++◌, List, length};

use crate::out::{Out, Text};

impl<A: Text, B: Text> Text for (A, B) {
    ghost text = { λ x. A.text x.0 ++ B.text x.1 };

    ghost most = { A.most + B.most };

    #[inline(always)]
    fn offer<O: Out>(&self, out: &mut O) {
        self.0.offer(out);
        self.1.offer(out);
    }
}

impl<A: Text, B: Text, C: Text> Text for (A, B, C) {
    ghost text = { λ x. A.text x.0 ++ B.text x.1 ++ C.text x.2 };

    ghost most = { A.most + B.most + C.most };

    #[inline(always)]
    fn offer<O: Out>(&self, out: &mut O) {
        self.0.offer(out);
        self.1.offer(out);
        self.2.offer(out);
    }
}

impl<A: Text, B: Text, C: Text, D: Text> Text for (A, B, C, D) {
    ghost text = { λ x. A.text x.0 ++ B.text x.1 ++ C.text x.2 ++ D.text x.3 };

    ghost most = { A.most + B.most + C.most + D.most };

    #[inline(always)]
    fn offer<O: Out>(&self, out: &mut O) {
        self.0.offer(out);
        self.1.offer(out);
        self.2.offer(out);
        self.3.offer(out);
    }
}

impl<A: Text, B: Text, C: Text, D: Text, E: Text> Text for (A, B, C, D, E) {
    ghost text = { λ x. A.text x.0 ++ B.text x.1 ++ C.text x.2 ++ D.text x.3 ++ E.text x.4 };

    ghost most = { A.most + B.most + C.most + D.most + E.most };

    #[inline(always)]
    fn offer<O: Out>(&self, out: &mut O) {
        self.0.offer(out);
        self.1.offer(out);
        self.2.offer(out);
        self.3.offer(out);
        self.4.offer(out);
    }
}

impl<A: Text, B: Text, C: Text, D: Text, E: Text, F: Text> Text for (A, B, C, D, E, F) {
    ghost text = { λ x. A.text x.0 ++ B.text x.1 ++ C.text x.2 ++ D.text x.3 ++ E.text x.4 ++ F.text x.5 };

    ghost most = { A.most + B.most + C.most + D.most + E.most + F.most };

    #[inline(always)]
    fn offer<O: Out>(&self, out: &mut O) {
        self.0.offer(out);
        self.1.offer(out);
        self.2.offer(out);
        self.3.offer(out);
        self.4.offer(out);
        self.5.offer(out);
    }
}
