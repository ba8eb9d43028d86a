//! The line of a task's registers.

ghost use Rattle.std.specs.Prelude.{◌≡◌, ◌+◌, ◌≤◌, ◌++◌, length};
ghost use Rattle.rt_trace.specs.RegsLine.{register_text, regs_text};

use rt_text_out::{Decimal, Hex, InOne, Out, Text, word};

/// The register of this number, which has this value: nothing where it is 0.
#[derive(Clone, Copy)]
struct Register(u32, u32);

impl Text for Register {
    ghost text = { λ x. register_text x.0 x.1 };

    ghost most = { 60 };

    fn offer<O: Out>(&self, out: &mut O) {
        if self.1 != 0 {
            let number = Decimal(u64::from(self.0));
            let register = (word(b" x"), number, word(b"="), Hex(self.1));
            InOne { pieces: register }.offer(out);
        } else {
            word(b"").offer(out);
        }
    }
}

/// Offers the regs line of the registers x0 to x31, which leaves out x0 and those that are 0.
fn offer_regs<O: Out>(x: &[u32; 32], out: &mut O)
    ensures offers { O.offers out.old (regs_text x.now) out.new }
    ensures short { length (regs_text x.now) ≤ 2048 }
{
    out.put(b"regs");
    for number in 1..32 {
        Register(number as u32, x[number]).offer(out);
    }
    out.put(b"\n");
}

/// That line.
#[derive(Clone, Copy)]
pub struct RegsLine<'a>(pub &'a [u32; 32]);

impl<'a> Text for RegsLine<'a> {
    ghost text = { λ x. regs_text x.0.now };

    ghost most = { 2048 };

    fn offer<O: Out>(&self, out: &mut O) {
        offer_regs(self.0, out);
    }
}
