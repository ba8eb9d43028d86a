//! The pace of a run: it says a beat every so many entries.

ghost use Rattle.std.specs.Prelude.{◌≡◌, ◌==◌, ◌<◌, not, Ok};
ghost use Rattle.rt_dialogue.specs.remote.Working.Waits.{Waits};
ghost use Rattle.rt_dialogue.specs.remote.Working.Runs.{is_going};
ghost use Rattle.rt_dialogue.specs.declared.remote.beats.Beaten.TheVariants.{GoesOn};

use crate::DebugFault;
use crate::remote::beats::{Beaten, beat};
use rt_sink::{Buffered, Sink};
use rt_walk::Pace;
use std::io::BufRead;

/// From one beat to the next (in entries of the history).
const ENTRIES: u32 = 4_194_304;

/// The input and the sink while a run goes on. It pauses where a beat is answered by anything but going on, or fails.
#[derive(Drop)]
pub(crate) struct Wire<'a, I: BufRead, S: Sink> {
    input: &'a mut I,
    out: &'a mut Buffered<S>,
    /// The entries to the next beat, 0 where it is to pause.
    left: u32,
    /// How the last beat was answered.
    pub(crate) beaten: Result<Beaten, DebugFault>,
}

/// The entries to the next beat, behind one that was answered so.
fn left_behind(beaten: &Result<Beaten, DebugFault>) -> u32
    ensures { (result == 0) ≡ not (is_going beaten.now) }
{
    match beaten {
        Ok(Beaten::GoesOn) => ENTRIES,
        _ => 0,
    }
}

impl<'a, I: BufRead, S: Sink> Wire<'a, I, S> {
    /// A wire at the begin of a run.
    pub(crate) fn new(input: &'a mut I, out: &'a mut Buffered<S>) -> Wire<'a, I, S>
        ensures input { result.input.ghost_name ≡ input.entry.ghost_name }
        ensures out { result.out.ghost_name ≡ out.entry.ghost_name }
        ensures same_input { result.input.now ≡ input.old }
        ensures same_out { result.out.now ≡ out.old }
        ensures left { result.left ≡ ENTRIES }
        ensures beaten { result.beaten ≡ Ok GoesOn }
    {
        Wire {
            input,
            out,
            left: ENTRIES,
            beaten: Ok(Beaten::GoesOn),
        }
    }

    /// Says a beat, and answers whether the run is to pause.
    #[inline(never)]
    fn beat(&mut self) -> bool
        requires { 0 < self.old.left }
        ensures asks { result ≡ (self.new.left == 0) }
        ensures input { self.new.input.ghost_name ≡ self.old.input.ghost_name }
        ensures out { self.new.out.ghost_name ≡ self.old.out.ghost_name }
        ensures waits { Waits S.seen
            (record { input = I.remaining self.old.input.now; out = self.old.out.now; left = self.old.left; beaten = self.old.beaten })
            (record { input = I.remaining self.new.input.now; out = self.new.out.now; left = self.new.left; beaten = self.new.beaten }) }
    {
        self.beaten = beat(self.input, self.out);
        self.left = left_behind(&self.beaten);
        self.left == 0
    }
}

impl<'a, I: BufRead, S: Sink> Pace for Wire<'a, I, S> {
    ghost use Rattle.std.specs.Prelude.{◌≡◌, ◌==◌, ◌-◌, refl};
    ghost use Rattle.std.proofs.Common.{◌∙◌};
    ghost use Rattle.rt_dialogue.specs.remote.Working.Waits.{Leads};

    ghost has_paused = { λ w. w.left == 0 };

    ghost spare = { λ w. w.left - 1 };

    ghost goes = { λ p q. (q.input.ghost_name ≡ p.input.ghost_name) × (q.out.ghost_name ≡ p.out.ghost_name) × Leads S.seen
        (record { input = I.remaining p.input.now; out = p.out.now; left = p.left; beaten = p.beaten })
        (record { input = I.remaining q.input.now; out = q.out.now; left = q.left; beaten = q.beaten }) };

    ghost stays = { λ p. (refl, refl, λ first led. led) };

    ghost joins = { λ p q r one two. (two.0 ∙ one.0, two.1 ∙ one.1, λ first led. two.2 first (one.2 first led)) };

    #[inline(always)]
    fn pauses(&mut self) -> bool {
        match self.left {
            0 => true,
            1 => self.beat(),
            _ => {
                self.left -= 1;
                false
            }
        }
    }

    #[inline(always)]
    fn spare(&self) -> u32 {
        self.left.saturating_sub(1)
    }

    #[inline(always)]
    fn skip(&mut self, n: u32) {
        self.left -= n;
    }
}
