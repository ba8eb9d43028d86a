//! The way of a session: where it began, and what it shows.

ghost use Rattle.std.specs.Prelude.{◌≡◌, ◌≤◌, ◌<◌, ◌+◌, ℕ, max, true, false, [], Option, IfOk, IfErr, IfSome};
ghost use Rattle.circular_buffer.specs.Buffer.{buffer};
ghost use Rattle.rt_image.specs.SystemFile.{TaskSet};
ghost use Rattle.rt_history.specs.Legal.{state_at};
ghost use Rattle.rt_walk.specs.Jobs.{Stand, first_jobs};
ghost use Rattle.rt_walk.specs.Position.{ring_limit, PositionState, IsReached, IsAt, stand_of};
ghost use Rattle.rt_walk.specs.Met.{met_at};
ghost use Rattle.rt_walk.specs.FirstMet.{SeeksOrPauses, Moves, is_paused};
ghost use Rattle.rt_walk.specs.LastMet.{back_at, has_pause, LooksBack};
ghost use Rattle.rt_walk.specs.Walking.{IsWalk, IsBack, Steps, Backs, Names, lowest};
ghost use Rattle.rt_walk.specs.Working.Piece.{LastBefore};
ghost use Rattle.rt_command.specs.declared.refusal.Refusal.TheVariants.{NoMemory};

use crate::back::{HaltBack, Last, Way, WayBack};
use crate::checkpoints::{Checkpoints, most_places};
use crate::halt::{Halt, Sought};
use crate::pace::Pace;
use crate::position::{ParkedPosition, Position};
use crate::trail::Trail;
use rt_command::Refusal;
use rt_core::Machine;
use rt_exec::Fetcher;
use rt_image::Task;
use rt_queue::MinQueue;
use rt_words::MAX_TICKS;
use std::alloc::{AllocError, Global};
use std::marker::Model;

/// The position at which a session began, the one that it shows, and some on the way, which no reply tells of.
#[derive(Drop)]
pub struct Walk<Q: MinQueue, F: Fetcher> {
    first: ParkedPosition<Q>,
    shown: Position<Q, F>,
    checkpoints: Checkpoints<Q>,
    /// Those that the last way back left behind.
    trail: Trail<Q>,
}

impl<Q: MinQueue, F: Fetcher> Model for Walk<Q, F> {
    ghost use Rattle.rt_walk.specs.Position.{WalkState, IsReached};
    ghost use Rattle.std.specs.Prelude.{◌≡◌, ◌<◌, true};
    ghost use Rattle.rt_walk.specs.Working.Kept.{tick_of, AreKept};
    ghost use Rattle.rt_walk.specs.Working.Reached.{AreReached};

    ghost Value = { WalkState };

    ghost view = { λ w. record { first = w.first; shown = w.shown } };

    ghost invariant = { λ w. IsReached w.first w.first × IsReached w.first w.shown × AreReached w.first w.checkpoints.places.items
        × (w.shown.machine.tick < w.checkpoints.due)
        × (w.checkpoints.is_whole ≡ true → AreKept tick_of w.first.machine.tick w.checkpoints.due w.checkpoints.distance w.checkpoints.most w.checkpoints.places.items)
        × AreReached w.first w.trail.places.items };
}

/// A piece of a way back: where it begins, and the last tick within it at which something is met, and what.
#[derive(Clone, Copy)]
struct Piece<A> {
    floor: u64,
    last: Option<(u64, A)>,
}

impl<Q: MinQueue, F: Fetcher> Walk<Q, F> {
    /// The way of a session that begins at this machine of these tasks. For want of memory the machine is handed back.
    #[tactic(auto, using(crate::proofs::GoingLemmas::begins))]
    pub fn begin(
        alloc: Global,
        machine: Machine<Q, F>,
        tasks: &[Task],
    ) -> Result<Walk<Q, F>, Machine<Q, F>>
        ensures first { IfOk result (λ walk. walk.first ≡ record { machine = machine; ring = buffer [] ring_limit; jobs = first_jobs machine }) }
        ensures shown { IfOk result (λ walk. walk.shown ≡ walk.first) }
        ensures handed { IfErr result (λ back. back ≡ machine) }
    {
        let shown = Position::begin(alloc, machine)?;
        let checkpoints = Checkpoints::new(alloc, tasks, shown.now());
        let trail = Trail::new(alloc, most_places(tasks));
        match shown.park() {
            Ok(first) => Ok(Walk {
                first,
                shown,
                checkpoints,
                trail,
            }),
            Err(_) => Err(shown.into_machine()),
        }
    }

    /// What is shown.
    pub fn shown(&self) -> &Position<Q, F>
        ensures shown { result.now ≡ self.now.shown }
        ensures reached { IsReached self.now.first self.now.shown }
    {
        &self.shown
    }

    /// Goes `n` ticks on.
    pub fn step(&mut self, n: u64)
        ensures { Steps self.old n self.new }
    {
        self.checkpoints.run(&mut self.shown, n);
    }

    /// Goes on to the first tick at which something is met, at most `n` ticks, unless it pauses before. Where the pace hadn't asked
    /// for a pause, it now has exactly where the walk paused. Takes no memory that it needs.
    pub fn seek<H: Halt, P: Pace>(&mut self, halt: H, pace: &mut P, n: u64) -> Sought<H::Found>
        ensures walk { IsWalk self.old self.new }
        ensures seeks { (begin : Stand) (set : TaskSet) → IsAt begin set (stand_of self.old.shown)
            → SeeksOrPauses (P.has_paused pace.new) (met_at (H.behind halt) (H.ahead halt) begin set) self.old.shown.machine.tick n result self.new.shown.machine.tick }
        ensures moves { Moves self.old.shown.machine.tick n result self.new.shown.machine.tick }
        ensures stands { (begin : Stand) (set : TaskSet) → IsAt begin set (stand_of self.old.shown) → IsAt begin set (stand_of self.new.shown) }
        ensures paused { P.has_paused pace.old ≡ false → P.has_paused pace.new ≡ is_paused result }
        ensures goes { P.goes pace.old pace.new }
    {
        self.checkpoints.seek(&mut self.shown, halt, pace, n)
    }

    /// The latest position that is kept on the way, at this tick or before.
    fn kept_before(&self, tick: u64) -> &ParkedPosition<Q>
        requires { self.now.first.machine.tick ≤ tick }
        ensures reached { IsReached self.now.first result.now }
        ensures early { result.now.machine.tick ≤ tick }
    {
        match self.checkpoints.before(tick) {
            Some(place) => place,
            None => &self.first,
        }
    }

    /// The later of both.
    fn before(&self, tick: u64) -> &ParkedPosition<Q>
        requires { self.now.first.machine.tick ≤ tick }
        ensures reached { IsReached self.now.first result.now }
        ensures early { result.now.machine.tick ≤ tick }
    {
        let kept = self.kept_before(tick);
        match self.trail.before(tick) {
            Some(left) if kept.now() < left.now() => left,
            _ => kept,
        }
    }

    /// Gives up the positions that are kept, but one at this tick.
    fn give_up_but(&mut self, tick: u64)
        ensures { self.new ≡ self.old }
    {
        self.checkpoints.give_up_but(tick);
        self.trail.give_up_but(tick);
    }

    /// The latest position before, from which to go on. Where there is no memory for it, the kept positions are given up: all others
    /// first, and then that one too.
    fn resume_before(&mut self, tick: u64) -> Result<Position<Q, F>, AllocError>
        requires { self.old.first.machine.tick ≤ tick }
        ensures walk { self.new ≡ self.old }
        ensures reached { IfOk result (IsReached self.old.first) }
        ensures early { IfOk result (λ position. position.machine.tick ≤ tick) }
    {
        if let Ok(position) = self.before(tick).resume() {
            return Ok(position);
        }
        let latest = self.before(tick).now();
        self.give_up_but(latest);
        if let Ok(position) = self.before(tick).resume() {
            return Ok(position);
        }
        let first = self.first.now();
        self.give_up_but(first);
        self.before(tick).resume()
    }

    /// Goes `n` ticks back: from the latest position before on, over the ticks between.
    pub fn back(&mut self, n: u64) -> Result<(), Refusal>
        ensures { Backs self.old n result self.new }
    {
        let now = self.shown.now();
        if now - self.first.now() < n {
            return Err(Refusal::BeforeStart);
        }
        let mut position = self.resume_before(now - n)?;
        self.trail.lead(&mut position, now - n);
        self.shown = position;
        Ok(())
    }

    /// Goes one tick back, where that is a tick of this task; else what is shown stays. Answers whether it is.
    ///
    /// # Errors
    ///
    /// `NoMemory`: there is none to go over the way once more. The walk is then as it was.
    pub fn back_if_named(&mut self, task: u32) -> Result<bool, Refusal>
        ensures back { IfOk result (λ went. went ≡ true → IsBack self.old 1 self.new × Names task self.new.shown.machine) }
        ensures stays { IfOk result (λ went. went ≡ false → self.new ≡ self.old) }
        ensures memory { IfErr result (λ refusal. (refusal ≡ NoMemory) × (self.new ≡ self.old)) }
    {
        let now = self.shown.now();
        let first = self.first.now();
        if now <= first {
            return Ok(false);
        }
        let mut position = self.resume_before(now - 1)?;
        self.trail.lead(&mut position, now - 1);
        if position.names(task) {
            self.shown = position;
            return Ok(true);
        }
        Ok(false)
    }

    /// Goes back to a tick: only to the first one where that comes after it, and nowhere where the shown one comes before.
    ///
    /// # Errors
    ///
    /// `NoMemory`: there is none to go over the way once more. The walk is then as it was.
    pub fn back_to(&mut self, tick: u64) -> Result<(), Refusal>
        ensures walk { IfOk result (λ _. IsWalk self.old self.new) }
        ensures tick { IfOk result (λ _. self.new.shown.machine.tick ≡ lowest tick self.old) }
        ensures memory { IfErr result (λ refusal. (refusal ≡ NoMemory) × (self.new ≡ self.old)) }
    {
        let now = self.shown.now();
        let lowest = tick.max(self.first.now()).min(now);
        self.back(now - lowest)
    }

    /// Looks through the piece of a way back that ends at tick `top`, from the latest position before it on, but not from below
    /// `bottom`. Answers where the piece begins, and what is met last within it.
    fn look_through<H: HaltBack, P: Pace>(
        &mut self,
        halt: H,
        pace: &mut P,
        pauses: &mut bool,
        way: Way,
        bottom: u64,
        top: u64,
    ) -> Result<Piece<H::Found>, AllocError>
        requires begun { self.old.first.machine.tick ≤ bottom }
        requires some { bottom < top }
        requires limit { top ≤ MAX_TICKS }
        ensures walk { self.new ≡ self.old }
        ensures bottom { IfOk result (λ piece. bottom ≤ piece.floor) }
        ensures below { IfOk result (λ piece. piece.floor < top) }
        ensures last { IfOk result (λ piece. (set : TaskSet) → self.old.first.machine ≡ state_at set self.old.first.machine.tick
            → LastBefore (back_at (H.here halt) (H.left halt) (H.behind halt) way.passes (stand_of self.old.first) set piece.floor way.now) (max way.low piece.floor) (top + 1) piece.last) }
        ensures goes { P.goes pace.old pace.new }
        ensures pauses { (pauses.old ≡ true → P.has_paused pace.old ≡ true) → pauses.new ≡ true → P.has_paused pace.new ≡ true }
    {
        let mut place = self.resume_before(top - 1)?;
        place.run(bottom.saturating_sub(place.now()));
        let floor = place.now();
        let last = place.last_met(halt, pace, pauses, way, top);
        Ok(Piece { floor, last })
    }

    /// Looks for the last tick before the shown one at which something is met on the way back, down to a lowest tick, unless it
    /// pauses before. What is shown stays.
    ///
    /// # Errors
    ///
    /// `NoMemory`: there is none to go over the way once more.
    pub fn last_met<H: HaltBack, P: Pace>(
        &mut self,
        halt: H,
        pace: &mut P,
        back: WayBack,
    ) -> Result<Last<H::Found>, Refusal>
        ensures walk { self.new ≡ self.old }
        ensures reached { IsReached self.new.first self.new.shown }
        ensures memory { IfErr result (λ refusal. refusal ≡ NoMemory) }
        ensures paused { IfOk result (λ last. has_pause last ≡ true → P.has_paused pace.new ≡ true) }
        ensures looks { IfOk result (λ last. (set : TaskSet) → self.old.first.machine ≡ state_at set self.old.first.machine.tick
            → LooksBack (P.has_paused pace.new) (back_at (H.here halt) (H.left halt) (H.behind halt) back.passes (stand_of self.old.first) set self.old.first.machine.tick self.old.shown.machine.tick)
            (lowest back.low self.old) self.old.shown.machine.tick last) }
        ensures goes { P.goes pace.old pace.new }
    {
        let now = self.shown.now();
        let first = self.first.now();
        let low = back.low.max(first).min(now);
        let bottom = low.saturating_sub(1).max(first);
        let way = Way {
            low,
            passes: back.passes,
            now,
        };
        let mut pauses = false;
        let mut top = now;
        while top > bottom {
            let piece = self.look_through(halt, pace, &mut pauses, way, bottom, top)?;
            if let Some((tick, found)) = piece.last {
                return Ok(Last::Met(tick, found));
            }
            top = piece.floor;
            if pauses && way.has_pause(bottom, top) {
                return Ok(Last::Paused(top + 1));
            }
        }
        Ok(Last::Unmet)
    }
}
