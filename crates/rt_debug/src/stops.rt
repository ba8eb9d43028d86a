//! Stops: where a session that goes on is to stand still.

ghost use Rattle.std.specs.Prelude.{◌≡◌, ℕ, ◌+◌, ◌-◌, ◌<◌, ◌≤◌, ◌↔◌, ◌++◌, ◌∷◌, [], List, Bool, Option, Some, None, Result, Ok, Err, IfOk, IfErr, OnOk, OnErr, length, slice_set, true, false, IfSome};
ghost use Rattle.rt_core.specs.declared.view.Next.TheVariants.{Run};
ghost use Rattle.rt_debug.specs.StopSlots.{stop_limit, meets_of, is_hit, hit_from, HandsBack, deletes, slots_after};
ghost use Rattle.rt_debug.specs.FirstStop.{met_by};
ghost use Rattle.rt_debug.specs.PlaceStop.{is_at};
ghost use Rattle.rt_points.specs.Marks.{is_marked};
ghost use Rattle.rt_debug.specs.Working.Marks.{has_mark, HaveMarks};
ghost use Rattle.rt_debug.specs.Working.Watch.{sees, Covers};

use crate::watch::Watch;
use rt_command::Refusal;
use rt_core::Next;
use rt_points::{Marks, Place as PlaceStop};
use std::alloc::{AllocError, Global};

/// Whether a session stops at a task and a pc.
pub trait Stop: Drop {
    // What it stops at.
    ghost meets: { Self → ℕ → ℕ → Bool };

    /// Whether it stops where this task is to attempt the instruction at this pc.
    fn hits(&self, task: u32, pc: u32) -> bool
        ensures { result ≡ meets self.now task pc };

    /// The one place at which it may stop. A stop that tells it, and is alone, is asked at no other.
    fn place(&self) -> Option<PlaceStop>
        ensures { IfSome result (λ place. (task pc : ℕ) → is_at place task pc ≡ false → meets self.now task pc ≡ false) }
    {
        None
    }
}

impl Stop for PlaceStop {
    ghost use Rattle.rt_debug.specs.PlaceStop.{is_at};

    ghost meets = { is_at };

    fn hits(&self, task: u32, pc: u32) -> bool {
        self.task == task && self.pc == pc
    }

    fn place(&self) -> Option<PlaceStop> {
        Some(*self)
    }
}

/// A stop of a session: one for a place, which needs no box, or one of the caller's own.
#[derive(Drop)]
pub(crate) enum AnyStop<B> {
    /// A stop for one task at one pc.
    Place(PlaceStop),
    /// A stop of the caller's own.
    Boxed(B),
}

/// The most stops of a session, over its life.
const MAX_STOPS: usize = 65_535;

/// The stops of a session by number: each stands at its number less 1, and a deleted one leaves its place empty. So a number is
/// never used again. The places of those that are there are marked; others may be, until the marks are made anew.
#[derive(Drop)]
pub struct Stops {
    pub(crate) slots: Vec<Option<AnyStop<Box<dyn Stop>>>>,
    pub(crate) marks: Marks,
    /// Whether a stop was deleted whose place may be marked still.
    is_stale: bool,
    ghost limit: { length slots.items ≤ stop_limit },
    ghost marked: { HaveMarks marks.words.items slots.items },
}

impl Stops {
    /// No stops.
    pub fn new(alloc: Global) -> Stops
        ensures { result.slots.items ≡ [] }
    {
        Stops {
            slots: Vec::new(alloc),
            marks: Marks::new(alloc),
            is_stale: false,
        }
    }

    /// Marks the place of a stop that is to be added, and makes room for it.
    fn prepare(&mut self, stop: &AnyStop<Box<dyn Stop>>) -> Result<(), AllocError>
        ensures slots { self.new.slots.items ≡ self.old.slots.items }
        ensures marked { OnOk result (has_mark self.new.marks.words.items (Some stop.now) ≡ true) }
    {
        self.slots.reserve(1)?;
        match stop {
            AnyStop::Place(place) => self.marks.add(*place),
            AnyStop::Boxed(_) => Ok(()),
        }
    }

    /// Adds a stop, and answers its number: 1, 2, .. in the order of adding.
    ///
    /// # Errors
    ///
    /// `TooManyStops` exactly where 65,535 were added before, else want of memory; the stop is handed back.
    pub(crate) fn add(
        &mut self,
        stop: AnyStop<Box<dyn Stop>>,
    ) -> Result<u32, (AnyStop<Box<dyn Stop>>, Refusal)>
        ensures { HandsBack stop stop self.old.slots.items result self.new.slots.items }
    {
        if self.slots.len() >= MAX_STOPS {
            return Err((stop, Refusal::TooManyStops));
        }
        if self.prepare(&stop).is_err() {
            return Err((stop, Refusal::NoMemory));
        }
        match self.slots.push(Some(stop)) {
            Ok(()) => Ok(self.slots.len() as u32),
            Err(failed) => match failed.value {
                Some(stop) => Err((stop, Refusal::NoMemory)),
                None => unreachable!(),
            },
        }
    }

    /// Deletes the stop of this number.
    ///
    /// # Errors
    ///
    /// `NoSuchStop` exactly where no stop has this number, or it was deleted before.
    pub fn delete(&mut self, number: u32) -> Result<(), Refusal>
        ensures answer { result ≡ deletes self.old.slots.items number }
        ensures slots { self.new.slots.items ≡ slots_after self.old.slots.items number }
    {
        if number == 0 {
            return Err(Refusal::NoSuchStop);
        }
        match self.slots.get_mut(number as usize - 1) {
            Some(slot) if slot.is_some() => {
                slot.take();
                self.is_stale = true;
                Ok(())
            }
            _ => Err(Refusal::NoSuchStop),
        }
    }

    /// Marks the places of the stops that are there, and no other, where one was deleted. Without memory the marks stay as they are.
    pub(crate) fn mark_anew(&mut self, alloc: Global)
        ensures { self.new.slots.items ≡ self.old.slots.items }
    {
        if !self.is_stale {
            return;
        }
        let mut marks = Marks::new(alloc);
        for slot in &self.slots {
            if mark(&mut marks, slot).is_err() {
                return;
            }
        }
        self.marks = marks;
        self.is_stale = false;
    }

    /// The least number of a stop that is met by this task at this pc.
    #[inline(always)]
    pub fn first_hit(&self, task: u32, pc: u32) -> Option<u32>
        ensures { result ≡ hit_from (λ s. meets_of (λ b. (⟦<dyn Stop as Stop>⟧ b.vtable).meets b.value) s task pc) 1 self.now.slots.items }
    {
        if self.is_met(task, pc) {
            self.number_hit(task, pc)
        } else {
            None
        }
    }

    /// Whether a stop is met by this task at this pc, in a loop that counts nothing.
    #[inline(always)]
    fn is_met(&self, task: u32, pc: u32) -> bool
        ensures { result ≡ false → hit_from (λ s. meets_of (λ b. (⟦<dyn Stop as Stop>⟧ b.vtable).meets b.value) s task pc) 1 self.now.slots.items ≡ None }
    {
        for slot in &self.slots {
            if hits(slot, task, pc) {
                return true;
            }
        }
        false
    }

    /// The least number of a stop that is met by this task at this pc, which is looked up once one is known to be.
    #[cold]
    #[inline(never)]
    fn number_hit(&self, task: u32, pc: u32) -> Option<u32>
        ensures { result ≡ hit_from (λ s. meets_of (λ b. (⟦<dyn Stop as Stop>⟧ b.vtable).meets b.value) s task pc) 1 self.now.slots.items }
    {
        for (place, slot) in self.slots.iter().enumerate() {
            if hits(slot, task, pc) {
                return Some(place as u32 + 1);
            }
        }
        None
    }

    /// Where one of them may be met.
    pub(crate) fn watch(&self) -> Watch
        ensures { Covers (meets_of (λ b. (⟦<dyn Stop as Stop>⟧ b.vtable).meets b.value)) self.now.slots.items self.now.marks.words.items result }
    {
        let mut watch = Watch::Nowhere;
        for slot in &self.slots {
            watch = widened(watch, slot, &self.marks);
        }
        watch
    }

    /// The least number of a stop that the coming tick meets.
    #[inline(always)]
    pub(crate) fn met_by(&self, next: Next) -> Option<u32>
        ensures { result ≡ met_by (meets_of (λ b. (⟦<dyn Stop as Stop>⟧ b.vtable).meets b.value)) self.now.slots.items next }
    {
        match next {
            Next::Run { task, pc } => self.first_hit(task, pc),
            Next::Idle => None,
        }
    }
}

/// Whether there is a stop, and it is met.
#[inline(always)]
fn hits(slot: &Option<AnyStop<Box<dyn Stop>>>, task: u32, pc: u32) -> bool
    ensures { result ≡ is_hit (λ s. meets_of (λ b. (⟦<dyn Stop as Stop>⟧ b.vtable).meets b.value) s task pc) slot.now }
{
    match slot {
        Some(AnyStop::Place(place)) => place.hits(task, pc),
        Some(AnyStop::Boxed(stop)) => stop.hits(task, pc),
        None => false,
    }
}

/// Marks the place of a stop, if it is for one.
fn mark(marks: &mut Marks, slot: &Option<AnyStop<Box<dyn Stop>>>) -> Result<(), AllocError>
    ensures kept { (task pc : ℕ) → is_marked marks.old.words.items task pc ≡ true → is_marked marks.new.words.items task pc ≡ true }
    ensures marked { OnOk result (has_mark marks.new.words.items slot.now ≡ true) }
{
    match slot {
        Some(AnyStop::Place(place)) => marks.add(*place),
        _ => Ok(()),
    }
}

/// A watch that sees this stop too, if there is one.
fn widened(watch: Watch, slot: &Option<AnyStop<Box<dyn Stop>>>, marks: &Marks) -> Watch
    requires { has_mark marks.now.words.items slot.now ≡ true }
    ensures before { (task pc : ℕ) → sees marks.now.words.items result (Run task pc) ≡ false → sees marks.now.words.items watch (Run task pc) ≡ false }
    ensures added { (task pc : ℕ) → sees marks.now.words.items result (Run task pc) ≡ false → is_hit (λ s. meets_of (λ b. (⟦<dyn Stop as Stop>⟧ b.vtable).meets b.value) s task pc) slot.now ≡ false }
{
    match slot {
        Some(AnyStop::Place(place)) => watch.with_place(*place, marks),
        Some(AnyStop::Boxed(stop)) => watch.with(stop.place()),
        None => watch,
    }
}
