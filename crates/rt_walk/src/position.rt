//! A machine with the ring of its last entries and its tasks' open jobs.

ghost use Rattle.std.specs.Prelude.{◌≡◌, ℕ, ◌+◌, ◌-◌, ◌%◌, ◌==◌, ◌≤◌, ◌<◌, ◌↔◌, min, max, true, false, Bool, [], Option, None, IfSome, IfNone, IfOk, IfErr, slice_get};
ghost use Rattle.rt_words.specs.Limits.{tick_limit};
ghost use Rattle.circular_buffer.specs.Buffer.{buffer};
ghost use Rattle.rt_image.specs.SystemFile.{TaskSet};
ghost use Rattle.rt_history.specs.declared.record.Record.TheVariants as records;
ghost use Rattle.rt_history.specs.MachineState.{MachineState};
ghost use Rattle.rt_history.specs.Legal.{state_at};
ghost use Rattle.rt_history.specs.Entries.{start_of, ticks_of};
ghost use Rattle.rt_history.specs.declared.record.Entry.TheVariants.{Busy};
ghost use Rattle.rt_history.specs.declared.record.AttemptOutcome.TheVariants as outcomes;
ghost use Rattle.rt_core.specs.Advance.{Goes, Follows};
ghost use Rattle.rt_core.specs.Next.{next_of};
ghost use Rattle.rt_walk.specs.Jobs.{Stand, first_jobs};
ghost use Rattle.rt_walk.specs.Position.{PositionState, IsReached, IsAt, stand_of};
ghost use Rattle.rt_walk.specs.Met.{ahead_of, behind_of, met_at};
ghost use Rattle.rt_walk.specs.FirstMet.{SeeksOrPauses, Moves, is_paused};
ghost use Rattle.rt_walk.specs.LastMet.{back_at};
ghost use Rattle.rt_walk.specs.Walking.{Names};
ghost use Rattle.rt_walk.specs.Working.Led.{GoesOn, Searches, Comes, MovesBy, end_of, sought_by, Passes, gone_by, idle_by, Keeps, Looks};
ghost use Rattle.rt_walk.specs.Working.Opened.{opened_in};
ghost use Rattle.rt_walk.specs.Working.Piece.{LastBefore};

use crate::back::{HaltBack, Way};
use crate::halt::{Halt, Sought};
use crate::jobs::{Jobs, OpenJob};
use crate::pace::{Pace, asked};
use rt_core::{Machine, Next, Parked};
use rt_exec::Fetcher;
use rt_history::ring::Ring;
use rt_history::{Attempt, AttemptOutcome, Entry};
use rt_queue::MinQueue;
use rt_words::MAX_TICKS;
use std::alloc::{AllocError, Global};
use std::marker::Model;

/// The entries that a session keeps.
const RING_LEN: usize = 256;

/// How a search goes on by one entry. What is met in the entry is answered beside it, so that a tick in which nothing is touches none of it.
#[derive(Clone, Copy)]
enum Gone {
    /// By a busy tick in which something is met.
    ByMeeting,
    /// By none: no tick is left.
    AtEnd,
    /// By a busy tick in which nothing is met.
    ByTick,
    /// By so many idle ticks.
    ByIdle(u64),
}

/// How a search ends that went on so, if it does.
#[inline(always)]
fn sought_by<A: Copy>(gone: Gone, found: Option<A>) -> Option<Sought<A>>
    ensures { result ≡ sought_by gone found }
{
    match gone {
        Gone::ByMeeting => match found {
            Some(found) => Some(Sought::Met(found)),
            None => None,
        },
        Gone::AtEnd => Some(Sought::Unmet),
        Gone::ByTick | Gone::ByIdle(_) => None,
    }
}

/// Looks behind a busy tick: how a search goes on by it, with what is met beside.
#[inline(always)]
fn look_at<Q: MinQueue, F: Fetcher, H: Halt>(
    halt: &H,
    before: H::Before,
    attempt: &Attempt,
    place: &Position<Q, F>,
    found: &mut Option<H::Found>,
) -> Gone
    requires { found.old ≡ None }
    ensures found { (m : MachineState) → before ≡ H.notes halt.now m → H.behind halt.now m (records.Busy attempt.now) (stand_of place.now) ≡ found.new }
    ensures gone { result ≡ gone_by found.new }
{
    if halt.may_stop(attempt) {
        *found = halt.look_behind(before, attempt, place);
        if found.is_some() {
            return Gone::ByMeeting;
        }
    }
    Gone::ByTick
}

/// Looks behind `n` idle ticks.
fn look_behind_idle<Q: MinQueue, F: Fetcher, H: Halt>(
    halt: &H,
    n: u64,
    place: &Position<Q, F>,
    found: &mut Option<H::Found>,
) -> Gone
    requires { found.old ≡ None }
    ensures found { (m : MachineState) → behind_of (H.behind halt.now) m records.Idle (stand_of place.now) ≡ found.new }
    ensures gone { result ≡ idle_by n found.new }
{
    if let Next::Run { .. } = place.next() {
        *found = halt.look_risen(place);
        if found.is_some() {
            return Gone::ByMeeting;
        }
    }
    Gone::ByIdle(n)
}

/// A machine, the last entries of what it did since the session began, and its tasks' open jobs.
#[derive(Drop)]
pub struct Position<Q: MinQueue, F: Fetcher> {
    machine: Machine<Q, F>,
    ring: Ring,
    jobs: Jobs,
}

impl<Q: MinQueue, F: Fetcher> Model for Position<Q, F> {
    ghost use Rattle.rt_walk.specs.Position.{PositionState};

    ghost Value = { PositionState };

    ghost view = { λ p. record { machine = p.machine; ring = p.ring; jobs = p.jobs } };
}

/// A position that is kept: without what only ticks need.
///
/// Contracts see the position that it was made of.
#[derive(Drop)]
pub(crate) struct ParkedPosition<Q: MinQueue> {
    machine: Parked<Q>,
    ring: Ring,
    jobs: Jobs,
}

impl<Q: MinQueue> Model for ParkedPosition<Q> {
    ghost use Rattle.rt_walk.specs.Position.{PositionState};

    ghost Value = { PositionState };

    ghost view = { λ p. record { machine = p.machine; ring = p.ring; jobs = p.jobs } };
}

impl<Q: MinQueue> ParkedPosition<Q> {
    /// The tick that comes next.
    pub(crate) fn now(&self) -> u64
        ensures { result ≡ self.now.machine.tick }
    {
        self.machine.now()
    }

    /// Whether that tick is a multiple of this number.
    pub(crate) fn is_at_multiple(&self, distance: u64) -> bool
        ensures { result ≡ (self.now.machine.tick % distance == 0) }
    {
        self.now().is_multiple_of(distance)
    }

    /// Whether it is this tick.
    pub(crate) fn is_at(&self, tick: u64) -> bool
        ensures { result ≡ (self.now.machine.tick == tick) }
    {
        self.now() == tick
    }

    /// The position from which to go on.
    pub(crate) fn resume<F: Fetcher>(&self) -> Result<Position<Q, F>, AllocError>
        ensures { IfOk result (λ position. position ≡ self.now) }
    {
        Ok(Position {
            machine: self.machine.resume()?,
            ring: self.ring.copy()?,
            jobs: self.jobs.copy()?,
        })
    }
}

impl<Q: MinQueue, F: Fetcher> Position<Q, F> {
    /// Where a session of this machine begins. For want of memory the machine is handed back.
    pub(crate) fn begin(
        alloc: Global,
        machine: Machine<Q, F>,
    ) -> Result<Position<Q, F>, Machine<Q, F>>
        ensures made { IfOk result (λ position. position ≡ record { machine = machine; ring = buffer [] RING_LEN; jobs = first_jobs machine }) }
        ensures handed { IfErr result (λ back. back ≡ machine) }
    {
        let Ok(ring) = Ring::new(alloc, RING_LEN) else {
            return Err(machine);
        };
        match Jobs::begin(alloc, &machine) {
            Ok(jobs) => Ok(Position {
                machine,
                ring,
                jobs,
            }),
            Err(_) => Err(machine),
        }
    }

    /// The machine.
    pub fn machine(&self) -> &Machine<Q, F>
        ensures { result.now ≡ self.now.machine }
    {
        &self.machine
    }

    /// The ring.
    pub fn ring(&self) -> &Ring
        ensures { result.now ≡ self.now.ring }
    {
        &self.ring
    }

    /// The open job of a task.
    pub(crate) fn job(&self, task: u32) -> Option<OpenJob>
        ensures { result ≡ slice_get self.now.jobs task }
    {
        self.jobs.of(task)
    }

    /// The machine, alone.
    pub(crate) fn into_machine(self) -> Machine<Q, F>
        ensures { result ≡ self.machine }
    {
        self.machine
    }

    /// The tick that comes next, 0 to 2^40.
    pub fn now(&self) -> u64
        ensures value { result ≡ self.now.machine.tick }
        ensures limit { result ≤ MAX_TICKS }
    {
        self.machine.now()
    }

    /// What the coming tick is to be.
    #[inline(always)]
    pub fn next(&self) -> Next
        ensures { result ≡ next_of self.now.machine }
    {
        self.machine.next()
    }

    /// Whether the coming tick is of this task.
    pub(crate) fn names(&self, task: u32) -> bool
        ensures { result ≡ true → Names task self.now.machine }
    {
        match self.next() {
            Next::Run { task: named, .. } => named == task,
            Next::Idle => false,
        }
    }

    /// The same position for keeping.
    pub(crate) fn park(&self) -> Result<ParkedPosition<Q>, AllocError>
        ensures { IfOk result (λ parked. parked ≡ self.now) }
    {
        Ok(ParkedPosition {
            machine: self.machine.park()?,
            ring: self.ring.copy()?,
            jobs: self.jobs.copy()?,
        })
    }

    /// Goes on by one entry of at most `limit` ticks.
    #[inline(always)]
    fn advance(&mut self, limit: u64) -> Option<Entry>
        ensures bound { self.old.machine.tick ≤ MAX_TICKS }
        ensures last { (result ≡ None) ↔ (min limit (MAX_TICKS - self.old.machine.tick) ≡ 0) }
        ensures unchanged { IfNone result (self.new ≡ self.old) }
        ensures goes { IfSome result (λ entry. Goes (min limit (MAX_TICKS - self.old.machine.tick)) self.old.machine entry self.new.machine) }
        ensures legal { IfSome result (λ entry. (set : TaskSet) (t : ℕ) → self.old.machine ≡ state_at set t → Follows set t entry self.new.machine) }
        ensures jobs { IfSome result (λ entry. self.new.jobs ≡ opened_in self.old.jobs entry) }
        ensures reached { (first : PositionState) → IsReached first self.old → IsReached first self.new }
    {
        let entry = self.machine.advance(limit)?;
        self.ring.push(entry);
        self.jobs.pass(entry);
        Some(entry)
    }

    /// Runs `n` ticks, fewer only where tick 2^40 comes before.
    pub(crate) fn run(&mut self, n: u64)
        ensures clock { self.new.machine.tick ≡ self.old.machine.tick + min n (MAX_TICKS - self.old.machine.tick) }
        ensures reached { (first : PositionState) → IsReached first self.old → IsReached first self.new }
    {
        let mut left = n;
        while let Some(entry) = self.advance(left) {
            left -= entry.ticks();
        }
    }

    /// What is met of the coming attempt.
    #[inline(always)]
    fn met_ahead<H: Halt>(&self, halt: &H) -> Option<H::Found>
        ensures { result ≡ ahead_of (H.ahead halt.now) self.now.machine }
    {
        match self.next() {
            Next::Run { task, pc } if halt.may_meet(task, pc, &self.machine) => {
                halt.look_ahead(task, pc, &self.machine)
            }
            _ => None,
        }
    }

    /// Goes on by one entry, at most to tick `end`, and answers what is met in it.
    #[inline(always)]
    fn go_on<H: Halt>(&mut self, halt: &H, end: u64, found: &mut Option<H::Found>) -> Gone
        requires { found.old ≡ None }
        ensures goes { GoesOn (H.behind halt.now) (min (end - self.old.machine.tick) (MAX_TICKS - self.old.machine.tick)) self.old self.new (sought_by result found.new) }
        ensures passes { Passes self.old.machine.tick self.new.machine.tick result found.new }
        ensures reached { (first : PositionState) → IsReached first self.old → IsReached first self.new }
    {
        let before = halt.note(&self.machine);
        let most = end.saturating_sub(self.now());
        let Some(entry) = self.machine.advance(most) else {
            return Gone::AtEnd;
        };
        match entry {
            Entry::Busy { t, rec } => match rec.outcome {
                AttemptOutcome::Next => {
                    self.keep_next(halt, before, t, rec.task, rec.pc, rec.word, found)
                }
                _ => self.keep_other(halt, before, &entry, found),
            },
            Entry::Idle { .. } => self.keep_other(halt, before, &entry, found),
        }
    }

    /// Keeps an instruction that was carried out and is no call, and looks at it: by its parts, so that its outcome isn't asked for twice,
    /// and none of them is put in memory but in the ring.
    #[inline(always)]
    fn keep_next<H: Halt>(
        &mut self,
        halt: &H,
        before: H::Before,
        t: u64,
        task: u32,
        pc: u32,
        word: Option<u32>,
        found: &mut Option<H::Found>,
    ) -> Gone
        requires limit { t < tick_limit }
        requires unmet { found.old ≡ None }
        ensures keeps { Keeps (Busy t (record { task = task; pc = pc; word = word; outcome = outcomes.Next })) self.old self.new }
        ensures looks { (m : MachineState) → before ≡ H.notes halt.now m
            → Looks (H.behind halt.now) m (Busy t (record { task = task; pc = pc; word = word; outcome = outcomes.Next })) (stand_of self.new) result found.new }
    {
        let attempt = Attempt {
            task,
            pc,
            word,
            outcome: AttemptOutcome::Next,
        };
        self.ring.push(Entry::Busy { t, rec: attempt });
        look_at(halt, before, &attempt, self, found)
    }

    /// Keeps any other entry, and looks at it. Its copy stands here, so that only where it is needed an entry is put in memory.
    #[inline(always)]
    fn keep_other<H: Halt>(
        &mut self,
        halt: &H,
        before: H::Before,
        entry: &Entry,
        found: &mut Option<H::Found>,
    ) -> Gone
        requires limit { start_of entry.now + ticks_of entry.now ≤ tick_limit }
        requires unmet { found.old ≡ None }
        ensures keeps { Keeps entry.now self.old self.new }
        ensures looks { (m : MachineState) → before ≡ H.notes halt.now m → Looks (H.behind halt.now) m entry.now (stand_of self.new) result found.new }
    {
        let other = *entry;
        self.keep_any(halt, before, &other, found)
    }

    /// Keeps any entry, and looks at it.
    #[cold]
    #[inline(never)]
    fn keep_any<H: Halt>(
        &mut self,
        halt: &H,
        before: H::Before,
        entry: &Entry,
        found: &mut Option<H::Found>,
    ) -> Gone
        requires limit { start_of entry.now + ticks_of entry.now ≤ tick_limit }
        requires unmet { found.old ≡ None }
        ensures keeps { Keeps entry.now self.old self.new }
        ensures looks { (m : MachineState) → before ≡ H.notes halt.now m → Looks (H.behind halt.now) m entry.now (stand_of self.new) result found.new }
    {
        self.ring.push(*entry);
        self.jobs.pass(*entry);
        match entry {
            Entry::Busy { rec, .. } => look_at(halt, before, rec, self, found),
            Entry::Idle { n, .. } => look_behind_idle(halt, *n, self, found),
        }
    }

    /// Whether something may be met of the coming attempt.
    #[inline(always)]
    fn may_meet<H: Halt>(&self, halt: &H) -> bool
        ensures { result ≡ false → ahead_of (H.ahead halt.now) self.now.machine ≡ None }
    {
        match self.next() {
            Next::Run { task, pc } => halt.may_meet(task, pc, &self.machine),
            Next::Idle => false,
        }
    }

    /// How a search ends at its last tick.
    #[inline(never)]
    fn end_of<H: Halt>(&self, halt: &H) -> Sought<H::Found>
        ensures { result ≡ end_of (ahead_of (H.ahead halt.now) self.now.machine) }
    {
        match self.met_ahead(halt) {
            Some(found) => Sought::Met(found),
            None => Sought::Unmet,
        }
    }

    /// The same as `go_on`, apart from the loop of a search: so that looks at a tick and makes it in one piece of code.
    #[inline(never)]
    fn go_on_once<H: Halt>(&mut self, halt: &H, end: u64) -> Option<Sought<H::Found>>
        ensures goes { GoesOn (H.behind halt.now) (min (end - self.old.machine.tick) (MAX_TICKS - self.old.machine.tick)) self.old self.new result }
        ensures reached { (first : PositionState) → IsReached first self.old → IsReached first self.new }
    {
        let mut found = None;
        let gone = self.go_on(halt, end, &mut found);
        sought_by(gone, found)
    }

    /// Goes on by entry after entry, at most `left`, from which it takes them, until something is met in one or may be met ahead, at most
    /// to tick `end`. Apart from `seek`, so that the loop has all registers.
    ///
    /// The entries are used up at a tick that a busy one leaves as it is and an idle one moves on: a busy one is counted by nothing but
    /// its tick.
    #[inline(never)]
    fn go_counted<H: Halt>(&mut self, halt: H, left: &mut u32, end: u64) -> Option<Sought<H::Found>>
        requires early { self.old.machine.tick ≤ end }
        requires limit { end ≤ MAX_TICKS }
        ensures seeks { (begin : Stand) (set : TaskSet) (has_paused : Bool) (t n : ℕ) → end ≡ min (t + n) tick_limit → Searches (H.behind halt) (H.ahead halt) begin set t (stand_of self.old)
            → Comes (H.behind halt) (H.ahead halt) begin set has_paused t n (stand_of self.new) result }
        ensures moves { (t n : ℕ) → end ≡ min (t + n) tick_limit → t < self.old.machine.tick → MovesBy t n self.new.machine.tick result }
        ensures stands { (begin : Stand) (set : TaskSet) → IsAt begin set (stand_of self.old) → IsAt begin set (stand_of self.new) }
        ensures later { self.old.machine.tick ≤ self.new.machine.tick }
        ensures within { self.new.machine.tick ≤ end }
        ensures reached { (first : PositionState) → IsReached first self.old → IsReached first self.new }
        ensures unpaused { IfSome result (λ sought. is_paused sought ≡ false) }
        ensures fewer { left.new ≤ left.old }
    {
        // The same as `end`: said here again, so that the loop needs no test of its own for tick 2^40.
        let limit = end.min(MAX_TICKS);
        let mut found = None;
        let mut used_up = self.now() + u64::from(*left);
        let mut stop = used_up.min(limit);
        while self.now() < stop {
            if self.may_meet(&halt) {
                *left = (used_up - self.now()) as u32;
                return None;
            }
            let gone = self.go_on(&halt, stop, &mut found);
            match gone {
                Gone::ByTick => {}
                Gone::ByIdle(n) => {
                    used_up += n - 1;
                    stop = used_up.min(limit);
                }
                Gone::ByMeeting | Gone::AtEnd => {
                    *left = (used_up - self.now()) as u32;
                    return sought_by(gone, found);
                }
            }
        }
        *left = (used_up - self.now()) as u32;
        None
    }

    /// Goes on by as many entries as the pace has to spare, until something is met in one, or ahead, at most to tick `end`.
    #[inline(never)]
    fn go_unasked<H: Halt, P: Pace>(
        &mut self,
        halt: H,
        pace: &mut P,
        end: u64,
    ) -> Option<Sought<H::Found>>
        requires early { self.old.machine.tick ≤ end }
        requires limit { end ≤ MAX_TICKS }
        ensures seeks { (begin : Stand) (set : TaskSet) (has_paused : Bool) (t n : ℕ) → end ≡ min (t + n) tick_limit → Searches (H.behind halt) (H.ahead halt) begin set t (stand_of self.old)
            → Comes (H.behind halt) (H.ahead halt) begin set has_paused t n (stand_of self.new) result }
        ensures moves { (t n : ℕ) → end ≡ min (t + n) tick_limit → t < self.old.machine.tick → MovesBy t n self.new.machine.tick result }
        ensures stands { (begin : Stand) (set : TaskSet) → IsAt begin set (stand_of self.old) → IsAt begin set (stand_of self.new) }
        ensures later { self.old.machine.tick ≤ self.new.machine.tick }
        ensures within { self.new.machine.tick ≤ end }
        ensures reached { (first : PositionState) → IsReached first self.old → IsReached first self.new }
        ensures unpaused { IfSome result (λ sought. is_paused sought ≡ false) }
        ensures same { P.has_paused pace.new ≡ P.has_paused pace.old }
        ensures goes { P.goes pace.old pace.new }
    {
        let spare = pace.spare();
        let mut left = spare;
        let sought = self.go_counted(halt, &mut left, end);
        pace.skip(spare - left);
        sought
    }

    /// Goes on by entry after entry, until something is met in one, or ahead, or the pace pauses, at most to tick `end`. Answers
    /// nothing where the search is to end by a look at what comes.
    #[inline(never)]
    fn go_by<H: Halt, P: Pace>(
        &mut self,
        halt: H,
        pace: &mut P,
        end: u64,
    ) -> Option<Sought<H::Found>>
        requires early { self.old.machine.tick ≤ end }
        requires limit { end ≤ MAX_TICKS }
        ensures seeks { (begin : Stand) (set : TaskSet) (t n : ℕ) → end ≡ min (t + n) tick_limit → Searches (H.behind halt) (H.ahead halt) begin set t (stand_of self.old)
            → Comes (H.behind halt) (H.ahead halt) begin set (P.has_paused pace.new) t n (stand_of self.new) result }
        ensures moves { (t n : ℕ) → end ≡ min (t + n) tick_limit → t < self.old.machine.tick → MovesBy t n self.new.machine.tick result }
        ensures stands { (begin : Stand) (set : TaskSet) → IsAt begin set (stand_of self.old) → IsAt begin set (stand_of self.new) }
        ensures end { IfNone result (ahead_of (H.ahead halt) self.new.machine ≡ None → self.new.machine.tick ≡ end) }
        ensures within { self.new.machine.tick ≤ end }
        ensures reached { (first : PositionState) → IsReached first self.old → IsReached first self.new }
        ensures paused { IfSome result (λ sought. P.has_paused pace.old ≡ false → P.has_paused pace.new ≡ is_paused sought) }
        ensures unpaused { IfNone result (P.has_paused pace.old ≡ false → P.has_paused pace.new ≡ false) }
        ensures goes { P.goes pace.old pace.new }
    {
        // The same as `end`: said here again, so that the loop needs no test of its own for tick 2^40.
        let limit = end.min(MAX_TICKS);
        while self.now() < limit {
            if self.met_ahead(&halt).is_some() {
                return None;
            }
            if pace.pauses() {
                return Some(Sought::Paused);
            }
            let mut found = None;
            let gone = self.go_on(&halt, limit, &mut found);
            if let Some(sought) = sought_by(gone, found) {
                return Some(sought);
            }
            if pace.spare() > 0 {
                if let Some(sought) = self.go_unasked(halt, pace, limit) {
                    return Some(sought);
                }
            }
        }
        None
    }

    /// Goes on to the first tick at which something is met, at most `n` ticks.
    #[inline(never)]
    pub(crate) fn seek<H: Halt, P: Pace>(
        &mut self,
        halt: H,
        pace: &mut P,
        n: u64,
    ) -> Sought<H::Found>
        ensures seeks { (begin : Stand) (set : TaskSet) → IsAt begin set (stand_of self.old)
            → SeeksOrPauses (P.has_paused pace.new) (met_at (H.behind halt) (H.ahead halt) begin set) self.old.machine.tick n result self.new.machine.tick }
        ensures stands { (begin : Stand) (set : TaskSet) → IsAt begin set (stand_of self.old) → IsAt begin set (stand_of self.new) }
        ensures moves { Moves self.old.machine.tick n result self.new.machine.tick }
        ensures within { self.new.machine.tick ≤ self.old.machine.tick + n }
        ensures reached { (first : PositionState) → IsReached first self.old → IsReached first self.new }
        ensures paused { P.has_paused pace.old ≡ false → P.has_paused pace.new ≡ is_paused result }
        ensures goes { P.goes pace.old pace.new }
    {
        let end = self.now().saturating_add(n).min(MAX_TICKS);
        if let Some(sought) = self.go_on_once(&halt, end) {
            return sought;
        }
        if let Some(sought) = self.go_by(halt, pace, end) {
            return sought;
        }
        self.end_of(&halt)
    }

    /// What is met before the coming attempt, and what behind it.
    #[inline(always)]
    fn met_around<H: HaltBack>(&self, halt: &H) -> (Option<H::Found>, Option<H::Found>)
        ensures here { result.0 ≡ ahead_of (H.here halt.now) self.now.machine }
        ensures left { result.1 ≡ ahead_of (H.left halt.now) self.now.machine }
    {
        match self.next() {
            Next::Run { task, pc } if halt.may_meet(task, pc, &self.machine) => (
                halt.look_here(task, pc, &self.machine),
                halt.look_left(task, pc, &self.machine),
            ),
            _ => (None, None),
        }
    }

    /// Goes on to tick `top`, and answers the last tick on the way, and not below the lowest, at which something is met, and what.
    /// The pace is asked until it asks for a pause.
    #[inline(never)]
    pub(crate) fn last_met<H: HaltBack, P: Pace>(
        &mut self,
        halt: H,
        pace: &mut P,
        pauses: &mut bool,
        way: Way,
        top: u64,
    ) -> Option<(u64, H::Found)>
        requires early { self.old.machine.tick ≤ top }
        requires limit { top ≤ MAX_TICKS }
        ensures last { (begin : Stand) (set : TaskSet) → IsAt begin set (stand_of self.old)
            → LastBefore (back_at (H.here halt) (H.left halt) (H.behind halt) way.passes begin set self.old.machine.tick way.now) (max way.low self.old.machine.tick) (top + 1) result }
        ensures goes { P.goes pace.old pace.new }
        ensures pauses { (pauses.old ≡ true → P.has_paused pace.old ≡ true) → pauses.new ≡ true → P.has_paused pace.new ≡ true }
    {
        let mut left = None;
        let mut behind = None;
        let mut last = None;
        loop {
            let tick = self.now();
            let (here, coming) = self.met_around(&halt);
            last = way.noted(last, tick, way.met(tick, here, left, behind));
            left = coming;
            let before = halt.note(&self.machine);
            let Some(entry) = self.advance(top - tick) else {
                return last;
            };
            behind = halt.look_behind(before, &entry, self);
            *pauses = asked(pace, *pauses);
        }
    }
}
