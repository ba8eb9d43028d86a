//! A ring of entries.

ghost use Rattle.std.specs.Prelude.{◌≡◌, ℕ, ◌+◌, ◌≤◌, ◌==◌, List, ◌++◌, [], length, slice_get, option_copied, IfOk};
ghost use Rattle.circular_buffer.specs.Buffer.{buffer, last_item, keep_last};
ghost use Rattle.rt_words.specs.Limits.{tick_limit};
ghost use Rattle.rt_history.specs.declared.record.Record.{Record};
ghost use Rattle.rt_history.specs.declared.record.Entry.TheVariants.{Busy};
ghost use Rattle.rt_history.specs.declared.record.AttemptOutcome.TheVariants.{Next};
ghost use Rattle.rt_history.specs.Entries.{start_of, ticks_of, records_of, entries_from};
ghost use Rattle.rt_history.specs.ring.Pushed.{joined_to, pushed};

use crate::{Attempt, AttemptOutcome, Entry};
use circular_buffer::HeapCircularBuffer;
use std::alloc::{AllocError, Global};
use std::marker::Model;

/// The last entries of a history, from the oldest on. All its room is taken when it is made: for twice as many as it is to hold, so
/// that old ones go many at a time.
#[derive(Drop)]
pub struct Ring {
    entries: HeapCircularBuffer<Entry>,
    /// How many of the last of them it holds.
    capacity: usize,
}

impl Model for Ring {
    ghost use Rattle.std.specs.Prelude.{◌≤◌};
    ghost use Rattle.circular_buffer.specs.Buffer.{Buffer, buffer, keep_last};
    ghost use Rattle.rt_history.specs.declared.record.Entry.{Entry};

    ghost Value = { Buffer Entry };

    ghost view = { λ r. buffer (keep_last r.capacity r.entries.items) r.capacity };

    ghost invariant = { λ r. (1 ≤ r.capacity) × (r.capacity ≤ r.entries.capacity) };
}

impl Ring {
    /// An empty ring for so many entries.
    ///
    /// # Errors
    ///
    /// There is no memory for its room.
    pub fn new(alloc: Global, capacity: usize) -> Result<Ring, AllocError>
        requires { 1 ≤ capacity }
        ensures { IfOk result (λ ring. ring ≡ buffer [] capacity) }
    {
        Ok(Ring {
            entries: HeapCircularBuffer::with_capacity(alloc, capacity.saturating_mul(2))?,
            capacity,
        })
    }

    /// How many entries it holds.
    pub fn len(&self) -> usize
        ensures { result ≡ length self.now.items }
    {
        self.entries.len().min(self.capacity)
    }

    /// Whether it holds none.
    pub fn is_empty(&self) -> bool
        ensures { result ≡ (length self.now.items == 0) }
    {
        self.entries.is_empty()
    }

    /// The entry at this place, from the oldest on.
    pub fn get(&self, place: usize) -> Option<&Entry>
        ensures { option_copied result ≡ slice_get self.now.items place }
    {
        let first = self.entries.len().saturating_sub(self.capacity);
        self.entries.get(first.checked_add(place)?)
    }

    /// Takes the next entry of a history, which ends at tick 2^40 at most; where there is no room left the oldest goes. An idle
    /// stretch that goes on from the last one is joined to it.
    #[inline(always)]
    pub fn push(&mut self, entry: Entry)
        requires { start_of entry + ticks_of entry ≤ tick_limit }
        ensures exact { self.new ≡ buffer (keep_last self.old.capacity (pushed self.old.items entry)) self.old.capacity }
        ensures follows { (u : ℕ) (records : List Record) → self.old.items ≡ keep_last self.old.capacity (entries_from u records)
            → start_of entry ≡ u + length records → 1 ≤ ticks_of entry
            → self.new.items ≡ keep_last self.old.capacity (entries_from u (records ++ records_of entry)) }
    {
        match entry {
            Entry::Busy { t, rec } => match rec.outcome {
                AttemptOutcome::Next => self.push_next(t, rec.task, rec.pc, rec.word),
                _ => self.push_other(&entry),
            },
            Entry::Idle { .. } => self.push_other(&entry),
        }
    }

    /// Takes an instruction that was carried out and is no call: by its parts, so that none of them is put in memory but in the ring.
    #[inline(always)]
    fn push_next(&mut self, t: u64, task: u32, pc: u32, word: Option<u32>)
        ensures exact { self.new ≡ buffer (keep_last self.old.capacity (pushed self.old.items (Busy t (record { task = task; pc = pc; word = word; outcome = Next })))) self.old.capacity }
        ensures some { 1 ≤ self.old.capacity }
    {
        if self
            .entries
            .try_push_back(next_at(t, task, pc, word))
            .is_err()
        {
            self.push_next_anew(t, task, pc, word);
        }
    }

    /// The same where all room is taken: the entries that are held no more go first.
    #[cold]
    #[inline(never)]
    fn push_next_anew(&mut self, t: u64, task: u32, pc: u32, word: Option<u32>)
        ensures exact { self.new ≡ buffer (keep_last self.old.capacity (pushed self.old.items (Busy t (record { task = task; pc = pc; word = word; outcome = Next })))) self.old.capacity }
        ensures some { 1 ≤ self.old.capacity }
    {
        self.entries.truncate_front(self.capacity);
        self.entries.push_back(next_at(t, task, pc, word));
    }

    /// Takes any other entry. Its copy stands here, so that only where it is needed an entry is put in memory.
    #[inline(always)]
    fn push_other(&mut self, entry: &Entry)
        requires { start_of entry.now + ticks_of entry.now ≤ tick_limit }
        ensures exact { self.new ≡ buffer (keep_last self.old.capacity (pushed self.old.items entry.now)) self.old.capacity }
        ensures some { 1 ≤ self.old.capacity }
    {
        let other = *entry;
        self.push_any(&other);
    }

    /// Takes any entry.
    #[cold]
    #[inline(never)]
    fn push_any(&mut self, entry: &Entry)
        requires { start_of entry.now + ticks_of entry.now ≤ tick_limit }
        ensures exact { self.new ≡ buffer (keep_last self.old.capacity (pushed self.old.items entry.now)) self.old.capacity }
        ensures some { 1 ≤ self.old.capacity }
    {
        match joined_to(self.entries.back(), entry) {
            Some(stretch) => {
                self.entries.pop_back();
                self.entries.push_back(stretch);
            }
            None => {
                self.entries.push_back(*entry);
            }
        }
    }

    /// A ring of the same entries and the same room, with the allocator of this one.
    ///
    /// # Errors
    ///
    /// There is no memory for its room.
    pub fn copy(&self) -> Result<Ring, AllocError>
        ensures { IfOk result (λ ring. ring ≡ self.now) }
    {
        let mut entries = HeapCircularBuffer::with_capacity(
            *self.entries.allocator(),
            self.entries.capacity(),
        )?;
        let (front, back) = self.entries.as_slices();
        entries.fill_from_slice(front);
        entries.fill_from_slice(back);
        Ok(Ring {
            entries,
            capacity: self.capacity,
        })
    }
}

/// The entry of an instruction that was carried out and is no call.
#[inline(always)]
fn next_at(t: u64, task: u32, pc: u32, word: Option<u32>) -> Entry
    ensures { result ≡ Busy t (record { task = task; pc = pc; word = word; outcome = Next }) }
{
    Entry::Busy {
        t,
        rec: Attempt {
            task,
            pc,
            word,
            outcome: AttemptOutcome::Next,
        },
    }
}

/// The stretch that an idle entry makes with the one before it, where it goes on from there.
fn joined_to(last: Option<&Entry>, entry: &Entry) -> Option<Entry>
    requires { start_of entry.now + ticks_of entry.now ≤ tick_limit }
    ensures { result ≡ joined_to (option_copied last.entry) entry.now }
{
    match (last, *entry) {
        (Some(Entry::Idle { t, n }), Entry::Idle { t: start, n: more })
            if *t <= start && start - *t == *n => {
            Some(Entry::Idle {
                t: *t,
                n: *n + more,
            })
        }
        _ => None,
    }
}
