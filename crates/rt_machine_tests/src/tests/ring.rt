//! What no clause says: that calls succeed, and values from outside.

use crate::tests::same;
use rt_history::ring::Ring;
use rt_history::{Attempt, AttemptOutcome, Entry};
use std::alloc::Global;
use std::process::Abort;
use std::test::Fail;

/// A busy entry of task 0, at the address that its tick gives.
fn busy(t: u32) -> Entry {
    let rec = Attempt {
        task: 0,
        pc: 0x8000_0000 | (t % 64) << 2,
        word: Some(0x13),
        outcome: AttemptOutcome::Next,
    };
    Entry::Busy {
        t: u64::from(t),
        rec,
    }
}

/// All entries of a ring are those.
fn holds(rt: &impl Abort, ring: &Ring, entries: &[Entry]) {
    same(rt, "length", ring.len(), entries.len());
    for (place, entry) in entries.iter().enumerate() {
        same(rt, place, ring.get(place), Some(entry));
    }
    same(rt, "the end", ring.get(entries.len()), None);
}

#[test]
fn stretches_are_joined(rt: HostRuntime) -> Result<(), Fail> {
    let mut ring = Ring::new(rt.alloc(), 2)?;
    same(&rt, "a new one", ring.is_empty(), true);
    ring.push(busy(3));
    ring.push(Entry::Idle { t: 4, n: 1 });
    ring.push(Entry::Idle { t: 5, n: 2 });
    holds(&rt, &ring, &[busy(3), Entry::Idle { t: 4, n: 3 }]);
    ring.push(busy(7));
    holds(&rt, &ring, &[Entry::Idle { t: 4, n: 3 }, busy(7)]);
    Ok(())
}

#[test]
fn stretches_apart_stay_apart(rt: HostRuntime) -> Result<(), Fail> {
    let mut ring = Ring::new(rt.alloc(), 3)?;
    ring.push(Entry::Idle { t: 4, n: 1 });
    ring.push(Entry::Idle { t: 6, n: 2 });
    let copy = ring.copy()?;
    ring.push(busy(8));
    ring.push(Entry::Idle {
        t: 9,
        n: 1_099_511_627_767,
    });
    let stretch = Entry::Idle {
        t: 9,
        n: 1_099_511_627_767,
    };
    holds(&rt, &ring, &[Entry::Idle { t: 6, n: 2 }, busy(8), stretch]);
    holds(
        &rt,
        &copy,
        &[Entry::Idle { t: 4, n: 1 }, Entry::Idle { t: 6, n: 2 }],
    );
    Ok(())
}

/// Numbers that look drawn by chance, the same in every run.
#[derive(Drop)]
struct Draws {
    state: u32,
}

impl Draws {
    /// A number below `limit`.
    fn below(&mut self, limit: u32) -> u32 {
        self.state = self
            .state
            .wrapping_mul(1_664_525)
            .wrapping_add(1_013_904_223);
        (self.state >> 16) % limit
    }
}

/// Tells of an idle stretch from tick `t` on, if it has ticks.
fn push_idle(ring: &mut Ring, t: u32, n: u32) {
    if n > 0 {
        ring.push(Entry::Idle {
            t: u64::from(t),
            n: u64::from(n),
        });
    }
}

/// Tells of an idle stretch from tick `t` on, cut at two places.
fn push_cut(ring: &mut Ring, draws: &mut Draws, t: u32, n: u32) {
    let first = draws.below(n + 1);
    let second = draws.below(n - first + 1);
    push_idle(ring, t, first);
    push_idle(ring, t + first, second);
    push_idle(ring, t + first + second, n - first - second);
}

/// A history of busy ticks, and of idle stretches that are cut by chance. Beside the ring a list keeps each stretch whole.
fn keeps_the_last(rt: &impl Abort, alloc: Global, capacity: usize) -> Result<(), Fail> {
    let mut ring = Ring::new(alloc, capacity)?;
    let mut draws = Draws { state: 1 };
    let mut whole = Vec::new(alloc);
    let mut t = 0;
    for _ in 0..400 {
        assert!(rt; t < 100_000);
        let n = draws.below(6);
        push_cut(&mut ring, &mut draws, t, n);
        if n > 0 {
            whole.push(Entry::Idle {
                t: u64::from(t),
                n: u64::from(n),
            })?;
        }
        ring.push(busy(t + n));
        whole.push(busy(t + n))?;
        t += n + 1;
        holds(rt, &ring, &whole[whole.len().saturating_sub(capacity)..]);
    }
    Ok(())
}

#[test]
fn the_last_of_all(rt: HostRuntime) -> Result<(), Fail> {
    keeps_the_last(&rt, rt.alloc(), 1)?;
    keeps_the_last(&rt, rt.alloc(), 2)?;
    keeps_the_last(&rt, rt.alloc(), 3)?;
    keeps_the_last(&rt, rt.alloc(), 256)
}

/// Each request for memory may be refused, and then the ring that was copied is as it was.
#[test]
fn rings_want_memory(rt: HostRuntime) {
    let Ok(mut ring) = Ring::new(rt.alloc(), 2) else {
        return;
    };
    ring.push(busy(3));
    if let Ok(copy) = ring.copy() {
        holds(&rt, &copy, &[busy(3)]);
    }
    holds(&rt, &ring, &[busy(3)]);
}
