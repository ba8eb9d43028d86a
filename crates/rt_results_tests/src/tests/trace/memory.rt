//! Requests for memory, of which one may be refused: with `rt try --test --fail-alloc N` the Nth.

use super::entries;
use crate::tests::same;
use rt_history::Entry;
use rt_history::ring::Ring;
use std::process::Abort;
use std::test::Fail;

/// Looks at a ring of two.
fn look_at_ring(rt: &impl Abort, ring: &Ring, entries: &[Entry; 5]) {
    same(rt, "length", ring.len(), 2);
    same(rt, "the first", ring.get(0), Some(&entries[3]));
    same(rt, "the second", ring.get(1), Some(&entries[4]));
}

/// A ring of two, which is told of five entries.
#[test]
fn rings_are_made_and_copied_again(rt: HostRuntime) -> Result<(), Fail> {
    let mut ring = match Ring::new(rt.alloc(), 2) {
        Err(_) => Ring::new(rt.alloc(), 2)?,
        Ok(ring) => ring,
    };
    let entries = entries();
    for entry in entries {
        assert!(rt; entry.start() < 7 && entry.ticks() < 7);
        ring.push(entry);
    }
    let copy = match ring.copy() {
        Err(_) => ring.copy()?,
        Ok(copy) => copy,
    };
    look_at_ring(&rt, &ring, &entries);
    look_at_ring(&rt, &copy, &entries);
    Ok(())
}
