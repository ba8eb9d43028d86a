//! Queues by hand: the order of keys and of equal keys, copies, few numbers.

use crate::tests::same;
use rt_queue::heap::Heap;
use rt_queue::{MinQueue, Scan, Tournament, least_after_insert, least_from_is_least};
use std::alloc::{AllocError, Global};
use std::process::Abort;
use std::test::Fail;

/// A queue of capacity 64 with all its numbers, with keys that fall from 63 to 0 or that are all 7.
fn filled<Q: MinQueue>(alloc: Global, falls: bool) -> Result<Q, AllocError> {
    let mut queue = Q::make(alloc, 64)?;
    for number in 0..64 {
        if queue.key_of(number).is_none() {
            queue.insert(number, if falls { u64::from(63 - number) } else { 7 });
        }
    }
    Ok(queue)
}

/// Takes up to 64 entries out, each the least of those left, and answers their numbers in turn.
fn drained<Q: MinQueue>(alloc: Global, queue: &mut Q) -> Result<Vec<u32>, AllocError> {
    let mut numbers = Vec::new(alloc);
    for _ in 0..64 {
        if let Some((_, number)) = queue.least() {
            queue.remove(number);
            numbers.push(number)?;
        }
    }
    Ok(numbers)
}

fn take<Q: MinQueue>(queue: &mut Q, number: u32) {
    if queue.key_of(number).is_some() {
        queue.remove(number);
    }
}

/// The numbers from 63 down to 0 but for 32.
fn falling(alloc: Global) -> Result<Vec<u32>, AllocError> {
    let mut numbers = Vec::new(alloc);
    for number in (0..64).rev() {
        if number != 32 {
            numbers.push(number)?;
        }
    }
    Ok(numbers)
}

/// The numbers from 0 up to 63.
fn rising(alloc: Global) -> Result<Vec<u32>, AllocError> {
    let mut numbers = Vec::new(alloc);
    for number in 0..64 {
        numbers.push(number)?;
    }
    Ok(numbers)
}

fn orders_by_key<Q: MinQueue>(rt: &impl Abort, alloc: Global) -> Result<(), Fail> {
    let mut queue: Q = filled(alloc, true)?;
    same(rt, "all", queue.least(), Some((0, 63)));
    same(rt, "32", queue.key_of(32), Some(31));
    take(&mut queue, 32);
    same(rt, "32 taken", queue.key_of(32), None);
    let expected = falling(alloc)?;
    let numbers = drained(alloc, &mut queue)?;
    same(rt, "in order", numbers.as_slice(), expected.as_slice());
    same(rt, "drained", queue.least(), None);
    Ok(())
}

fn orders_equal_keys_by_number<Q: MinQueue>(rt: &impl Abort, alloc: Global) -> Result<(), Fail> {
    let mut queue: Q = filled(alloc, false)?;
    let expected = rising(alloc)?;
    let numbers = drained(alloc, &mut queue)?;
    same(rt, "in order", numbers.as_slice(), expected.as_slice());
    same(rt, "drained", queue.least(), None);
    Ok(())
}

fn copies_stand_alone<Q: MinQueue>(rt: &impl Abort, alloc: Global) -> Result<(), Fail> {
    let mut queue: Q = filled(alloc, true)?;
    take(&mut queue, 63);
    let copied = queue.copy(alloc);
    same(rt, "the rest", queue.least(), Some((1, 62)));
    let mut copy = copied?;
    same(rt, "the copy", copy.least(), Some((1, 62)));
    take(&mut copy, 62);
    same(rt, "less in the copy", copy.least(), Some((2, 61)));
    same(rt, "the rest as before", queue.least(), Some((1, 62)));
    Ok(())
}

fn holds_few_numbers<Q: MinQueue>(rt: &impl Abort, alloc: Global) -> Result<(), Fail> {
    let empty = Q::make(alloc, 0)?;
    same(rt, "nothing", empty.least(), None);
    same(rt, "nothing of 0", empty.key_of(0), None);
    let mut queue = Q::make(alloc, 2)?;
    same(rt, "nothing yet", queue.least(), None);
    queue.insert(1, u64::MAX);
    same(rt, "the greatest", queue.least(), Some((u64::MAX, 1)));
    queue.insert(0, u64::MAX);
    same(rt, "the lesser number", queue.least(), Some((u64::MAX, 0)));
    queue.remove(0);
    same(rt, "0 taken", queue.key_of(0), None);
    same(rt, "1", queue.key_of(1), Some(u64::MAX));
    same(rt, "2", queue.key_of(2), None);
    Ok(())
}

/// Puts a number in, or takes it out where it is in.
fn toggle<Q: MinQueue>(queue: &mut Q, number: u32, key: u64) {
    if queue.key_of(number).is_some() {
        queue.remove(number);
    } else {
        queue.insert(number, key);
    }
}

/// Gives the least entry another key.
fn rekey<Q: MinQueue>(queue: &mut Q, key: u64) {
    if let Some(least) = queue.least() {
        queue.rekey_least(least, least.0 / 2 + key / 2);
    }
}

/// The next number of Marsaglia's xorshift with the shifts 13, 7 and 17.
fn next_random(state: u64) -> u64 {
    let a = state ^ (state << 13);
    let b = a ^ (a >> 7);
    b ^ (b << 17)
}

/// Puts pseudo-random numbers below a capacity into two queues and takes them out again, gives the least one another key at times,
/// copies the first queue at times, and compares the two after each call.
fn two_agree<P: MinQueue, Q: MinQueue>(
    rt: &impl Abort,
    alloc: Global,
    capacity: u32,
) -> Result<(), Fail> {
    let mut first = P::make(alloc, capacity)?;
    let mut second = Q::make(alloc, capacity)?;
    let mut random = 88_172_645_463_325_252;
    for call in 0..100_000 {
        random = next_random(random);
        let number = (random % u64::from(capacity)) as u32;
        let key = (random >> 32) % 1000;
        toggle(&mut first, number, key);
        toggle(&mut second, number, key);
        if call % 3 == 0 {
            rekey(&mut first, key);
            rekey(&mut second, key);
        }
        same(rt, call, first.least(), second.least());
        same(rt, call, first.key_of(number), second.key_of(number));
        if call % 1000 == 0 {
            first = first.copy(alloc)?;
        }
    }
    Ok(())
}

#[test]
fn heap_and_scan_agree(rt: HostRuntime) -> Result<(), Fail> {
    for capacity in [1, 2, 3, 64, 256] {
        two_agree::<Heap, Scan>(&rt, rt.alloc(), capacity)?;
    }
    Ok(())
}

#[test]
fn heap_orders_by_key(rt: HostRuntime) -> Result<(), Fail> {
    orders_by_key::<Heap>(&rt, rt.alloc())
}

#[test]
fn heap_orders_equal_keys_by_number(rt: HostRuntime) -> Result<(), Fail> {
    orders_equal_keys_by_number::<Heap>(&rt, rt.alloc())
}

#[test]
fn heap_copies_stand_alone(rt: HostRuntime) -> Result<(), Fail> {
    copies_stand_alone::<Heap>(&rt, rt.alloc())
}

#[test]
fn heap_of_few_numbers(rt: HostRuntime) -> Result<(), Fail> {
    holds_few_numbers::<Heap>(&rt, rt.alloc())
}

#[test]
fn tournament_and_scan_agree(rt: HostRuntime) -> Result<(), Fail> {
    for capacity in [1, 2, 3, 64, 100] {
        two_agree::<Tournament, Scan>(&rt, rt.alloc(), capacity)?;
    }
    Ok(())
}

#[test]
fn tournament_orders_by_key(rt: HostRuntime) -> Result<(), Fail> {
    orders_by_key::<Tournament>(&rt, rt.alloc())
}

#[test]
fn tournament_orders_equal_keys_by_number(rt: HostRuntime) -> Result<(), Fail> {
    orders_equal_keys_by_number::<Tournament>(&rt, rt.alloc())
}

#[test]
fn tournament_copies_stand_alone(rt: HostRuntime) -> Result<(), Fail> {
    copies_stand_alone::<Tournament>(&rt, rt.alloc())
}

#[test]
fn tournament_of_few_numbers(rt: HostRuntime) -> Result<(), Fail> {
    holds_few_numbers::<Tournament>(&rt, rt.alloc())
}

#[test]
fn scan_orders_by_key(rt: HostRuntime) -> Result<(), Fail> {
    orders_by_key::<Scan>(&rt, rt.alloc())
}

#[test]
fn scan_orders_equal_keys_by_number(rt: HostRuntime) -> Result<(), Fail> {
    orders_equal_keys_by_number::<Scan>(&rt, rt.alloc())
}

#[test]
fn scan_copies_stand_alone(rt: HostRuntime) -> Result<(), Fail> {
    copies_stand_alone::<Scan>(&rt, rt.alloc())
}

#[test]
fn scan_of_few_numbers(rt: HostRuntime) -> Result<(), Fail> {
    holds_few_numbers::<Scan>(&rt, rt.alloc())
}

#[test]
fn laws_can_be_called(_rt: HostRuntime) {
    least_from_is_least();
    least_after_insert();
}
