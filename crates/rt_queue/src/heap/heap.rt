//! A queue that is a binary heap.
ghost use Rattle.std.specs.Prelude.{◌≡◌, ℕ, ◌<◌, length, slice_index, IfOk};

use crate::MinQueue;
use crate::heap::sift::{entry, insert_entry, rekey_first, remove_entry};
use std::alloc::{AllocError, Global};
use std::marker::Model;

/// A queue as a binary heap (Williams 1964) that knows the place of each number, so that the least
/// is found in one look, and a number goes in or out in as many steps as the heap is high.
///
/// Each number has a place from the start: those in the queue come first, in the heap's order.
#[derive(Drop)]
pub struct Heap {
    /// By number; that of a number that isn't in the queue says nothing.
    keys: Vec<u64>,
    /// The number at each place.
    order: Vec<u32>,
    /// The place of each number.
    places: Vec<u32>,
    /// How many numbers are in the queue.
    len: u32,
}

impl Model for Heap {
    ghost use Rattle.std.specs.Prelude.{ℕ, List, Option};
    ghost use Rattle.rt_queue.specs.heap.Places.{keys_in};
    ghost use Rattle.rt_queue.specs.heap.IsHeap.{IsHeap};

    ghost Value = { List (Option ℕ) };

    ghost view = { λ heap. keys_in heap.keys.items heap.places.items heap.len };

    ghost invariant = { λ heap. IsHeap heap.keys.items heap.order.items heap.places.items heap.len };
}

/// The numbers below a count, in order.
fn numbers_below(alloc: Global, count: u32) -> Result<Vec<u32>, AllocError>
    ensures length { IfOk result (λ numbers. length numbers.items ≡ count) }
    ensures each { IfOk result (λ numbers. (number : ℕ) → number < count →
        slice_index numbers.items number ≡ number) }
{
    let mut numbers = Vec::with_capacity(alloc, count as usize)?;
    for number in 0..count {
        numbers.push(number)?;
    }
    Ok(numbers)
}

impl MinQueue for Heap {
    ghost keys = { λ heap. heap };

    fn make(alloc: Global, capacity: u32) -> Result<Self, AllocError> {
        let keys = vec![in alloc; 0; capacity as usize]?;
        let order = numbers_below(alloc, capacity)?;
        let places = numbers_below(alloc, capacity)?;
        Ok(Heap {
            keys,
            order,
            places,
            len: 0,
        })
    }

    #[inline]
    fn insert(&mut self, number: u32, key: u64) {
        let len = self.len;
        insert_entry(
            &mut self.keys,
            &mut self.order,
            &mut self.places,
            len,
            number,
            key,
        );
        self.len = len + 1;
    }

    #[inline]
    fn remove(&mut self, number: u32) {
        let len = self.len;
        remove_entry(&self.keys, &mut self.order, &mut self.places, len, number);
        self.len = len - 1;
    }

    #[inline]
    fn rekey_least(&mut self, _least: (u64, u32), key: u64) {
        let len = self.len;
        rekey_first(&mut self.keys, &mut self.order, &mut self.places, len, key);
    }

    #[inline]
    fn least(&self) -> Option<(u64, u32)> {
        if self.len == 0 {
            return None;
        }
        Some(entry(&self.keys, &self.order, 0))
    }

    #[inline]
    fn key_of(&self, number: u32) -> Option<u64> {
        let place = *self.places.get(number as usize)?;
        if place >= self.len {
            return None;
        }
        Some(self.keys[number as usize])
    }

    fn copy(&self, alloc: Global) -> Result<Self, AllocError> {
        let keys = Vec::from_slice(alloc, &self.keys)?;
        let order = Vec::from_slice(alloc, &self.order)?;
        let places = Vec::from_slice(alloc, &self.places)?;
        Ok(Heap {
            keys,
            order,
            places,
            len: self.len,
        })
    }
}
