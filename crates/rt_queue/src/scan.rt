//! A queue that looks at all its keys.
ghost use Rattle.std.specs.Prelude.{◌≡◌, ℕ, ◌^◌, ◌<◌, ◌++◌, ◌∷◌, [], List, length, Option};
ghost use Rattle.rt_queue.specs.Least.{IsLeast};

use crate::min_queue::MinQueue;
use std::alloc::{AllocError, Global};
use std::marker::Model;

/// A queue as a plain row of keys by number, which looks at all of them to find the least.
#[derive(Drop)]
pub struct Scan {
    keys: Vec<Option<u64>>,
}

impl Model for Scan {
    ghost Value = { List (Option ℕ) };

    ghost view = { λ scan. scan.keys.items };

    ghost invariant = { λ scan. length scan.keys.items < 2 ^ 32 };
}

/// The least entry up to a number with this key (if it has one), where `least` is that of the numbers
/// below it.
#[inline]
fn least_up_to(least: Option<(u64, u32)>, number: u32, key: Option<u64>) -> Option<(u64, u32)>
    ensures { (below : List (Option ℕ)) → length below ≡ number → IsLeast below least → IsLeast (below ++ key ∷ []) result }
{
    let Some(key) = key else {
        return least;
    };
    match least {
        Some((first, first_number)) if first <= key => Some((first, first_number)),
        _ => Some((key, number)),
    }
}

impl MinQueue for Scan {
    ghost keys = { λ scan. scan };

    fn make(alloc: Global, capacity: u32) -> Result<Self, AllocError> {
        let keys = vec![in alloc; None; capacity as usize]?;
        Ok(Scan { keys })
    }

    #[inline]
    fn insert(&mut self, number: u32, key: u64) {
        self.keys[number as usize] = Some(key);
    }

    #[inline]
    fn remove(&mut self, number: u32) {
        self.keys[number as usize] = None;
    }

    #[inline]
    fn rekey_least(&mut self, least: (u64, u32), key: u64) {
        self.keys[least.1 as usize] = Some(key);
    }

    #[inline]
    fn least(&self) -> Option<(u64, u32)> {
        let mut least = None;
        for (number, key) in self.keys.iter().enumerate() {
            least = least_up_to(least, number as u32, *key);
        }
        least
    }

    #[inline]
    fn key_of(&self, number: u32) -> Option<u64> {
        *self.keys.get(number as usize)?
    }

    fn copy(&self, alloc: Global) -> Result<Self, AllocError> {
        let keys = Vec::from_slice(alloc, &self.keys)?;
        Ok(Scan { keys })
    }
}
