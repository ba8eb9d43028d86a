//! The fetcher that keeps nothing.

use crate::fetcher::{Fetched, Fetcher};
use crate::mem::Ram;
use rt_isa::decode;
use std::alloc::{AllocError, Global};

/// Decodes the word each time, and so is always current.
#[derive(Clone, Copy, PartialEq, Eq)]
pub struct Plain;

impl Fetcher for Plain {
    ghost current = { λ _ _. Unit {0} };

    fn make(_alloc: Global, _ram: &Ram) -> Result<Plain, AllocError> {
        Ok(Plain)
    }

    #[inline]
    #[tactic(auto, unfolding(crate::specs::Attempt::fetched))]
    fn fetch(&mut self, ram: &Ram, pc: u32) -> Fetched {
        match ram.load32(pc) {
            Ok(word) => Fetched::of(word, decode(word)),
            Err(_) => Fetched::Outside,
        }
    }

    #[inline]
    fn touched(&mut self, _address: u32, _count: u32) {}

    fn copy(&self, _alloc: Global) -> Result<Plain, AllocError> {
        Ok(Plain)
    }
}
