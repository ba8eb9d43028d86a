//! Parts of addresses, found by their first addresses.

ghost use Rattle.std.specs.Prelude.{◌≡◌, ◌≤◌, ◌+◌, ◌++◌, ◌∷◌, [], length, All, IfOk, IfSome};
ghost use Rattle.std.specs.Option.{option_map};
ghost use Rattle.std.specs.List.Sorted.{IsNonDecreasingBy, IsStableByKey};
ghost use Rattle.std.specs.Ordering.{nat_cmp};
ghost use Rattle.rt_words.specs.Limits.{line_limit};
ghost use Rattle.rt_image.specs.declared.object.Symbol.{Symbol};
ghost use Rattle.rt_image.specs.ObjectFile.{label, labels};
ghost use Rattle.rt_names.specs.Parts.{namer};
ghost use Rattle.rt_names.specs.Working.Rising.{AreNamers, AreSplit, Reduces};

use crate::parts::nearest_of;
use rt_image::Symbol;
use std::alloc::{AllocError, Global};
use std::marker::Model;

/// The parts of the addresses of an object, by its symbols. Contracts see the symbols.
#[derive(Drop)]
pub struct Places<'s, 'a> {
    symbols: &'s [Symbol<'a>],
    /// The one that names the part of each symbol's address, in the order of addresses.
    namers: Vec<Symbol<'a>>,
}

impl<'s, 'a> Model for Places<'s, 'a> {
    ghost use Rattle.std.specs.Prelude.{List};
    ghost use Rattle.rt_image.specs.ObjectFile.{Label, labels};
    ghost use Rattle.rt_names.specs.Working.Rising.{AreNamers};

    ghost Value = { List Label };

    ghost view = { λ places. labels places.symbols.now };

    ghost invariant = { λ places. AreNamers (labels places.symbols.now) places.namers.items };
}

/// The symbols by their addresses, those at one address in their order.
fn by_address<'a>(alloc: Global, symbols: &[Symbol<'a>]) -> Result<Vec<Symbol<'a>>, AllocError>
    ensures sorted { IfOk result (λ found. IsNonDecreasingBy (λ (s : Symbol). s.address) found.items) }
    ensures stable { IfOk result (λ found. IsStableByKey (λ (s : Symbol). s.address) nat_cmp symbols.now found.items) }
{
    let mut found = Vec::new(alloc);
    found.extend_from_slice(symbols)?;
    found.sort_by_key(|symbol| symbol.address)?;
    Ok(found)
}

/// Of symbols that rise by their addresses, the one that names the part of each one's address.
fn namers_of<'a>(alloc: Global, rising: &[Symbol<'a>]) -> Result<Vec<Symbol<'a>>, AllocError>
    requires { IsNonDecreasingBy (λ (s : Symbol). s.address) rising.now }
    ensures { IfOk result (λ namers. Reduces rising.now namers.items) }
{
    let mut namers = Vec::new(alloc);
    let mut nearest = None;
    for symbol in rising {
        let namer = nearest_of(nearest, *symbol);
        namers.push(namer)?;
        nearest = Some(namer);
    }
    Ok(namers)
}

/// How many of symbols that rise by their addresses stand at an address or below it: the first ones.
#[inline]
fn count_to(rising: &[Symbol], address: u32) -> usize
    requires { IsNonDecreasingBy (λ (s : Symbol). s.address) rising.now }
    ensures within { result ≤ length rising.now }
    ensures split { AreSplit address result rising.now }
{
    rising.partition_point(|symbol| symbol.address <= address)
}

impl<'s, 'a> Places<'s, 'a> {
    /// The parts that these symbols make.
    ///
    /// # Errors
    ///
    /// There is no memory for them.
    pub fn new(alloc: Global, symbols: &'s [Symbol<'a>]) -> Result<Places<'s, 'a>, AllocError>
        ensures { IfOk result (λ places. places ≡ labels symbols.now) }
    {
        let rising = by_address(alloc, symbols)?;
        let namers = namers_of(alloc, &rising)?;
        Ok(Places { symbols, namers })
    }

    /// The symbol at which the part of an address begins, and by which it is named; none of the part below all symbols. Takes no
    /// memory.
    pub fn namer_at(&self, address: u32) -> Option<Symbol<'a>>
        ensures { option_map label result ≡ namer self.now address }
    {
        let count = count_to(&self.namers, address);
        if count == 0 {
            return None;
        }
        Some(self.namers[count - 1])
    }
}
