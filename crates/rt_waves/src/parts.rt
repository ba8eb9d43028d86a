//! Where the parts of a task's addresses begin, by the symbols of its object.

ghost use Rattle.std.specs.Prelude.{◌≡◌, ℕ, ◌+◌, ◌^◌, ◌<◌, ◌≤◌, length, slice_index, IfOk};
ghost use Rattle.std.specs.List.Sorted.{IsNonDecreasing};
ghost use Rattle.rt_image.specs.ObjectFile.{labels};
ghost use Rattle.rt_waves.specs.Waves.{greatest_upto, part_begin};
ghost use Rattle.rt_waves.specs.Working.Ordered.{addresses as addresses_of, IsPartOf, begin_at, end_at};

use rt_image::Symbol;
use std::alloc::{AllocError, Global};
use std::marker::Model;

/// Addresses from `begin` up to `end`, which is no longer one of them.
#[derive(Clone, Copy)]
pub(crate) struct Part {
    pub(crate) begin: u32,
    pub(crate) end: u64,
}

/// How many of these addresses, which rise, are at most this one.
fn count_upto(addresses: &[u32], address: u32) -> usize
    requires { IsNonDecreasing addresses.now }
    ensures within { result ≤ length addresses.now }
    ensures upto { (k : ℕ) → k < result → slice_index addresses.now k ≤ address }
    ensures above { (k : ℕ) → result ≤ k → k < length addresses.now → address < slice_index addresses.now k }
{
    addresses.partition_point(|it| *it <= address)
}

/// The last of so many of these addresses, the first ones, and 0 where there is none.
fn last_of(addresses: &[u32], count: usize) -> u32
    requires { count ≤ length addresses.now }
    ensures { result ≡ begin_at addresses.now count }
{
    if count == 0 { 0 } else { addresses[count - 1] }
}

/// The address behind so many of these, the first ones, and 2^32 where there is none.
fn next_of(addresses: &[u32], count: usize) -> u64
    ensures { result ≡ end_at addresses.now count }
{
    if count < addresses.len() {
        u64::from(addresses[count])
    } else {
        1 << 32
    }
}

/// The part in which an address lies, of those that begin at these addresses, which rise.
#[cold]
#[inline(never)]
fn part_around(addresses: &[u32], address: u32) -> Part
    requires { IsNonDecreasing addresses.now }
    ensures begin { result.begin ≤ address }
    ensures end { address < result.end }
    ensures part { IsPartOf addresses.now result }
{
    let count = count_upto(addresses, address);
    Part {
        begin: last_of(addresses, count),
        end: next_of(addresses, count),
    }
}

/// The addresses of symbols, in order.
fn sorted_addresses(alloc: Global, symbols: &[Symbol]) -> Result<Vec<u32>, AllocError>
    ensures same { IfOk result (λ found. (a : ℕ) → greatest_upto a found.items ≡ greatest_upto a (addresses_of (labels symbols.now))) }
    ensures rise { IfOk result (λ found. IsNonDecreasing found.items) }
{
    let mut addresses = Vec::new(alloc);
    for symbol in symbols {
        addresses.push(symbol.address)?;
    }
    addresses.sort_unstable();
    Ok(addresses)
}

/// The symbols of an object with their addresses in order, and the part that was looked up last. Contracts see the symbols.
#[derive(Drop)]
pub(crate) struct Parts<'s, 'b> {
    symbols: &'s [Symbol<'b>],
    addresses: Vec<u32>,
    last: Part,
}

impl<'s, 'b> Model for Parts<'s, 'b> {
    ghost use Rattle.std.specs.Prelude.{List};
    ghost use Rattle.rt_image.specs.ObjectFile.{Label, labels};
    ghost use Rattle.rt_waves.specs.Working.Ordered.{IsTable};

    ghost Value = { List Label };

    ghost view = { λ p. labels p.symbols.now };

    ghost invariant = { λ p. IsTable (labels p.symbols.now) p.addresses.items p.last };
}

impl<'s, 'b> Parts<'s, 'b> {
    /// The parts that these symbols make. All room that they need is taken here: 4 bytes for each symbol.
    ///
    /// # Errors
    ///
    /// There is no memory for it.
    pub(crate) fn new(alloc: Global, symbols: &'s [Symbol<'b>]) -> Result<Parts<'s, 'b>, AllocError>
        ensures { IfOk result (λ parts. parts ≡ labels symbols.now) }
    {
        let addresses = sorted_addresses(alloc, symbols)?;
        Ok(Parts {
            symbols,
            addresses,
            last: Part { begin: 0, end: 0 },
        })
    }

    /// Where the part of an address begins, and 0 where no symbol stands at it or below. Within the part that was looked up last
    /// it costs two comparisons.
    #[inline(always)]
    pub(crate) fn begin_of(&mut self, address: u32) -> u32
        ensures same { self.new ≡ self.old }
        ensures value { result ≡ part_begin self.old address }
    {
        if address < self.last.begin || self.last.end <= u64::from(address) {
            self.last = part_around(&self.addresses, address);
        }
        self.last.begin
    }
}
