//! The bytes of a task, with their loads and stores.

ghost use Rattle.std.specs.Prelude.{◌≡◌, ℕ, ◌-◌, ◌<◌, ◌≤◌, ◌↔◌, ◌++◌, Bool, true, false, List, length, drop, replicate, IfOk, IfSome, OnOk, IsErrOf};
ghost use Rattle.std.specs.Option.{option_copied};
ghost use Rattle.rt_words.specs.Base.{base};
ghost use Rattle.rt_words.specs.Found.{Finds};
ghost use Rattle.rt_words.specs.Limits.{is_ram_size as allows_ram};
ghost use Rattle.rt_exec.specs.mem.Access.{load, store, Leaves};
ghost use Rattle.rt_exec.specs.mem.Span.{span};

use crate::mem::access_fault::AccessFault;
use crate::mem::new_ram_fault::NewRamFault;
use rt_words::{RAM_BASE, is_ram_size};
use std::alloc::{AllocError, Global};
use std::marker::Model;

/// The bytes of one task, at the addresses from [`RAM_BASE`] on. Contracts see the list of the bytes.
#[derive(Drop)]
pub struct Ram {
    bytes: Vec<u8>,
}

impl Model for Ram {
    ghost use Rattle.std.specs.Prelude.{◌≡◌, true, List, ℕ, length};
    ghost use Rattle.rt_words.specs.Limits.{is_ram_size};

    ghost Value = { List ℕ };

    ghost view = { λ ram. ram.bytes.items };

    ghost invariant = { λ ram. is_ram_size (length ram.bytes.items) ≡ true };
}

/// How far an address lies above [`RAM_BASE`], in bytes. An address below it gives more than [`MAX_RAM`](rt_words::MAX_RAM).
#[inline]
fn offset_of(address: u32) -> usize
    ensures above { base ≤ address → result ≡ address - base }
    ensures below { address < base → 2147483648 ≤ result }
    ensures bound { result < 4294967296 }
{
    address.wrapping_sub(RAM_BASE) as usize
}

/// Lends the `count` bytes from an address on, of bytes that begin at [`RAM_BASE`], whatever its alignment; none where they
/// aren't all there. No bytes are lent at every address. Takes no memory.
pub fn span(bytes: &[u8], address: u32, count: u64) -> Option<&[u8]>
    ensures finds { Finds (λ x. x.now) result (span bytes.now address count) }
    ensures size { IfSome result (λ x. length x.now ≡ count) }
{
    if count == 0 {
        return Some(&[]);
    }
    if address < RAM_BASE {
        return None;
    }
    let start = (address - RAM_BASE) as usize;
    if start > bytes.len() || count > (bytes.len() - start) as u64 {
        return None;
    }
    Some(&bytes[start..start + count as usize])
}

/// Writes an image over the first bytes, and leaves the others.
fn write_front(bytes: &mut [u8], image: &[u8])
    requires { length image.now ≤ length bytes.old }
    ensures { bytes.new ≡ image.now ++ drop (length image.now) bytes.old }
{
    bytes[..image.len()].copy_from_slice(image);
}

impl Ram {
    /// Makes a RAM of `size` zero bytes. The size is a multiple of 4 from 4 to [`MAX_RAM`](rt_words::MAX_RAM), else the
    /// answer is `BadSize`, which is tested before any memory is asked for.
    pub fn new(alloc: Global, size: u32) -> Result<Ram, NewRamFault>
        ensures zeros { IfOk result (λ ram. ram ≡ replicate size 0) }
        ensures size { OnOk result (allows_ram size ≡ true) }
        ensures bad_size { IsErrOf result NewRamFault.BadSize ↔ (allows_ram size ≡ false) }
        ensures no_memory { IsErrOf result NewRamFault.NoMemory → allows_ram size ≡ true }
    {
        if !is_ram_size(size) {
            return Err(NewRamFault::BadSize);
        }
        let bytes = vec![in alloc; 0u8; size as usize]?;
        Ok(Ram { bytes })
    }

    /// How many bytes the RAM has.
    #[inline]
    pub fn len(&self) -> u32
        ensures count { result ≡ length self.now }
        ensures size { allows_ram result ≡ true }
    {
        self.bytes.len() as u32
    }

    /// Loads the byte at an address. Takes no memory.
    #[inline]
    #[tactic(auto, unfolding(crate::specs::mem::Access::load, crate::specs::mem::Access::number))]
    pub fn load8(&self, address: u32) -> Result<u8, AccessFault>
        ensures { (split : Bool) → result ≡ load split 1 self.now address }
    {
        let offset = offset_of(address);
        if offset >= self.bytes.len() {
            return Err(AccessFault::LoadAccess);
        }
        Ok(self.bytes[offset])
    }

    /// Loads two bytes, low byte first, from a multiple of 2. Takes no memory.
    #[inline]
    #[tactic(auto, unfolding(crate::specs::mem::Access::load, crate::specs::mem::Access::number))]
    pub fn load16(&self, address: u32) -> Result<u16, AccessFault>
        ensures { result ≡ load false 2 self.now address }
    {
        if address % 2 != 0 {
            return Err(AccessFault::LoadMisaligned);
        }
        self.load16_any(address)
    }

    /// Loads two bytes, low byte first, whatever the alignment of their address. Takes no memory.
    #[inline]
    #[tactic(auto, unfolding(crate::specs::mem::Access::load, crate::specs::mem::Access::number))]
    pub fn load16_any(&self, address: u32) -> Result<u16, AccessFault>
        ensures { result ≡ load true 2 self.now address }
    {
        let offset = offset_of(address);
        if offset + 2 > self.bytes.len() {
            return Err(AccessFault::LoadAccess);
        }
        Ok(u16::from_le_bytes([self.bytes[offset], self.bytes[offset + 1]]))
    }

    /// Loads four bytes, low byte first, from a multiple of 4. Takes no memory.
    #[inline]
    #[tactic(auto, unfolding(crate::specs::mem::Access::load, crate::specs::mem::Access::number))]
    pub fn load32(&self, address: u32) -> Result<u32, AccessFault>
        ensures { result ≡ load false 4 self.now address }
    {
        if address % 4 != 0 {
            return Err(AccessFault::LoadMisaligned);
        }
        self.load32_any(address)
    }

    /// Loads four bytes, low byte first, whatever the alignment of their address. Takes no memory.
    #[inline]
    #[tactic(auto, unfolding(crate::specs::mem::Access::load, crate::specs::mem::Access::number))]
    pub fn load32_any(&self, address: u32) -> Result<u32, AccessFault>
        ensures { result ≡ load true 4 self.now address }
    {
        let offset = offset_of(address);
        if offset + 4 > self.bytes.len() {
            return Err(AccessFault::LoadAccess);
        }
        Ok(u32::from_le_bytes([
            self.bytes[offset],
            self.bytes[offset + 1],
            self.bytes[offset + 2],
            self.bytes[offset + 3],
        ]))
    }

    /// Stores a byte. Takes no memory, and a fault changes nothing.
    #[inline]
    #[tactic(auto, unfolding(crate::specs::mem::Access::store, crate::specs::mem::Access::put))]
    pub fn store8(&mut self, address: u32, value: u8) -> Result<(), AccessFault>
        ensures { (split : Bool) → Leaves result (store split 1 self.old address value) self.old self.new }
    {
        let offset = offset_of(address);
        if offset >= self.bytes.len() {
            return Err(AccessFault::StoreAccess);
        }
        self.bytes[offset] = value;
        Ok(())
    }

    /// Stores two bytes, low byte first, at a multiple of 2. Takes no memory, and a fault changes nothing.
    #[inline]
    #[tactic(auto, unfolding(crate::specs::mem::Access::store, crate::specs::mem::Access::put))]
    pub fn store16(&mut self, address: u32, value: u16) -> Result<(), AccessFault>
        ensures { Leaves result (store false 2 self.old address value) self.old self.new }
    {
        if address % 2 == 1 {
            return Err(AccessFault::StoreMisaligned);
        }
        self.store16_any(address, value)
    }

    /// Stores two bytes, low byte first, whatever the alignment of their address. Takes no memory, and a
    /// fault changes nothing.
    #[inline]
    #[tactic(auto, unfolding(crate::specs::mem::Access::store, crate::specs::mem::Access::put))]
    pub fn store16_any(&mut self, address: u32, value: u16) -> Result<(), AccessFault>
        ensures { Leaves result (store true 2 self.old address value) self.old self.new }
    {
        let [low, high] = value.to_le_bytes();
        let offset = offset_of(address);
        if offset + 2 > self.bytes.len() {
            return Err(AccessFault::StoreAccess);
        }
        self.bytes[offset] = low;
        self.bytes[offset + 1] = high;
        Ok(())
    }

    /// Stores four bytes, low byte first, at a multiple of 4. Takes no memory, and a fault changes nothing.
    #[inline]
    #[tactic(auto, unfolding(crate::specs::mem::Access::store, crate::specs::mem::Access::put))]
    pub fn store32(&mut self, address: u32, value: u32) -> Result<(), AccessFault>
        ensures { Leaves result (store false 4 self.old address value) self.old self.new }
    {
        if address % 4 != 0 {
            return Err(AccessFault::StoreMisaligned);
        }
        self.store32_any(address, value)
    }

    /// Stores four bytes, low byte first, whatever the alignment of their address. Takes no memory, and a
    /// fault changes nothing.
    #[inline]
    #[tactic(auto, unfolding(crate::specs::mem::Access::store, crate::specs::mem::Access::put))]
    pub fn store32_any(&mut self, address: u32, value: u32) -> Result<(), AccessFault>
        ensures { Leaves result (store true 4 self.old address value) self.old self.new }
    {
        let [first, second, third, fourth] = value.to_le_bytes();
        let offset = offset_of(address);
        if offset + 4 > self.bytes.len() {
            return Err(AccessFault::StoreAccess);
        }
        self.bytes[offset] = first;
        self.bytes[offset + 1] = second;
        self.bytes[offset + 2] = third;
        self.bytes[offset + 3] = fourth;
        Ok(())
    }

    /// Lends the `count` bytes from an address on, whatever its alignment; none where they aren't all
    /// in RAM. No bytes are lent at every address. Takes no memory.
    pub fn slice(&self, address: u32, count: u32) -> Option<&[u8]>
        ensures { option_copied result ≡ span self.now address count }
    {
        span(&self.bytes, address, u64::from(count))
    }

    /// Writes an image over the first bytes, and leaves the others. Takes no memory.
    pub fn place(&mut self, image: &[u8])
        requires { length image.now ≤ length self.old }
        ensures { self.new ≡ image.now ++ drop (length image.now) self.old }
    {
        write_front(&mut self.bytes, image);
    }

    /// All bytes. Takes no memory.
    #[inline]
    pub fn bytes(&self) -> &[u8]
        ensures { result.now ≡ self.now }
    {
        &self.bytes
    }

    /// Makes a RAM of the same bytes, with the allocator of this one.
    pub fn copy(&self) -> Result<Ram, AllocError>
        ensures { IfOk result (λ ram. ram ≡ self.now) }
    {
        let bytes = Vec::from_slice(*self.bytes.allocator(), &self.bytes)?;
        Ok(Ram { bytes })
    }
}
