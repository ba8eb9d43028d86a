//! What a word accesses.

ghost use Rattle.std.specs.Prelude.{◌≡◌, ℕ, slice_index, List, None, true, false};
ghost use Rattle.rt_words.specs.Modular.{sum32};
ghost use Rattle.rt_exec.specs.Arithmetic.{extended};
ghost use Rattle.rt_points.specs.Access.{accessed, access_of};

use rt_isa::{Imm12, Ins, Reg, decode};

/// A load or a store of some bytes, in the order of their addresses, which wrap at 2^32.
#[derive(Clone, Copy, Debug, PartialEq, Eq)]
pub struct Access {
    pub is_store: bool,
    /// The first byte's address.
    pub address: u32,
    /// How many bytes.
    pub bytes: u32,
}

/// The address that an immediate displaces a register to.
#[inline]
fn address(x: &[u32; 32], base: Reg, offset: Imm12) -> u32
    ensures { result ≡ sum32 (slice_index x.now base) (extended offset) }
{
    x[base.number() as usize].wrapping_add(i32::from(offset.value()).cast_unsigned())
}

/// A load of so many bytes.
#[inline]
fn load(bytes: u32, address: u32) -> Access
    ensures { result ≡ record { is_store = false; address = address; bytes = bytes } }
{
    Access {
        is_store: false,
        address,
        bytes,
    }
}

/// A store of so many bytes.
#[inline]
fn store(bytes: u32, address: u32) -> Access
    ensures { result ≡ record { is_store = true; address = address; bytes = bytes } }
{
    Access {
        is_store: true,
        address,
        bytes,
    }
}

/// The bytes that an instruction loads or stores where it is executed with these registers; none where it is no load and no store.
/// Allocates nothing.
pub fn accessed(x: &[u32; 32], instruction: Ins) -> Option<Access>
    ensures { result ≡ accessed x.now instruction }
{
    match instruction {
        Ins::Lb(_, base, offset) => Some(load(1, address(x, base, offset))),
        Ins::Lh(_, base, offset) => Some(load(2, address(x, base, offset))),
        Ins::Lw(_, base, offset) => Some(load(4, address(x, base, offset))),
        Ins::Lbu(_, base, offset) => Some(load(1, address(x, base, offset))),
        Ins::Lhu(_, base, offset) => Some(load(2, address(x, base, offset))),
        Ins::Sb(base, _, offset) => Some(store(1, address(x, base, offset))),
        Ins::Sh(base, _, offset) => Some(store(2, address(x, base, offset))),
        Ins::Sw(base, _, offset) => Some(store(4, address(x, base, offset))),
        _ => None,
    }
}

/// Whether a word may be a load or a store, by its opcode alone: where it may not, `access_of` finds none. Allocates nothing.
#[inline(always)]
pub fn may_access(word: u32) -> bool
    ensures { result ≡ false → (x : List ℕ) → access_of word x ≡ None }
{
    match word & 0x7f {
        0x03 => true,
        0x23 => true,
        _ => false,
    }
}

/// The bytes that a word loads or stores where it is executed with these registers; none where it is no load and no store.
/// Allocates nothing.
pub fn access_of(word: u32, x: &[u32; 32]) -> Option<Access>
    ensures { result ≡ access_of word x.now }
{
    accessed(x, decode(word)?)
}
