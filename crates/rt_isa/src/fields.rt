//! The fields of a word.

ghost use Rattle.std.specs.Prelude.{◌≡◌, ◌<◌, ◌^◌, ◌*◌};
ghost use Rattle.rt_isa.specs.Bits.{signed};
ghost use Rattle.rt_isa.specs.Fields as isa;

use crate::number::{Imm12, Off13, Off21, Order12, Reg, Shamt, Upper20};

#[inline]
pub fn rd(word: u32) -> Reg
    ensures { result ≡ isa.rd word }
{
    Reg {
        number: ((word >> 7) & 31) as u8,
    }
}

#[inline]
pub fn rs1(word: u32) -> Reg
    ensures { result ≡ isa.rs1 word }
{
    Reg {
        number: ((word >> 15) & 31) as u8,
    }
}

#[inline]
pub fn rs2(word: u32) -> Reg
    ensures { result ≡ isa.rs2 word }
{
    Reg {
        number: ((word >> 20) & 31) as u8,
    }
}

#[inline]
pub fn shamt(word: u32) -> Shamt
    ensures { result ≡ isa.shamt word }
{
    Shamt {
        bits: ((word >> 20) & 31) as u8,
    }
}

#[inline]
pub fn order(word: u32) -> Order12
    ensures { result ≡ isa.order word }
{
    Order12 {
        value: (word >> 20) as u16,
    }
}

#[inline]
pub fn upper(word: u32) -> Upper20
    ensures { result ≡ isa.u_immediate word }
{
    Upper20 { value: word >> 12 }
}

/// The immediate that 12 bits stand for.
#[inline]
#[tactic(auto, unfolding(crate::specs::Bits::signed))]
fn immediate(bits: u32) -> Imm12
    requires { bits < 2 ^ 12 }
    ensures { result ≡ signed 12 bits }
{
    let value = if bits < 2048 {
        bits as i16
    } else {
        bits as i16 - 4096
    };
    Imm12 { value }
}

#[inline]
pub fn i_immediate(word: u32) -> Imm12
    ensures { result ≡ isa.i_immediate word }
{
    immediate(word >> 20)
}

#[inline]
pub fn s_immediate(word: u32) -> Imm12
    ensures { result ≡ isa.s_immediate word }
{
    immediate((word >> 25) * 32 + ((word >> 7) & 31))
}

/// The distance that 13 bits stand for, the lowest of them 0.
#[inline]
#[tactic(auto, unfolding(crate::specs::Bits::signed))]
fn branch_offset(half: u32) -> Off13
    requires { half < 2 ^ 12 }
    ensures { result ≡ signed 13 (half * 2) }
{
    let value = if half < 2048 {
        half as i16 * 2
    } else {
        half as i16 * 2 - 8192
    };
    Off13 { value }
}

#[inline]
pub fn b_immediate(word: u32) -> Off13
    ensures { result ≡ isa.b_immediate word }
{
    let high = (word >> 31) * 2048 + ((word >> 7) & 1) * 1024;
    let low = ((word >> 25) & 63) * 16 + ((word >> 8) & 15);
    branch_offset(high + low)
}

/// The distance that 21 bits stand for, the lowest of them 0.
#[inline]
#[tactic(auto, unfolding(crate::specs::Bits::signed))]
fn jump_offset(half: u32) -> Off21
    requires { half < 2 ^ 20 }
    ensures { result ≡ signed 21 (half * 2) }
{
    let value = if half < 524_288 {
        half as i32 * 2
    } else {
        half as i32 * 2 - 2_097_152
    };
    Off21 { value }
}

#[inline]
pub fn j_immediate(word: u32) -> Off21
    ensures { result ≡ isa.j_immediate word }
{
    let high = (word >> 31) * 524_288 + ((word >> 12) & 255) * 2048;
    let low = ((word >> 20) & 1) * 1024 + ((word >> 21) & 1023);
    jump_offset(high + low)
}
