//! The numbers of a source where they stand in an image.

ghost use Rattle.std.specs.Prelude.{◌≡◌, ◌∷◌, [], ℤ, unsigned_abs, ◌≤◌, IfOk};
ghost use Rattle.rt_isa.specs.Bits.{signed};
ghost use Rattle.rt_isa.specs.declared.instruction.Ins.{Ins};
ghost use Rattle.rt_asm.specs.Data.{zero_count, alignment};
ghost use Rattle.rt_words.specs.Modular.{modulo, difference32};
ghost use Rattle.rt_asm.specs.Numbers.{lower_part, upper_part};
ghost use Rattle.rt_asm.specs.Ranges.{within, immediates, uppers, shifts};
ghost use Rattle.rt_words.specs.Chain.{mapped};
ghost use Rattle.rt_asm.specs.Transfers.{branch_over, jump_over};

use crate::fault::AsmKind;
use crate::ranges::{BRANCHES, COUNTS, IMMEDIATES, JUMPS, POWERS, SHIFTS, UPPERS};
use rt_isa::{Imm12, Off13, Off21, Shamt, Upper20};

/// A number modulo 2^8.
pub fn low_byte(number: i64) -> u8
    ensures { result ≡ modulo 8 number }
{
    number.rem_euclid(1 << 8) as u8
}

/// A number modulo 2^16.
pub fn low_half(number: i64) -> u16
    ensures { result ≡ modulo 16 number }
{
    number.rem_euclid(1 << 16) as u16
}

/// A number modulo 2^32.
pub fn low_word(number: i64) -> u32
    ensures { result ≡ modulo 32 number }
{
    number.rem_euclid(1 << 32) as u32
}

/// The number below 2^32 with its sign.
#[tactic(auto, unfolding(rt_isa::specs::Bits::signed))]
pub fn signed(number: u32) -> i64
    ensures { result ≡ signed 32 number }
{
    let number = i64::from(number);
    if number < 1 << 31 {
        number
    } else {
        number - (1 << 32)
    }
}

/// A signed 12-bit immediate.
pub fn immediate(number: i64) -> Result<Imm12, AsmKind>
    ensures { result ≡ within immediates number }
{
    let number = IMMEDIATES.within(number)?;
    Ok(Imm12::new(number as i16).unwrap())
}

/// The upper 20 bits of a word, 0 to 1048575.
pub fn upper_bits(number: i64) -> Result<Upper20, AsmKind>
    ensures { result ≡ mapped unsigned_abs (within uppers number) }
{
    let number = UPPERS.within(number)?;
    Ok(Upper20::new(number as u32).unwrap())
}

/// A shift amount, 0 to 31.
pub fn shift_amount(number: i64) -> Result<Shamt, AsmKind>
    ensures { result ≡ mapped unsigned_abs (within shifts number) }
{
    let number = SHIFTS.within(number)?;
    Ok(Shamt::new(number as u8).unwrap())
}

/// The distance of a branch, with sign; even, -4096 to 4095.
#[tactic(auto, unfolding(rt_isa::specs::Bits::signed))]
pub fn branch_distance(distance: u32) -> Result<Off13, AsmKind>
    ensures { (make : ℤ → Ins) → branch_over make distance ≡ mapped (λ i. make i ∷ []) result }
{
    let number = BRANCHES.within(signed(distance))?;
    if distance % 2 == 0 {
        Ok(Off13::new(number as i16).unwrap())
    } else {
        Err(AsmKind::OddTarget)
    }
}

/// The distance of a jump, with sign; even, -1048576 to 1048575.
#[tactic(auto, unfolding(rt_isa::specs::Bits::signed))]
pub fn jump_distance(distance: u32) -> Result<Off21, AsmKind>
    ensures { (make : ℤ → Ins) → jump_over make distance ≡ mapped (λ i. make i ∷ []) result }
{
    let number = JUMPS.within(signed(distance))?;
    if distance % 2 == 0 {
        Ok(Off21::new(number as i32).unwrap())
    } else {
        Err(AsmKind::OddTarget)
    }
}

/// The upper 20 bits, as LUI and AUIPC have them, of a number that a second instruction completes.
pub fn upper_part(number: u32) -> Upper20
    ensures { result ≡ upper_part number }
{
    let upper = ((u64::from(number) + 0x800) >> 12) % (1 << 20);
    Upper20::new(upper as u32).unwrap()
}

/// What the second instruction adds: the low 12 bits with their sign.
#[tactic(auto, unfolding(rt_isa::specs::Bits::signed))]
pub fn lower_part(number: u32) -> Imm12
    ensures { result ≡ lower_part number }
{
    let low = (number % (1 << 12)) as i16;
    let value = if low < 1 << 11 { low } else { low - (1 << 12) };
    Imm12::new(value).unwrap()
}

/// How far an address is from a place, modulo 2^32.
pub fn distance(place: u32, address: u32) -> u32
    ensures { result ≡ difference32 address place }
{
    address.wrapping_sub(place)
}

/// The count of `.zero`, 0 to 1048576.
pub fn zero_count(number: i64) -> Result<u32, AsmKind>
    ensures { result ≡ zero_count number }
{
    Ok(COUNTS.within(number)? as u32)
}

/// The power of 2 of `.align`, 0 to 12.
pub fn alignment(number: i64) -> Result<u32, AsmKind>
    ensures value { result ≡ alignment number }
    ensures in_range { IfOk result (λ power. power ≤ 12) }
{
    Ok(POWERS.within(number)? as u32)
}
