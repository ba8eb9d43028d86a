//! The bytes of directives.

ghost use Rattle.std.specs.Prelude.{◌≡◌, ◌++◌, ◌<◌, ◌≤◌, ◌^◌, OnOk, Ok, replicate};
ghost use Rattle.std.specs.List.{flat_map};
ghost use Rattle.byteorder.specs.Endian.{little_bytes};
ghost use Rattle.rt_asm.specs.Data.{each_item, byte_item, half_item, word_item, gap, padding, zero_count, alignment, end_of_text, data_of};
ghost use Rattle.rt_asm.specs.Working.Emission.{Appends};
ghost use Rattle.rt_words.specs.Chain.{mapped};

use crate::fault::{AsmKind, StepFault};
use crate::labels::Labels;
use crate::numbers::{alignment, low_byte, low_half, zero_count};
use crate::ranges::{BYTES, HALVES};
use rt_text::{Directive, Target, TextOp};
use std::alloc::AllocError;

/// Appends the bytes of a directive that stands at a place.
pub fn push_data(
    out: &mut Vec<u8>,
    labels: &Labels,
    place: u32,
    directive: &Directive,
) -> Result<(), StepFault>
    ensures { Appends out.old.items out.new.items (data_of labels.now place directive.now) result }
{
    match directive {
        Directive::Nothing => Ok(()),
        Directive::Bytes(numbers) => push_bytes(out, numbers.items()),
        Directive::Halves(numbers) => push_halves(out, numbers.items()),
        Directive::Words(targets) => push_words(out, labels, targets.items()),
        Directive::Zero(count) => push_zero(out, *count),
        Directive::Align(power) => push_align(out, place, *power),
        Directive::Text(op, text) => push_text(out, *op, text.bytes()),
    }
}

fn push_bytes(out: &mut Vec<u8>, numbers: &[i64]) -> Result<(), StepFault>
    ensures { Appends out.old.items out.new.items (each_item byte_item numbers.now) result }
{
    for number in numbers {
        let byte = byte_item(*number)?;
        out.extend_from_slice(&byte.to_le_bytes())?;
    }
    Ok(())
}

/// An item of `.byte`, -128 to 255, as its byte.
fn byte_item(number: i64) -> Result<u8, AsmKind>
    ensures { byte_item number ≡ mapped (λ n. little_bytes 1 n) result }
{
    Ok(low_byte(BYTES.within(number)?))
}

/// An item of `.half`, -32768 to 65535, as its two bytes.
fn half_item(number: i64) -> Result<u16, AsmKind>
    ensures { half_item number ≡ mapped (λ n. little_bytes 2 n) result }
{
    Ok(low_half(HALVES.within(number)?))
}

fn push_halves(out: &mut Vec<u8>, numbers: &[i64]) -> Result<(), StepFault>
    ensures { Appends out.old.items out.new.items (each_item half_item numbers.now) result }
{
    for number in numbers {
        let half = half_item(*number)?;
        out.extend_from_slice(&half.to_le_bytes())?;
    }
    Ok(())
}

fn push_words(out: &mut Vec<u8>, labels: &Labels, targets: &[Target]) -> Result<(), StepFault>
    ensures { Appends out.old.items out.new.items (each_item (word_item labels.now) targets.now) result }
{
    for target in targets {
        let word = labels.number_of(target)?;
        out.extend_from_slice(&word.to_le_bytes())?;
    }
    Ok(())
}

fn push_zero(out: &mut Vec<u8>, count: i64) -> Result<(), StepFault>
    ensures { Appends out.old.items out.new.items (mapped (λ n. replicate n 0) (zero_count count)) result }
{
    push_zeros(out, zero_count(count)?)?;
    Ok(())
}

fn push_zeros(out: &mut Vec<u8>, count: u32) -> Result<(), AllocError>
    ensures { OnOk result (out.new.items ≡ out.old.items ++ replicate count 0) }
{
    let length = out.len() + count as usize;
    out.resize(length, 0)
}

fn push_align(out: &mut Vec<u8>, place: u32, power: i64) -> Result<(), StepFault>
    ensures { Appends out.old.items out.new.items (mapped (λ n. padding n place) (alignment power)) result }
{
    push_padding(out, alignment(power)?, place)?;
    Ok(())
}

/// Appends what stands up to the next multiple of 2^power, power at most 12.
fn push_padding(out: &mut Vec<u8>, power: u32, place: u32) -> Result<(), AllocError>
    requires { power ≤ 12 }
    ensures { OnOk result (out.new.items ≡ out.old.items ++ padding power place) }
{
    let whole = gap(1 << power, place);
    let zeros = gap(4, place).min(whole);
    push_zeros(out, zeros)?;
    push_nops(out, (whole - zeros) / 4)
}

/// How many bytes the next multiple of m is away.
pub fn gap(m: u32, place: u32) -> u32
    requires { 0 < m }
    ensures value { result ≡ gap m place }
    ensures below { result < m }
{
    (m - place % m) % m
}

fn push_nops(out: &mut Vec<u8>, count: u32) -> Result<(), AllocError>
    ensures { OnOk result (out.new.items ≡ out.old.items ++ flat_map (little_bytes 4) (replicate count 0x13)) }
{
    for _ in 0..count {
        out.extend_from_slice(&[0x13, 0, 0, 0])?;
    }
    Ok(())
}

/// Appends the bytes of a string.
fn push_text(out: &mut Vec<u8>, op: TextOp, text: &[u8]) -> Result<(), StepFault>
    ensures { Appends out.old.items out.new.items (Ok (text.now ++ end_of_text op)) result }
{
    out.extend_from_slice(text)?;
    match op {
        TextOp::Ascii => {}
        TextOp::Asciz => out.push(0)?,
    }
    Ok(())
}
