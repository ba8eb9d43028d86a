//! Operands read one by one: `r` a register, `n` a number, `t` a target, `m` a memory operand.

ghost use Rattle.std.specs.Prelude.{◌≡◌};
ghost use Rattle.rt_text.specs.Shapes.{register, number_in, target_in, memory_in, fence_set, word_in, text_in, one, two, three};

use super::Target;
use crate::fence_set::FenceSet;
use crate::names::{fence_set_of, register_of};
use crate::operands::{Memory, Operand};
use rt_isa::Reg;
use rt_token::Piece;

pub(crate) fn register(operand: &Operand<'_>) -> Option<Reg>
    ensures { result ≡ register operand.now }
{
    match operand {
        Operand::Word(name) => register_of(name.text()),
        _ => None,
    }
}

pub(crate) fn number_in(operand: &Operand<'_>) -> Option<i64>
    ensures { result ≡ number_in operand.now }
{
    match operand {
        Operand::Number(_, value) => Some(*value),
        _ => None,
    }
}

pub(crate) fn target_in<'a>(operand: &Operand<'a>) -> Option<Target<'a>>
    ensures { result ≡ target_in operand.now }
{
    match operand {
        Operand::Word(label) => Some(Target::Label(label.same())),
        Operand::Number(_, value) => Some(Target::Number(*value)),
        _ => None,
    }
}

pub(crate) fn memory_in(operand: &Operand<'_>) -> Option<Memory>
    ensures { result ≡ memory_in operand.now }
{
    match operand {
        Operand::Memory(_, memory) => Some(*memory),
        _ => None,
    }
}

pub(crate) fn fence_set(operand: &Operand<'_>) -> Option<FenceSet>
    ensures { result ≡ fence_set operand.now }
{
    match operand {
        Operand::Word(name) => fence_set_of(name.text()),
        _ => None,
    }
}

pub(crate) fn word_in<'a>(operand: &Operand<'a>) -> Option<Piece<'a>>
    ensures { result ≡ word_in operand.now }
{
    match operand {
        Operand::Word(word) => Some(word.same()),
        _ => None,
    }
}

pub(crate) fn text_in<'a>(operand: &Operand<'a>) -> Option<Piece<'a>>
    ensures { result ≡ text_in operand.now }
{
    match operand {
        Operand::Text(text) => Some(text.same()),
        _ => None,
    }
}

/// One number.
pub(super) fn number_alone(operands: &[Operand<'_>]) -> Option<i64>
    ensures { result ≡ one number_in operands.now }
{
    match operands {
        [only] => number_in(only),
        _ => None,
    }
}

/// One word.
pub(super) fn word_alone<'a>(operands: &[Operand<'a>]) -> Option<Piece<'a>>
    ensures { result ≡ one word_in operands.now }
{
    match operands {
        [only] => word_in(only),
        _ => None,
    }
}

/// One string, with its quotes.
pub(super) fn text_alone<'a>(operands: &[Operand<'a>]) -> Option<Piece<'a>>
    ensures { result ≡ one text_in operands.now }
{
    match operands {
        [only] => text_in(only),
        _ => None,
    }
}

/// `r`
pub(super) fn register_alone(operands: &[Operand<'_>]) -> Option<Reg>
    ensures { result ≡ one register operands.now }
{
    match operands {
        [only] => register(only),
        _ => None,
    }
}

/// `t`
pub(super) fn target_alone<'a>(operands: &[Operand<'a>]) -> Option<Target<'a>>
    ensures { result ≡ one target_in operands.now }
{
    match operands {
        [only] => target_in(only),
        _ => None,
    }
}

/// `r,r`
pub(super) fn two_registers(operands: &[Operand<'_>]) -> Option<(Reg, Reg)>
    ensures { result ≡ two register register operands.now }
{
    match operands {
        [first, second] => Some((register(first)?, register(second)?)),
        _ => None,
    }
}

/// `r,n`
pub(super) fn register_number(operands: &[Operand<'_>]) -> Option<(Reg, i64)>
    ensures { result ≡ two register number_in operands.now }
{
    match operands {
        [first, second] => Some((register(first)?, number_in(second)?)),
        _ => None,
    }
}

/// `r,t`
pub(super) fn register_target<'a>(operands: &[Operand<'a>]) -> Option<(Reg, Target<'a>)>
    ensures { result ≡ two register target_in operands.now }
{
    match operands {
        [first, second] => Some((register(first)?, target_in(second)?)),
        _ => None,
    }
}

/// `r,m`
pub(super) fn register_memory(operands: &[Operand<'_>]) -> Option<(Reg, Memory)>
    ensures { result ≡ two register memory_in operands.now }
{
    match operands {
        [first, second] => Some((register(first)?, memory_in(second)?)),
        _ => None,
    }
}

/// Two fence sets.
pub(super) fn two_fence_sets(operands: &[Operand<'_>]) -> Option<(FenceSet, FenceSet)>
    ensures { result ≡ two fence_set fence_set operands.now }
{
    match operands {
        [before, after] => Some((fence_set(before)?, fence_set(after)?)),
        _ => None,
    }
}

/// `r,r,r`
pub(super) fn three_registers(operands: &[Operand<'_>]) -> Option<(Reg, Reg, Reg)>
    ensures { result ≡ three register register register operands.now }
{
    match operands {
        [first, second, third] => Some((register(first)?, register(second)?, register(third)?)),
        _ => None,
    }
}

/// `r,r,n`
pub(super) fn two_registers_number(operands: &[Operand<'_>]) -> Option<(Reg, Reg, i64)>
    ensures { result ≡ three register register number_in operands.now }
{
    match operands {
        [first, second, third] => Some((register(first)?, register(second)?, number_in(third)?)),
        _ => None,
    }
}

/// `r,r,t`
pub(super) fn two_registers_target<'a>(operands: &[Operand<'a>]) -> Option<(Reg, Reg, Target<'a>)>
    ensures { result ≡ three register register target_in operands.now }
{
    match operands {
        [first, second, third] => Some((register(first)?, register(second)?, target_in(third)?)),
        _ => None,
    }
}
