//! The attempt at which a task faulted.

use crate::extension::extension_of;
use crate::place::Place;
use rt_core::View;
use rt_exec::Fault;
use rt_image::Task;
use rt_isa::{Imm12, Ins, Reg, decode, disasm};
use rt_words::RAM_BASE;
use std::alloc::AllocError;

/// The number of a7, which has the number of a call.
const A7: usize = 17;

/// An attempt that faulted: nothing has changed since, so the task shows it.
#[derive(Clone, Copy)]
pub(crate) struct Attempt<'a> {
    pub(crate) fault: Fault,
    pub(crate) view: View<'a>,
    /// The bytes of RAM.
    pub(crate) ram: u32,
}

/// The word at an address of RAM, if its four bytes are all there.
pub(crate) fn word_at(ram: &[u8], address: u32) -> Option<u32> {
    let place = address.checked_sub(RAM_BASE)? as usize;
    match ram.get(place..)? {
        [first, second, third, fourth, ..] => {
            Some(u32::from_le_bytes([*first, *second, *third, *fourth]))
        }
        _ => None,
    }
}

/// The address that a base and an offset make.
fn address_of(x: &[u32; 32], base: Reg, offset: Imm12) -> u32 {
    let base = x.get(base.number() as usize).copied().unwrap_or(0);
    base.wrapping_add_signed(i32::from(offset.value()))
}

/// The address that an instruction at this pc loads from, stores to or jumps to.
fn meant_by(instruction: Ins, pc: u32, x: &[u32; 32]) -> Option<u32> {
    match instruction {
        Ins::Lb(_, base, offset)
        | Ins::Lh(_, base, offset)
        | Ins::Lw(_, base, offset)
        | Ins::Lbu(_, base, offset)
        | Ins::Lhu(_, base, offset)
        | Ins::Sb(base, _, offset)
        | Ins::Sh(base, _, offset)
        | Ins::Sw(base, _, offset) => Some(address_of(x, base, offset)),
        Ins::Jalr(_, base, offset) => Some(address_of(x, base, offset) & !1),
        Ins::Jal(_, offset) => Some(pc.wrapping_add_signed(offset.value())),
        Ins::Beq(_, _, offset)
        | Ins::Bne(_, _, offset)
        | Ins::Blt(_, _, offset)
        | Ins::Bge(_, _, offset)
        | Ins::Bltu(_, _, offset)
        | Ins::Bgeu(_, _, offset) => Some(pc.wrapping_add_signed(i32::from(offset.value()))),
        _ => None,
    }
}

/// How many bytes an address must be a multiple of.
fn alignment_of(instruction: &Ins) -> u32 {
    match *instruction {
        Ins::Lh(..) | Ins::Lhu(..) | Ins::Sh(..) => 2,
        _ => 4,
    }
}

impl<'a> Attempt<'a> {
    /// The span of RAM, behind a comma.
    fn push_ram(&self, line: &mut String) -> Result<(), AllocError> {
        let last = RAM_BASE.wrapping_add(self.ram.saturating_sub(1));
        line.write(format_args!(", RAM {RAM_BASE:08x} to {last:08x}"))
    }

    /// What the instruction of this word meant.
    fn push_meaning(&self, line: &mut String, word: u32) -> Result<(), AllocError> {
        let pc = self.view.pc;
        disasm(pc, word, line)?;
        let Some(instruction) = decode(word) else {
            return Ok(());
        };
        let size = alignment_of(&instruction);
        let Some(address) = meant_by(instruction, pc, self.view.x) else {
            return Ok(());
        };
        line.write(format_args!(": {address:08x}"))?;
        match self.fault {
            Fault::LoadAccess | Fault::StoreAccess => self.push_ram(line),
            _ => line.write(format_args!(", no multiple of {size}")),
        }
    }

    /// Why the word at pc is no instruction.
    fn push_illegal(&self, line: &mut String, word: u32) -> Result<(), AllocError> {
        if word == 0 {
            return line.push_str("00000000, no instruction: past the program's end?");
        }
        match extension_of(word) {
            Some(extension) => line.write(format_args!("{word:08x} ({extension})")),
            None => line.write(format_args!("{word:08x}, no instruction")),
        }
    }

    /// The instruction and what is wrong with it.
    fn push_cause(&self, line: &mut String) -> Result<(), AllocError> {
        let Some(word) = word_at(self.view.ram, self.view.pc) else {
            line.push_str("no instruction there")?;
            return self.push_ram(line);
        };
        match self.fault {
            Fault::Illegal => self.push_illegal(line, word),
            Fault::Break => line.push_str("ebreak"),
            Fault::UnknownCall => {
                let number = self.view.x[A7];
                line.write(format_args!("ecall {number} in a7, calls are 0 to 5"))
            }
            _ => self.push_meaning(line, word),
        }
    }

    /// Appends the line of this attempt of task `number`, which is loaded from `task`.
    pub(crate) fn push_line(
        &self,
        line: &mut String,
        number: u32,
        task: &Task<'a>,
    ) -> Result<(), AllocError> {
        let fault = self.fault;
        let place = Place::of(&task.object.symbols, self.view.pc);
        line.write(format_args!("  task {number}: {fault} at {place}: "))?;
        self.push_cause(line)
    }
}
