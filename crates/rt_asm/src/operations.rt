//! The instructions of operations on registers, numbers and memory.

ghost use Rattle.std.specs.Prelude.{◌≡◌, ◌∷◌};
ghost use Rattle.rt_isa.specs.declared.instruction.Ins.TheVariants.{Lui};
ghost use Rattle.rt_asm.specs.Numbers.{upper_part};
ghost use Rattle.rt_asm.specs.Operations.{operation_code};
ghost use Rattle.rt_asm.specs.Pseudo.{add_rest, load_number};

use crate::fault::AsmKind;
use crate::instructions::Instructions;
use crate::numbers::{
    immediate, low_word, lower_part, shift_amount, signed, upper_bits, upper_part,
};
use crate::rows;
use rt_isa::{Imm12, Ins, Reg};
use rt_text::Operation;

/// The instructions of an operation.
pub fn operation_code(operation: &Operation) -> Result<Instructions, AsmKind>
    ensures { result ≡ operation_code operation.now }
{
    match operation {
        Operation::Upper(op, target, number) => {
            let value = upper_bits(*number)?;
            Ok(Instructions::one(rows::upper(*op, *target, value)))
        }
        Operation::LoadNumber(target, number) => Ok(load_number(*target, low_word(*number))),
        Operation::Immediate(op, target, source, number) => {
            let value = immediate(*number)?;
            Ok(Instructions::one(rows::immediate(*op, *target, *source, value)))
        }
        Operation::Shift(op, target, source, number) => {
            let amount = shift_amount(*number)?;
            Ok(Instructions::one(rows::shift(*op, *target, *source, amount)))
        }
        Operation::Register(op, target, left, right) => {
            Ok(Instructions::one(rows::register(*op, *target, *left, *right)))
        }
        Operation::Unary(op, target, source) => {
            Ok(Instructions::one(rows::unary(*op, *target, *source)))
        }
        Operation::Load(op, target, memory) => {
            let offset = immediate(memory.offset)?;
            Ok(Instructions::one(rows::load(*op, *target, memory.base, offset)))
        }
        Operation::Store(op, source, memory) => {
            let offset = immediate(memory.offset)?;
            Ok(Instructions::one(rows::store(*op, memory.base, *source, offset)))
        }
    }
}

/// `li`: a number into a register.
pub fn load_number(target: Reg, number: u32) -> Instructions
    ensures { result ≡ load_number target number }
{
    let value = signed(number);
    if -2048 <= value && value <= 2047 {
        let value = Imm12::new(value as i16).unwrap();
        Instructions::one(Ins::Addi(target, rows::register_of(0), value))
    } else {
        load_wide(target, number)
    }
}

/// A number that one ADDI can't hold.
fn load_wide(target: Reg, number: u32) -> Instructions
    ensures { result ≡ Lui target (upper_part number) ∷ add_rest target number }
{
    let upper = Ins::Lui(target, upper_part(number));
    if number % (1 << 12) == 0 {
        Instructions::one(upper)
    } else {
        Instructions::two(upper, Ins::Addi(target, target, lower_part(number)))
    }
}
