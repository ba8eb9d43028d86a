//! The instructions of jumps, branches and addresses.

ghost use Rattle.std.specs.Prelude.{◌≡◌};
ghost use Rattle.rt_isa.specs.declared.instruction.Ins.TheVariants.{Jal};
ghost use Rattle.rt_asm.specs.Pseudo.{far_jump, load_address};
ghost use Rattle.rt_asm.specs.Transfers.{jump_over, jump_to, transfer_code};

use crate::fault::AsmKind;
use crate::instructions::Instructions;
use crate::labels::Labels;
use crate::numbers::{branch_distance, immediate, jump_distance, lower_part, upper_part};
use crate::rows;
use rt_isa::{Ins, Reg};
use rt_text::{JumpOp, Transfer};

/// The instructions of a jump, a branch or an address that stands at a place.
pub fn transfer_code(
    labels: &Labels,
    place: u32,
    transfer: &Transfer,
) -> Result<Instructions, AsmKind>
    ensures { result ≡ transfer_code labels.now place transfer.now }
{
    match transfer {
        Transfer::JumpAndLink(link, target) => jump(*link, labels.distance_to(place, target)?),
        Transfer::JumpAndLinkRegister(link, to) => {
            let offset = immediate(to.offset)?;
            Ok(Instructions::one(Ins::Jalr(*link, to.base, offset)))
        }
        Transfer::Branch(op, left, right, target) => {
            let distance = branch_distance(labels.distance_to(place, target)?)?;
            Ok(Instructions::one(rows::branch(*op, *left, *right, distance)))
        }
        Transfer::ZeroBranch(op, source, target) => {
            let distance = branch_distance(labels.distance_to(place, target)?)?;
            Ok(Instructions::one(rows::zero_branch(*op, *source, distance)))
        }
        Transfer::JumpTo(op, target) => jump_to(*op, labels.distance_to(place, target)?),
        Transfer::JumpRegister(op, base) => {
            Ok(Instructions::one(rows::jump_register(*op, *base)))
        }
        Transfer::LoadAddress(register, target) => {
            Ok(load_address(*register, labels.distance_to(place, target)?))
        }
    }
}

/// `jal` over a distance.
fn jump(link: Reg, distance: u32) -> Result<Instructions, AsmKind>
    ensures { result ≡ jump_over (λ i. Jal link i) distance }
{
    let distance = jump_distance(distance)?;
    Ok(Instructions::one(Ins::Jal(link, distance)))
}

/// The jumps to a target, over their distance.
fn jump_to(op: JumpOp, distance: u32) -> Result<Instructions, AsmKind>
    ensures { result ≡ jump_to op distance }
{
    match op {
        JumpOp::J => jump(rows::register_of(0), distance),
        JumpOp::Jal => jump(rows::register_of(1), distance),
        JumpOp::Call => Ok(far_jump(rows::register_of(1), rows::register_of(1), distance)),
        JumpOp::Tail => Ok(far_jump(rows::register_of(0), rows::register_of(6), distance)),
    }
}

/// `la`: the address at a distance into a register.
fn load_address(target: Reg, distance: u32) -> Instructions
    ensures { result ≡ load_address target distance }
{
    let upper = Ins::Auipc(target, upper_part(distance));
    Instructions::two(upper, Ins::Addi(target, target, lower_part(distance)))
}

/// `call` and `tail`: a jump over a distance, through a register.
fn far_jump(link: Reg, through: Reg, distance: u32) -> Instructions
    ensures { result ≡ far_jump link through distance }
{
    let upper = Ins::Auipc(through, upper_part(distance));
    Instructions::two(upper, Ins::Jalr(link, through, lower_part(distance)))
}
