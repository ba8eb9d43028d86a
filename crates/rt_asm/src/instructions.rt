//! The instructions of a statement.

ghost use Rattle.std.specs.Prelude.{◌≡◌, ◌∷◌, [], ◌*◌, length, OnOk};
ghost use Rattle.rt_asm.specs.Working.Emission.{AppendsWords};

use rt_isa::{Ins, encode};
use std::alloc::AllocError;
use std::marker::Model;

/// One instruction or two. A contract sees them as a list.
#[derive(Drop)]
pub struct Instructions {
    first: Ins,
    second: Option<Ins>,
}

impl Model for Instructions {
    ghost use Rattle.std.specs.Prelude.{List, ◌∷◌};
    ghost use Rattle.std.specs.Option.{option_to_list};
    ghost use Rattle.rt_isa.specs.declared.instruction.Ins.{Ins};

    ghost Value = { List Ins };

    ghost view = { λ i. i.first ∷ option_to_list i.second };
}

impl Instructions {
    pub fn one(first: Ins) -> Instructions
        ensures { result ≡ first ∷ [] }
    {
        Instructions {
            first,
            second: None,
        }
    }

    pub fn two(first: Ins, second: Ins) -> Instructions
        ensures { result ≡ first ∷ second ∷ [] }
    {
        Instructions {
            first,
            second: Some(second),
        }
    }

    /// How many bytes they take.
    pub fn size(&self) -> u32
        ensures { result ≡ 4 * length self.now }
    {
        match self.second {
            Some(_) => 8,
            None => 4,
        }
    }

    /// Appends their words, each as four bytes, the lowest first.
    pub fn push_to(&self, out: &mut Vec<u8>) -> Result<(), AllocError>
        ensures { OnOk result (AppendsWords out.old.items out.new.items self.now) }
    {
        push_word(out, self.first)?;
        if let Some(second) = self.second {
            push_word(out, second)?;
        }
        Ok(())
    }
}

fn push_word(out: &mut Vec<u8>, instruction: Ins) -> Result<(), AllocError>
    ensures { OnOk result (AppendsWords out.old.items out.new.items (instruction ∷ [])) }
{
    out.extend_from_slice(&encode(instruction).to_le_bytes())
}
