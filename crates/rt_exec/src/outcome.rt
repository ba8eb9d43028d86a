//! How an attempt ends.

ghost use Rattle.std.specs.Prelude.{◌≡◌, ◌≤◌, length};

use crate::mem::AccessFault;
use thiserror::Error;

/// Why an attempted instruction was not carried out. It has changed no register, no pc and no byte.
#[derive(Clone, Copy, Debug, PartialEq, Eq, Error)]
pub enum Fault {
    /// The word is of no row of RV32I.
    #[error("Illegal")]
    Illegal = 1,
    /// A jump or a taken branch to an address that is no multiple of 4.
    #[error("JumpMisaligned")]
    JumpMisaligned = 2,
    /// The four bytes at pc aren't all in RAM.
    #[error("FetchAccess")]
    FetchAccess = 3,
    #[error("LoadMisaligned")]
    LoadMisaligned = 4,
    #[error("LoadAccess")]
    LoadAccess = 5,
    #[error("StoreMisaligned")]
    StoreMisaligned = 6,
    #[error("StoreAccess")]
    StoreAccess = 7,
    /// EBREAK.
    #[error("Break")]
    Break = 8,
    /// ECALL with a number in a7 that is no call's.
    #[error("UnknownCall")]
    UnknownCall = 9,
}

impl Fault {
    ghost use Rattle.rt_exec.specs.Numbering.{fault_number, fault_name};

    /// The fault's number, 1 to 9.
    pub fn number(self) -> u8
        ensures { result ≡ fault_number self }
    {
        self as u8
    }

    /// The fault's name in a text.
    pub fn name(self) -> &'static [u8]
        ensures name { result.now ≡ fault_name self }
        ensures short { length result.now ≤ 15 }
    {
        match self {
            Fault::Illegal => b"Illegal",
            Fault::JumpMisaligned => b"JumpMisaligned",
            Fault::FetchAccess => b"FetchAccess",
            Fault::LoadMisaligned => b"LoadMisaligned",
            Fault::LoadAccess => b"LoadAccess",
            Fault::StoreMisaligned => b"StoreMisaligned",
            Fault::StoreAccess => b"StoreAccess",
            Fault::Break => b"Break",
            Fault::UnknownCall => b"UnknownCall",
        }
    }
}

impl From<AccessFault> for Fault {
    ghost use Rattle.std.specs.Prelude.{◌≡◌};
    ghost use Rattle.rt_exec.specs.Effect.{fault_of};

    ghost from_gives = { λ access fault. fault ≡ fault_of access };

    #[inline]
    fn from(access: AccessFault) -> Fault {
        match access {
            AccessFault::LoadMisaligned => Fault::LoadMisaligned,
            AccessFault::LoadAccess => Fault::LoadAccess,
            AccessFault::StoreMisaligned => Fault::StoreMisaligned,
            AccessFault::StoreAccess => Fault::StoreAccess,
        }
    }
}

/// What a task asks of the machine by an ECALL at tick t, by the number in a7. Registers that aren't
/// named stay.
#[derive(Clone, Copy, PartialEq, Eq)]
pub enum Call {
    /// The task is ended for good.
    End = 0,
    /// Appends the a1 bytes from address a0 on to the task's output, and puts a1 in a0. Refused where
    /// a1 is over 256, the bytes aren't all in RAM, or the output would pass 65,536 bytes: then nothing
    /// is appended, and a0 is 0xffffffff.
    Write = 1,
    /// The task sleeps until tick w = a0 + a1 * 2^32; where w is at most t, it stays active.
    SleepUntil = 2,
    /// The task gives up the rest of its budget.
    Yield = 3,
    /// Puts the low 32 bits of t in a0, and the others in a1.
    Now = 4,
    /// Asks for the budget of a0 ticks from the next fresh wake on, and puts 0 in a0. Refused where a0 is no budget from 1 to the
    /// period, or doesn't fit beside what all tasks have reserved: then a0 is 0xffffffff.
    Reserve = 5,
}

impl Call {
    ghost use Rattle.rt_exec.specs.Numbering.{call_number};
    ghost use Rattle.rt_exec.specs.Effect.{call_of};

    /// The call's number, 0 to 5.
    pub fn number(self) -> u8
        ensures { result ≡ call_number self }
    {
        self as u8
    }

    /// The call of the number in a7; none from 6 on.
    #[inline]
    pub(crate) fn numbered(number: u32) -> Option<Call>
        ensures { result ≡ call_of number }
    {
        match number {
            0 => Some(Call::End),
            1 => Some(Call::Write),
            2 => Some(Call::SleepUntil),
            3 => Some(Call::Yield),
            4 => Some(Call::Now),
            5 => Some(Call::Reserve),
            _ => None,
        }
    }
}

/// How an attempt ended.
#[derive(Clone, Copy, PartialEq, Eq)]
pub enum Outcome {
    /// The instruction was carried out.
    Next,
    /// pc is at the next instruction, and the call isn't carried out yet.
    Call(Call),
    /// Nothing was carried out.
    Fault(Fault),
}

/// An attempt: the word at pc, or none where it is not in RAM, and how it ended.
#[derive(Clone, Copy, PartialEq, Eq)]
pub struct Stepped {
    pub word: Option<u32>,
    pub outcome: Outcome,
}
