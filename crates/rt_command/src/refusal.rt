//! Why a command is refused.

ghost use Rattle.std.specs.Prelude.{◌≡◌, ◌≤◌, length};
ghost use Rattle.rt_command.specs.Refusals.{refusal_number, refusal_name};
ghost use Rattle.rt_command.specs.declared.refusal.Refusal.TheVariants.{NoMemory};

use std::alloc::AllocError;

/// Why a command is refused. The session is then as it was.
#[derive(Clone, Copy, PartialEq, Eq)]
pub enum Refusal {
    /// There was no memory for the reply, the stop, or the way back.
    NoMemory = 0,
    /// The line is no command.
    UnknownCommand = 1,
    /// There is no task of this number, or not one alone of this name.
    UnknownTask = 2,
    /// The task's object has no symbol of this name.
    UnknownSymbol = 3,
    /// The bytes aren't all in RAM, or a word's address is no multiple of 4.
    BadAddress = 4,
    /// The tick lies before the session's first.
    BeforeStart = 5,
    /// No stop has this number, or it was deleted.
    NoSuchStop = 6,
    /// 65,535 stops were added over the session's life.
    TooManyStops = 7,
}

impl Refusal {
    /// The refusal's number, 0 to 7; 0 is want of memory.
    pub fn number(self) -> u8
        ensures { result ≡ refusal_number self }
    {
        self as u8
    }

    /// The refusal's name in a reply.
    pub fn name(self) -> &'static [u8]
        ensures name { result.now ≡ refusal_name self }
        ensures short { length result.now ≤ 14 }
    {
        match self {
            Refusal::NoMemory => b"NoMemory",
            Refusal::UnknownCommand => b"UnknownCommand",
            Refusal::UnknownTask => b"UnknownTask",
            Refusal::UnknownSymbol => b"UnknownSymbol",
            Refusal::BadAddress => b"BadAddress",
            Refusal::BeforeStart => b"BeforeStart",
            Refusal::NoSuchStop => b"NoSuchStop",
            Refusal::TooManyStops => b"TooManyStops",
        }
    }
}

impl From<AllocError> for Refusal {
    ghost from_gives = { λ _ refusal. refusal ≡ NoMemory };

    fn from(_fault: AllocError) -> Refusal {
        Refusal::NoMemory
    }
}
