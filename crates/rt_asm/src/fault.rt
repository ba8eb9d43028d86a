//! Why a source has no image.

ghost use Rattle.std.specs.Prelude.{◌≡◌, Some};
ghost use Rattle.rt_asm.specs.FaultNumber.{number_of};
ghost use Rattle.rt_asm.specs.FaultText.{kind_text, fault_text, text_refusal_text, line_fault_text};
ghost use Rattle.rt_asm.specs.Working.StepFaults.{fault_of_line};
ghost use Rattle.rt_asm.specs.TextFaults.{fault_of_text, fault_of_source};
ghost use Rattle.rt_asm.specs.declared.fault.AssembleTextFault.TheVariants.{Memory as TextMemory};
ghost use Rattle.rt_words.specs.declared.or_memory.OrMemory.TheVariants.{Fault};

use rt_text::{ParseFault, TextFault};
use rt_words::OrMemory;
use std::alloc::AllocError;
use std::error::Error;
use std::fmt;

/// What is wrong with a source whose lines are all well formed.
#[derive(Clone, Copy, PartialEq, Eq, Debug)]
pub enum AsmKind {
    /// A label that was defined before.
    DuplicateLabel = 1,
    /// A label that no line defines.
    UndefinedLabel = 2,
    /// A number, or the distance of a target, that its place can't hold.
    OutOfRange = 3,
    /// The distance of a branch or a jump is odd.
    OddTarget = 4,
    /// The image has over 1,048,576 bytes, or the source over 65,536 labels.
    TooLarge = 5,
    /// No line defines `_start`.
    NoEntry = 6,
}

impl fmt::Display for AsmKind {
    ghost output = { λ kind. Some (kind_text kind) };

    fn fmt<W: fmt::Write>(&self, f: &mut fmt::Formatter<W>) -> fmt::Result {
        f.write_str(match self {
            AsmKind::DuplicateLabel => "DuplicateLabel",
            AsmKind::UndefinedLabel => "UndefinedLabel",
            AsmKind::OutOfRange => "OutOfRange",
            AsmKind::OddTarget => "OddTarget",
            AsmKind::TooLarge => "TooLarge",
            AsmKind::NoEntry => "NoEntry",
        })
    }
}

impl Error for AsmKind {}

impl AsmKind {
    /// The number of the kind, 1 to 6.
    pub fn number(self) -> u8
        ensures { result ≡ number_of self }
    {
        self as u8
    }
}

/// The first fault of a source.
#[derive(Clone, Copy, PartialEq, Eq, Debug)]
pub struct AsmFault {
    /// The line, counted from 1 among the lines handed in; 0 for `NoEntry`.
    pub line: u64,
    /// What is wrong with it.
    pub kind: AsmKind,
}

impl fmt::Display for AsmFault {
    ghost output = { λ fault. Some (fault_text fault) };

    fn fmt<W: fmt::Write>(&self, f: &mut fmt::Formatter<W>) -> fmt::Result {
        write!(f, "line {}: {}", self.line, self.kind)
    }
}

impl Error for AsmFault {}

/// Why a source isn't assembled: there was no memory, or it has a fault.
pub type AssembleFault = OrMemory<AsmFault>;

impl From<AsmFault> for AssembleFault {
    ghost from_gives = { λ fault e. e ≡ Fault fault };

    fn from(fault: AsmFault) -> AssembleFault {
        OrMemory::Fault(fault)
    }
}

/// Why a text has no image.
#[derive(Clone, Copy, PartialEq, Eq, Debug)]
pub enum AssembleTextFault {
    /// There was no memory for it.
    Memory,
    /// It is no assembly text.
    Text(TextFault),
    /// Its lines have no image.
    Source(AsmFault),
}

impl fmt::Display for AssembleTextFault {
    ghost output = { λ fault. Some (text_refusal_text fault) };

    fn fmt<W: fmt::Write>(&self, f: &mut fmt::Formatter<W>) -> fmt::Result {
        match self {
            AssembleTextFault::Memory => f.write_str("memory"),
            AssembleTextFault::Text(fault) => write!(f, "{fault}"),
            AssembleTextFault::Source(fault) => write!(f, "{fault}"),
        }
    }
}

impl Error for AssembleTextFault {}

impl From<ParseFault> for AssembleTextFault {
    ghost from_gives = { λ fault e. e ≡ fault_of_text fault };

    fn from(fault: ParseFault) -> AssembleTextFault {
        match fault {
            OrMemory::Memory => AssembleTextFault::Memory,
            OrMemory::Fault(fault) => AssembleTextFault::Text(fault),
        }
    }
}

impl From<AssembleFault> for AssembleTextFault {
    ghost from_gives = { λ fault e. e ≡ fault_of_source fault };

    fn from(fault: AssembleFault) -> AssembleTextFault {
        match fault {
            OrMemory::Memory => AssembleTextFault::Memory,
            OrMemory::Fault(fault) => AssembleTextFault::Source(fault),
        }
    }
}

impl From<AllocError> for AssembleTextFault {
    ghost from_gives = { λ _ e. e ≡ TextMemory };

    fn from(_fault: AllocError) -> AssembleTextFault {
        AssembleTextFault::Memory
    }
}

/// A line of a text that is at fault.
#[derive(Clone, Copy, PartialEq, Eq, Debug)]
pub enum LineFault {
    /// It is no assembly text.
    Text(TextFault),
    /// Its layout or its operands are at fault.
    Source(AsmFault),
}

impl fmt::Display for LineFault {
    ghost output = { λ fault. Some (line_fault_text fault) };

    fn fmt<W: fmt::Write>(&self, f: &mut fmt::Formatter<W>) -> fmt::Result {
        match self {
            LineFault::Text(fault) => write!(f, "{fault}"),
            LineFault::Source(fault) => write!(f, "{fault}"),
        }
    }
}

impl Error for LineFault {}

/// Why a step of the assembler failed: there was no memory for it, or this is wrong.
pub(crate) type StepFault = OrMemory<AsmKind>;

impl From<AsmKind> for StepFault {
    ghost from_gives = { λ kind e. e ≡ Fault kind };

    fn from(kind: AsmKind) -> StepFault {
        OrMemory::Fault(kind)
    }
}

/// The fault of a step, of this line.
pub(crate) fn at_line(fault: StepFault, line: u64) -> AssembleFault
    ensures { result ≡ fault_of_line line fault }
{
    match fault {
        OrMemory::Memory => OrMemory::Memory,
        OrMemory::Fault(kind) => OrMemory::Fault(AsmFault { line, kind }),
    }
}
