//! Why a text isn't assembly text.

ghost use Rattle.std.specs.Prelude.{◌≡◌, Some};
ghost use Rattle.rt_text.specs.FaultText.{kind_text, fault_text};

use rt_words::OrMemory;
use std::error::Error;
use std::fmt;

/// What is wrong with a line. Of several faults of one line the first of these is named:
/// `LineTooLong`, `NotAscii`, `BadToken`, `BadNumber`, `UnknownName`, `BadOperands`.
#[derive(Clone, Copy, PartialEq, Eq, Debug)]
pub enum TextKind {
    /// A byte begins no token.
    BadToken,
    /// A token that begins as a number is none from -2^31 to 2^32 - 1.
    BadNumber,
    /// A statement's first word is no instruction and no directive.
    UnknownName,
    /// A statement begins with no word, or its operands fit no form that its name has.
    BadOperands,
    /// The line has over 512 bytes without its end.
    LineTooLong,
    /// The line has a byte over 127.
    NotAscii,
}

impl fmt::Display for TextKind {
    ghost output = { λ kind. Some (kind_text kind) };

    fn fmt<W: fmt::Write>(&self, f: &mut fmt::Formatter<W>) -> fmt::Result {
        f.write_str(match self {
            TextKind::BadToken => "BadToken",
            TextKind::BadNumber => "BadNumber",
            TextKind::UnknownName => "UnknownName",
            TextKind::BadOperands => "BadOperands",
            TextKind::LineTooLong => "LineTooLong",
            TextKind::NotAscii => "NotAscii",
        })
    }
}

impl Error for TextKind {}

impl TextKind {
    ghost use Rattle.rt_text.specs.FaultNumber.{number_of};

    /// The number of the kind, 1 to 6.
    pub fn number(self) -> u8
        ensures { result ≡ number_of self }
    {
        match self {
            TextKind::BadToken => 1,
            TextKind::BadNumber => 2,
            TextKind::UnknownName => 3,
            TextKind::BadOperands => 4,
            TextKind::LineTooLong => 5,
            TextKind::NotAscii => 6,
        }
    }
}

/// The first fault of a text.
#[derive(Clone, Copy, PartialEq, Eq, Debug)]
pub struct TextFault {
    /// The line that has it, counted from 1.
    pub line: u64,
    /// What is wrong there.
    pub kind: TextKind,
}

impl fmt::Display for TextFault {
    ghost output = { λ fault. Some (fault_text fault) };

    fn fmt<W: fmt::Write>(&self, f: &mut fmt::Formatter<W>) -> fmt::Result {
        write!(f, "line {}: {}", self.line, self.kind)
    }
}

impl Error for TextFault {}

/// Why a text isn't read: no memory was left, or it has a fault.
pub type ParseFault = OrMemory<TextFault>;
