//! Why the program ends early.

ghost use Rattle.std.specs.Prelude.{◌≡◌};
ghost use Rattle.rt_perform.specs.FirstLine.{fault_text};
ghost use Rattle.rt_perform.specs.declared.program.ProgramFault.TheVariants as faults;

use rt_desk::Reason;
use rt_elf::ElfFault;
use rt_elf::flat::FlatFault;
use rt_elf::laying::{DataFault, NotLaid};
use rt_elf::naming::{NameFault, NamingFault};
use rt_fault_lines::shown::Escaped;
use rt_image::ReadFault;
use rt_programs::{Failure, SetFault, SimFault, TaskFault, Uncertified};
use rt_sink::DeviceFault;
use std::alloc::AllocError;
use std::fmt;

/// Why the program ends early.
#[derive(Clone, Copy, PartialEq, Eq)]
pub enum ProgramFault<'a> {
    /// The command line isn't text, or asks for nothing that there is.
    Words,
    /// The file of this path can't be opened, read or made; the one that the task of this number names, if so.
    File(&'a str, Reason, Option<usize>),
    /// The file of this path is to be made, and is read; the one that the task of this number names, if so.
    IsRead(&'a str, Option<usize>),
    /// The device of the file of this path failed within the file, for this reason if it gave one.
    Device(&'a str, DeviceFault, Option<Reason>),
    /// The standard input can't be read.
    Input,
    /// A program on the bytes of a file ended early.
    Sim(SimFault),
    /// A set file isn't read.
    Set(SetFault),
    /// A set has no system file, for the file that the task of this number names.
    Pack(ReadFault, usize),
    /// A flat image has no object.
    Flat(FlatFault),
    /// An ELF file has no object; the one that the task of this number names, if so.
    Elf(ElfFault, Option<usize>),
    /// An object's entry can't have a name.
    Name(NamingFault<'a>),
    /// The bytes of a file don't come to stand in the image of an object.
    Laid(DataFault<'a>),
    /// A word means no task of the set.
    NotNamed(TaskFault<'a>),
    /// A text is printed, and in its run this happened, which is a failure here.
    Failed(Failure),
    /// What the tasks of a set come to is printed, and this one isn't certified.
    Uncertified(Uncertified<'a>),
}

/// What is said of a word that means no task.
#[derive(Clone, Copy)]
struct NotNamed<'a>(TaskFault<'a>);

impl fmt::Display for NotNamed<'_> {
    ghost use Rattle.std.specs.Prelude.{Some};
    ghost use Rattle.rt_perform.specs.FirstLine.{word_text};

    ghost output = { λ it. Some (word_text it.0) };

    fn fmt<W: fmt::Write>(&self, f: &mut fmt::Formatter<W>) -> fmt::Result {
        match self.0 {
            TaskFault::NoTask { task, count } => write!(f, "task {task} of {count}"),
            TaskFault::NoName(word) => write!(f, "no task {}", Escaped::line(word)),
            TaskFault::Several(word, count) => {
                let word = Escaped::line(word);
                write!(f, "task {word}: {count} tasks have this name")
            }
        }
    }
}

impl fmt::Display for ProgramFault<'_> {
    ghost use Rattle.std.specs.Prelude.{Some};

    ghost output = { λ fault. Some (fault_text fault) };

    fn fmt<W: fmt::Write>(&self, f: &mut fmt::Formatter<W>) -> fmt::Result {
        match self {
            ProgramFault::Words => f.write_str("the command line cannot be read"),
            ProgramFault::File(path, _, _) => write!(f, "file {}", Escaped::line(path)),
            ProgramFault::IsRead(path, _) => write!(f, "file {}", Escaped::line(path)),
            ProgramFault::Device(_, fault, _) => write!(f, "device after {} bytes", fault.written),
            ProgramFault::Input => f.write_str("file -"),
            ProgramFault::Sim(fault) => write!(f, "{fault}"),
            ProgramFault::Set(fault) => write!(f, "{fault}"),
            ProgramFault::Pack(fault, _) => write!(f, "{fault}"),
            ProgramFault::Flat(fault) => write!(f, "{fault}"),
            ProgramFault::Elf(fault, _) => write!(f, "{fault}"),
            ProgramFault::Name(fault) => write!(f, "{fault}"),
            ProgramFault::Laid(fault) => write!(f, "{fault}"),
            ProgramFault::NotNamed(fault) => write!(f, "{}", NotNamed(*fault)),
            ProgramFault::Failed(failure) => write!(f, "failed: {failure}"),
            ProgramFault::Uncertified(task) => write!(f, "{task}"),
        }
    }
}

impl ProgramFault<'_> {
    ghost use Rattle.rt_perform.specs.ExitStatus.{exit_status};

    /// The exit status: 1 for refused input, 2 for the command line, 3 for a file, a device or memory, and 4 for a failure.
    pub fn status(&self) -> u8
        ensures { result ≡ exit_status self.now }
    {
        match self {
            ProgramFault::Sim(SimFault::Image(_) | SimFault::Admit(_) | SimFault::Load(_)) => 1,
            ProgramFault::Sim(SimFault::Text(_) | SimFault::Source(_)) => 1,
            ProgramFault::Sim(SimFault::NotCertified(_) | SimFault::NoTask { .. }) => 1,
            ProgramFault::Set(SetFault::Line(_)) | ProgramFault::Pack(ReadFault::Fault(_), _) => 1,
            ProgramFault::Flat(FlatFault::IsElf | FlatFault::TooLarge) => 1,
            ProgramFault::Flat(FlatFault::Names(_) | FlatFault::Misplaced | FlatFault::BadEntry) =>
                1,
            ProgramFault::Words => 2,
            ProgramFault::File(_, _, _) | ProgramFault::IsRead(_, _) | ProgramFault::Input => 3,
            ProgramFault::Device(_, _, _) => 3,
            ProgramFault::Sim(SimFault::Memory | SimFault::Device(_)) => 3,
            ProgramFault::Set(SetFault::Memory) | ProgramFault::Pack(ReadFault::Memory, _) => 3,
            ProgramFault::Flat(FlatFault::Memory) | ProgramFault::Elf(ElfFault::Memory, _) => 3,
            ProgramFault::Elf(_, _) => 1,
            ProgramFault::Name(naming) => match naming.fault {
                NameFault::Memory => 3,
                _ => 1,
            },
            ProgramFault::Laid(laid) => match laid.fault {
                NotLaid::Memory => 3,
                _ => 1,
            },
            ProgramFault::NotNamed(_) | ProgramFault::Uncertified(_) => 1,
            ProgramFault::Failed(_) => 4,
        }
    }
}

impl From<SimFault> for ProgramFault<'_> {
    ghost from_gives = { λ fault e. e ≡ faults.Sim fault };

    fn from(fault: SimFault) -> Self {
        ProgramFault::Sim(fault)
    }
}

impl From<SetFault> for ProgramFault<'_> {
    ghost from_gives = { λ fault e. e ≡ faults.Set fault };

    fn from(fault: SetFault) -> Self {
        ProgramFault::Set(fault)
    }
}

impl From<FlatFault> for ProgramFault<'_> {
    ghost from_gives = { λ fault e. e ≡ faults.Flat fault };

    fn from(fault: FlatFault) -> Self {
        ProgramFault::Flat(fault)
    }
}

impl From<ElfFault> for ProgramFault<'_> {
    ghost use Rattle.std.specs.Prelude.{None};

    ghost from_gives = { λ fault e. e ≡ faults.Elf fault None };

    fn from(fault: ElfFault) -> Self {
        ProgramFault::Elf(fault, None)
    }
}

impl<'a> From<NamingFault<'a>> for ProgramFault<'a> {
    ghost from_gives = { λ fault e. e ≡ faults.Name fault };

    fn from(fault: NamingFault<'a>) -> Self {
        ProgramFault::Name(fault)
    }
}

impl From<AllocError> for ProgramFault<'_> {
    ghost use Rattle.rt_opening.specs.declared.fault.SimFault.TheVariants as sim;

    ghost from_gives = { λ _ e. e ≡ faults.Sim sim.Memory };

    fn from(_fault: AllocError) -> Self {
        ProgramFault::Sim(SimFault::Memory)
    }
}
