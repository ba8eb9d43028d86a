//! Where more is said of a fault: by `help`.

use crate::program::ProgramFault;
use rt_command_line::reasons::Named;
use rt_elf::flat::FlatFault;
use rt_fault_lines::shown::Explanation;
use rt_programs::printing::joined;
use rt_programs::{SetFault, SimFault};
use std::alloc::{AllocError, Global};

/// The most lines that stand before the one that names help.
const FEW: usize = 3;

/// The reason that a first line, as `image: BadMagic`, names.
fn reason_in(first: &str) -> Option<&str> {
    let (_, rest) = first.split_once(": ")?;
    let name = match rest.split_once(' ') {
        Some((name, _)) => name,
        None => rest,
    };
    Named::by(name)?;
    Some(name)
}

/// The last line of what is said of a fault: the word that help takes, if there is one.
fn help_line(alloc: Global, fault: ProgramFault<'_>) -> Explanation {
    match fault {
        ProgramFault::Set(SetFault::Line(_)) => rt_fault_lines::shown::line(
            alloc,
            "rt_sim help pack",
        ),
        ProgramFault::Flat(FlatFault::Names(_)) => rt_fault_lines::shown::line(
            alloc,
            "rt_sim help image",
        ),
        ProgramFault::Sim(_)
        | ProgramFault::Pack(_, _)
        | ProgramFault::Flat(_)
        | ProgramFault::Elf(_, _)
        | ProgramFault::Uncertified(_)
        | ProgramFault::Laid(_) => {
            let first = match fault {
                ProgramFault::Uncertified(task) => {
                    format!(in alloc; "{}", SimFault::NotCertified(task.refusal))?
                }
                _ => format!(in alloc; "{fault}")?,
            };
            match reason_in(&first) {
                Some(name) => rt_fault_lines::shown::line(
                    alloc,
                    format_args!("rt_sim help {name}"),
                ),
                None => Ok(None),
            }
        }
        _ => Ok(None),
    }
}

/// What is said of a fault, with the word that help takes where it is short.
pub(crate) fn with_help(
    alloc: Global,
    lines: Option<String>,
    fault: ProgramFault<'_>,
) -> Explanation {
    let ends = match &lines {
        Some(text) => text.bytes().filter(|byte| *byte == b'\n').count(),
        None => 0,
    };
    if ends >= FEW {
        return Ok(lines);
    }
    let help = help_line(alloc, fault)?;
    joined(alloc, lines, help)
}
