//! What is said of a fault behind its first line: where it lies, what was wanted, and what to do.

use crate::help::with_help;
use crate::inputs::{Inputs, read};
use crate::numbers::{explain_numbers, explain_word};
use crate::program::ProgramFault;
use crate::request::Request;
use rt_asm::LineFault;
use rt_desk::reading::FileKind;
use rt_desk::{Desk, Reason};
use rt_elf::ElfFault;
use rt_elf::flat::FlatFault;
use rt_elf::naming::NameFault;
use rt_fault_lines::shown::{Escaped, Explanation, Place, line};
use rt_file_hints::source_hints::{source_hint, source_hints};
use rt_file_hints::{FlatFiles, data_hint, elf_hint, flat_hint, image_hint, set_hint};
use rt_image::{ImageFault, ReadFault};
use rt_programs::printing::FileText;
use rt_programs::{SetFault, SimFault, read_set};
use rt_set::line_of_task;
use std::alloc::{AllocError, Global};
use std::fmt;

/// The line of a set file that names the file of a task.
fn task_place<'a>(set: &'a str, text: &'a [u8], task: usize) -> Place<'a> {
    Place::of(set, text, line_of_task(text, task).unwrap_or(0))
}

/// Why the file of a request isn't read or made, with the line that names it if it is that of a task.
fn explain_reason<D: fmt::Display + Drop>(
    alloc: Global,
    reason: D,
    task: Option<usize>,
    request: Request<'_>,
    inputs: &Inputs,
) -> Explanation {
    match task {
        Some(task) => {
            let place = task_place(request.path(), &inputs.first, task);
            line(alloc, format_args!("{place} ({reason})"))
        }
        None => line(alloc, reason),
    }
}

/// The folder of a file that isn't there, if it is the file that a request makes.
fn missing_folder<'a>(path: &'a str, request: Request<'_>) -> Option<&'a str> {
    let (folder, _) = path.rsplit_once('/')?;
    (request.made()? == path).then_some(folder)
}

/// What is odd about the path of a task: it is all that stands behind the RAM.
fn path_flaw(path: &str) -> &'static str {
    match path.as_bytes() {
        [.., b' ' | b'\t'] => ": its path ends with a blank",
        bytes if bytes.contains(&b'#') => ": a comment is a line of its own",
        _ => "",
    }
}

/// Why a file isn't read or made: of one that a set names, where it was looked for.
fn explain_file<D: Desk>(
    alloc: Global,
    desk: &D,
    fault: (&str, Reason, Option<usize>),
    request: Request<'_>,
    inputs: &Inputs,
) -> Explanation {
    let (path, reason, task) = fault;
    if reason != Reason::Missing {
        return explain_reason(alloc, reason, task, request, inputs);
    }
    if let Some(folder) = missing_folder(path, request) {
        let folder = Escaped::line(folder);
        return line(alloc, format_args!("no such folder: {folder}"));
    }
    match (task, desk.folder(alloc)?) {
        (Some(_), Some(folder)) => {
            let flaw = path_flaw(path);
            let folder = Escaped::line(&folder);
            let looked = format_args!("{reason}{flaw}, looked for from {folder}");
            explain_reason(alloc, looked, task, request, inputs)
        }
        _ => explain_reason(alloc, reason, task, request, inputs),
    }
}

/// The path that a task of a set file names.
fn path_of_task<'a>(
    alloc: Global,
    text: &'a [u8],
    task: usize,
) -> Result<Option<&'a str>, AllocError> {
    match read_set(alloc, text) {
        Ok(set) => match set.tasks.get(task) {
            Some(entry) => Ok(Some(entry.path)),
            None => Ok(None),
        },
        Err(SetFault::Memory) => Err(AllocError),
        Err(SetFault::Line(_)) => Ok(None),
    }
}

/// The bytes of the object file of this path, if it can be read.
fn object_at<D: Desk>(alloc: Global, desk: &D, path: &str) -> Result<Option<Vec<u8>>, AllocError> {
    match read(alloc, desk, path, FileKind::Object, None) {
        Ok(bytes) => Ok(Some(bytes)),
        Err(ProgramFault::Sim(SimFault::Memory)) => Err(AllocError),
        Err(_) => Ok(None),
    }
}

/// Why a file stands for no object.
#[derive(Clone, Copy)]
enum ObjectFault {
    Image(ImageFault),
    Elf(ElfFault),
}

/// What the file of a task is, which stands for no object.
fn explain_object<D: Desk>(
    alloc: Global,
    desk: &D,
    (fault, task): (ObjectFault, usize),
    set: &str,
    text: &[u8],
) -> Explanation {
    let Some(path) = path_of_task(alloc, text, task)? else {
        return Ok(None);
    };
    let Some(bytes) = object_at(alloc, desk, path)? else {
        return Ok(None);
    };
    let place = task_place(set, text, task);
    let hint = match fault {
        ObjectFault::Image(fault) => image_hint(alloc, path, &bytes, FileKind::Object, fault)?,
        ObjectFault::Elf(fault) => elf_hint(alloc, path, &bytes, fault)?,
    };
    match hint {
        Some(hint) => Ok(Some(format!(in alloc; "  {place}\n{hint}")?)),
        None => line(alloc, place),
    }
}

/// Why a flat image has no object.
fn explain_flat(
    alloc: Global,
    fault: FlatFault,
    request: Request<'_>,
    inputs: &Inputs,
) -> Explanation {
    match flat_files(request, inputs) {
        Some(files) => flat_hint(alloc, fault, &files),
        None => Ok(None),
    }
}

/// What is made of a flat image, if that is asked for.
pub(crate) fn flat_files<'a>(request: Request<'a>, inputs: &'a Inputs) -> Option<FlatFiles<'a>> {
    match request {
        Request::Image {
            image,
            object,
            entry,
            symbols,
            ..
        } => Some(FlatFiles {
            image,
            bytes: &inputs.first,
            object,
            list: symbols,
            names: &inputs.names,
            entry,
        }),
        _ => None,
    }
}

/// Why a source isn't assembled: its faulty line, or all of them.
fn explain_source(
    alloc: Global,
    fault: LineFault,
    request: Request<'_>,
    inputs: &Inputs,
) -> Explanation {
    match request {
        Request::Asm {
            source,
            tells_all: true,
            ..
        } => Ok(Some(source_hints(alloc, source, &inputs.first)?)),
        Request::Asm { source, .. } => source_hint(alloc, source, &inputs.first, fault),
        _ => Ok(None),
    }
}

/// Why a program on the bytes of a file ended early.
fn explain_program(
    alloc: Global,
    fault: SimFault,
    request: Request<'_>,
    inputs: &Inputs,
) -> Explanation {
    match (fault, request) {
        (SimFault::Image(fault), _) => {
            image_hint(alloc, request.path(), &inputs.first, request.kind(), fault)
        }
        (SimFault::Text(fault), _) => {
            explain_source(alloc, LineFault::Text(fault), request, inputs)
        }
        (SimFault::Source(fault), _) => {
            explain_source(alloc, LineFault::Source(fault), request, inputs)
        }
        (_, Request::Print { text, .. }) => explain_numbers(alloc, fault, &inputs.first, text),
        _ => explain_numbers(alloc, fault, &inputs.first, FileText::Admitted),
    }
}

/// Why there is no system of a set file.
fn explain_pack<D: Desk>(
    alloc: Global,
    desk: &D,
    fault: ProgramFault<'_>,
    request: Request<'_>,
    inputs: &Inputs,
) -> Explanation {
    let set = request.path();
    match fault {
        ProgramFault::Set(SetFault::Line(number)) => { set_hint(alloc, set, &inputs.first, number) }
        ProgramFault::Pack(ReadFault::Fault(fault), task) => {
            let fault = ObjectFault::Image(fault);
            explain_object(alloc, desk, (fault, task), set, &inputs.first)
        }
        ProgramFault::Elf(ElfFault::Memory, _) => Ok(None),
        ProgramFault::Elf(fault, Some(task)) => {
            let fault = ObjectFault::Elf(fault);
            explain_object(alloc, desk, (fault, task), set, &inputs.first)
        }
        _ => Ok(None),
    }
}

/// Why an entry can't have a name.
fn explain_name(alloc: Global, fault: NameFault) -> Explanation {
    match fault {
        NameFault::Elsewhere(_) => {
            line(alloc, "it isn't the entry: take a name that no symbol has")
        }
        NameFault::TooMany => line(alloc, "the object has 65536 symbols: leave --name out"),
        _ => Ok(None),
    }
}

fn explain<D: Desk>(
    alloc: Global,
    desk: &D,
    fault: ProgramFault<'_>,
    request: Request<'_>,
    inputs: &Inputs,
) -> Explanation {
    match fault {
        ProgramFault::File(path, reason, task) => {
            explain_file(alloc, desk, (path, reason, task), request, inputs)
        }
        ProgramFault::IsRead(_, task) => {
            explain_reason(alloc, "also the input", task, request, inputs)
        }
        ProgramFault::Device(path, _, Some(reason)) => {
            let path = Escaped::line(path);
            line(alloc, format_args!("{path}: {reason}"))
        }
        ProgramFault::Sim(SimFault::Device(_)) => match desk.output_fault() {
            Some(reason) => line(alloc, format_args!("standard output: {reason}")),
            None => Ok(None),
        },
        ProgramFault::Sim(fault) => explain_program(alloc, fault, request, inputs),
        ProgramFault::Flat(fault) => explain_flat(alloc, fault, request, inputs),
        ProgramFault::Elf(fault, None) => elf_hint(alloc, request.path(), &inputs.first, fault),
        ProgramFault::Name(naming) => explain_name(alloc, naming.fault),
        ProgramFault::Laid(fault) => data_hint(alloc, fault),
        ProgramFault::NotNamed(fault) => explain_word(alloc, fault, &inputs.first),
        _ => explain_pack(alloc, desk, fault, request, inputs),
    }
}

/// The lines behind the first one of a fault, if there is more to say, and memory to say it.
pub(crate) fn explanation<D: Desk>(
    alloc: Global,
    desk: &D,
    fault: ProgramFault<'_>,
    request: Request<'_>,
    inputs: &Inputs,
) -> Option<String> {
    let more: Result<Option<String>, AllocError> = explain(alloc, desk, fault, request, inputs);
    with_help(alloc, more.ok()?, fault).ok().flatten()
}
