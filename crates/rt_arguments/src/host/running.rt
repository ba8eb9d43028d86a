//! A request on a host.

use crate::host::host_desk::HostDesk;
use crate::host::progress::Progress;
use crate::host::prompting::Prompting;
use crate::host::terminals::Terminals;
use crate::host::watched::Watched;
use rt_perform::{FileText, ProgramFault, Request};
use rt_programs::SimFault;
use rt_sink::{Buffered, OverWrite};
use std::cell::Cell;
use std::env::Env;
use std::io::{self, BufReader, Input};
use std::process::ExitCode;
use std::rt::Files;
use std::time::Clock;

/// The exit status of a program whose output has no reader, as of one that SIGPIPE ends.
const NO_READER: u8 = 141;

/// The exit status of a fault of a device.
const DEVICE: u8 = 3;

/// Tells a fault on the standard error. There is nothing left to do where that fails too.
pub fn tell<R: Eprint>(rt: &R, fault: ProgramFault<'_>) -> ExitCode {
    let _ = eprintln!(rt; "rt_sim: {fault}");
    ExitCode::from(fault.status())
}

/// Whether the input of a request has lines, which a person may type.
fn is_of_lines(request: Request<'_>) -> bool {
    matches!(request, Request::Debug { .. })
}

/// Whether a request ends without a word where the reader of its text has gone: `check` still says why it refuses a set.
fn is_filter(request: Request<'_>) -> bool {
    !matches!(
        request,
        Request::Print {
            text: FileText::Admitted,
            ..
        }
    )
}

/// Does what is asked for, with the files, the standard input, the standard output and the standard error of a host. Where lines of
/// a session are typed at a terminal, the standard error asks for each; gdb isn't asked. Where it is a terminal, it shows how far a run has
/// come.
pub fn perform<R: Print + Eprint + AllocGlobal + Files + Input + Env + Clock>(
    rt: &R,
    request: Request<'_>,
    terminals: Terminals,
) -> ExitCode {
    let memory = ProgramFault::Sim(SimFault::Memory);
    let output_fault = Cell::new(None);
    let progress = Progress::new(rt, request, terminals);
    let output = Watched::new(io::writer(rt), &output_fault, &progress);
    let Ok(mut out) = Buffered::new(rt.alloc(), OverWrite::new(output)) else {
        return tell(rt, memory);
    };
    let is_typed = terminals.input && terminals.error && is_of_lines(request);
    let reader = Prompting::new(rt, rt.reader(), is_typed);
    let Ok(mut input) = BufReader::new(rt.alloc(), reader) else {
        return tell(rt, memory);
    };
    let mut desk = HostDesk::new(rt, &output_fault, is_filter(request), &progress);
    let status = rt_perform::perform(
        rt.alloc(),
        &mut desk,
        &mut input,
        &mut out,
        request,
        &progress,
    );
    progress.clear();
    let is_lost = status == DEVICE && desk.is_quiet();
    ExitCode::from(if is_lost { NO_READER } else { status })
}
