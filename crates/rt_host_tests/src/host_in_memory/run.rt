//! A run of the program on such a host.

use crate::host_in_memory::host::{Host, Record, Setup};
use rt_arguments::host::Terminals;
use std::alloc::Global;
use std::cell::RefCell;
use std::process::ExitCode;

/// Runs the program on a host with these files, which adds to the record.
pub fn run_on(
    memory: Global,
    setup: Setup,
    files: &[(&str, &[u8])],
    record: Record,
) -> (ExitCode, Record) {
    let record = RefCell::new(record);
    let host = Host {
        memory,
        setup,
        files,
        record: &record,
    };
    let terminals = Terminals {
        input: setup.is_typed,
        output: setup.is_shown,
        error: setup.is_typed || setup.is_shown,
    };
    let status = rt_arguments::run(&host, terminals);
    (status, record.into_inner())
}
