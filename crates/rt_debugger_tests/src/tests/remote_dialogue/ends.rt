//! Inputs that end early, and sinks that fail.

use super::rows::FAULT_ROWS;
use super::{FAULT, WHOLE, heard_in, said_in, same, says, serve_on};
use rt_dialogue::DebugFault;
use rt_programs::SimFault;
use rt_sink::DeviceFault;
use std::alloc::Global;
use std::process::Abort;
use std::test::Fail;

/// A row is answered only at its last byte.
#[test]
fn inputs_end_at_each_byte(rt: HostRuntime) -> Result<(), Fail> {
    let mut heard = Vec::new(rt.alloc());
    let mut said = Vec::new(rt.alloc());
    for (hears, answers) in &FAULT_ROWS {
        for count in 0..hears.len() {
            let mut first = Vec::from_slice(rt.alloc(), &heard)?;
            first.extend_from_slice(&hears[..count])?;
            says(&rt, rt.alloc(), FAULT, &first, WHOLE, &said)?;
        }
        heard.extend_from_slice(hears)?;
        said.extend_from_slice(answers)?;
    }
    Ok(())
}

/// Gives a session a sink that takes so many bytes of what is said, and then fails.
fn fail_behind(
    rt: &impl Abort,
    alloc: Global,
    heard: &[u8],
    said: &[u8],
    count: usize,
) -> Result<(), Fail> {
    let mut room = Vec::new(alloc);
    room.resize(count, 0)?;
    let written = count as u64;
    let failed = DebugFault::Sim(SimFault::Device(DeviceFault { written }));
    let came = serve_on(rt, alloc, FAULT, heard, WHOLE, &mut room)?;
    same(rt, count, came, (Err(failed), written));
    same(rt, count, said.starts_with(&room), true);
    Ok(())
}

#[test]
fn sinks_fail_at_each_byte(rt: HostRuntime) -> Result<(), Fail> {
    let heard = heard_in(rt.alloc(), &FAULT_ROWS, b"")?;
    let said = said_in(rt.alloc(), &FAULT_ROWS)?;
    for count in 0..said.len() {
        fail_behind(&rt, rt.alloc(), &heard, &said, count)?;
    }
    Ok(())
}

/// The bytes of a file that is no system.
#[test]
fn a_refused_system_says_nothing(rt: HostRuntime) -> Result<(), Fail> {
    let mut room = [0; 8];
    let (ended, count) = serve_on(&rt, rt.alloc(), b"RTS0", b"$?#3f", WHOLE, &mut room)?;
    same(&rt, "ended", (ended.is_err(), count), (true, 0));
    Ok(())
}
