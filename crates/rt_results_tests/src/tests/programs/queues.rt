//! The machine with each queue and each fetcher: their runs are those of the queue and the fetcher that the program has.

use super::{BEAT, BUSY, SLEEPER, same};
use rt_core::Machine;
use rt_exec::{Fetcher, Plain, Predecoded};
use rt_image::read_system;
use rt_queue::heap::Heap;
use rt_queue::{MinQueue, Scan, Tournament};
use rt_sink::Limited;
use rt_trace::{Telling, Unheard, write_run};
use std::alloc::Global;
use std::test::Fail;

/// A task whose split store changes a byte of each of the two instructions behind it, before they run.
const REWRITER: &[u8] =
    b"RTS2\x0c\0\0\0\x01\0\0\0\x01\0\0\0\x03\0\0\0\0\0\0\0\x01\0\0\0@\0\0\0\x28\0\0\0\
    RTI1\0\0\0\x80\x18\0\0\0\0\0\0\0\xb7\x02\0\x80\x37\x93\0\0\x13\x03\x13\x30\xa3\x99\x62\0\x93\x83\x13\0\x13\x04\x14\0";

/// The tasks of `BUSY`, of which the first reserves 2 ticks of 3 before it jumps to itself.
const RESERVES: &[u8] =
    b"RTS1\x0c\0\0\0\x02\0\0\0\x01\0\0\0\x03\0\0\0\0\0\0\0@\0\0\0\x20\0\0\0RTI1\0\0\0\x80\x10\0\0\0\0\0\0\0\x93\x08P\0\x13\x05\x20\0s\0\0\0o\0\0\0\x02\0\0\0\x04\0\0\0\0\0\0\0@\0\0\0\x14\0\0\0RTI1\0\0\0\x80\x04\0\0\0\0\0\0\0o\0\0\0";

static SYSTEMS: [&[u8]; 5] = [BUSY, SLEEPER, BEAT, REWRITER, RESERVES];

/// The text of 200 ticks of a system.
fn text_of<Q: MinQueue, F: Fetcher>(alloc: Global, file: &[u8]) -> Result<Limited, Fail> {
    let system = read_system(alloc, file)?;
    let mut machine: Machine<Q, F> = Machine::load(alloc, &system)?;
    let mut sink = Limited::new(alloc, 7, 16_384)?;
    write_run(
        &mut machine,
        &mut Unheard,
        Telling::WithServers,
        200,
        &mut sink,
    )?;
    Ok(sink)
}

#[test]
fn runs_are_the_same(rt: HostRuntime) -> Result<(), Fail> {
    for file in &SYSTEMS {
        let text = text_of::<Tournament, Predecoded>(rt.alloc(), file)?;
        let others = [
            text_of::<Scan, Plain>(rt.alloc(), file)?,
            text_of::<Heap, Plain>(rt.alloc(), file)?,
            text_of::<Heap, Predecoded>(rt.alloc(), file)?,
        ];
        for other in &others {
            same(&rt, *file, other.bytes(), text.bytes());
        }
    }
    Ok(())
}
