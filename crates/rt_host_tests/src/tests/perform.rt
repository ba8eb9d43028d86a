//! Requests on a desk in memory: what they read, make, print and say.

use rt_desk::Desk;
use rt_desk::memory::MemoryDesk;
use rt_perform::{Admission, Asked, FileText, NoBeat, Request, perform};
use rt_sink::{Buffered, Limited};
use std::alloc::Global;
use std::test::Fail;

/// One instruction at the entry.
const SOURCE: &[u8] = b"_start: nop\n";

/// Its object file: magic, entry, one word, one symbol; addi x0,x0,0; the name's length, the name, its address.
const OBJECT: &[u8] = b"RTI1\0\0\0\x80\x04\0\0\0\x01\0\0\0\x13\0\0\0\x06\0_start\0\0\0\x80";

const ASSEMBLE: Request<'static> = Request::Asm {
    source: "a.s",
    object: "a.rti",
    tells_all: false,
    name: None,
};

/// A desk with a source of these bytes.
fn desk_with(alloc: Global, source: &[u8]) -> Result<MemoryDesk, Fail> {
    let mut desk = MemoryDesk::new(alloc);
    desk.make(alloc, "a.s", source)
        .map_err(|_| Fail::from("no room"))?;
    Ok(desk)
}

/// Does what is asked for, over an output that takes so many bytes. Answers the status.
fn perform_on(
    alloc: Global,
    desk: &mut MemoryDesk,
    room: usize,
    request: Request<'_>,
) -> Result<u8, Fail> {
    let inner = Limited::new(alloc, 8, room)?;
    let mut out = Buffered::new(alloc, inner).map_err(|_| Fail::from("no room"))?;
    let mut input = b"".as_slice();
    Ok(perform(alloc, desk, &mut input, &mut out, request, &NoBeat))
}

#[test]
fn a_source_is_assembled(rt: HostRuntime) -> Result<(), Fail> {
    let mut desk = desk_with(rt.alloc(), SOURCE)?;
    let status = perform_on(rt.alloc(), &mut desk, 0, ASSEMBLE)?;
    assert_eq!(rt; status, 0);
    assert!(rt; desk.bytes("a.rti") == Some(OBJECT));
    assert!(rt; desk.bytes("a.s") == Some(SOURCE));
    assert_eq!(rt; desk.said(), "");
    Ok(())
}

#[test]
fn a_full_device_is_told(rt: HostRuntime) -> Result<(), Fail> {
    let mut desk = desk_with(rt.alloc(), OBJECT)?;
    let listing = Request::Print {
        file: "a.s",
        text: FileText::Listing,
        admission: Admission::Required,
        asked: Asked {
            fail_on: &[],
            except: &[],
        },
    };
    let status = perform_on(rt.alloc(), &mut desk, 3, listing)?;
    assert_eq!(rt; status, 3);
    assert_eq!(rt; desk.said(), "rt_sim: device after 3 bytes\n");
    Ok(())
}
