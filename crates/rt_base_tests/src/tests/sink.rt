//! What no clause says: that calls succeed, and values from outside.

use crate::tests::same;
use rt_sink::*;
use std::alloc::AllocError;
use std::io;
use std::io::Write;
use std::process::Abort;
use std::test::Fail;

static TEXT: [u8; 7] = *b"0 idle\n";

/// A writer that answers Ok(0), whatever it is given.
#[derive(Drop)]
struct Full;

impl Write for Full {
    fn write(&mut self, _buf: &[u8]) -> io::Result<usize> {
        Ok(0)
    }

    fn flush(&mut self) -> io::Result<()> {
        Ok(())
    }
}

#[test]
fn limited_sinks_take_their_room(rt: HostRuntime) -> Result<(), Fail> {
    for per_put in 1..4 {
        for room in 0..9 {
            let mut sink = Limited::new(rt.alloc(), per_put, room)?;
            let written = match put_bytes(&mut sink, &TEXT) {
                Ok(()) => 7,
                Err(fault) => fault.written,
            };
            same(&rt, per_put, written as usize, room.min(7));
            same(&rt, per_put, sink.bytes(), &TEXT[..room.min(7)]);
            same(&rt, per_put, sink.has_failed(), room < 7);
        }
    }
    Ok(())
}

#[test]
fn a_writer_that_takes_nothing_has_failed(rt: HostRuntime) {
    let mut sink = OverWrite::new(Full);
    same(&rt, "put", sink.put(b""), Put::Taken(0));
    assert!(rt; !sink.has_failed());
    same(
        &rt,
        "put bytes",
        put_bytes(&mut sink, b"ab"),
        Err(DeviceFault { written: 0 }),
    );
    same(&rt, "put", sink.put(b""), Put::Failed);
}

/// A writer that answers an error, whatever it is given.
#[derive(Drop)]
struct Broken;

impl Write for Broken {
    fn write(&mut self, _buf: &[u8]) -> io::Result<usize> {
        Err(io::Error::from(io::ErrorKind::StorageFull))
    }

    fn flush(&mut self) -> io::Result<()> {
        Ok(())
    }
}

#[test]
fn a_writer_that_errs_has_failed(rt: HostRuntime) {
    let mut sink = OverWrite::new(Broken);
    assert!(rt; !sink.has_failed());
    same(&rt, "put", sink.put(b"ab"), Put::Failed);
    assert!(rt; sink.has_failed());
    same(&rt, "put", sink.put(b""), Put::Failed);
}

#[test]
fn a_writer_takes_long_slices(rt: HostRuntime) -> Result<(), Fail> {
    for count in [4_097, 65_536, 65_537, 200_000] {
        let text = vec![in rt.alloc(); 7u8; count]?;
        let mut memory = vec![in rt.alloc(); 0u8; 200_000]?;
        let mut sink = OverWrite::new(memory.as_mut_slice());
        same(&rt, "put", sink.put(&text), Put::Taken(count));
        assert!(rt; !sink.has_failed());
        let taken = memory.iter().filter(|byte| **byte == 7).count();
        same(&rt, "taken", taken, count);
    }
    Ok(())
}

#[test]
fn a_writer_over_memory_is_filled(rt: HostRuntime) -> Result<(), Fail> {
    let mut memory = [0u8; 4];
    let mut sink = OverWrite::new(memory.as_mut_slice());
    assert!(rt; put_bytes(&mut sink, b"abc").is_ok());
    same(
        &rt,
        "put bytes",
        put_bytes(&mut sink, b"de"),
        Err(DeviceFault { written: 1 }),
    );
    Ok(())
}

#[test]
fn a_writer_stops_at_the_fault(rt: HostRuntime) -> Result<(), Fail> {
    let mut sink = Limited::new(rt.alloc(), 2, 9)?;
    let mut writer = Writer {
        sink: &mut sink,
        written: 0,
    };
    writer.put(&TEXT);
    same(&rt, "end", writer.end(), Ok(7));
    writer.put(&TEXT);
    same(&rt, "end", writer.end(), Err(DeviceFault { written: 9 }));
    writer.put(&TEXT);
    same(&rt, "end", writer.end(), Err(DeviceFault { written: 9 }));
    same(&rt, "bytes", sink.bytes(), b"0 idle\n0 ".as_slice());
    Ok(())
}

#[test]
fn numbers_as_text(rt: HostRuntime) {
    let mut line = LineBuffer::new();
    push_decimal(&mut line, 18446744073709551615);
    push_text(&mut line, b" ");
    push_hex(&mut line, 0x0fe0_00b3);
    push_text(&mut line, b" ");
    push_decimal(&mut line, 0);
    let want = b"18446744073709551615 0fe000b3 0";
    same(&rt, "line", line.as_slice(), want.as_slice());
}

/// Puts so many lines of 100 bytes.
fn put_lines(rt: &impl Abort, out: &mut Buffered<Limited>, count: usize) {
    let line = [b'a'; 100];
    for _ in 0..count {
        assert!(rt; !out.has_failed());
        same(rt, "put bytes", put_bytes(out, &line), Ok(()));
    }
}

#[test]
fn gathered_bytes_are_delivered(rt: HostRuntime) -> Result<(), Fail> {
    let inner = Limited::new(rt.alloc(), 1000, 70_000)?;
    let mut out = Buffered::new(rt.alloc(), inner).map_err(|_| AllocError)?;
    put_lines(&rt, &mut out, 327);
    same(&rt, "delivered", out.delivered(), 0);
    put_lines(&rt, &mut out, 1);
    same(&rt, "delivered", out.delivered(), 32_768);
    same(&rt, "flush", out.flush(), Ok(()));
    same(&rt, "delivered", out.delivered(), 32_800);
    put_lines(&rt, &mut out, 373);
    // 70,000 bytes fit, of the 70,100.
    same(
        &rt,
        "flush",
        out.flush(),
        Err(DeviceFault { written: 70_000 }),
    );
    same(&rt, "put", out.put(b""), Put::Failed);
    same(
        &rt,
        "flush",
        out.flush(),
        Err(DeviceFault { written: 70_000 }),
    );
    Ok(())
}

#[test]
fn long_bytes_pass_behind_what_waits(rt: HostRuntime) -> Result<(), Fail> {
    let inner = Limited::new(rt.alloc(), 30_000, 32_771)?;
    let mut out = Buffered::new(rt.alloc(), inner).map_err(|_| AllocError)?;
    let text = vec![in rt.alloc(); b'x'; 32_768]?;
    same(&rt, "put", out.put(b"abcde"), Put::Taken(5));
    same(&rt, "put", out.put(&text), Put::Taken(30_000));
    same(&rt, "delivered", out.delivered(), 30_005);
    same(&rt, "put", out.put(&text[..32_767]), Put::Taken(32_767));
    same(&rt, "delivered", out.delivered(), 30_005);
    same(
        &rt,
        "flush",
        out.flush(),
        Err(DeviceFault { written: 32_771 }),
    );
    same(&rt, "put", out.put(&text), Put::Failed);
    Ok(())
}

#[test]
fn what_waits_is_not_delivered(rt: HostRuntime) -> Result<(), Fail> {
    gathered_text_arrives::<Limited>();
    let inner = Limited::new(rt.alloc(), 3, 10)?;
    let mut out = Buffered::new(rt.alloc(), inner).map_err(|_| AllocError)?;
    put_lines(&rt, &mut out, 327);
    // 68 bytes of the line find room, and then the other sink takes 10 and fails.
    let line = [b'a'; 100];
    assert!(rt; !out.has_failed());
    same(
        &rt,
        "put bytes",
        put_bytes(&mut out, &line),
        Err(DeviceFault { written: 68 }),
    );
    same(&rt, "delivered", out.delivered(), 10);
    same(&rt, "flush", out.flush(), Err(DeviceFault { written: 10 }));
    Ok(())
}
