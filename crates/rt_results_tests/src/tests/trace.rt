//! The lines of outputs, registers and histories, written by hand.

use crate::tests::same;
use rt_history::AttemptOutcome::{self, Next, Reserve, ReserveRefused, Sleep};
use rt_history::ring::Ring;
use rt_history::{Attempt, Entry};
use rt_sink::{DeviceFault, Limited};
use rt_text_out::write;
use rt_trace::*;
use std::alloc::Global;
use std::process::Abort;
use std::test::Fail;

mod memory;

/// Outputs, and their lines.
static OUTPUTS: [(&[u8], &[u8]); 2] = [
    (b"", b"out 0\n"),
    (&[0x93, 0x08, 0x10, 0x00], b"out 4 93081000\n"),
];

#[test]
fn out_lines(rt: HostRuntime) -> Result<(), Fail> {
    for (bytes, want) in &OUTPUTS {
        assert!(rt; bytes.len() < 100);
        let mut sink = Limited::new(rt.alloc(), 3, 100)?;
        let written = write(&OutLine(Digits::<100> { bytes: *bytes }), &mut sink);
        same(&rt, *want, written, Ok(want.len() as u64));
        same(&rt, "bytes", sink.bytes(), *want);
    }
    Ok(())
}

/// Registers that aren't 0, and their lines.
static REGISTERS: [(&[(usize, u32)], &[u8]); 4] = [
    (&[], b"regs\n"),
    (&[(1, 0xffff_ffff)], b"regs x1=ffffffff\n"),
    (
        &[(5, 0x8000_0000), (6, 0xf3), (7, 1)],
        b"regs x5=80000000 x6=000000f3 x7=00000001\n",
    ),
    (&[(10, 7), (17, 2)], b"regs x10=00000007 x17=00000002\n"),
];

fn registers(values: &[(usize, u32)]) -> [u32; 32] {
    let mut x = [0; 32];
    for (number, value) in values {
        x[*number % 32] = *value;
    }
    x
}

#[test]
fn regs_lines(rt: HostRuntime) -> Result<(), Fail> {
    for (values, want) in &REGISTERS {
        let mut sink = Limited::new(rt.alloc(), 3, 100)?;
        let written = write(&RegsLine(&registers(values)), &mut sink);
        same(&rt, *want, written, Ok(want.len() as u64));
        same(&rt, "bytes", sink.bytes(), *want);
    }
    Ok(())
}

/// The lines of a task that sleeps until tick 7, after 7 ticks.
static LINES: [&[u8]; 5] = [
    b"0 0 80000000 00200893 next\n",
    b"1 0 80000004 00700513 next\n",
    b"2 0 80000008 00000593 next\n",
    b"3 0 8000000c 00000073 sleep 7\n",
    b"4 idle 3\n",
];

fn busy(t: u64, pc: u32, word: u32, outcome: AttemptOutcome) -> Entry {
    let rec = Attempt {
        task: 0,
        pc,
        word: Some(word),
        outcome,
    };
    Entry::Busy { t, rec }
}

/// The entries of those lines.
fn entries() -> [Entry; 5] {
    [
        busy(0, 0x8000_0000, 0x0020_0893, Next),
        busy(1, 0x8000_0004, 0x0070_0513, Next),
        busy(2, 0x8000_0008, 0x0000_0593, Next),
        busy(3, 0x8000_000c, 0x0000_0073, Sleep(7)),
        Entry::Idle { t: 4, n: 3 },
    ]
}

/// The lines over a sink that has room for `want` alone.
fn cut_lines(
    rt: &impl Abort,
    alloc: Global,
    per_put: usize,
    want: &[u8],
    whole: usize,
) -> Result<(), Fail> {
    assert!(rt; per_put > 0);
    let mut sink = Limited::new(alloc, per_put, want.len())?;
    let [a, b, c, d, e] = entries();
    let lines = (EntryLine(&a), EntryLine(&b), EntryLine(&c), EntryLine(&d));
    let written = want.len() as u64;
    let answer = if want.len() == whole {
        Ok(written)
    } else {
        Err(DeviceFault { written })
    };
    same(rt, want, write(&(lines, EntryLine(&e)), &mut sink), answer);
    same(rt, "bytes", sink.bytes(), want);
    Ok(())
}

#[test]
fn lines_are_cut_where_the_sink_fails(rt: HostRuntime) -> Result<(), Fail> {
    let text = LINES.concat(rt.alloc())?;
    same(&rt, "text", text.len(), 120);
    for room in 0..text.len() + 1 {
        for per_put in 1..4 {
            cut_lines(&rt, rt.alloc(), per_put, &text[..room], text.len())?;
        }
    }
    Ok(())
}

/// What a ring of two holds of those entries.
#[test]
fn lines_of_a_ring(rt: HostRuntime) -> Result<(), Fail> {
    let mut ring = Ring::new(rt.alloc(), 2)?;
    for entry in entries() {
        assert!(rt; entry.start() < 7 && entry.ticks() < 7);
        ring.push(entry);
    }
    same(&rt, "ring", ring.len(), 2);
    let held = (
        EntryLine(ring.get(0).ok_or("none")?),
        EntryLine(ring.get(1).ok_or("only one")?),
    );
    let mut sink = Limited::new(rt.alloc(), 3, 100)?;
    same(&rt, "lines", write(&held, &mut sink), Ok(39));
    same(
        &rt,
        "bytes",
        sink.bytes(),
        b"3 0 8000000c 00000073 sleep 7\n4 idle 3\n".as_slice(),
    );
    Ok(())
}

/// The least budget and the greatest, and one that was refused.
#[test]
fn reserve_lines(rt: HostRuntime) -> Result<(), Fail> {
    let least = busy(2, 0x8000_0008, 0x0000_0073, Reserve(1));
    let greatest = busy(99, 0x800f_fffc, 0x0000_0073, Reserve(u32::MAX));
    let refused = busy(1_099_511_627_775, 0x8000_0008, 0x0000_0073, ReserveRefused);
    let lines = (EntryLine(&least), EntryLine(&greatest), EntryLine(&refused));
    let text: [&[u8]; 3] = [
        b"2 0 80000008 00000073 reserve 1\n",
        b"99 0 800ffffc 00000073 reserve 4294967295\n",
        b"1099511627775 0 80000008 00000073 reserve refused\n",
    ];
    let mut sink = Limited::new(rt.alloc(), 7, 200)?;
    same(&rt, "lines", write(&lines, &mut sink), Ok(124));
    same(
        &rt,
        "bytes",
        sink.bytes(),
        text.concat(rt.alloc())?.as_slice(),
    );
    Ok(())
}
