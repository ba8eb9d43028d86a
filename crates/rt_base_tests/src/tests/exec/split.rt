//! Loads and stores at any address, where accesses are split and where they aren't.

use crate::tests::exec::fetchers::{Runner, look_at_slots, run_rows, step_rows};
use crate::tests::exec::{OLD, attempted, registers, same, set};
use rt_exec::mem::Ram;
use rt_exec::{Fault, Fetcher, Hart, Outcome, Plain, Predecoded, step};
use rt_words::RAM_BASE;
use std::alloc::Global;
use std::process::Abort;
use std::test::Fail;

/// What x6 holds.
const STORED: u32 = 0xa1b2_c3d4;

/// The eight bytes of RAM before the word that is tried, and the eight behind it.
#[rattlefmt::skip]
const DATA: [u8; 16] = [0x80, 0xff, 0x7f, 0x01, 0x92, 0x23, 0xc4, 0x35, 0x46, 0xd7, 0x68, 0xe9, 0x5a, 0x0b, 0xfc, 0x8d];

/// An address, whether it is a multiple of the access's size, and what a load gives there.
type Load = (u32, bool, u32);

/// An address, whether it is a multiple of the access's size, and what a store leaves of the data.
type Store = (u32, bool, [u8; 16]);

static LB: [Load; 5] = [
    (0x8000_0000, true, 0xffff_ff80),
    (0x8000_0001, true, 0xffff_ffff),
    (0x8000_0002, true, 0x0000_007f),
    (0x8000_0003, true, 0x0000_0001),
    (0x8000_0013, true, 0xffff_ff8d),
];

static LBU: [Load; 5] = [
    (0x8000_0000, true, 0x0000_0080),
    (0x8000_0001, true, 0x0000_00ff),
    (0x8000_0002, true, 0x0000_007f),
    (0x8000_0003, true, 0x0000_0001),
    (0x8000_0013, true, 0x0000_008d),
];

static LH: [Load; 6] = [
    (0x8000_0000, true, 0xffff_ff80),
    (0x8000_0001, false, 0x0000_7fff),
    (0x8000_0002, true, 0x0000_017f),
    (0x8000_0003, false, 0xffff_9201),
    (0x8000_0011, false, 0xffff_fc0b),
    (0x8000_0012, true, 0xffff_8dfc),
];

static LHU: [Load; 6] = [
    (0x8000_0000, true, 0x0000_ff80),
    (0x8000_0001, false, 0x0000_7fff),
    (0x8000_0002, true, 0x0000_017f),
    (0x8000_0003, false, 0x0000_9201),
    (0x8000_0011, false, 0x0000_fc0b),
    (0x8000_0012, true, 0x0000_8dfc),
];

static LW: [Load; 8] = [
    (0x8000_0000, true, 0x017f_ff80),
    (0x8000_0001, false, 0x9201_7fff),
    (0x8000_0002, false, 0x2392_017f),
    (0x8000_0003, false, 0xc423_9201),
    (0x8000_000d, false, 0x5ae9_68d7),
    (0x8000_000e, false, 0x0b5a_e968),
    (0x8000_000f, false, 0xfc0b_5ae9),
    (0x8000_0010, true, 0x8dfc_0b5a),
];

#[rattlefmt::skip]
static SB: [Store; 5] = [
    (0x8000_0000, true, [0xd4, 0xff, 0x7f, 0x01, 0x92, 0x23, 0xc4, 0x35, 0x46, 0xd7, 0x68, 0xe9, 0x5a, 0x0b, 0xfc, 0x8d]),
    (0x8000_0001, true, [0x80, 0xd4, 0x7f, 0x01, 0x92, 0x23, 0xc4, 0x35, 0x46, 0xd7, 0x68, 0xe9, 0x5a, 0x0b, 0xfc, 0x8d]),
    (0x8000_0002, true, [0x80, 0xff, 0xd4, 0x01, 0x92, 0x23, 0xc4, 0x35, 0x46, 0xd7, 0x68, 0xe9, 0x5a, 0x0b, 0xfc, 0x8d]),
    (0x8000_0003, true, [0x80, 0xff, 0x7f, 0xd4, 0x92, 0x23, 0xc4, 0x35, 0x46, 0xd7, 0x68, 0xe9, 0x5a, 0x0b, 0xfc, 0x8d]),
    (0x8000_0013, true, [0x80, 0xff, 0x7f, 0x01, 0x92, 0x23, 0xc4, 0x35, 0x46, 0xd7, 0x68, 0xe9, 0x5a, 0x0b, 0xfc, 0xd4]),
];

#[rattlefmt::skip]
static SH: [Store; 6] = [
    (0x8000_0000, true, [0xd4, 0xc3, 0x7f, 0x01, 0x92, 0x23, 0xc4, 0x35, 0x46, 0xd7, 0x68, 0xe9, 0x5a, 0x0b, 0xfc, 0x8d]),
    (0x8000_0001, false, [0x80, 0xd4, 0xc3, 0x01, 0x92, 0x23, 0xc4, 0x35, 0x46, 0xd7, 0x68, 0xe9, 0x5a, 0x0b, 0xfc, 0x8d]),
    (0x8000_0002, true, [0x80, 0xff, 0xd4, 0xc3, 0x92, 0x23, 0xc4, 0x35, 0x46, 0xd7, 0x68, 0xe9, 0x5a, 0x0b, 0xfc, 0x8d]),
    (0x8000_0003, false, [0x80, 0xff, 0x7f, 0xd4, 0xc3, 0x23, 0xc4, 0x35, 0x46, 0xd7, 0x68, 0xe9, 0x5a, 0x0b, 0xfc, 0x8d]),
    (0x8000_0011, false, [0x80, 0xff, 0x7f, 0x01, 0x92, 0x23, 0xc4, 0x35, 0x46, 0xd7, 0x68, 0xe9, 0x5a, 0xd4, 0xc3, 0x8d]),
    (0x8000_0012, true, [0x80, 0xff, 0x7f, 0x01, 0x92, 0x23, 0xc4, 0x35, 0x46, 0xd7, 0x68, 0xe9, 0x5a, 0x0b, 0xd4, 0xc3]),
];

#[rattlefmt::skip]
static SW: [Store; 8] = [
    (0x8000_0000, true, [0xd4, 0xc3, 0xb2, 0xa1, 0x92, 0x23, 0xc4, 0x35, 0x46, 0xd7, 0x68, 0xe9, 0x5a, 0x0b, 0xfc, 0x8d]),
    (0x8000_0001, false, [0x80, 0xd4, 0xc3, 0xb2, 0xa1, 0x23, 0xc4, 0x35, 0x46, 0xd7, 0x68, 0xe9, 0x5a, 0x0b, 0xfc, 0x8d]),
    (0x8000_0002, false, [0x80, 0xff, 0xd4, 0xc3, 0xb2, 0xa1, 0xc4, 0x35, 0x46, 0xd7, 0x68, 0xe9, 0x5a, 0x0b, 0xfc, 0x8d]),
    (0x8000_0003, false, [0x80, 0xff, 0x7f, 0xd4, 0xc3, 0xb2, 0xa1, 0x35, 0x46, 0xd7, 0x68, 0xe9, 0x5a, 0x0b, 0xfc, 0x8d]),
    (0x8000_000d, false, [0x80, 0xff, 0x7f, 0x01, 0x92, 0x23, 0xc4, 0x35, 0x46, 0xd4, 0xc3, 0xb2, 0xa1, 0x0b, 0xfc, 0x8d]),
    (0x8000_000e, false, [0x80, 0xff, 0x7f, 0x01, 0x92, 0x23, 0xc4, 0x35, 0x46, 0xd7, 0xd4, 0xc3, 0xb2, 0xa1, 0xfc, 0x8d]),
    (0x8000_000f, false, [0x80, 0xff, 0x7f, 0x01, 0x92, 0x23, 0xc4, 0x35, 0x46, 0xd7, 0x68, 0xd4, 0xc3, 0xb2, 0xa1, 0x8d]),
    (0x8000_0010, true, [0x80, 0xff, 0x7f, 0x01, 0x92, 0x23, 0xc4, 0x35, 0x46, 0xd7, 0x68, 0xe9, 0xd4, 0xc3, 0xb2, 0xa1]),
];

/// Addresses from which not all bytes of an access are in RAM, and whether each is a multiple of its size.
static OUTSIDE_BYTE: [(u32, bool); 5] = [
    (0, true),
    (0x7fff_ffff, true),
    (0x8000_0014, true),
    (0xffff_fffe, true),
    (0xffff_ffff, true),
];

static OUTSIDE_HALF: [(u32, bool); 7] = [
    (1, false),
    (0x7fff_fffe, true),
    (0x7fff_ffff, false),
    (0x8000_0013, false),
    (0x8000_0014, true),
    (0xffff_fffe, true),
    (0xffff_ffff, false),
];

static OUTSIDE_WORD: [(u32, bool); 11] = [
    (1, false),
    (0x7fff_fffc, true),
    (0x7fff_fffd, false),
    (0x7fff_ffff, false),
    (0x8000_0011, false),
    (0x8000_0012, false),
    (0x8000_0013, false),
    (0x8000_0014, true),
    (0xffff_fffc, true),
    (0xffff_fffe, false),
    (0xffff_ffff, false),
];

/// The bytes of RAM: the data round the word that is tried.
fn around(data: &[u8; 16], word: u32) -> [u8; 20] {
    let mut bytes = [0; 20];
    bytes[..8].copy_from_slice(&data[..8]);
    bytes[8..12].copy_from_slice(&word.to_le_bytes());
    bytes[12..].copy_from_slice(&data[8..]);
    bytes
}

/// What an attempt is to leave: its outcome, x7 and the data.
#[derive(Clone, Copy)]
struct Left {
    outcome: Outcome,
    x7: u32,
    data: [u8; 16],
}

impl Left {
    fn fault(fault: Fault) -> Left {
        Left {
            outcome: Outcome::Fault(fault),
            x7: OLD,
            data: DATA,
        }
    }

    fn loaded(x7: u32) -> Left {
        Left {
            outcome: Outcome::Next,
            x7,
            data: DATA,
        }
    }

    fn stored(data: [u8; 16]) -> Left {
        Left {
            outcome: Outcome::Next,
            x7: OLD,
            data,
        }
    }
}

/// A RAM of the data round a word.
fn ram_of(alloc: Global, word: u32) -> Result<Ram, Fail> {
    let mut ram = Ram::new(alloc, 20)?;
    if ram.len() == 20 {
        ram.place(&around(&DATA, word));
    }
    Ok(ram)
}

/// A hart at that word.
fn hart_of(x5: u32) -> Result<Hart, Fail> {
    let mut hart = Hart::new(0x8000_0008);
    set(&mut hart, 5, x5)?;
    set(&mut hart, 6, STORED)?;
    set(&mut hart, 7, OLD)?;
    Ok(hart)
}

/// Attempts a word, with an address in x5.
fn attempt(
    rt: &impl Abort,
    alloc: Global,
    word: u32,
    x5: u32,
    split: bool,
    left: &Left,
) -> Result<(), Fail> {
    let mut ram = ram_of(alloc, word)?;
    let mut hart = hart_of(x5)?;
    let stepped = step(&mut hart, &mut ram, &mut Plain, split);
    same(rt, (word, x5), stepped, attempted(word, left.outcome));
    look_at_hart(rt, word, x5, left, &hart);
    let data = around(&left.data, word);
    same(rt, (word, x5), ram.bytes(), data.as_slice());
    Ok(())
}

fn look_at_hart(rt: &impl Abort, word: u32, x5: u32, left: &Left, hart: &Hart) {
    let goes_on = left.outcome == Outcome::Next;
    let pc = if goes_on { 0x8000_000c } else { 0x8000_0008 };
    let x = registers(&[(5, x5), (6, STORED), (7, left.x7)]);
    same(rt, (word, x5), hart.pc(), pc);
    same(rt, (word, x5), hart.x().as_slice(), x.as_slice());
}

/// Loads by a word, split and not.
fn try_loads(rt: &impl Abort, alloc: Global, word: u32, rows: &[Load]) -> Result<(), Fail> {
    for (at, aligned, value) in rows {
        let split = Left::loaded(*value);
        let whole = if *aligned {
            split
        } else {
            Left::fault(Fault::LoadMisaligned)
        };
        attempt(rt, alloc, word, *at, true, &split)?;
        attempt(rt, alloc, word, *at, false, &whole)?;
    }
    Ok(())
}

/// Stores by a word, split and not.
fn try_stores(rt: &impl Abort, alloc: Global, word: u32, rows: &[Store]) -> Result<(), Fail> {
    for (at, aligned, data) in rows {
        let split = Left::stored(*data);
        let whole = if *aligned {
            split
        } else {
            Left::fault(Fault::StoreMisaligned)
        };
        attempt(rt, alloc, word, *at, true, &split)?;
        attempt(rt, alloc, word, *at, false, &whole)?;
    }
    Ok(())
}

/// Tries words at addresses outside RAM, split and not.
fn try_outside(
    rt: &impl Abort,
    alloc: Global,
    words: &[u32],
    rows: &[(u32, bool)],
    access: Fault,
    misaligned: Fault,
) -> Result<(), Fail> {
    for word in words {
        for (at, aligned) in rows {
            let whole = if *aligned { access } else { misaligned };
            attempt(rt, alloc, *word, *at, true, &Left::fault(access))?;
            attempt(rt, alloc, *word, *at, false, &Left::fault(whole))?;
        }
    }
    Ok(())
}

#[test]
fn loads_at_any_address(rt: HostRuntime) -> Result<(), Fail> {
    // lb, lbu, lh, lhu, lw x7,0(x5)
    try_loads(&rt, rt.alloc(), 0x0002_8383, &LB)?;
    try_loads(&rt, rt.alloc(), 0x0002_c383, &LBU)?;
    try_loads(&rt, rt.alloc(), 0x0002_9383, &LH)?;
    try_loads(&rt, rt.alloc(), 0x0002_d383, &LHU)?;
    try_loads(&rt, rt.alloc(), 0x0002_a383, &LW)
}

#[test]
fn stores_at_any_address(rt: HostRuntime) -> Result<(), Fail> {
    // sb, sh, sw x6,0(x5)
    try_stores(&rt, rt.alloc(), 0x0062_8023, &SB)?;
    try_stores(&rt, rt.alloc(), 0x0062_9023, &SH)?;
    try_stores(&rt, rt.alloc(), 0x0062_a023, &SW)
}

fn try_loads_outside(
    rt: &impl Abort,
    alloc: Global,
    words: &[u32],
    rows: &[(u32, bool)],
) -> Result<(), Fail> {
    let (access, misaligned) = (Fault::LoadAccess, Fault::LoadMisaligned);
    try_outside(rt, alloc, words, rows, access, misaligned)
}

#[test]
fn loads_outside(rt: HostRuntime) -> Result<(), Fail> {
    let bytes = [0x0002_8383, 0x0002_c383];
    let halves = [0x0002_9383, 0x0002_d383];
    try_loads_outside(&rt, rt.alloc(), &bytes, &OUTSIDE_BYTE)?;
    try_loads_outside(&rt, rt.alloc(), &halves, &OUTSIDE_HALF)?;
    try_loads_outside(&rt, rt.alloc(), &[0x0002_a383], &OUTSIDE_WORD)
}

fn try_stores_outside(
    rt: &impl Abort,
    alloc: Global,
    word: u32,
    rows: &[(u32, bool)],
) -> Result<(), Fail> {
    let (access, misaligned) = (Fault::StoreAccess, Fault::StoreMisaligned);
    try_outside(rt, alloc, &[word], rows, access, misaligned)
}

#[test]
fn stores_outside(rt: HostRuntime) -> Result<(), Fail> {
    try_stores_outside(&rt, rt.alloc(), 0x0062_8023, &OUTSIDE_BYTE)?;
    try_stores_outside(&rt, rt.alloc(), 0x0062_9023, &OUTSIDE_HALF)?;
    try_stores_outside(&rt, rt.alloc(), 0x0062_a023, &OUTSIDE_WORD)
}

#[test]
fn displaced_accesses(rt: HostRuntime) -> Result<(), Fail> {
    // lh x7,-1(x5); lw x7,2(x5), from below RAM and round 2^32; sw x6,2(x5) from below RAM
    let (half, word) = (Left::loaded(0x0000_7fff), Left::loaded(0x9201_7fff));
    let (fault, stored) = (Left::fault(Fault::LoadAccess), Left::stored(SW[1].2));
    attempt(&rt, rt.alloc(), 0xfff2_9383, 0x8000_0002, true, &half)?;
    attempt(&rt, rt.alloc(), 0x0022_a383, 0x7fff_ffff, true, &word)?;
    attempt(&rt, rt.alloc(), 0x0022_a383, 0xffff_ffff, true, &fault)?;
    attempt(&rt, rt.alloc(), 0x0062_a123, 0x7fff_ffff, true, &stored)
}

/// Runs words whole, up to the last of these rows, which faults and changes nothing.
fn faults_whole<F: Fetcher>(
    rt: &impl Abort,
    alloc: Global,
    words: &[u32],
    rows: &[(u32, u32)],
    fault: Fault,
) -> Result<Runner<F>, Fail> {
    let (last, before) = rows.split_last().ok_or("a row")?;
    let mut runner: Runner<F> = run_rows(rt, alloc, false, words, before)?;
    let expected = attempted(last.1, Outcome::Fault(fault));
    same(rt, last.0, runner.step(), expected);
    same(rt, last.0, runner.hart.pc(), last.0);
    Ok(runner)
}

static OWN: [u32; 2] = [0x8000_02b7, 0x0012_a303];

static OWN_ROWS: [(u32, u32); 2] = [(0x8000_0000, 0x8000_02b7), (0x8000_0004, 0x0012_a303)];

/// lui x5,0x80000; lw x6,1(x5)
fn loads_its_own_bytes<F: Fetcher>(rt: &impl Abort, alloc: Global) -> Result<(), Fail> {
    let runner: Runner<F> = run_rows(rt, alloc, true, &OWN, &OWN_ROWS)?;
    same(rt, "split", runner.hart.x()[6], 0x0380_0002);
    let fault = Fault::LoadMisaligned;
    let whole: Runner<F> = faults_whole(rt, alloc, &OWN, &OWN_ROWS, fault)?;
    same(rt, "whole", whole.hart.x()[6], 0);
    Ok(())
}

static TWO: [u32; 6] = [
    0x8000_02b7,
    0x0000_9337,
    0x3013_0313,
    0x0062_99a3,
    0x0013_8393,
    0x0014_0413,
];

static TWO_ROWS: [(u32, u32); 6] = [
    (0x8000_0000, 0x8000_02b7),
    (0x8000_0004, 0x0000_9337),
    (0x8000_0008, 0x3013_0313),
    (0x8000_000c, 0x0062_99a3),
    (0x8000_0010, 0x0113_8393),
    (0x8000_0014, 0x0014_0493),
];

/// What the registers that aren't 0 hold in the end.
static TWO_LEFT: [(u8, u32); 4] = [(5, 0x8000_0000), (6, 0x0000_9301), (7, 0x11), (9, 1)];

/// lui x5,0x80000; lui x6,9; addi x6,x6,0x301; sh x6,19(x5), which changes both words behind it.
fn changes_two_words_to_come<F: Fetcher>(rt: &impl Abort, alloc: Global) -> Result<(), Fail> {
    let runner: Runner<F> = run_rows(rt, alloc, true, &TWO, &TWO_ROWS)?;
    let x = registers(&TWO_LEFT);
    same(rt, "registers", runner.hart.x().as_slice(), x.as_slice());
    let fault = Fault::StoreMisaligned;
    let _whole: Runner<F> = faults_whole(rt, alloc, &TWO, &TWO_ROWS[..4], fault)?;
    Ok(())
}

#[test]
fn programs_split_with_plain(rt: HostRuntime) -> Result<(), Fail> {
    loads_its_own_bytes::<Plain>(&rt, rt.alloc())?;
    changes_two_words_to_come::<Plain>(&rt, rt.alloc())
}

#[test]
fn programs_split_with_predecoded(rt: HostRuntime) -> Result<(), Fail> {
    loads_its_own_bytes::<Predecoded>(&rt, rt.alloc())?;
    changes_two_words_to_come::<Predecoded>(&rt, rt.alloc())
}

/// A store of x6 over both words before it, which have run: those words then, and what they leave in a
/// register each.
#[derive(Clone, Copy)]
struct Change {
    store: u32,
    x6: u32,
    first: u32,
    second: u32,
    after: [(u8, u32); 2],
}

/// The words before are addi x7,x7,1 and addi x8,x8,1, which leave 1 in x7 and in x8.
const CHANGES: [Change; 4] = [
    // sh x6,3(x5): addi x7,x7,17; addi x9,x8,1
    Change {
        store: 0x0062_91a3,
        x6: 0x0000_9301,
        first: 0x0113_8393,
        second: 0x0014_0493,
        after: [(7, 18), (9, 2)],
    },
    // sw x6,1(x5): addi x11,x8,0x234; addi x9,x8,1
    Change {
        store: 0x0062_a0a3,
        x6: 0x9323_4405,
        first: 0x2344_0593,
        second: 0x0014_0493,
        after: [(11, 0x235), (9, 2)],
    },
    // sw x6,2(x5): addi x7,x7,0x234; slli x9,x8,1
    Change {
        store: 0x0062_a123,
        x6: 0x1493_2343,
        first: 0x2343_8393,
        second: 0x0014_1493,
        after: [(7, 0x235), (9, 2)],
    },
    // sw x6,3(x5): addi x7,x7,33; addi x9,x7,5
    Change {
        store: 0x0062_a1a3,
        x6: 0x5384_9302,
        first: 0x0213_8393,
        second: 0x0053_8493,
        after: [(7, 34), (9, 39)],
    },
];

/// Both words, the store, and a jump back.
fn load_change<F: Fetcher>(alloc: Global, change: &Change) -> Result<Runner<F>, Fail> {
    let words = [0x0013_8393, 0x0014_0413, change.store, 0xff5f_f06f];
    let mut runner: Runner<F> = Runner::load(alloc, true, &words)?;
    set(&mut runner.hart, 5, RAM_BASE)?;
    set(&mut runner.hart, 6, change.x6)?;
    Ok(runner)
}

/// What the registers hold in the end.
fn left_by(change: &Change) -> [u32; 32] {
    let [first, second] = change.after;
    registers(&[(5, RAM_BASE), (6, change.x6), (7, 1), (8, 1), first, second])
}

/// Runs them, and both words again.
fn changes_both<F: Fetcher>(
    rt: &impl Abort,
    alloc: Global,
    change: &Change,
) -> Result<Runner<F>, Fail> {
    let mut runner: Runner<F> = load_change(alloc, change)?;
    let rows = [
        (0x8000_0000, 0x0013_8393),
        (0x8000_0004, 0x0014_0413),
        (0x8000_0008, change.store),
        (0x8000_000c, 0xff5f_f06f),
        (0x8000_0000, change.first),
        (0x8000_0004, change.second),
    ];
    step_rows(rt, &mut runner, &rows);
    let x = left_by(change);
    same(rt, change.store, runner.hart.x().as_slice(), x.as_slice());
    Ok(runner)
}

#[test]
fn words_that_ran_change_with_plain(rt: HostRuntime) -> Result<(), Fail> {
    for change in &CHANGES {
        let _runner: Runner<Plain> = changes_both(&rt, rt.alloc(), change)?;
    }
    Ok(())
}

#[test]
fn words_that_ran_change_with_predecoded(rt: HostRuntime) -> Result<(), Fail> {
    for change in &CHANGES {
        let runner: Runner<Predecoded> = changes_both(&rt, rt.alloc(), change)?;
        look_at_slots(&rt, &runner.fetcher, 4, 16);
    }
    Ok(())
}
