//! Machines of one and two tasks with each queue and each fetcher, against runs that were worked out by hand.

use crate::tests::{image_of, same};
use rt_admit::{AdmitFault, Params};
use rt_core::{LoadFault, Machine, Next};
use rt_exec::{Fetcher, Plain, Predecoded};
use rt_history::{Attempt, AttemptOutcome, Entry, Mode, Record, params_of};
use rt_image::{Object, System, Task, Version};
use rt_queue::heap::Heap;
use rt_queue::{MinQueue, Scan, Tournament};
use rt_words::{MAX_TICKS, RAM_BASE};
use std::alloc::{AllocError, Global};
use std::process::Abort;
use std::test::Fail;

mod fits;
mod laws;
mod memory;
mod parked;
mod rows;
mod split;

use rows::{OTHERS, Row, SLEEPS, Standing};

/// A jump to itself.
const LOOP: u32 = 0x0000_006f;

const BUSY: [&[u32]; 2] = [&[LOOP], &[LOOP]];

/// The second words of tasks that sleep until tick 8 and 9.
const UNTIL_8: u32 = 0x0080_0513;

const UNTIL_9: u32 = 0x0090_0513;

/// The tasks of two busy tasks at budget 1 of 3 and 2 of 4, tick by tick.
static TURNS: [u32; 12] = [0, 1, 1, 0, 1, 1, 0, 0, 1, 1, 0, 1];

/// An ECALL of task 0 or 1, at this pc.
fn call_of(task: u32, pc: u32, outcome: AttemptOutcome) -> Attempt {
    Attempt {
        task,
        pc,
        word: Some(0x0000_0073),
        outcome,
    }
}

/// An attempt of a task that jumps to itself.
fn loop_of(task: u32) -> Attempt {
    Attempt {
        task,
        pc: RAM_BASE,
        word: Some(LOOP),
        outcome: AttemptOutcome::Next,
    }
}

/// The first word of a task is the next to run.
fn runs(task: u32) -> Next {
    Next::Run { task, pc: RAM_BASE }
}

fn object_of(alloc: Global, bytes: &[u8]) -> Object<'_> {
    Object {
        entry: RAM_BASE,
        bytes,
        symbols: Vec::new(alloc),
    }
}

/// A task of this budget, period and start.
fn task_of<'a>(
    alloc: Global,
    grant: (u32, u32, u32),
    split: bool,
    ram: u32,
    image: &'a [u8],
) -> Task<'a> {
    let (budget, period, start) = grant;
    Task {
        budget,
        period,
        start,
        split,
        ram,
        object: object_of(alloc, image),
    }
}

/// A machine of one task, of this budget, period and start.
fn solo<Q: MinQueue, F: Fetcher>(
    alloc: Global,
    grant: (u32, u32, u32),
    words: &[u32],
) -> Result<Machine<Q, F>, Fail> {
    let image = image_of(alloc, words)?;
    let system = System {
        version: Version::One,
        hyper: grant.1,
        tasks: vec![in alloc; task_of(alloc, grant, false, 65_536, &image)]?,
    };
    Ok(Machine::load(alloc, &system)?)
}

/// A machine of two tasks, of the same start.
fn pair<Q: MinQueue, F: Fetcher>(
    alloc: Global,
    hyper: u32,
    grants: [(u32, u32); 2],
    start: u32,
    words: [&[u32]; 2],
) -> Result<Machine<Q, F>, Fail> {
    let [(budget, period), (second_budget, second_period)] = grants;
    let image = image_of(alloc, words[0])?;
    let second_image = image_of(alloc, words[1])?;
    let first = task_of(alloc, (budget, period, start), false, 64, &image);
    let second = (second_budget, second_period, start);
    let second = task_of(alloc, second, false, 1_048_576, &second_image);
    let system = System {
        version: Version::One,
        hyper,
        tasks: vec![in alloc; first, second]?,
    };
    Ok(Machine::load(alloc, &system)?)
}

/// A task's mode, pc, budget and deadline.
fn shown<Q: MinQueue, F: Fetcher>(
    machine: &Machine<Q, F>,
    task: u32,
) -> Option<(Mode, u32, u32, u64)> {
    let view = machine.view(task)?;
    Some((view.mode, view.pc, view.c, view.d))
}

/// A task's registers.
fn registers<Q: MinQueue, F: Fetcher>(machine: &Machine<Q, F>, task: u32) -> Option<[u32; 32]> {
    Some(*machine.view(task)?.x)
}

fn stands<Q: MinQueue, F: Fetcher>(
    rt: &impl Abort,
    machine: &Machine<Q, F>,
    task: u32,
    standing: &Standing,
    name: &str,
) {
    let want = (standing.mode, standing.pc, standing.c, standing.d);
    same(rt, name, shown(machine, task), Some(want));
    same(rt, name, registers(machine, task), Some(standing.x()));
}

/// A busy tick of a row, at tick t.
fn follow_tick<Q: MinQueue, F: Fetcher>(
    rt: &impl Abort,
    machine: &mut Machine<Q, F>,
    t: u64,
    rec: Attempt,
    name: &str,
) {
    let next = Next::Run {
        task: 0,
        pc: rec.pc,
    };
    same(rt, (name, t), machine.next(), next);
    let entry = Entry::Busy { t, rec };
    same(rt, (name, t), machine.advance(1), Some(entry));
}

/// The busy ticks of a row, which are the first ones.
fn follow_row<Q: MinQueue, F: Fetcher>(rt: &impl Abort, machine: &mut Machine<Q, F>, row: &Row) {
    let mut pc = RAM_BASE;
    for (t, (word, outcome)) in row.busy.iter().enumerate() {
        let rec = Attempt {
            task: 0,
            pc,
            word: Some(*word),
            outcome: *outcome,
        };
        follow_tick(rt, machine, t as u64, rec, row.name);
        pc = pc.wrapping_add(4);
    }
}

/// The idle ticks of a row, and how its task stands then.
fn end_row<Q: MinQueue, F: Fetcher>(rt: &impl Abort, machine: &mut Machine<Q, F>, row: &Row) {
    let t = row.busy.len() as u64;
    let idle = (row.idle > 0).then_some(Entry::Idle { t, n: row.idle });
    same(rt, row.name, machine.advance(row.idle), idle);
    stands(rt, machine, 0, &row.standing, row.name);
    same(rt, row.name, machine.output(0), Some(row.output));
}

fn try_row<Q: MinQueue, F: Fetcher>(rt: &impl Abort, alloc: Global, row: &Row) -> Result<(), Fail> {
    let mut machine: Machine<Q, F> = solo(alloc, row.grant, row.words)?;
    follow_row(rt, &mut machine, row);
    end_row(rt, &mut machine, row);
    Ok(())
}

fn try_rows<Q: MinQueue, F: Fetcher>(rt: &impl Abort, alloc: Global) -> Result<(), Fail> {
    for row in &SLEEPS {
        try_row::<Q, F>(rt, alloc, row)?;
    }
    for row in &OTHERS {
        try_row::<Q, F>(rt, alloc, row)?;
    }
    Ok(())
}

#[test]
fn one_task(rt: HostRuntime) -> Result<(), Fail> {
    try_rows::<Scan, Plain>(&rt, rt.alloc())?;
    try_rows::<Heap, Plain>(&rt, rt.alloc())?;
    try_rows::<Tournament, Predecoded>(&rt, rt.alloc())
}

fn looping(c: u32, d: u64) -> Standing {
    Standing {
        mode: Mode::Active,
        pc: RAM_BASE,
        c,
        d,
        registers: &[],
    }
}

/// The first 12 ticks of two busy tasks.
fn take_turns<Q: MinQueue, F: Fetcher>(rt: &impl Abort, machine: &mut Machine<Q, F>) {
    take(rt, machine, &TURNS[..7]);
    stands(rt, machine, 0, &looping(1, 12), "at 7");
    stands(rt, machine, 1, &looping(2, 12), "at 7");
    take(rt, machine, &TURNS[7..]);
    stands(rt, machine, 0, &looping(1, 18), "after 12");
    stands(rt, machine, 1, &looping(1, 16), "after 12");
    same(rt, "now", machine.now(), 12);
    same(rt, "tasks", machine.count(), 2);
}

/// A tick of each of these busy tasks in turn.
fn take<Q: MinQueue, F: Fetcher>(rt: &impl Abort, machine: &mut Machine<Q, F>, turns: &[u32]) {
    for task in turns {
        let record = Record::Busy(loop_of(*task));
        same(rt, machine.now(), machine.tick(), Some(record));
    }
}

/// A task that is busy, and one that sleeps at tick 8. Its second word says until when.
fn sleeping_pair<Q: MinQueue, F: Fetcher>(
    alloc: Global,
    until: u32,
) -> Result<Machine<Q, F>, Fail> {
    let sleeper = [0x0020_0893, until, 0x0000_0593, 0x0000_0073, LOOP];
    pair(alloc, 10, [(5, 10), (5, 10)], 0, [&[LOOP], &sleeper])
}

/// The first 9 ticks of such tasks, and the budget and deadline that the second one has then.
fn sleep_at_eight<Q: MinQueue, F: Fetcher>(
    rt: &impl Abort,
    machine: &mut Machine<Q, F>,
    until: u64,
    c: u32,
    d: u64,
) {
    same(rt, "ticks", machine.run(8), 8);
    let rec = call_of(1, 0x8000_000c, AttemptOutcome::Sleep(until));
    let entry = Entry::Busy { t: 8, rec };
    same(rt, until, machine.advance(u64::MAX), Some(entry));
    stands(rt, machine, 0, &looping(5, 20), "the busy one");
    let want = (Mode::Active, 0x8000_0010, c, d);
    same(rt, until, shown(machine, 1), Some(want));
}

fn try_pairs<Q: MinQueue, F: Fetcher>(rt: &impl Abort, alloc: Global) -> Result<(), Fail> {
    let mut machine: Machine<Q, F> = pair(alloc, 12, [(1, 3), (2, 4)], 0, BUSY)?;
    take_turns(rt, &mut machine);
    try_sleeper::<Q, F>(rt, alloc, UNTIL_9, (9, 5, 19))?;
    try_sleeper::<Q, F>(rt, alloc, UNTIL_8, (8, 1, 10))
}

/// The word says until when: a tick, and the budget and deadline then.
fn try_sleeper<Q: MinQueue, F: Fetcher>(
    rt: &impl Abort,
    alloc: Global,
    word: u32,
    (until, c, d): (u64, u32, u64),
) -> Result<(), Fail> {
    let mut machine: Machine<Q, F> = sleeping_pair(alloc, word)?;
    sleep_at_eight(rt, &mut machine, until, c, d);
    Ok(())
}

#[test]
fn two_tasks(rt: HostRuntime) -> Result<(), Fail> {
    try_pairs::<Scan, Plain>(&rt, rt.alloc())?;
    try_pairs::<Heap, Plain>(&rt, rt.alloc())?;
    try_pairs::<Tournament, Predecoded>(&rt, rt.alloc())
}

/// Both tasks of a machine wake at tick 3.
fn wake_together<Q: MinQueue, F: Fetcher>(rt: &impl Abort, machine: &mut Machine<Q, F>) {
    let idle = Entry::Idle { t: 0, n: 3 };
    same(rt, "at 0", machine.next(), Next::Idle);
    same(rt, "at 0", machine.advance(100), Some(idle));
    stands(rt, machine, 0, &looping(2, 13), "the first");
    stands(rt, machine, 1, &looping(3, 13), "the second");
    same(rt, "at 3", machine.next(), runs(0));
}

/// The turns of two busy tasks that woke at tick `start`, from 5 to 12 ticks behind it.
fn go_on<Q: MinQueue, F: Fetcher>(rt: &impl Abort, machine: &mut Machine<Q, F>, start: u32) {
    let start = u64::from(start);
    same(rt, start, machine.now(), start + 5);
    for task in &TURNS[5..] {
        same(rt, start, machine.next(), runs(*task));
        same(rt, start, machine.run(1), 1);
    }
    stands(rt, machine, 0, &looping(1, start + 18), "the first");
    stands(rt, machine, 1, &looping(1, start + 16), "the second");
}

/// A copy and its original go their own ways, 5 ticks behind their start.
fn copy_apart<Q: MinQueue, F: Fetcher>(
    rt: &impl Abort,
    alloc: Global,
    start: u32,
) -> Result<(), Fail> {
    let mut machine: Machine<Q, F> = pair(alloc, 12, [(1, 3), (2, 4)], start, BUSY)?;
    machine.run(u64::from(start) + 5);
    let mut copy = machine.copy()?;
    go_on(rt, &mut machine, start);
    go_on(rt, &mut copy, start);
    Ok(())
}

/// A task that writes, first by the length that a word gives, fills its output up to this length.
fn try_output<Q: MinQueue, F: Fetcher>(
    rt: &impl Abort,
    alloc: Global,
    word: u32,
    length: usize,
) -> Result<(), Fail> {
    let mut machine: Machine<Q, F> = solo(alloc, (1, 1, 0), &writes_of(word))?;
    fill_output(rt, &mut machine, length);
    Ok(())
}

fn try_wakes<Q: MinQueue, F: Fetcher>(rt: &impl Abort, alloc: Global) -> Result<(), Fail> {
    let mut machine: Machine<Q, F> = pair(alloc, 10, [(2, 10), (3, 10)], 3, BUSY)?;
    wake_together(rt, &mut machine);
    Ok(())
}

fn try_limits<Q: MinQueue, F: Fetcher>(rt: &impl Abort, alloc: Global) -> Result<(), Fail> {
    let mut machine: Machine<Q, F> = solo(alloc, (1, 1, 0), &[0x0000_0073])?;
    reach_the_last_tick(rt, &mut machine);
    try_output::<Q, F>(rt, alloc, 0x1000_0593, 65_536)?;
    try_output::<Q, F>(rt, alloc, 0x0010_0593, 65_281)
}

fn try_others<Q: MinQueue, F: Fetcher>(rt: &impl Abort, alloc: Global) -> Result<(), Fail> {
    try_wakes::<Q, F>(rt, alloc)?;
    try_limits::<Q, F>(rt, alloc)?;
    copy_apart::<Q, F>(rt, alloc, 0)?;
    copy_apart::<Q, F>(rt, alloc, 4_294_967_295)
}

#[test]
fn wakes_copies_and_limits(rt: HostRuntime) -> Result<(), Fail> {
    try_others::<Scan, Plain>(&rt, rt.alloc())?;
    try_others::<Heap, Plain>(&rt, rt.alloc())?;
    try_others::<Tournament, Predecoded>(&rt, rt.alloc())
}

/// A task ends at once, and all ticks behind that are idle.
fn reach_the_last_tick<Q: MinQueue, F: Fetcher>(rt: &impl Abort, machine: &mut Machine<Q, F>) {
    same(rt, "none", machine.advance(0), None);
    let rec = call_of(0, RAM_BASE, AttemptOutcome::End);
    let end = Entry::Busy { t: 0, rec };
    same(rt, "end", machine.advance(u64::MAX), Some(end));
    let rest = Entry::Idle {
        t: 1,
        n: 1_099_511_627_775,
    };
    same(rt, "rest", machine.advance(u64::MAX), Some(rest));
    stay_at_the_last_tick(rt, machine);
}

/// Nothing goes on, and there is no second task.
fn stay_at_the_last_tick<Q: MinQueue, F: Fetcher>(rt: &impl Abort, machine: &mut Machine<Q, F>) {
    same(rt, "now", machine.now(), MAX_TICKS);
    same(rt, "a tick", machine.tick(), None);
    same(rt, "ticks", machine.run(5), 0);
    same(rt, "next", machine.next(), Next::Idle);
    same(rt, "task 1", machine.view(1).is_none(), true);
    same(rt, "task 1", machine.output(1), None);
}

/// A write of the length that a word gives, and then writes of 256 bytes, each at a tick of 3 above a multiple of 4.
fn writes_of(first_length: u32) -> [u32; 6] {
    [
        0x0010_0893,
        first_length,
        0x8000_0537,
        0x0000_0073,
        0x1000_0593,
        0xff5f_f06f,
    ]
}

/// How many bytes task 0 has written.
fn written<Q: MinQueue, F: Fetcher>(machine: &Machine<Q, F>) -> Option<usize> {
    Some(machine.output(0)?.len())
}

/// There is room for those writes up to tick 1023, and the next one is refused.
fn fill_output<Q: MinQueue, F: Fetcher>(
    rt: &impl Abort,
    machine: &mut Machine<Q, F>,
    length: usize,
) {
    same(rt, length, machine.run(1023), 1023);
    end_of_output(rt, machine, length);
}

/// The write of tick 1023, and the one that is refused.
fn end_of_output<Q: MinQueue, F: Fetcher>(
    rt: &impl Abort,
    machine: &mut Machine<Q, F>,
    length: usize,
) {
    let write = call_of(0, 0x8000_000c, AttemptOutcome::Write(256));
    let refused = call_of(0, 0x8000_000c, AttemptOutcome::WriteRefused);
    same(rt, length, machine.tick(), Some(Record::Busy(write)));
    same(rt, length, machine.run(3), 3);
    same(rt, length, machine.tick(), Some(Record::Busy(refused)));
    same(rt, length, written(machine), Some(length));
}

/// Why two tasks aren't loaded, of which the second has 8 bytes of RAM.
fn refusal_of(
    alloc: Global,
    budget: u32,
    entry: u32,
    image: &[u8],
) -> Result<Option<LoadFault>, AllocError> {
    let first = Task {
        budget: 2,
        period: 3,
        start: 0,
        split: false,
        ram: 4,
        object: object_of(alloc, &[]),
    };
    let second = Task {
        budget,
        period: 4,
        start: 0,
        split: false,
        ram: 8,
        object: Object {
            entry,
            bytes: image,
            symbols: Vec::new(alloc),
        },
    };
    let system = System {
        version: Version::One,
        hyper: 12,
        tasks: vec![in alloc; first, second]?,
    };
    Ok(Machine::<Tournament, Predecoded>::load(alloc, &system).err())
}

const OVERLOAD: LoadFault = LoadFault::Admit(AdmitFault::Overload {
    total: 14,
    hyper: 12,
});

/// A budget, an entry, the bytes of an image, and why it isn't loaded.
static REFUSALS: [(u32, u32, usize, Option<LoadFault>); 9] = [
    (2, 0x8000_0000, 8, Some(OVERLOAD)),
    (1, 0x8000_0000, 8, None),
    (1, 0x8000_0000, 9, Some(LoadFault::ImageTooBig(1))),
    (1, 0x8000_0004, 8, None),
    (1, 0x8000_0008, 8, Some(LoadFault::BadEntry(1))),
    (1, 0x8000_0002, 8, Some(LoadFault::BadEntry(1))),
    (1, 0x7fff_fffc, 8, Some(LoadFault::BadEntry(1))),
    (1, 0xffff_fffc, 8, Some(LoadFault::BadEntry(1))),
    (1, 0x8000_0002, 9, Some(LoadFault::ImageTooBig(1))),
];

#[test]
fn refuses_systems(rt: HostRuntime) -> Result<(), Fail> {
    let image = [0; 9];
    for (budget, entry, length, want) in &REFUSALS {
        let bytes = image.get(..*length).ok_or("a length")?;
        let answer = refusal_of(rt.alloc(), *budget, *entry, bytes)?;
        same(&rt, (*budget, *entry, *length), answer, *want);
    }
    Ok(())
}

#[test]
fn refuses_no_tasks(rt: HostRuntime) {
    let system = System {
        version: Version::One,
        hyper: 12,
        tasks: Vec::new(rt.alloc()),
    };
    let machine = Machine::<Scan, Plain>::load(rt.alloc(), &system);
    let fault = LoadFault::Admit(AdmitFault::NoTasks);
    same(&rt, "no tasks", machine.err(), Some(fault));
}

#[test]
fn asks_for(rt: HostRuntime) -> Result<(), Fail> {
    let task = Task {
        budget: 2,
        period: 5,
        start: 7,
        split: false,
        ram: 64,
        object: object_of(rt.alloc(), &[]),
    };
    let params = params_of(rt.alloc(), &[task])?;
    let want = Params {
        budget: 2,
        period: 5,
        start: 7,
    };
    same(&rt, "a task", params.as_slice(), [want].as_slice());
    Ok(())
}

static TEXTS: [(LoadFault, &str); 4] = [
    (LoadFault::Memory, "memory"),
    (LoadFault::Admit(AdmitFault::NoTasks), "set: NoTasks"),
    (LoadFault::ImageTooBig(3), "load: ImageTooBig task 3"),
    (LoadFault::BadEntry(40), "load: BadEntry task 40"),
];

#[test]
fn faults_have_texts(rt: HostRuntime) -> Result<(), Fail> {
    for (fault, text) in &TEXTS {
        let printed = format!(in rt.alloc(); "{fault}")?;
        same(&rt, "a fault", printed.as_str(), *text);
    }
    Ok(())
}

/// Writes 256 bytes 256 times, then one, and then none.
static WRITES: [u32; 13] = [
    0x0010_0893,
    0x1000_0593,
    0x1000_0313,
    0x8000_0537,
    0x0000_0073,
    0x0012_8293,
    0xfe62_9ae3,
    0x8000_0537,
    0x0010_0593,
    0x0000_0073,
    0x0000_0593,
    0x8000_0537,
    0x0000_0073,
];

/// How the coming tick's attempt came out.
fn outcome_of(machine: &mut Machine<Tournament, Predecoded>) -> Option<AttemptOutcome> {
    match machine.advance(1)? {
        Entry::Busy { rec, .. } => Some(rec.outcome),
        Entry::Idle { .. } => None,
    }
}

#[test]
fn outputs_end_at_their_limit(rt: HostRuntime) -> Result<(), Fail> {
    let mut machine: Machine<Tournament, Predecoded> = solo(rt.alloc(), (1, 1, 0), &WRITES)?;
    machine.run(1027);
    same(&rt, "bytes", written(&machine), Some(65_536));
    machine.run(2);
    let (refused, none) = (AttemptOutcome::WriteRefused, AttemptOutcome::Write(0));
    same(&rt, "one more", outcome_of(&mut machine), Some(refused));
    machine.run(2);
    same(&rt, "no more", outcome_of(&mut machine), Some(none));
    Ok(())
}
