//! Tasks that reserve budgets, tick by tick, with each queue and each fetcher.

use crate::tests::same;
use rt_core::Machine;
use rt_exec::{Fetcher, Plain, Predecoded};
use rt_history::AttemptOutcome::{self, Reserve, ReserveRefused};
use rt_history::{Mode, Record};
use rt_image::read_system;
use rt_queue::heap::Heap;
use rt_queue::{MinQueue, Scan, Tournament};
use std::alloc::{AllocError, Global};
use std::process::Abort;
use std::test::Fail;

mod scripts;

use scripts::{Call, SCRIPTS, Script, Served, Task};

fn push_words(file: &mut Vec<u8>, words: &[u32]) -> Result<(), AllocError> {
    for word in words {
        file.extend_from_slice(&word.to_le_bytes())?;
    }
    Ok(())
}

/// A task of 128 bytes of RAM, from tick 0 on.
fn push_task(file: &mut Vec<u8>, task: &Task) -> Result<(), AllocError> {
    let (budget, period, words) = *task;
    let size = words.len().min(32) as u32 * 4;
    push_words(file, &[budget, period, 0, 128, size + 16])?;
    file.extend_from_slice(b"RTI1")?;
    push_words(file, &[0x8000_0000, size, 0])?;
    push_words(file, words)
}

fn push_system(file: &mut Vec<u8>, hyper: u32, tasks: &[Task]) -> Result<(), AllocError> {
    file.extend_from_slice(b"RTS1")?;
    push_words(file, &[hyper, tasks.len().min(64) as u32])?;
    for task in tasks {
        push_task(file, task)?;
    }
    Ok(())
}

/// The bytes of a system file of these tasks.
fn file_of(alloc: Global, hyper: u32, tasks: &[Task]) -> Result<Vec<u8>, AllocError> {
    let mut file = Vec::new(alloc);
    push_system(&mut file, hyper, tasks)?;
    Ok(file)
}

fn load<Q: MinQueue, F: Fetcher>(
    alloc: Global,
    hyper: u32,
    tasks: &[Task],
) -> Result<Machine<Q, F>, Fail> {
    let file = file_of(alloc, hyper, tasks)?;
    let system = read_system(alloc, &file)?;
    Ok(Machine::load(alloc, &system)?)
}

/// How a task stands.
fn served<Q: MinQueue, F: Fetcher>(machine: &Machine<Q, F>, task: u32) -> Option<Served> {
    let view = machine.view(task)?;
    Some((view.mode, view.x[10], view.c, view.d, view.q, view.pending))
}

/// Whether the budget of each active task fits before its deadline.
fn budgets_fit<Q: MinQueue, F: Fetcher>(machine: &Machine<Q, F>) -> bool {
    for task in 0..machine.count() {
        let Some(view) = machine.view(task) else {
            return false;
        };
        if view.mode == Mode::Active && machine.now() + u64::from(view.c) > view.d {
            return false;
        }
    }
    true
}

/// Whether what all tasks have or will have together fits this hyperperiod.
fn reserves_fit<Q: MinQueue, F: Fetcher>(machine: &Machine<Q, F>, hyper: u32) -> bool {
    let mut held = 0_u64;
    for task in 0..machine.count() {
        let Some(view) = machine.view(task) else {
            return false;
        };
        let most = view.pending.unwrap_or(0).max(view.q);
        let times = hyper.checked_div(view.p).unwrap_or(0);
        held = held.saturating_add(u64::from(most).saturating_mul(u64::from(times)));
    }
    held <= u64::from(hyper)
}

/// Whether budgets fit before deadlines, and what all have or will have fits the hyperperiod.
fn fits<Q: MinQueue, F: Fetcher>(machine: &Machine<Q, F>, hyper: u32) -> (bool, bool) {
    (budgets_fit(machine), reserves_fit(machine, hyper))
}

const FITS: (bool, bool) = (true, true);

/// The call or the fault of a tick.
fn call_of(record: Option<Record>) -> Option<Call> {
    match record? {
        Record::Busy(rec) if rec.outcome != AttemptOutcome::Next => {
            Some((rec.task, rec.pc, rec.outcome))
        }
        _ => None,
    }
}

/// How tasks stand at a tick of a script.
fn look<Q: MinQueue, F: Fetcher>(
    rt: &impl Abort,
    machine: &Machine<Q, F>,
    script: &Script,
    t: u64,
) {
    for (tick, task, want) in script.stands {
        if *tick == t {
            same(rt, (script.name, t), served(machine, *task), Some(*want));
        }
    }
    same(rt, (script.name, t), fits(machine, script.hyper), FITS);
}

/// The call or the fault of a tick of a script.
fn call_at(script: &Script, t: u64) -> Option<Call> {
    let mut found = None;
    for (tick, call) in script.calls {
        if *tick == t {
            found = Some(*call);
        }
    }
    found
}

/// A script from the machine's tick up to another.
fn follow<Q: MinQueue, F: Fetcher>(
    rt: &impl Abort,
    machine: &mut Machine<Q, F>,
    script: &Script,
    end: u64,
) {
    for t in machine.now()..end {
        look(rt, machine, script, t);
        let call = call_of(machine.tick());
        same(rt, (script.name, t), call, call_at(script, t));
    }
}

/// A copy of the tick `script.copied` goes on as its original does.
fn try_scripts<Q: MinQueue, F: Fetcher>(rt: &impl Abort, alloc: Global) -> Result<(), Fail> {
    for script in &SCRIPTS {
        let mut machine: Machine<Q, F> = load(alloc, script.hyper, script.tasks)?;
        follow(rt, &mut machine, script, script.copied);
        let mut copy = machine.copy()?;
        follow(rt, &mut machine, script, script.end);
        follow(rt, &mut copy, script, script.end);
    }
    Ok(())
}

#[test]
fn reserves_wait_for_a_fresh_wake(rt: HostRuntime) -> Result<(), Fail> {
    try_scripts::<Scan, Plain>(&rt, rt.alloc())?;
    try_scripts::<Heap, Plain>(&rt, rt.alloc())?;
    try_scripts::<Tournament, Predecoded>(&rt, rt.alloc())
}

/// Asks for 2 ticks and then for 1.
static ASKS_TWICE: [u32; 6] = [
    0x0050_0893,
    0x0020_0513,
    0x0000_0073,
    0x0010_0513,
    0x0000_0073,
    0x0000_006f,
];

/// Each of 64 tasks makes this call in turn.
fn all_call<Q: MinQueue, F: Fetcher>(
    rt: &impl Abort,
    machine: &mut Machine<Q, F>,
    pc: u32,
    outcome: AttemptOutcome,
) {
    for task in 0..64 {
        same(rt, task, fits(machine, 64), FITS);
        let call = call_of(machine.tick());
        same(rt, task, call, Some((task, pc, outcome)));
    }
}

/// Each of 64 tasks stands so.
fn all_stand<Q: MinQueue, F: Fetcher>(rt: &impl Abort, machine: &Machine<Q, F>, want: Served) {
    for task in 0..64 {
        same(rt, task, served(machine, task), Some(want));
    }
}

/// Each of 64 tasks has 1 tick of 64. They take turns, and so task `i` attempts its third word at tick 128 + i.
fn ask_at_full_load<Q: MinQueue, F: Fetcher>(rt: &impl Abort, alloc: Global) -> Result<(), Fail> {
    let task: Task = (1, 64, &ASKS_TWICE);
    let mut machine: Machine<Q, F> = load(alloc, 64, &[task; 64])?;
    machine.run(128);
    all_call(rt, &mut machine, 0x8000_0008, ReserveRefused);
    machine.run(64);
    all_call(rt, &mut machine, 0x8000_0010, Reserve(1));
    all_stand(rt, &machine, (Mode::Active, 0, 1, 384, 1, Some(1)));
    Ok(())
}

#[test]
fn full_load_grants_no_more(rt: HostRuntime) -> Result<(), Fail> {
    ask_at_full_load::<Scan, Plain>(&rt, rt.alloc())?;
    ask_at_full_load::<Heap, Plain>(&rt, rt.alloc())?;
    ask_at_full_load::<Tournament, Predecoded>(&rt, rt.alloc())
}

/// Tasks that ask for a random budget, and then sleep for up to 255 ticks, again and again. x5 is the random number: it becomes
/// x5 * 5 + 1, or + 3, or + 5. Its 3 or 4 highest bits are the budget, its 8 highest the length of the sleep.
static WANDERERS: [[u32; 14]; 3] = [
    [
        0x1234_52b7,
        0x0050_0893,
        0x0022_9313,
        0x0062_82b3,
        0x0012_8293,
        0x01d2_d513,
        0x0000_0073,
        0x0040_0893,
        0x0000_0073,
        0x0182_d313,
        0x0065_0533,
        0x0020_0893,
        0x0000_0073,
        0xfd1f_f06f,
    ],
    [
        0x6789_a2b7,
        0x0050_0893,
        0x0022_9313,
        0x0062_82b3,
        0x0032_8293,
        0x01c2_d513,
        0x0000_0073,
        0x0040_0893,
        0x0000_0073,
        0x0182_d313,
        0x0065_0533,
        0x0020_0893,
        0x0000_0073,
        0xfd1f_f06f,
    ],
    [
        0xbcde_f2b7,
        0x0050_0893,
        0x0022_9313,
        0x0062_82b3,
        0x0052_8293,
        0x01c2_d513,
        0x0000_0073,
        0x0040_0893,
        0x0000_0073,
        0x0182_d313,
        0x0065_0533,
        0x0020_0893,
        0x0000_0073,
        0xfd1f_f06f,
    ],
];

/// How often a reserve is granted, and how often it is refused, in 10,000 ticks.
fn wander<Q: MinQueue, F: Fetcher>(rt: &impl Abort, machine: &mut Machine<Q, F>) -> (u32, u32) {
    let mut granted = 0_u32;
    let mut refused = 0_u32;
    for t in 0..10_000 {
        same(rt, t, fits(machine, 24), FITS);
        match call_of(machine.tick()) {
            Some((_, _, Reserve(_))) => granted = granted.saturating_add(1),
            Some((_, _, ReserveRefused)) => refused = refused.saturating_add(1),
            _ => {}
        }
    }
    (granted, refused)
}

/// The tasks after those ticks.
static WANDERED: [(u32, Served); 3] = [
    (0, (Mode::Asleep(10_009), 10_009, 1, 9802, 2, None)),
    (1, (Mode::Asleep(10_144), 10_144, 1, 10_041, 2, None)),
    (2, (Mode::Asleep(10_024), 10_024, 2, 9942, 5, None)),
];

fn look_at_wanderers<Q: MinQueue, F: Fetcher>(rt: &impl Abort, machine: &mut Machine<Q, F>) {
    same(rt, "reserves", wander(rt, machine), (62, 156));
    for (task, want) in &WANDERED {
        same(rt, *task, served(machine, *task), Some(*want));
    }
}

/// A model in another language gave the counts and the servers; it had 80 kept wakes and 133 fresh ones, of which 49 took a budget.
fn try_wanderers<Q: MinQueue, F: Fetcher>(rt: &impl Abort, alloc: Global) -> Result<(), Fail> {
    let tasks: [Task; 3] = [
        (1, 6, &WANDERERS[0]),
        (2, 8, &WANDERERS[1]),
        (3, 12, &WANDERERS[2]),
    ];
    let mut machine: Machine<Q, F> = load(alloc, 24, &tasks)?;
    look_at_wanderers(rt, &mut machine);
    Ok(())
}

#[test]
fn random_reserves_fit(rt: HostRuntime) -> Result<(), Fail> {
    try_wanderers::<Scan, Plain>(&rt, rt.alloc())?;
    try_wanderers::<Heap, Plain>(&rt, rt.alloc())?;
    try_wanderers::<Tournament, Predecoded>(&rt, rt.alloc())
}
