//! Machines that go on by plain ticks, against runs that were worked out by hand.

ghost use Rattle.std.specs.Prelude.{◌≡◌};

use crate::tests::{image_of, same};
use rt_core::{Machine, PlainTicks, PlainTurns, Watcher};
use rt_exec::{Fetcher, Plain, Predecoded};
use rt_history::{Attempt, AttemptOutcome, Entry, Mode};
use rt_image::{Object, System, Task, Version};
use rt_queue::{MinQueue, Scan, Tournament};
use rt_words::RAM_BASE;
use std::alloc::Global;
use std::process::Abort;
use std::test::Fail;

/// A jump to itself.
const LOOP: &[u32] = &[0x0000_006f];

/// It sleeps until tick 8 at its third tick, and loops from there on.
const SLEEPER: &[u32] = &[0x0020_0893, 0x0080_0513, 0x0000_0073, 0x0000_006f];

/// A task of this budget, period and start.
fn task_of<'a>(alloc: Global, grant: (u32, u32, u32), image: &'a [u8]) -> Task<'a>
    ensures { result.ram ≡ 64 }
{
    Task {
        budget: grant.0,
        period: grant.1,
        start: grant.2,
        split: false,
        ram: 64,
        object: Object {
            entry: RAM_BASE,
            bytes: image,
            symbols: Vec::new(alloc),
        },
    }
}

/// A machine of one task.
fn one<Q: MinQueue, F: Fetcher>(
    alloc: Global,
    grant: (u32, u32, u32),
    words: &[u32],
) -> Result<Machine<Q, F>, Fail> {
    let image = image_of(alloc, words)?;
    let system = System {
        version: Version::One,
        hyper: grant.1,
        tasks: vec![in alloc; task_of(alloc, grant, &image)]?,
    };
    Ok(Machine::load(alloc, &system)?)
}

/// A machine of two tasks that loop.
fn two<Q: MinQueue, F: Fetcher>(
    alloc: Global,
    hyper: u32,
    first: (u32, u32, u32),
    second: (u32, u32, u32),
) -> Result<Machine<Q, F>, Fail> {
    let image = image_of(alloc, LOOP)?;
    let system = System {
        version: Version::One,
        hyper,
        tasks: vec![in alloc;
            task_of(alloc, first, &image),
            task_of(alloc, second, &image),
        ]?,
    };
    Ok(Machine::load(alloc, &system)?)
}

/// So many ticks of a task, and whether the tick behind them is better attempted by itself.
fn ticks(task: u32, count: u64, stopped: bool) -> PlainTicks {
    PlainTicks {
        task,
        count,
        stopped,
    }
}

/// Goes on by plain ticks, and looks at the tick that comes next.
fn go<Q: MinQueue, F: Fetcher>(
    rt: &impl Abort,
    machine: &mut Machine<Q, F>,
    limit: u64,
    want: PlainTicks,
) {
    let before = machine.now();
    let gone = machine.go_plain(limit);
    same(rt, before, gone, want);
    same(
        rt,
        before,
        machine.now().checked_sub(before),
        Some(want.count),
    );
}

/// Goes on by plain ticks in turn, each of a task and so many ticks of 100 at most.
fn go_all<Q: MinQueue, F: Fetcher>(
    rt: &impl Abort,
    machine: &mut Machine<Q, F>,
    rows: &[(u32, u64)],
) {
    for (task, count) in rows {
        go(rt, machine, 100, ticks(*task, *count, false));
    }
}

/// Fails unless a task has this budget and this deadline.
fn stands<Q: MinQueue, F: Fetcher>(
    rt: &impl Abort,
    machine: &Machine<Q, F>,
    task: u32,
    c: u32,
    d: u64,
) {
    let found = machine.view(task).map(|view| (view.c, view.d));
    same(rt, task, found, Some((c, d)));
}

/// The turns of budget 1 of 3 and 2 of 4.
static TURNS: [(u32, u64); 8] = [
    (0, 1),
    (1, 2),
    (0, 1),
    (1, 2),
    (0, 1),
    (0, 1),
    (1, 2),
    (0, 1),
];

/// Budget 1 of 3 and 2 of 4: each goes on up to the end of its budget.
fn turns<Q: MinQueue, F: Fetcher>(rt: &impl Abort, alloc: Global) -> Result<(), Fail> {
    let mut machine: Machine<Q, F> = two(alloc, 12, (1, 3, 0), (2, 4, 0))?;
    go_all(rt, &mut machine, &TURNS);
    go(rt, &mut machine, 1, ticks(1, 1, false));
    stands(rt, &machine, 1, 1, 16);
    Ok(())
}

/// Alone it goes on past its budget, which is used up every second tick.
fn alone<Q: MinQueue, F: Fetcher>(rt: &impl Abort, alloc: Global) -> Result<(), Fail> {
    let mut machine: Machine<Q, F> = one(alloc, (2, 5, 0), LOOP)?;
    go(rt, &mut machine, 0, ticks(0, 0, true));
    go(rt, &mut machine, 101, ticks(0, 101, false));
    stands(rt, &machine, 0, 1, 255);
    Ok(())
}

/// It stops before a call, and while the task sleeps.
fn sleeps<Q: MinQueue, F: Fetcher>(rt: &impl Abort, alloc: Global) -> Result<(), Fail> {
    let mut machine: Machine<Q, F> = one(alloc, (3, 5, 0), SLEEPER)?;
    go(rt, &mut machine, 100, ticks(0, 2, true));
    go(rt, &mut machine, 100, ticks(0, 0, true));
    let call = Entry::Busy {
        t: 2,
        rec: Attempt {
            task: 0,
            pc: 0x8000_0008,
            word: Some(0x0000_0073),
            outcome: AttemptOutcome::Sleep(8),
        },
    };
    same(rt, "a call", machine.advance(100), Some(call));
    let mode = machine.view(0).map(|view| view.mode);
    same(rt, "a mode", mode, Some(Mode::Asleep(8)));
    go(rt, &mut machine, 100, ticks(0, 0, true));
    let idle = Entry::Idle { t: 3, n: 5 };
    same(rt, "idle", machine.advance(100), Some(idle));
    go(rt, &mut machine, 100, ticks(0, 100, false));
    Ok(())
}

/// It stops where another wakes, whose deadline may be earlier.
fn wakes<Q: MinQueue, F: Fetcher>(rt: &impl Abort, alloc: Global) -> Result<(), Fail> {
    let mut machine: Machine<Q, F> = two(alloc, 20, (8, 20, 0), (2, 5, 3))?;
    go(rt, &mut machine, 100, ticks(0, 3, false));
    go(rt, &mut machine, 100, ticks(1, 2, false));
    stands(rt, &machine, 1, 2, 13);
    Ok(())
}

/// Counts the ticks that it is shown, of each of two tasks, and keeps the tick and the pc of the last.
#[derive(Drop)]
struct Tally {
    ticks: [u64; 2],
    last: (u64, u32),
}

impl Watcher for Tally {
    ghost use Rattle.std.specs.Prelude.{ℕ, List, []};
    ghost use Rattle.rt_history.specs.declared.record.Attempt.{Attempt};

    ghost said = { λ _. [] };

    ghost says = { λ _ _. [] };

    ghost takes = { λ _ _. Unit {0} };

    ghost looks_at = { λ _ _. Unit {0} };

    ghost width = { 0 };

    ghost limit = { 0 };

    fn begin(&mut self, _t: u64) -> u64 {
        50
    }

    fn turn(&mut self, _task: u32) {}

    fn see(&mut self, t: u64, task: u32, pc: u32, _word: u32) {
        if task < 2 {
            let seen = self.ticks[task as usize];
            self.ticks[task as usize] = seen.wrapping_add(1);
        }
        self.last = (t, pc);
    }
}

/// Goes on by turns, and looks at what was shown: the ticks of each task, and the tick and the pc of the last of them.
fn go_turns<Q: MinQueue, F: Fetcher>(
    rt: &impl Abort,
    machine: &mut Machine<Q, F>,
    limit: u64,
    want: PlainTurns,
    seen: ([u64; 2], (u64, u32)),
) {
    let before = machine.now();
    let mut tally = Tally {
        ticks: [0, 0],
        last: (0, 0),
    };
    let gone = machine.go_turns(limit, &mut tally);
    same(rt, before, gone, want);
    same(
        rt,
        before,
        machine.now().checked_sub(before),
        Some(want.count),
    );
    same(rt, before, (tally.ticks, tally.last), seen);
}

/// So many ticks, and whether the tick behind them is better attempted by itself.
fn told(count: u64, stopped: bool) -> PlainTurns {
    PlainTurns { count, stopped }
}

/// At most 50 ticks are shown.
fn goes_fifty<Q: MinQueue, F: Fetcher>(rt: &impl Abort, machine: &mut Machine<Q, F>) {
    let before = machine.now();
    let mut tally = Tally {
        ticks: [0, 0],
        last: (0, 0),
    };
    machine.go_turns(100, &mut tally);
    same(rt, "ticks", machine.now().checked_sub(before), Some(50));
}

/// Budget 1 of 3 and 2 of 4: in 12 ticks the turns of 1, 2, 1, 2, 1, 1, 2, 1 and 1 ticks; and at most 50 ticks that are shown.
fn turn_after_turn<Q: MinQueue, F: Fetcher>(rt: &impl Abort, alloc: Global) -> Result<(), Fail> {
    let mut machine: Machine<Q, F> = two(alloc, 12, (1, 3, 0), (2, 4, 0))?;
    go_turns(
        rt,
        &mut machine,
        12,
        told(12, false),
        ([5, 7], (11, RAM_BASE)),
    );
    stands(rt, &machine, 1, 1, 16);
    go_turns(rt, &mut machine, 0, told(0, true), ([0, 0], (0, 0)));
    goes_fifty(rt, &mut machine);
    Ok(())
}

/// Turns stop before a call, and while nobody is named.
fn turns_stop<Q: MinQueue, F: Fetcher>(rt: &impl Abort, alloc: Global) -> Result<(), Fail> {
    let mut machine: Machine<Q, F> = one(alloc, (3, 5, 0), SLEEPER)?;
    go_turns(
        rt,
        &mut machine,
        40,
        told(2, true),
        ([2, 0], (1, 0x8000_0004)),
    );
    go_turns(rt, &mut machine, 40, told(0, true), ([0, 0], (0, 0)));
    same(rt, "a call", machine.advance(1).is_some(), true);
    go_turns(rt, &mut machine, 40, told(0, true), ([0, 0], (0, 0)));
    Ok(())
}

/// And where another wakes.
fn wakes_stop_turns<Q: MinQueue, F: Fetcher>(rt: &impl Abort, alloc: Global) -> Result<(), Fail> {
    let mut machine: Machine<Q, F> = two(alloc, 20, (8, 20, 0), (2, 5, 3))?;
    go_turns(
        rt,
        &mut machine,
        40,
        told(3, false),
        ([3, 0], (2, RAM_BASE)),
    );
    go_turns(rt, &mut machine, 2, told(2, false), ([0, 2], (4, RAM_BASE)));
    Ok(())
}

#[test]
fn turns_follow_one_another(rt: HostRuntime) -> Result<(), Fail> {
    turn_after_turn::<Scan, Plain>(&rt, rt.alloc())?;
    turn_after_turn::<Tournament, Predecoded>(&rt, rt.alloc())
}

#[test]
fn calls_and_wakes_stop_turns(rt: HostRuntime) -> Result<(), Fail> {
    turns_stop::<Scan, Plain>(&rt, rt.alloc())?;
    turns_stop::<Tournament, Predecoded>(&rt, rt.alloc())?;
    wakes_stop_turns::<Scan, Plain>(&rt, rt.alloc())?;
    wakes_stop_turns::<Tournament, Predecoded>(&rt, rt.alloc())
}

#[test]
fn budgets_end(rt: HostRuntime) -> Result<(), Fail> {
    turns::<Scan, Plain>(&rt, rt.alloc())?;
    turns::<Tournament, Predecoded>(&rt, rt.alloc())
}

#[test]
fn one_alone_goes_on(rt: HostRuntime) -> Result<(), Fail> {
    alone::<Scan, Plain>(&rt, rt.alloc())?;
    alone::<Tournament, Predecoded>(&rt, rt.alloc())
}

#[test]
fn calls_stop_it(rt: HostRuntime) -> Result<(), Fail> {
    sleeps::<Scan, Plain>(&rt, rt.alloc())?;
    sleeps::<Tournament, Predecoded>(&rt, rt.alloc())
}

#[test]
fn wakes_stop_it(rt: HostRuntime) -> Result<(), Fail> {
    wakes::<Scan, Plain>(&rt, rt.alloc())?;
    wakes::<Tournament, Predecoded>(&rt, rt.alloc())
}
