//! Random sets of certified tasks beside hostile ones: each job of the former is answered within as many periods as it takes budgets.

use super::{POLL, Question, SPIN, answer};
use crate::tests::same;
use rt_certify::Limits;
use rt_core::Machine;
use rt_exec::Predecoded;
use rt_history::{AttemptOutcome, Entry};
use rt_image::read_system;
use rt_queue::Tournament;
use std::alloc::{AllocError, Global};
use std::test::Fail;

const SETS: u32 = 200;

/// How many jobs of a task are certified.
const JOBS: u64 = 20;

const HYPER: u32 = 480;

const TICKS: u64 = 2_400;

/// Some periods that divide the hyperperiod.
static PERIODS: [u32; 6] = [40, 60, 80, 96, 120, 160];

/// They loop, yield, sleep into the past, fault, reserve budgets, and ask for the tick.
static HOSTILE: [&[u32]; 6] = [SPIN, POLL, PAST, STORES, RESERVES, ASKS];

const PAST: &[u32] = &[0x0020_0893, 0x0000_0073, 0xffdf_f06f];

const STORES: &[u32] = &[0x0010_0293, 0x0050_2023];

/// It asks for a budget of 100, sleeps until 0, and begins anew.
const RESERVES: &[u32] = &[
    0x0050_0893,
    0x0640_0513,
    0x0000_0073,
    0x0020_0893,
    0x0000_0513,
    0x0000_0073,
    0xfe9f_f06f,
];

const ASKS: &[u32] = &[0x0040_0893, 0x0000_0073, 0xffdf_f06f];

/// What a task asks for.
#[derive(Clone, Copy)]
struct Grant {
    budget: u32,
    period: u32,
    start: u32,
}

/// A task that is released at the start and then each `distance` ticks. A job goes round `turns` to `turns + 3` times, of two ticks each,
/// and has at most 7 ticks besides, the first one 8.
fn worker(start: u32, distance: u32, turns: u32) -> [u32; 11] {
    [
        0x0020_0893,
        0x0000_0513 | (start << 20),
        0x0000_0293 | (turns << 20),
        0x0033_7393,
        0x0072_82b3,
        0xfff2_8293,
        0xfe02_9ee3,
        0x0013_0313,
        0x0005_0513 | (distance << 20),
        0x0000_0073,
        0xfe1f_f06f,
    ]
}

/// Marsaglia's xorshift of 64 bits.
#[derive(Drop)]
struct Random {
    state: u64,
}

impl Random {
    /// A number below the limit; 0 where there is none.
    fn below(&mut self, limit: u32) -> u32 {
        self.state ^= self.state << 13;
        self.state ^= self.state >> 7;
        self.state ^= self.state << 17;
        let number = (self.state >> 32) as u32;
        number.checked_rem(limit).unwrap_or(0)
    }

    /// What a task may ask for where so much of the hyperperiod is left.
    fn grant(&mut self, room: u32) -> Option<Grant> {
        let period = *PERIODS.get(self.below(6) as usize)?;
        let most = room.checked_div(HYPER.checked_div(period)?)?;
        let budget = self.below(most).saturating_add(1);
        let start = self.below(50);
        (budget <= most).then_some(Grant {
            budget,
            period,
            start,
        })
    }

    /// A worker whose longest job takes about so many budgets, and which sleeps as many periods, or a few ticks longer.
    fn worker(&mut self, grant: Grant, periods: u32) -> [u32; 11] {
        let most = grant.budget.saturating_mul(periods).saturating_sub(13) / 2;
        let turns = most.saturating_sub(self.below(4)).max(1);
        let distance = grant.period.saturating_mul(periods);
        let distance = distance.saturating_add(self.below(4));
        worker(grant.start, distance, turns)
    }
}

/// The jobs of a task of a set.
#[derive(Clone, Copy)]
struct Tracked {
    grant: Grant,
    /// The most periods of a job; none of a hostile task.
    periods: Option<u32>,
    release: u64,
    ticks: u64,
    finished: u64,
}

impl Tracked {
    /// The tick so many periods behind the release of the open job.
    fn after(&self, periods: u64) -> u64 {
        let distance = periods.saturating_mul(u64::from(self.grant.period));
        self.release.saturating_add(distance)
    }

    /// Whether the open job is one of those that are certified.
    fn is_certified(&self) -> bool {
        self.periods.is_some() && self.finished < JOBS
    }

    /// Adds the attempt of tick `t`. False where it finishes a certified job too late.
    fn add(&mut self, t: u64, outcome: AttemptOutcome) -> bool {
        self.ticks = self.ticks.saturating_add(1);
        let AttemptOutcome::Sleep(next) = outcome else {
            return true;
        };
        let budgets = self.ticks.div_ceil(u64::from(self.grant.budget.max(1)));
        let in_time = !self.is_certified() || t < self.after(budgets);
        self.finished = self.finished.saturating_add(1);
        self.release = next;
        self.ticks = 0;
        in_time
    }

    /// Whether the open job may still be open at this tick.
    fn may_be_open(&self, tick: u64) -> bool {
        match self.periods {
            Some(periods) if self.finished < JOBS => tick < self.after(u64::from(periods)),
            _ => true,
        }
    }
}

/// A set in the making: the file of its tasks, and what is left of the hyperperiod.
#[derive(Drop)]
struct Set {
    lines: Vec<u8>,
    tasks: Vec<Tracked>,
    room: u32,
}

impl Set {
    /// A task more, of 64 bytes of RAM.
    fn add(&mut self, grant: Grant, words: &[u32], periods: Option<u32>) -> Result<(), AllocError> {
        let size = words.len().min(16) as u32 * 4;
        for field in [grant.budget, grant.period, grant.start, 64, size + 16] {
            self.lines.extend_from_slice(&field.to_le_bytes())?;
        }
        self.lines.extend_from_slice(b"RTI1")?;
        for field in [0x8000_0000, size, 0] {
            self.lines.extend_from_slice(&field.to_le_bytes())?;
        }
        for word in words {
            self.lines.extend_from_slice(&word.to_le_bytes())?;
        }
        let times = HYPER.checked_div(grant.period).unwrap_or(0);
        self.room = self.room.saturating_sub(grant.budget.saturating_mul(times));
        self.tasks.push(Tracked {
            grant,
            periods,
            release: u64::from(grant.start),
            ticks: 0,
            finished: 0,
        })?;
        Ok(())
    }

    /// Its file.
    fn file(&self, alloc: Global) -> Result<Vec<u8>, AllocError> {
        let mut file = Vec::from_slice(alloc, b"RTS1")?;
        let count = self.tasks.len().min(64) as u32;
        for field in [HYPER, count] {
            file.extend_from_slice(&field.to_le_bytes())?;
        }
        file.extend_from_slice(&self.lines)?;
        Ok(file)
    }

    fn machine(&self, alloc: Global) -> Result<Machine<Tournament, Predecoded>, Fail> {
        let file = self.file(alloc)?;
        let system = read_system(alloc, &file)?;
        Ok(Machine::load(alloc, &system)?)
    }

    /// Tells a task its attempt. False where that finishes a certified job too late.
    fn tell(&mut self, entry: Entry) -> bool {
        match entry {
            Entry::Busy { t, rec } => match self.tasks.get_mut(rec.task as usize) {
                Some(task) => task.add(t, rec.outcome),
                None => false,
            },
            Entry::Idle { .. } => true,
        }
    }

    /// Runs the tasks. False where a certified job is too late.
    fn run(&mut self, alloc: Global) -> Result<bool, Fail> {
        let mut machine = self.machine(alloc)?;
        for _ in 0..TICKS {
            let left = TICKS.saturating_sub(machine.now());
            if let Some(entry) = machine.advance(left) {
                if !self.tell(entry) {
                    return Ok(false);
                }
            }
        }
        Ok(self.tasks.iter().all(|task| task.may_be_open(TICKS)))
    }

    /// How many certified jobs are finished, of tasks with so many periods.
    fn finished(&self, periods: u32) -> u64 {
        let mut jobs = 0_u64;
        for task in &self.tasks {
            if task.periods == Some(periods) {
                jobs = jobs.saturating_add(task.finished.min(JOBS));
            }
        }
        jobs
    }
}

/// Adds a task where it is certified with what it asks for.
fn add_certified(random: &mut Random, alloc: Global, set: &mut Set) -> Result<(), Fail> {
    let Some(grant) = random.grant(set.room / 2) else {
        return Ok(());
    };
    let periods = random.below(3).saturating_add(1);
    let words = random.worker(grant, periods);
    let limits = Limits {
        budget: grant.budget,
        period: grant.period,
        periods,
    };
    let question = Question {
        start: grant.start,
        limits,
        jobs: JOBS,
    };
    let told = answer::<Tournament, Predecoded>(alloc, &words, question)?;
    if told.is_ok_and(|certificate| certificate.jobs == JOBS) {
        set.add(grant, &words, Some(periods))?;
    }
    Ok(())
}

/// Adds a hostile task where there is room.
fn add_hostile(random: &mut Random, set: &mut Set) -> Result<(), Fail> {
    if let Some(grant) = random.grant(set.room) {
        let words = HOSTILE.get(random.below(6) as usize).ok_or("a task")?;
        set.add(grant, words, None)?;
    }
    Ok(())
}

fn random_set(random: &mut Random, alloc: Global) -> Result<Set, Fail> {
    let mut set = Set {
        lines: Vec::new(alloc),
        tasks: Vec::new(alloc),
        room: HYPER,
    };
    for _ in 0..4 {
        add_certified(random, alloc, &mut set)?;
    }
    for _ in 0..4 {
        add_hostile(random, &mut set)?;
    }
    Ok(set)
}

#[test]
fn certified_jobs_are_in_time(rt: HostRuntime) -> Result<(), Fail> {
    let mut random = Random {
        state: 0x9e37_79b9_7f4a_7c15,
    };
    let mut jobs = [0_u64; 3];
    for name in 0..SETS {
        let mut set = random_set(&mut random, rt.alloc())?;
        same(&rt, name, set.run(rt.alloc())?, true);
        for (of, count) in (1..).zip(jobs.iter_mut()) {
            *count = count.saturating_add(set.finished(of));
        }
    }
    // there are jobs of one period, and longer ones
    same(&rt, jobs, jobs.iter().all(|count| *count > 500), true);
    Ok(())
}
