//! What is said of a failure behind its own line: which job it was, or when and where it happened.

use crate::{AccountedRun, Failing, Failure};
use arrayvec::ArrayVec;
use rt_fault_lines::Place;
use rt_fault_lines::shown::{Explanation, Printable};
use rt_history::Moment;
use rt_image::Symbol;
use rt_names::{TASK_NAME_LEN, TaskName};
use rt_report::{FailedJob, UnfinishedJob};
use std::alloc::Global;
use std::fmt;

/// What a failure was.
#[derive(Clone, Copy)]
enum Cause {
    /// A finished job, whose response was over this period.
    Over(FailedJob, u32),
    /// An open job, after so many ticks.
    Open(UnfinishedJob, u64),
    /// A finished job that isn't hard.
    Soft(FailedJob),
    /// So many jobs are finished, of so many that were released by a tick.
    Few {
        finished: u64,
        released: u64,
        tick: u64,
    },
    /// An attempt.
    At(Moment),
}

impl Cause {
    /// What this failure in a run was.
    fn of(run: &AccountedRun<'_>, failure: Failure) -> Option<Cause> {
        let evidence = run.evidence(failure.task)?;
        let firsts = evidence.firsts;
        let ticks = run.now();
        match (failure.failing, firsts.over) {
            (Failing::Fault, _) => Some(Cause::At(firsts.fault?)),
            (Failing::Refused, _) => Some(Cause::At(firsts.refused?)),
            (Failing::Lost, _) => Some(Cause::At(run.full_since(failure.task)?)),
            (Failing::Soft, _) => Some(Cause::Soft(firsts.soft?)),
            (Failing::Few, _) => Some(Cause::Few {
                finished: evidence.finished,
                released: evidence.released,
                tick: ticks.saturating_sub(u64::from(evidence.period)),
            }),
            (Failing::Over, Some(job)) => Some(Cause::Over(job, evidence.period)),
            (Failing::Over, None) => {
                let job = evidence.open?;
                Some(Cause::Open(job, ticks.saturating_sub(job.release)))
            }
        }
    }
}

/// A name of a task as the standard error shows it.
#[derive(Clone, Copy)]
pub struct ShownName<'x, 'a>(pub &'x TaskName<'a>);

impl fmt::Display for ShownName<'_, '_> {
    fn fmt<W: fmt::Write>(&self, f: &mut fmt::Formatter<W>) -> fmt::Result {
        let mut name = ArrayVec::<u8, TASK_NAME_LEN>::new();
        self.0.push(&mut name);
        write!(f, "{}", Printable(&name))
    }
}

/// The line of a failure of a task with this name, whose object has these symbols.
#[derive(Clone, Copy)]
struct FailureLine<'x, 'a> {
    name: &'x TaskName<'a>,
    symbols: &'x [Symbol<'a>],
    cause: Cause,
}

impl fmt::Display for FailureLine<'_, '_> {
    fn fmt<W: fmt::Write>(&self, f: &mut fmt::Formatter<W>) -> fmt::Result {
        write!(f, "  {}: ", ShownName(self.name))?;
        match self.cause {
            Cause::Over(job, period) => write!(
                f,
                "job {}, released at {}, took {} ticks, over its period of {period}",
                job.number, job.release, job.response
            ),
            Cause::Open(job, ticks) => write!(
                f,
                "job {}, released at {}, has no end after {ticks} ticks",
                job.number, job.release
            ),
            Cause::Soft(job) => {
                write!(
                    f,
                    "job {}, released at {}, isn't hard",
                    job.number, job.release
                )
            }
            Cause::Few {
                finished,
                released,
                tick,
            } => {
                write!(
                    f,
                    "{finished} jobs finished of {released} released by tick {tick}"
                )
            }
            Cause::At(moment) => {
                let place = Place::of(self.symbols, moment.pc);
                write!(f, "at tick {}, at {place}", moment.tick)
            }
        }
    }
}

/// The line behind that of a failure that happened in a run, if there is memory for it.
pub(crate) fn failure_line(alloc: Global, run: &AccountedRun<'_>, failure: Failure) -> Explanation {
    let (Some(name), Some(task), Some(cause)) = (
        run.name(failure.task),
        run.task(failure.task),
        Cause::of(run, failure),
    ) else {
        return Ok(None);
    };
    let symbols = &task.object.symbols;
    let line = FailureLine {
        name,
        symbols,
        cause,
    };
    Ok(Some(format!(in alloc; "{line}")?))
}
