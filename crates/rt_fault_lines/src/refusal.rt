//! Where a program isn't certified, and what to do.

use crate::attempt::word_at;
use crate::place::Place;
use rt_admit::MAX_HYPER;
use rt_certify::{Certificate, Limits, NotCertified, Reason, certify};
use rt_core::{Beat, Machine};
use rt_exec::Fetcher;
use rt_image::Task;
use rt_isa::disasm;
use rt_queue::MinQueue;
use std::alloc::{AllocError, Global};

/// How many times as many ticks as it may have a job is watched behind them, for its end.
const WATCHED: u32 = 9;

/// The most ticks of a job.
fn most_ticks(limits: Limits) -> u64 {
    u64::from(limits.periods) * u64::from(limits.budget)
}

/// The ticks of the open job of a machine, which has as many as it may have: none where it has no end within ten times as many.
fn ticks_of_job<Q: MinQueue, F: Fetcher, B: Beat>(
    machine: &mut Machine<Q, F>,
    limits: Limits,
    beat: &B,
) -> Option<u64> {
    if machine.count() != 1 {
        return None;
    }
    let rest = Limits {
        budget: limits.budget.saturating_mul(WATCHED),
        period: 0,
        ..limits
    };
    match certify(machine, 0, rest, 1, beat) {
        Ok(
            Certificate {
                jobs: 1,
                longest,
                ..
            },
        ) => Some(most_ticks(limits).saturating_add(longest)),
        _ => None,
    }
}

/// The budget that a job of so many ticks takes, or the number of periods where no budget is as large.
fn push_budget(line: &mut String, ticks: u64, limits: Limits) -> Result<(), AllocError> {
    let budget = ticks.div_ceil(u64::from(limits.periods.max(1)));
    if budget <= u64::from(MAX_HYPER) {
        line.write(format_args!(": this job takes --budget {budget}"))
    } else {
        let periods = ticks.div_ceil(u64::from(limits.budget.max(1)));
        line.write(format_args!(": this job takes --periods {periods}"))
    }
}

/// What a sleep until tick `sleep`, which a job of so many periods makes at tick `now`, wants.
fn push_sleep(
    line: &mut String,
    now: u64,
    (release, sleep): (u64, u64),
    periods: u64,
) -> Result<(), AllocError> {
    line.write(format_args!(" at tick {now}"))?;
    if sleep <= now {
        line.push_str(": a sleep takes a tick, not a length")?;
    }
    match sleep.saturating_sub(release) / periods.max(1) {
        0 => Ok(()),
        period => line.write(format_args!(": so far --period {period} holds")),
    }
}

/// Appends what is wrong with the refused attempt of a machine's one task, and what to do.
fn push_remedy<Q: MinQueue, F: Fetcher, B: Beat>(
    line: &mut String,
    machine: &mut Machine<Q, F>,
    limits: Limits,
    reason: Reason,
    beat: &B,
) -> Result<(), AllocError> {
    match reason {
        Reason::OverBudget { .. } => match ticks_of_job(machine, limits, beat) {
            Some(ticks) => push_budget(line, ticks, limits),
            None => {
                let ticks = most_ticks(limits).saturating_mul(10);
                line.write(format_args!(": this job has no end within {ticks} ticks"))
            }
        },
        Reason::TooSoon {
            release,
            sleep,
            periods,
        } => {
            // The attempt took its tick.
            let now = machine.now().saturating_sub(1);
            push_sleep(line, now, (release, sleep), periods.unwrap_or(1))
        }
        Reason::Yields => line.push_str(": yields have no certificate, look at report"),
        Reason::Asks => line.push_str(": what asks has no certificate, look at report"),
        Reason::Faults(_) => Ok(()),
    }
}

/// The name of a reason.
fn name_of(reason: Reason) -> &'static str {
    match reason {
        Reason::OverBudget { .. } => "OverBudget",
        Reason::Yields => "Yields",
        Reason::Asks => "Asks",
        Reason::Faults(_) => "Faults",
        Reason::TooSoon { .. } => "TooSoon",
    }
}

/// The line of the refused attempt of a machine's one task, which is loaded from `task` and has this number elsewhere.
pub(crate) fn line_of<Q: MinQueue, F: Fetcher, B: Beat>(
    alloc: Global,
    machine: &mut Machine<Q, F>,
    number: u32,
    task: &Task<'_>,
    limits: Limits,
    refusal: NotCertified,
    beat: &B,
) -> Result<String, AllocError> {
    let NotCertified { pc, reason, .. } = refusal;
    let name = name_of(reason);
    let place = Place::of(&task.object.symbols, pc);
    let mut line = format!(in alloc; "  task {number}: {name} at {place}: ")?;
    match machine.view(0).and_then(|view| word_at(view.ram, pc)) {
        Some(word) => disasm(pc, word, &mut line)?,
        None => line.push_str("no instruction there")?,
    }
    push_remedy(&mut line, machine, limits, reason, beat)?;
    Ok(line)
}
