//! The longest stretches of ticks of one task.

ghost use Rattle.std.specs.Prelude.{◌≡◌, ◌+◌, ◌<◌, ◌≤◌, length, vec_len, vec_capacity, OnOk, OnErr};
ghost use Rattle.rt_drawing.specs.Drawn as drawings;
ghost use Rattle.rt_drawing.specs.Drawn.{ticks_behind, shown_behind};

use crate::job::Job;
use crate::window::Window;
use std::alloc::AllocError;

/// For how many more stretches or marks a list requests memory at once: so many that a list that grows isn't copied, since an allocator
/// maps as many bytes into memory anew.
pub(crate) const LIST_STEP: usize = 6000;

/// A stretch of ticks of one job: from `from` up to `to`, which is no longer one of them. They are `over` where a response that takes
/// them is over the period. The job has come so far with the last of them.
#[derive(Clone, Copy, PartialEq, Eq)]
pub struct Stretch {
    pub from: u64,
    pub to: u64,
    pub over: bool,
    pub job: Job,
}

impl Default for Stretch {
    /// What lies in room for stretches that has none yet.
    fn default() -> Stretch {
        Stretch {
            from: 0,
            to: 0,
            over: false,
            job: Job {
                number: 0,
                release: 0,
                ticks: 0,
            },
        }
    }
}

/// Makes room for two more elements in a list, which grows where it has less.
#[inline(always)]
pub(crate) fn make_room<T: Drop>(list: &mut Vec<T>) -> Result<(), AllocError>
    ensures items { list.new.items ≡ list.old.items }
    ensures room { OnOk result (vec_len list.new + 2 ≤ vec_capacity list.new) }
{
    if list.capacity() - list.len() < 2 {
        list.reserve(LIST_STEP)?;
    }
    Ok(())
}

/// Whether ticks from `from` on, of job `number`, go on with a stretch: it ends where they begin, and is of that job, and over the
/// period as they are.
#[inline(always)]
fn goes_on(stretch: &Stretch, from: u64, over: bool, number: u64) -> bool
    ensures { result ≡ drawings.goes_on stretch.now from over number }
{
    stretch.to == from && stretch.over == over && stretch.job.number == number
}

/// Adds the ticks from `from` up to `to`, with which their job has come so far, behind stretches: to the last of them, where they go
/// on with that.
#[inline(always)]
pub(crate) fn add_ticks(
    stretches: &mut Vec<Stretch>,
    from: u64,
    to: u64,
    over: bool,
    job: Job,
) -> Result<(), AllocError>
    ensures ok { OnOk result (stretches.new.items ≡ ticks_behind from to over job stretches.old.items) }
    ensures count { OnOk result (length stretches.new.items ≤ length stretches.old.items + 1) }
    ensures err { OnErr result (stretches.new.items ≡ stretches.old.items) }
{
    let count = stretches.len();
    if count > 0 {
        let last = stretches[count - 1];
        if goes_on(&last, from, over, job.number) {
            stretches[count - 1] = Stretch {
                from: last.from,
                to,
                over,
                job,
            };
            return Ok(());
        }
    }
    make_room(stretches)?;
    stretches.push_reserved(Stretch {
        from,
        to,
        over,
        job,
    });
    Ok(())
}

/// Adds the ticks from `u` up to `to` that a window shows, if there are any, behind stretches. With them their job has come so far.
#[inline(always)]
pub(crate) fn show_ticks(
    stretches: &mut Vec<Stretch>,
    window: &Window,
    u: u64,
    to: u64,
    over: bool,
    job: Job,
) -> Result<(), AllocError>
    ensures ok { OnOk result (stretches.new.items ≡ shown_behind window.now u to over job stretches.old.items) }
    ensures count { OnOk result (length stretches.new.items ≤ length stretches.old.items + 1) }
    ensures err { OnErr result (stretches.new.items ≡ stretches.old.items) }
{
    if window.from >= to {
        return Ok(());
    }
    add_ticks(stretches, window.from.max(u), to, over, job)
}
