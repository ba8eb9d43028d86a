//! Deadlines that pass while a server has budget left.

ghost use Rattle.std.specs.Prelude.{◌≡◌, ◌≤◌};
ghost use Rattle.rt_words.specs.Limits.{tick_limit};
ghost use Rattle.rt_drawing.specs.Misses as misses;
ghost use Rattle.rt_drawing.specs.Working.Shown as shown;

use rt_history::{Mode, TaskServer};

/// A deadline that a task missed: it passed while its server was active.
#[derive(Clone, Copy, PartialEq, Eq)]
pub struct Miss {
    /// The first tick, at the deadline or behind it, of which the server was active at the begin.
    pub tick: u64,
    /// The deadline, as a tick.
    pub deadline: u64,
    /// What was left of the budget at that tick, in ticks.
    pub unspent: u64,
}

/// The first tick from `from` on at which a task in a mode is active, if no record changes that.
fn active_from(from: u64, mode: Mode) -> Option<u64>
    ensures { result ≡ shown.active_from from mode }
{
    match mode {
        Mode::Active => Some(from),
        Mode::Asleep(w) => Some(from.max(w)),
        Mode::Ended | Mode::Faulted(_) => None,
    }
}

/// The first deadline that is missed from tick `from` on, up to tick `u` and at it, by a server that stands so and goes from wake to
/// wake.
pub(crate) fn miss_by(from: u64, u: u64, serving: &TaskServer) -> Option<Miss>
    requires { u ≤ tick_limit }
    ensures { result ≡ misses.miss_by from u serving.now }
{
    let active = active_from(from, serving.mode())?;
    let mut woken = *serving;
    woken.wake_due(u);
    let tick = active.max(woken.server().d());
    if tick > u {
        return None;
    }
    Some(Miss {
        tick,
        deadline: woken.server().d(),
        unspent: u64::from(woken.server().c()),
    })
}
