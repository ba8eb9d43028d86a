//! What a session has selected, and what it reported last.

ghost use Rattle.std.specs.Prelude.{◌≡◌};
ghost use Rattle.rt_remote.specs.Remote.{opening_selection, is_watch_stop, is_same_way, passes};
ghost use Rattle.rt_remote.specs.Chosen.{one_or};
ghost use Rattle.rt_remote.specs.Runs.{with_told, stop_left};
ghost use Rattle.rt_remote.specs.Places.{owner_of};

use crate::stops::{MAX_TASKS, Told};
use rt_packet::answer::{Ids, Stop};
use rt_packet::request::Tasks;
use rt_points::Events;

/// Which way a session went.
#[derive(Clone, Copy, PartialEq, Eq)]
pub enum Direction {
    On,
    Back,
}

/// What a session has selected, and what it reported last. Tasks are numbered from 0.
#[derive(Clone, Copy)]
pub struct Selection {
    /// How ids name tasks.
    pub ids: Ids,
    /// The task that is shown, and for which points are inserted.
    pub shown: u32,
    /// The tasks that requests without ids resume.
    pub resumed: Tasks,
    /// The tick at which a run is to stop, 0 to 2^40.
    pub tick_stop: Option<u64>,
    /// The events at which a run is to stop.
    pub events: Events,
    /// Whether each task was let go, by number.
    pub gone: [bool; MAX_TASKS],
    /// The last stop that was reported.
    pub last: Told,
    /// On which way it was.
    pub direction: Direction,
}

/// Whether a stop is a watchpoint's.
fn is_watch_stop(stop: Stop) -> bool
    ensures { result ≡ is_watch_stop stop }
{
    matches!(stop, Stop::Watch(_))
}

/// Whether both are one direction.
fn is_same_way(one: Direction, other: Direction) -> bool
    ensures { result ≡ is_same_way one other }
{
    match (one, other) {
        (Direction::On, Direction::On) | (Direction::Back, Direction::Back) => true,
        _ => false,
    }
}

/// The tick stop that is left where this stop is reported.
fn stop_left(stop: Stop, tick_stop: Option<u64>) -> Option<u64>
    ensures { result ≡ stop_left stop tick_stop }
{
    match stop {
        Stop::AtTick => None,
        _ => tick_stop,
    }
}

impl Selection {
    /// At the begin of a session where this task is named first.
    pub(crate) fn opening(task: u32) -> Selection
        ensures { result ≡ opening_selection task }
    {
        Selection {
            ids: Ids::Threads,
            shown: task,
            resumed: Tasks::All,
            tick_stop: None,
            events: Events::none(),
            gone: [false; MAX_TASKS],
            last: Told {
                stop: Stop::Plain,
                task,
            },
            direction: Direction::On,
        }
    }

    /// Where this stop is reported.
    pub(crate) fn tell(&mut self, direction: Direction, told: Told)
        ensures { self.new ≡ with_told direction told self.old }
    {
        self.shown = told.task;
        self.tick_stop = stop_left(told.stop, self.tick_stop);
        self.last = told;
        self.direction = direction;
    }

    /// Whether the last stop was a watchpoint's on this way.
    pub(crate) fn passes(&self, direction: Direction) -> bool
        ensures { result ≡ passes direction self.now }
    {
        is_same_way(self.direction, direction) && is_watch_stop(self.last.stop)
    }

    /// The task that a step is of.
    pub(crate) fn stepped(&self) -> u32
        ensures { result ≡ one_or self.now.shown self.now.resumed }
    {
        match self.resumed {
            Tasks::All => self.shown,
            Tasks::One(task) => task,
        }
    }

    /// Whose points are inserted: the shown task's, or every task's where ids have no processes.
    pub(crate) fn owner(&self) -> Option<u32>
        ensures { result ≡ owner_of self.now.ids self.now.shown }
    {
        match self.ids {
            Ids::Processes => Some(self.shown),
            Ids::Threads => None,
        }
    }
}
