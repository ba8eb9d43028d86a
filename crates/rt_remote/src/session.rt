//! A session.

ghost use Rattle.std.specs.Prelude.{◌≡◌, IfOk, IfErr};
ghost use Rattle.rt_image.specs.SystemFile.{set_tasks};
ghost use Rattle.rt_names.specs.TaskNames.{names_from};
ghost use Rattle.rt_core.specs.Next.{next_of};
ghost use Rattle.rt_remote.specs.Remote.{first_told, opening, with_interrupt, without_interrupt};

use crate::selection::Selection;
use rt_core::{Machine, Next};
use rt_exec::Fetcher;
use rt_image::Task;
use rt_points::Points;
use rt_queue::MinQueue;
use rt_walk::Walk;
use std::alloc::Global;
use std::marker::Model;

/// A machine that gdb looks at: where it began, what is shown of it now, the points, what is selected, and whether an interrupt is kept.
/// It borrows the tasks of which the machine was loaded, for their names.
#[derive(Drop)]
pub struct Session<'s, 'd, Q: MinQueue, F: Fetcher> {
    pub(crate) alloc: Global,
    pub(crate) tasks: &'s [Task<'d>],
    pub(crate) walk: Walk<Q, F>,
    pub(crate) points: Points,
    pub(crate) selection: Selection,
    pub(crate) has_interrupt: bool,
}

impl<'s, 'd, Q: MinQueue, F: Fetcher> Model for Session<'s, 'd, Q, F> {
    ghost use Rattle.rt_image.specs.SystemFile.{set_tasks};
    ghost use Rattle.rt_names.specs.TaskNames.{names_from};
    ghost use Rattle.rt_remote.specs.Remote.{RemoteState};

    ghost Value = { RemoteState };

    ghost view = { λ s. record { names = names_from 0 (set_tasks s.tasks.now); walk = s.walk; points = s.points; selection = s.selection; has_interrupt = s.has_interrupt } };
}

/// The task that is named, or task 0.
fn first_told(next: Next) -> u32
    ensures { result ≡ first_told next }
{
    match next {
        Next::Run { task, .. } => task,
        Next::Idle => 0,
    }
}

impl<'s, 'd, Q: MinQueue, F: Fetcher> Session<'s, 'd, Q, F> {
    /// A session of a machine of these tasks, at whichever tick it stands, without points.
    ///
    /// # Errors
    ///
    /// There is no memory for it: the machine is handed back.
    pub fn new(
        alloc: Global,
        machine: Machine<Q, F>,
        tasks: &'s [Task<'d>],
    ) -> Result<Session<'s, 'd, Q, F>, Machine<Q, F>>
        ensures made { IfOk result (λ session. session ≡ opening (names_from 0 (set_tasks tasks.now)) machine) }
        ensures handed { IfErr result (λ back. back ≡ machine) }
    {
        let walk = Walk::begin(alloc, machine, tasks)?;
        let task = first_told(walk.shown().next());
        Ok(Session {
            alloc,
            tasks,
            walk,
            points: Points::new(alloc),
            selection: Selection::opening(task),
            has_interrupt: false,
        })
    }

    /// Keeps an interrupt that comes between requests: the next one that is to go on or back is answered with it. Several are one.
    pub fn interrupt(&mut self)
        ensures { self.new ≡ with_interrupt self.old }
    {
        self.has_interrupt = true;
    }

    /// Forgets it.
    pub(crate) fn forget_interrupt(&mut self)
        ensures { self.new ≡ without_interrupt self.old }
    {
        self.has_interrupt = false;
    }

    /// The machine that is shown.
    pub(crate) fn machine(&self) -> &Machine<Q, F>
        ensures { result.now ≡ self.now.walk.shown.machine }
    {
        self.walk.shown().machine()
    }
}
