//! Which tasks a request means, and which it resumes.

ghost use Rattle.std.specs.Prelude.{◌≡◌, not, slice_get, true, None, if◌then◌else◌};
ghost use Rattle.std.specs.Option.{unwrap_or};
ghost use Rattle.rt_remote.specs.Remote.{is_listed};
ghost use Rattle.rt_remote.specs.Chosen.{listing, listed, one_task, by_number, resumed_by, continued, stepped_too, are_any, continued_back};
ghost use Rattle.rt_remote.specs.Working.Choices.{action_by};

use crate::session::Session;
use crate::stops::{Actions, MAX_TASKS};
use arrayvec::ArrayVec;
use rt_exec::Fetcher;
use rt_packet::request::{Action, Resumed, Tasks};
use rt_queue::MinQueue;

/// By what a listed task is resumed.
#[derive(Clone, Copy)]
enum Choice<'a> {
    /// By the first action that is for it.
    First(&'a Resumed<'a>),
    /// Up to the next stop, if it is one of these.
    Continue(Tasks),
    /// By a tick if it is this one, and else up to the next stop; if it is one of these.
    Step(Tasks, u32),
}

impl<'a> Choice<'a> {
    /// The action of a task.
    fn action_of(self, task: u32) -> Option<Action>
        ensures { result ≡ action_by self.entry task }
    {
        match self {
            Choice::First(resumed) => resumed.action_of(task),
            Choice::Continue(tasks) if tasks.names(task) => Some(Action::Continue),
            Choice::Step(tasks, stepped) if tasks.names(task) => {
                if task == stepped {
                    Some(Action::Step)
                } else {
                    Some(Action::Continue)
                }
            }
            _ => None,
        }
    }
}

/// Whether any task has an action.
pub(crate) fn are_any(actions: &Actions) -> bool
    ensures { result ≡ are_any actions.now }
{
    actions.iter().any(|action| action.is_some())
}

impl<'s, 'd, Q: MinQueue, F: Fetcher> Session<'s, 'd, Q, F> {
    /// Whether a task is there and wasn't let go.
    pub(crate) fn is_listed(&self, task: u32) -> bool
        ensures { result ≡ is_listed self.now task }
    {
        task < self.machine().count() && self.is_kept(task)
    }

    /// Whether a task wasn't let go.
    fn is_kept(&self, task: u32) -> bool
        ensures { result ≡ not (unwrap_or (slice_get self.now.selection.gone task) true) }
    {
        match self.selection.gone.get(task as usize) {
            Some(is_gone) => !is_gone,
            None => false,
        }
    }

    /// Whether each task is listed, by its number.
    pub(crate) fn listing(&self) -> [bool; MAX_TASKS]
        ensures { result ≡ listing self.now }
    {
        let mut listing = [false; MAX_TASKS];
        for task in 0..MAX_TASKS {
            listing[task] = self.is_listed(task as u32);
        }
        listing
    }

    /// The listed tasks, in their order.
    pub(crate) fn listed(&self) -> ArrayVec<u32, MAX_TASKS>
        ensures { result.items ≡ listed self.now }
    {
        let mut listed = ArrayVec::new();
        for task in 0..MAX_TASKS as u32 {
            if self.is_listed(task) {
                listed.push(task);
            }
        }
        listed
    }

    /// The one listed task that an id means.
    pub(crate) fn one_task(&self, tasks: Tasks) -> Option<u32>
        ensures { result ≡ one_task self.now tasks }
    {
        match tasks {
            Tasks::One(task) if self.is_listed(task) => Some(task),
            _ => None,
        }
    }

    /// The action of a task, where it is listed.
    fn chosen(&self, choice: Choice, task: u32) -> Option<Action>
        ensures { result ≡ (if is_listed self.now task then action_by choice.entry task else None) }
    {
        if self.is_listed(task) {
            choice.action_of(task)
        } else {
            None
        }
    }

    /// Each task's action by number, where it is listed.
    fn by_number(&self, choice: Choice) -> Actions
        ensures { result ≡ by_number self.now (action_by choice.entry) }
    {
        let mut actions = [None; MAX_TASKS];
        for task in 0..MAX_TASKS {
            actions[task] = self.chosen(choice, task as u32);
        }
        actions
    }

    /// What `vCont` resumes.
    pub(crate) fn resumed_by(&self, resumed: &Resumed) -> Actions
        ensures { result ≡ resumed_by self.now resumed.now }
    {
        self.by_number(Choice::First(resumed))
    }

    /// What `c` resumes.
    pub(crate) fn continued(&self) -> Actions
        ensures { result ≡ continued self.now }
    {
        self.by_number(Choice::Continue(self.selection.resumed))
    }

    /// What `s` resumes.
    pub(crate) fn stepped_too(&self) -> Actions
        ensures { result ≡ stepped_too self.now }
    {
        let stepped = self.selection.stepped();
        self.by_number(Choice::Step(self.selection.resumed, stepped))
    }

    /// What `bc` looks at.
    pub(crate) fn continued_back(&self) -> Actions
        ensures { result ≡ continued_back self.now }
    {
        let continued = self.continued();
        if are_any(&continued) {
            continued
        } else {
            self.by_number(Choice::Continue(Tasks::All))
        }
    }
}
