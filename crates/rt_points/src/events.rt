//! Events of a machine that are asked for.

ghost use Rattle.std.specs.Prelude.{◌≡◌, ◌≤◌, length};
ghost use Rattle.std.specs.List.{list_any};
ghost use Rattle.rt_points.specs.Events.{name_of, event_named, asked_of, asks, changed, with_event, no_events, any_asked};

/// What happens to a task.
#[derive(Clone, Copy, Debug, PartialEq, Eq)]
pub enum Event {
    /// It wakes.
    Wake,
    /// It goes on where another did, or none.
    Dispatch,
    /// It goes on with a later deadline.
    Postponed,
    /// It finishes a job.
    Finish,
    /// Its job passes its release by its period.
    Over,
    /// It faults.
    Fault,
}

impl Event {
    /// Its word: at most 9 bytes.
    pub fn name(self) -> &'static [u8]
        ensures value { result.now ≡ name_of self }
        ensures short { length result.now ≤ 9 }
    {
        match self {
            Event::Wake => b"wake",
            Event::Dispatch => b"dispatch",
            Event::Postponed => b"postponed",
            Event::Finish => b"finish",
            Event::Over => b"over",
            Event::Fault => b"fault",
        }
    }

    /// The event of this word.
    pub fn named(word: &[u8]) -> Option<Event>
        ensures { result ≡ event_named word.now }
    {
        match word {
            _ if word == Event::Wake.name() => Some(Event::Wake),
            _ if word == Event::Dispatch.name() => Some(Event::Dispatch),
            _ if word == Event::Postponed.name() => Some(Event::Postponed),
            _ if word == Event::Finish.name() => Some(Event::Finish),
            _ if word == Event::Over.name() => Some(Event::Over),
            _ if word == Event::Fault.name() => Some(Event::Fault),
            _ => None,
        }
    }
}

/// The most tasks.
const MAX_TASKS: usize = 64;

/// Whether each task is asked for, by number.
type Tasks = [bool; MAX_TASKS];

/// The events that are asked for, each of some tasks.
#[derive(Clone, Copy)]
pub struct Events {
    wake: Tasks,
    dispatch: Tasks,
    postponed: Tasks,
    finish: Tasks,
    over: Tasks,
    fault: Tasks,
}

/// Whether each task is asked for, where this one, or every one, is from now on or no more.
fn changed(tasks: &Tasks, task: Option<u32>, is_asked: bool) -> Tasks
    ensures { result ≡ changed is_asked task tasks.now }
{
    let Some(task) = task else {
        return [is_asked; MAX_TASKS];
    };
    let mut changed = *tasks;
    if (task as usize) < MAX_TASKS {
        changed[task as usize] = is_asked;
    }
    changed
}

/// Whether a task is asked for at all.
fn any(tasks: &Tasks) -> bool
    ensures { result ≡ list_any (λ asked. asked) tasks.now }
{
    tasks.iter().any(|asked| *asked)
}

impl Events {
    /// No events.
    pub fn none() -> Events
        ensures { result ≡ no_events }
    {
        let none = [false; MAX_TASKS];
        Events {
            wake: none,
            dispatch: none,
            postponed: none,
            finish: none,
            over: none,
            fault: none,
        }
    }

    /// Of which tasks an event is asked for.
    #[inline(always)]
    fn asked_of(&self, event: Event) -> &Tasks
        ensures { result.now ≡ asked_of self.now event }
    {
        match event {
            Event::Wake => &self.wake,
            Event::Dispatch => &self.dispatch,
            Event::Postponed => &self.postponed,
            Event::Finish => &self.finish,
            Event::Over => &self.over,
            Event::Fault => &self.fault,
        }
    }

    /// Whether an event is asked for of this task.
    #[inline(always)]
    pub fn asks(&self, event: Event, task: u32) -> bool
        ensures { result ≡ asks self.now event task }
    {
        match self.asked_of(event).get(task as usize) {
            Some(is_asked) => *is_asked,
            None => false,
        }
    }

    /// Whether any is.
    pub fn is_any(&self) -> bool
        ensures { result ≡ any_asked self.now }
    {
        any(&self.wake)
            || any(&self.dispatch)
            || any(&self.postponed)
            || any(&self.finish)
            || any(&self.over)
            || any(&self.fault)
    }

    /// The same with an event asked for of this task, or every task, or no more.
    pub fn with(self, event: Event, task: Option<u32>, is_asked: bool) -> Events
        ensures { result ≡ with_event event task is_asked self }
    {
        let tasks = changed(self.asked_of(event), task, is_asked);
        match event {
            Event::Wake => Events {
                wake: tasks,
                ..self
            },
            Event::Dispatch => Events {
                dispatch: tasks,
                ..self
            },
            Event::Postponed => Events {
                postponed: tasks,
                ..self
            },
            Event::Finish => Events {
                finish: tasks,
                ..self
            },
            Event::Over => Events {
                over: tasks,
                ..self
            },
            Event::Fault => Events {
                fault: tasks,
                ..self
            },
        }
    }
}
