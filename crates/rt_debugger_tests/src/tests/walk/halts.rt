//! What the tests' walks halt at.

ghost use Rattle.std.specs.Prelude.{◌≡◌};
ghost use Rattle.rt_debugger_tests.specs.If.{if_is};

use rt_core::Machine;
use rt_exec::Fetcher;
use rt_history::{Attempt, Entry};
use rt_queue::MinQueue;
use rt_walk::{Halt, HaltBack, Position};

/// Wherever this task is named.
#[derive(Clone, Copy)]
pub struct Named(pub u32);

/// Behind each attempt of this task.
#[derive(Clone, Copy)]
pub struct Ran(pub u32);

/// The task, if it is this one.
#[inline(always)]
fn if_is(task: u32, wanted: u32) -> Option<u32>
    ensures { result ≡ if_is task wanted }
{
    if task == wanted { Some(task) } else { None }
}

impl Halt for Named {
    ghost use Rattle.std.specs.Prelude.{None};
    ghost use Rattle.rt_debugger_tests.specs.If.{if_is};

    type Found = u32;

    type Before = ();

    ghost notes = { λ _ _. tt };

    ghost behind = { λ _ _ _ _. None };

    ghost ahead = { λ halt task _ _. if_is task halt.0 };

    fn note<Q: MinQueue, F: Fetcher>(&self, _machine: &Machine<Q, F>) {}

    fn may_stop(&self, _attempt: &Attempt) -> bool {
        false
    }

    fn look_behind<Q: MinQueue, F: Fetcher>(
        &self,
        _before: (),
        _attempt: &Attempt,
        _place: &Position<Q, F>,
    ) -> Option<u32> {
        None
    }

    fn look_risen<Q: MinQueue, F: Fetcher>(&self, _place: &Position<Q, F>) -> Option<u32> {
        None
    }

    fn may_meet<Q: MinQueue, F: Fetcher>(
        &self,
        task: u32,
        _pc: u32,
        _machine: &Machine<Q, F>,
    ) -> bool {
        task == self.0
    }

    fn look_ahead<Q: MinQueue, F: Fetcher>(
        &self,
        task: u32,
        _pc: u32,
        _machine: &Machine<Q, F>,
    ) -> Option<u32> {
        if_is(task, self.0)
    }
}

impl Halt for Ran {
    ghost use Rattle.std.specs.Prelude.{None};
    ghost use Rattle.rt_debugger_tests.specs.If.{if_ran};

    type Found = u32;

    type Before = ();

    ghost notes = { λ _ _. tt };

    ghost behind = { λ halt _ r _. if_ran r halt.0 };

    ghost ahead = { λ _ _ _ _. None };

    fn note<Q: MinQueue, F: Fetcher>(&self, _machine: &Machine<Q, F>) {}

    fn may_stop(&self, attempt: &Attempt) -> bool {
        attempt.task == self.0
    }

    fn look_behind<Q: MinQueue, F: Fetcher>(
        &self,
        _before: (),
        attempt: &Attempt,
        _place: &Position<Q, F>,
    ) -> Option<u32> {
        if_is(attempt.task, self.0)
    }

    fn look_risen<Q: MinQueue, F: Fetcher>(&self, _place: &Position<Q, F>) -> Option<u32> {
        None
    }

    fn may_meet<Q: MinQueue, F: Fetcher>(
        &self,
        _task: u32,
        _pc: u32,
        _machine: &Machine<Q, F>,
    ) -> bool {
        false
    }

    fn look_ahead<Q: MinQueue, F: Fetcher>(
        &self,
        _task: u32,
        _pc: u32,
        _machine: &Machine<Q, F>,
    ) -> Option<u32> {
        None
    }
}

impl HaltBack for Named {
    ghost use Rattle.std.specs.Prelude.{None};
    ghost use Rattle.rt_debugger_tests.specs.If.{if_is};

    type Found = u32;

    type Before = ();

    ghost notes = { λ _ _. tt };

    ghost behind = { λ _ _ _ _. None };

    ghost here = { λ halt task _ _. if_is task halt.0 };

    ghost left = { λ _ _ _ _. None };

    fn note<Q: MinQueue, F: Fetcher>(&self, _machine: &Machine<Q, F>) {}

    fn look_behind<Q: MinQueue, F: Fetcher>(
        &self,
        _before: (),
        _entry: &Entry,
        _place: &Position<Q, F>,
    ) -> Option<u32> {
        None
    }

    fn may_meet<Q: MinQueue, F: Fetcher>(
        &self,
        task: u32,
        _pc: u32,
        _machine: &Machine<Q, F>,
    ) -> bool {
        task == self.0
    }

    fn look_here<Q: MinQueue, F: Fetcher>(
        &self,
        task: u32,
        _pc: u32,
        _machine: &Machine<Q, F>,
    ) -> Option<u32> {
        if_is(task, self.0)
    }

    fn look_left<Q: MinQueue, F: Fetcher>(
        &self,
        _task: u32,
        _pc: u32,
        _machine: &Machine<Q, F>,
    ) -> Option<u32> {
        None
    }
}

impl HaltBack for Ran {
    ghost use Rattle.std.specs.Prelude.{None};
    ghost use Rattle.rt_debugger_tests.specs.If.{if_is};

    type Found = u32;

    type Before = ();

    ghost notes = { λ _ _. tt };

    ghost behind = { λ _ _ _ _. None };

    ghost here = { λ _ _ _ _. None };

    ghost left = { λ halt task _ _. if_is task halt.0 };

    fn note<Q: MinQueue, F: Fetcher>(&self, _machine: &Machine<Q, F>) {}

    fn look_behind<Q: MinQueue, F: Fetcher>(
        &self,
        _before: (),
        _entry: &Entry,
        _place: &Position<Q, F>,
    ) -> Option<u32> {
        None
    }

    fn may_meet<Q: MinQueue, F: Fetcher>(
        &self,
        task: u32,
        _pc: u32,
        _machine: &Machine<Q, F>,
    ) -> bool {
        task == self.0
    }

    fn look_here<Q: MinQueue, F: Fetcher>(
        &self,
        _task: u32,
        _pc: u32,
        _machine: &Machine<Q, F>,
    ) -> Option<u32> {
        None
    }

    fn look_left<Q: MinQueue, F: Fetcher>(
        &self,
        task: u32,
        _pc: u32,
        _machine: &Machine<Q, F>,
    ) -> Option<u32> {
        if_is(task, self.0)
    }
}
