//! A report listens. It takes each entry, and never stops.

use crate::listener::Listener;
use rt_core::Machine;
use rt_exec::Fetcher;
use rt_history::Entry;
use rt_queue::MinQueue;
use rt_report::Report;
use std::convert::Infallible;

impl Listener for Report {
    ghost use Rattle.std.specs.Prelude.{◌≡◌, length, true};
    ghost use Rattle.rt_report.specs.Standing.{report_at};

    type Fault = Infallible;

    ghost Kept = { Unit {0} };

    ghost kept = { λ _. tt };

    ghost tick = { λ r. r.tick };

    ghost count = { λ r. length r.tasks };

    ghost told = { λ _ r set t. r ≡ report_at set t };

    ghost stopped = { λ _ _ _ _. ⊥ };

    ghost plain = { true };

    #[inline(always)]
    fn takes_plain(&self) -> bool {
        true
    }

    #[inline(always)]
    fn add<Q: MinQueue, F: Fetcher>(
        &mut self,
        entry: Entry,
        _machine: &Machine<Q, F>,
    ) -> Result<(), Infallible> {
        Report::add(self, entry);
        Ok(())
    }

    #[inline(always)]
    fn add_plain(&mut self, task: u32, n: u64) -> Result<u64, Infallible> {
        Report::add_plain(self, task, n);
        Ok(n)
    }
}
