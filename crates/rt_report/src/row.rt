//! What is reported of one task.

ghost use Rattle.std.specs.Prelude.{◌≡◌, ◌+◌, ◌^◌, ◌<◌, min, max, Some};
ghost use Rattle.rt_report.specs.Working.Tallied.{first_row, picked, with_tick, with_job};

/// What is reported of one task's jobs. Times are in ticks, each count is at most 2^40.
#[derive(Clone, Copy, PartialEq, Eq)]
pub struct Row {
    /// The task's number, from 0.
    pub task: u32,
    /// How many jobs it has finished.
    pub jobs: u64,
    /// How many ticks it has executed.
    pub ticks: u64,
    /// The least response of its finished jobs; none where no job has finished.
    pub least: Option<u64>,
    /// The greatest response of its finished jobs; none where no job has finished.
    pub greatest: Option<u64>,
    /// How many of its finished jobs are hard: released to a sleeping task whose server woke fresh, within the budget that this
    /// wake took, and without a yield.
    pub hard: u64,
    /// How many of the hard jobs are late: their response is over the period.
    pub late: u64,
}

impl Row {
    /// The row of a task that has executed nothing.
    pub(crate) fn new(task: u32) -> Row
        ensures { result ≡ first_row task }
    {
        Row {
            task,
            jobs: 0,
            ticks: 0,
            least: None,
            greatest: None,
            hard: 0,
            late: 0,
        }
    }

    /// Counts an executed tick.
    pub(crate) fn add_tick(&mut self)
        requires { self.old.ticks + 1 < 2 ^ 64 }
        ensures { self.new ≡ with_tick self.old }
    {
        self.ticks += 1;
    }

    /// Counts a finished job of this response.
    pub(crate) fn add_job(&mut self, response: u64, hard: bool, late: bool)
        requires jobs { self.old.jobs + 1 < 2 ^ 64 }
        requires hard { self.old.hard + 1 < 2 ^ 64 }
        requires late { self.old.late + 1 < 2 ^ 64 }
        ensures { self.new ≡ with_job response hard late self.old }
    {
        self.jobs += 1;
        self.least = Some(least_of(self.least, response));
        self.greatest = Some(greatest_of(self.greatest, response));
        self.hard += u64::from(hard);
        self.late += u64::from(late);
    }
}

/// The lesser response.
fn least_of(so_far: Option<u64>, response: u64) -> u64
    ensures { result ≡ picked min so_far response }
{
    match so_far {
        Some(least) => least.min(response),
        None => response,
    }
}

/// The greater response.
pub(crate) fn greatest_of(so_far: Option<u64>, response: u64) -> u64
    ensures { result ≡ picked max so_far response }
{
    match so_far {
        Some(greatest) => greatest.max(response),
        None => response,
    }
}
