//! What the tasks of a set come to that are to be certified.

ghost use Rattle.std.specs.Prelude.{◌≡◌};
ghost use Rattle.rt_programs.specs.CertifySet.{fewer, promised_by, promised};

use rt_certify::{Certificate, NotCertified};
use std::fmt;

/// What a task comes to.
#[derive(Clone, Copy, PartialEq, Eq)]
pub enum Outcome {
    /// It isn't tried.
    Excepted,
    Certified(Certificate),
    Refused(NotCertified),
}

/// A task of a set that isn't certified.
#[derive(Clone, Copy, PartialEq, Eq)]
pub struct Uncertified<'a> {
    /// Its number.
    pub task: u32,
    /// The name of the symbol at its entry; without one it has its number for a name.
    pub symbol: Option<&'a str>,
    pub refusal: NotCertified,
}

/// The name of a task that isn't certified.
#[derive(Clone, Copy)]
struct TaskName<'a>(Uncertified<'a>);

impl fmt::Display for TaskName<'_> {
    ghost use Rattle.std.specs.Prelude.{Some};
    ghost use Rattle.rt_programs.specs.CertifySet.{uncertified_name};

    ghost output = { λ name. Some (uncertified_name name.0) };

    fn fmt<W: fmt::Write>(&self, f: &mut fmt::Formatter<W>) -> fmt::Result {
        let Uncertified { task, symbol, .. } = self.0;
        match symbol {
            Some(name) => f.write_str(name),
            None => write!(f, "task{task}"),
        }
    }
}

impl fmt::Display for Uncertified<'_> {
    ghost use Rattle.std.specs.Prelude.{Some};
    ghost use Rattle.rt_programs.specs.CertifySet.{uncertified_text};

    ghost output = { λ u. Some (uncertified_text u) };

    fn fmt<W: fmt::Write>(&self, f: &mut fmt::Formatter<W>) -> fmt::Result {
        let Uncertified { task, refusal, .. } = *self;
        let name = TaskName(*self);
        write!(f, "task {task} {name}: certify: {refusal}")
    }
}

/// For how many of so many jobs a certificate holds: for all where there are no more than it counts.
fn fewer(certificate: Certificate, jobs: u64) -> u64
    ensures { result ≡ fewer certificate jobs }
{
    match certificate.next {
        Some(_) => jobs.min(certificate.jobs),
        None => jobs,
    }
}

/// How many jobs are promised with one task more.
fn promised_by(jobs: Option<u64>, outcome: Outcome) -> Option<u64>
    ensures { result ≡ promised_by jobs outcome }
{
    match (outcome, jobs) {
        (Outcome::Excepted, _) => jobs,
        (Outcome::Certified(certificate), Some(jobs)) => Some(fewer(certificate, jobs)),
        (Outcome::Certified(_), None) | (Outcome::Refused(_), _) => None,
    }
}

/// How many first jobs are promised of all tasks that aren't excepted, of so many that are asked for; none where one of them is refused.
pub(crate) fn promised(outcomes: &[Outcome], jobs: u64) -> Option<u64>
    ensures { result ≡ promised jobs outcomes.now }
{
    let mut most = Some(jobs);
    for outcome in outcomes {
        most = promised_by(most, *outcome);
    }
    most
}
