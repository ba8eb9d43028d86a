//! Which ticks an open job has had, and the deadline that its release set.

ghost use Rattle.std.specs.Prelude.{◌≡◌, ◌+◌, ◌^◌, ◌<◌};
ghost use Rattle.rt_laws.specs.Work.{begun_at};
ghost use Rattle.rt_report.specs.Working.Tallied.{span_at, spanned};
ghost use Rattle.rt_report.specs.Working.Plainly.{spanned_for};

use crate::job::CurrentJob;
use rt_server::Server;
use std::marker::Model;

/// From the first record of an open job to the end of its last, both 0 where it has none, and the server's deadline from its release
/// on: until then nothing changes the server.
#[derive(Clone, Copy)]
pub(crate) struct Span {
    first: u64,
    end: u64,
    deadline: u128,
}

impl Model for Span {
    ghost use Rattle.rt_report.specs.Standing.{OpenSpan};

    ghost Value = { OpenSpan };

    ghost view = { λ s. record { first = s.first; end = s.end; deadline = s.deadline } };

    ghost inverse = { λ s. record { first = s.first; end = s.end; deadline = s.deadline } };
}

impl Span {
    /// Of a job that begins behind a server that stands so until its release.
    pub(crate) fn new(server: &Server, job: &CurrentJob) -> Span
        requires begun { job.now ≡ begun_at server.now job.now.release }
        ensures { result ≡ span_at server.now job.now.release }
    {
        let deadline = if job.is_fresh() {
            u128::from(job.release()) + u128::from(server.p())
        } else {
            u128::from(server.d())
        };
        Span {
            first: 0,
            end: 0,
            deadline,
        }
    }

    /// The tick of its first record, or 0 where it has none.
    pub(crate) fn first(&self) -> u64
        ensures { result ≡ self.now.first }
    {
        self.first
    }

    /// The end of its last record, or 0 where it has none.
    pub(crate) fn end(&self) -> u64
        ensures { result ≡ self.now.end }
    {
        self.end
    }

    /// The server's deadline from its release on.
    pub(crate) fn deadline(&self) -> u128
        ensures { result ≡ self.now.deadline }
    {
        self.deadline
    }

    /// The last record of its job ends at this tick.
    #[inline(always)]
    pub(crate) fn end_at(&mut self, end: u64)
        ensures { self.new ≡ record self.old { end = end } }
    {
        self.end = end;
    }

    /// Takes the record of tick `u` of a job that has so many.
    #[inline(always)]
    pub(crate) fn add_tick(&mut self, u: u64, ticks: u64)
        requires { u + 1 < 2 ^ 64 }
        ensures { self.new ≡ spanned u ticks self.old }
    {
        if ticks == 0 {
            self.first = u;
        }
        self.end = u + 1;
    }

    /// Takes the `n` records from tick `u` on of a job that has so many.
    #[inline(always)]
    pub(crate) fn add_ticks(&mut self, u: u64, n: u64, ticks: u64)
        requires { u + n < 2 ^ 64 }
        ensures { self.new ≡ spanned_for u n ticks self.old }
    {
        if n > 0 {
            if ticks == 0 {
                self.first = u;
            }
            self.end = u + n;
        }
    }
}
