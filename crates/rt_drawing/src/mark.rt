//! What is marked in a picture.

ghost use Rattle.std.specs.Prelude.{◌≡◌, ◌+◌, ◌<◌, ◌≤◌, ◌++◌, ◌∷◌, [], length, vec_len, vec_capacity};
ghost use Rattle.arrayvec.specs.ArrayVec.{array_vec_len};
ghost use Rattle.rt_drawing.specs.Drawing.{in_window};
ghost use Rattle.rt_drawing.specs.Marks as marks;
ghost use Rattle.rt_drawing.specs.Marks.{mark, wake_in, new_deadline, woken_marks, charge_marks, outcome_marks};
ghost use Rattle.rt_history.specs.declared.record.AttemptOutcome.TheVariants.{Next};
ghost use Rattle.rt_history.specs.Serving.{due, after};
ghost use Rattle.rt_history.specs.Working.Bounded.{IsBounded, taken};
ghost use Rattle.rt_words.specs.Limits.{tick_limit};
ghost use Rattle.rt_drawing.specs.Drawn.{marks_as};

use crate::window::Window;
use arrayvec::ArrayVec;
use rt_exec::Fault;
use rt_history::{AttemptOutcome, Mode, TaskServer, taken_by};
use rt_server::Server;

/// What happened to a task or its server.
#[derive(Clone, Copy, PartialEq, Eq)]
pub enum Event {
    /// It woke with a full budget, and a deadline one period on. It holds the budget, in ticks, where that is another than before.
    FreshWake(Option<u32>),
    /// It woke with the budget and the deadline that it had.
    KeptWake,
    /// Its deadline is at this tick, once it has moved there.
    Deadline,
    /// The record of this tick used its budget up, and moved its deadline from the first of these ticks to the second.
    Postponed(u64, u64),
    /// The yield of this tick gave the rest of its budget up, and moved its deadline from the first of these ticks to the second.
    GivenUp(u64, u64),
    /// It ended.
    End,
    /// It gave up the rest of its budget.
    Yield,
    /// It went to sleep until this tick.
    Sleep(u64),
    /// It was granted this budget, in ticks, for its next fresh wake on.
    Granted(u32),
    /// A reserve of it was refused.
    Refused,
    /// It faulted.
    Fault(Fault),
}

/// An event, and where it is drawn.
#[derive(Clone, Copy, PartialEq, Eq)]
pub struct Mark {
    pub tick: u64,
    pub event: Event,
}

impl Default for Mark {
    /// What lies in room for marks that has none yet.
    fn default() -> Mark {
        Mark {
            tick: 0,
            event: Event::Deadline,
        }
    }
}

/// The marks of one record: at most five.
pub type RecordMarks = ArrayVec<Mark, 5>;

/// Adds a mark where a window shows it.
fn push_mark(out: &mut RecordMarks, window: &Window, tick: u64, event: Event)
    requires { array_vec_len out.old < 5 }
    ensures marks { out.new.items ≡ out.old.items ++ in_window window.now (mark tick event ∷ []) }
    ensures room { array_vec_len out.new ≤ array_vec_len out.old + 1 }
{
    if window.contains(tick) {
        out.push(Mark { tick, event });
    }
}

/// The budget that a fresh wake takes, where it is another than before.
fn new_budget(server: &Server) -> Option<u32>
    ensures { result ≡ marks.new_budget server.now }
{
    let coming = server.pending().unwrap_or(server.q());
    if coming == server.q() {
        None
    } else {
        Some(coming)
    }
}

/// Adds the wake of a task so standing, where it has come by tick `t`.
fn push_wake(out: &mut RecordMarks, window: &Window, t: u64, serving: &TaskServer)
    requires { array_vec_len out.old < 5 }
    ensures marks { out.new.items ≡ out.old.items ++ in_window window.now (wake_in t serving.now.mode serving.now.account) }
    ensures room { array_vec_len out.new ≤ array_vec_len out.old + 1 }
{
    match serving.mode() {
        Mode::Asleep(w) if w <= t => {
            if serving.server().is_fresh_at(w) {
                push_mark(
                    out,
                    window,
                    w,
                    Event::FreshWake(new_budget(serving.server())),
                );
            } else {
                push_mark(out, window, w, Event::KeptWake);
            }
        }
        _ => {}
    }
}

/// Adds the deadline that is new, if it has moved.
fn push_deadline(out: &mut RecordMarks, window: &Window, old: &Server, new: &Server)
    requires { array_vec_len out.old < 5 }
    ensures marks { out.new.items ≡ out.old.items ++ in_window window.now (new_deadline old.now new.now) }
    ensures room { array_vec_len out.new ≤ array_vec_len out.old + 1 }
{
    if old.d() < new.d() {
        push_mark(out, window, new.d(), Event::Deadline);
    }
}

/// Adds the wake by tick `t` of a task that stood so and now stands otherwise, and the deadline that it set.
#[inline(always)]
fn push_woken(out: &mut RecordMarks, window: &Window, t: u64, old: &TaskServer, new: &TaskServer)
    requires room { array_vec_len out.old ≡ 0 }
    requires woken { new.now ≡ due t old.now }
    ensures marks { out.new.items ≡ out.old.items ++ in_window window.now (woken_marks t old.now) }
    ensures room { array_vec_len out.new ≤ 2 }
{
    push_wake(out, window, t, old);
    push_deadline(out, window, old.server(), new.server());
}

/// What a record is that moved the deadline on.
fn moved_by(outcome: AttemptOutcome, old: u64, new: u64) -> Event
    ensures { result ≡ marks.moved_by outcome old new }
{
    match outcome {
        AttemptOutcome::Yield => Event::GivenUp(old, new),
        _ => Event::Postponed(old, new),
    }
}

/// Adds that a record of tick `u` has used the budget up or given it up, and the deadline that came of it.
fn push_charge(
    out: &mut RecordMarks,
    window: &Window,
    u: u64,
    outcome: AttemptOutcome,
    old: &Server,
    new: &Server,
)
    requires { array_vec_len out.old ≤ 2 }
    ensures marks { out.new.items ≡ out.old.items ++ in_window window.now (charge_marks u outcome old.now new.now) }
    ensures room { array_vec_len out.new ≤ array_vec_len out.old + 2 }
{
    if old.d() < new.d() {
        push_mark(out, window, u, moved_by(outcome, old.d(), new.d()));
    }
    push_deadline(out, window, old, new);
}

/// Adds a mark where a window shows it, to marks that have room for one more.
#[inline(always)]
fn keep_mark(marks: &mut Vec<Mark>, window: &Window, tick: u64, event: Event)
    requires { vec_len marks.old < vec_capacity marks.old }
    ensures marks { marks.new.items ≡ marks.old.items ++ in_window window.now (mark tick event ∷ []) }
    ensures len { vec_len marks.new ≤ vec_len marks.old + 1 }
    ensures capacity { vec_capacity marks.new ≡ vec_capacity marks.old }
{
    if window.contains(tick) {
        marks.push_reserved(Mark { tick, event });
    }
}

/// Adds that a plain record of tick `u` has used the budget up, and the deadline that came of it, to marks that have room for two
/// more.
#[inline(always)]
pub(crate) fn keep_charge(
    marks: &mut Vec<Mark>,
    window: &Window,
    u: u64,
    old: &Server,
    new: &Server,
)
    requires { vec_len marks.old + 2 ≤ vec_capacity marks.old }
    ensures marks { marks.new.items ≡ marks.old.items ++ in_window window.now (charge_marks u Next old.now new.now) }
    ensures len { length marks.new.items ≤ length marks.old.items + 2 }
{
    if old.d() < new.d() {
        keep_mark(marks, window, u, Event::Postponed(old.d(), new.d()));
        keep_mark(marks, window, new.d(), Event::Deadline);
    }
}

/// Adds what a record of tick `u` tells by itself.
fn push_outcome(out: &mut RecordMarks, window: &Window, u: u64, outcome: AttemptOutcome)
    requires { array_vec_len out.old < 5 }
    ensures marks { out.new.items ≡ out.old.items ++ in_window window.now (outcome_marks u outcome) }
    ensures room { array_vec_len out.new ≤ array_vec_len out.old + 1 }
{
    match outcome {
        AttemptOutcome::End => push_mark(out, window, u, Event::End),
        AttemptOutcome::Yield => push_mark(out, window, u, Event::Yield),
        AttemptOutcome::Sleep(w) => push_mark(out, window, u, Event::Sleep(w)),
        AttemptOutcome::Reserve(q) => push_mark(out, window, u, Event::Granted(q)),
        AttemptOutcome::ReserveRefused => push_mark(out, window, u, Event::Refused),
        AttemptOutcome::Fault(fault) => push_mark(out, window, u, Event::Fault(fault)),
        _ => {}
    }
}

/// Adds the marks of a record of tick `u`, the task standing so before it, and answers how it stands then.
pub(crate) fn push_record(
    out: &mut RecordMarks,
    window: &Window,
    u: u64,
    outcome: AttemptOutcome,
    before: &TaskServer,
) -> TaskServer
    requires limit { u < tick_limit }
    requires sound { IsBounded u before.now.account }
    requires empty { array_vec_len out.old ≡ 0 }
    ensures stands { let woken = (due u before.now).account in result ≡ after u (taken outcome woken) woken }
    ensures room { array_vec_len out.new ≤ 5 }
    ensures marks { out.new.items ≡ in_window window.now (marks_as u outcome (taken outcome (due u before.now).account) before.now) }
{
    let mut serving = *before;
    serving.wake_due(u);
    push_woken(out, window, u, before, &serving);
    let woken = serving;
    serving.take(u, taken_by(woken.server(), outcome));
    push_charge(out, window, u, outcome, woken.server(), serving.server());
    push_outcome(out, window, u, outcome);
    serving
}

/// The marks of the wake by tick `t` of a task that stands so.
pub(crate) fn last_marks(window: &Window, t: u64, before: &TaskServer) -> RecordMarks
    requires { t ≤ tick_limit }
    ensures { result.items ≡ in_window window.now (woken_marks t before.now) }
{
    let mut serving = *before;
    serving.wake_due(t);
    let mut out = RecordMarks::new();
    push_woken(&mut out, window, t, before, &serving);
    out
}
