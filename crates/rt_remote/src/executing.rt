//! The requests, one by one.

ghost use Rattle.std.specs.Prelude.{◌≡◌, ◌-◌, ◌<◌, if◌then◌else◌, Bool, true, false, IfSome};
ghost use Rattle.rt_packet.specs.declared.request.request.Request.TheVariants.{Supported, Kill};
ghost use Rattle.rt_packet.specs.declared.answer.replies.Refused.TheVariants.{Malformed};
ghost use Rattle.rt_packet.specs.declared.answer.replies.Reply.TheVariants.{Done};
ghost use Rattle.rt_remote.specs.Remote.{without_interrupt};
ghost use Rattle.rt_remote.specs.Chosen.{is_id};
ghost use Rattle.rt_remote.specs.Said.{says_reply, refuses};
ghost use Rattle.rt_remote.specs.Executes.{Executes};
ghost use Rattle.rt_remote.specs.Selects.{ids_of, Does, selected};
ghost use Rattle.rt_remote.specs.Paced.{is_paced};
ghost use Rattle.rt_remote.specs.LetsGo.{task_of, may_go, without_task, without_tasks};
ghost use Rattle.rt_remote.specs.Working.Kinds.{moves, changes};

use crate::said::Answered;
use crate::session::Session;
use crate::showing::say_description;
use crate::stops::MAX_TASKS;
use rt_exec::Fetcher;
use rt_packet::answer::{Ids, Refused, Reply, supported_answer};
use rt_packet::request::{Request, Selected, Tasks};
use rt_points::Points;
use rt_queue::MinQueue;
use rt_walk::Pace;

/// The ids that are agreed on.
fn ids_of(has_processes: bool) -> Ids
    ensures { result ≡ ids_of has_processes }
{
    if has_processes {
        Ids::Processes
    } else {
        Ids::Threads
    }
}

/// The task of a process, which has the task's number plus 1.
fn task_of(process: u64) -> Option<u32>
    ensures value { result ≡ task_of process }
    ensures few { IfSome result (λ task. task < 64) }
{
    match process {
        1..=64 => Some((process - 1) as u32),
        _ => None,
    }
}

/// Whether a request leads on or back.
fn moves(request: &Request) -> bool
    ensures { result ≡ moves request.now }
{
    matches!(
        request,
        Request::Resume(_)
            | Request::Continue
            | Request::Step
            | Request::BackStep
            | Request::BackContinue
    )
}

/// Whether a request changes what is agreed on, selected or watched, or ends the session. Each that neither moves nor changes only looks.
fn changes(request: &Request) -> bool
    ensures { result ≡ changes request.now }
{
    matches!(
        request,
        Request::Supported { .. }
            | Request::Select { .. }
            | Request::Monitor(_)
            | Request::Insert(_)
            | Request::Remove(_)
            | Request::DetachAll
            | Request::Detach(_)
            | Request::Kill
    )
}

/// `OK`, or the refusal of a malformed request.
#[inline(never)]
fn done(is_done: bool) -> Answered
    ensures { result ≡ (if is_done then says_reply Done else refuses Malformed) }
{
    if is_done {
        Answered::reply(Reply::Done)
    } else {
        Answered::refusal(Refused::Malformed)
    }
}

impl<'s, 'd, Q: MinQueue, F: Fetcher> Session<'s, 'd, Q, F> {
    /// Agrees on ids.
    #[inline(never)]
    fn agree(&mut self, has_processes: bool) -> Answered
        ensures { Executes self.old (Supported has_processes) false result self.new }
    {
        let ids = ids_of(has_processes);
        self.selection.ids = ids;
        self.forget_interrupt();
        Answered::payload(supported_answer(ids))
    }

    /// Selects tasks for later requests, where an id means them.
    #[inline(never)]
    fn select(&mut self, of: Selected, tasks: Tasks) -> Answered
        ensures { Does self.old (is_id self.old tasks) (selected of tasks self.old) result self.new }
    {
        let is_id = tasks.is_among(&self.listing());
        if is_id {
            match (of, tasks) {
                (Selected::Shown, Tasks::All) => {}
                (Selected::Shown, Tasks::One(task)) => self.selection.shown = task,
                (Selected::Resumed, tasks) => self.selection.resumed = tasks,
            }
        }
        done(is_id)
    }

    /// Lets the task of this process go, with its points, where it is listed.
    #[inline(never)]
    fn let_go(&mut self, process: u64) -> Answered
        ensures { Does self.old (may_go self.old process) (without_interrupt (without_task (process - 1) self.old)) result self.new }
    {
        match task_of(process) {
            Some(task) if self.is_listed(task) => {
                self.selection.gone[task as usize] = true;
                self.points.remove_task(task);
                self.forget_interrupt();
                done(true)
            }
            _ => done(false),
        }
    }

    /// Lets all tasks go, with all points.
    #[inline(never)]
    fn let_all_go(&mut self) -> Answered
        ensures { Does self.old true (without_interrupt (without_tasks self.old)) result self.new }
    {
        self.selection.gone = [true; MAX_TASKS];
        self.points = Points::new(self.alloc);
        self.forget_interrupt();
        done(true)
    }

    /// Ends the session.
    fn end(&mut self) -> Answered
        ensures { (paused : Bool) → Executes self.old Kill paused result self.new }
    {
        self.forget_interrupt();
        Answered::none()
    }

    /// Executes a request that only looks.
    #[inline(never)]
    fn say(&self, request: &Request) -> Answered
        requires stays { moves request.now ≡ false }
        requires same { changes request.now ≡ false }
        ensures { (paused : Bool) → Executes self.now request.now paused result self.now }
    {
        match *request {
            Request::LastStop => self.say_stop(),
            Request::Actions => Answered::reply(Reply::Actions),
            Request::IsThere(tasks) => done(self.one_task(tasks).is_some()),
            Request::Current => self.say_current(),
            Request::FirstTasks => self.say_tasks(),
            Request::MoreTasks => Answered::reply(Reply::NoMoreTasks),
            Request::TaskLine(tasks) => self.say_task(tasks),
            Request::Attached => Answered::reply(Reply::Attached),
            Request::Description { offset, count } => say_description(offset, count),
            Request::OtherAnnex => Answered::refusal(Refused::NoAnnex),
            Request::Registers => self.say_registers(),
            Request::Register(number) => self.say_register(number),
            Request::Memory { address, count } => self.say_memory(address, count),
            Request::Write => Answered::refusal(Refused::ReadOnly),
            Request::Malformed => Answered::refusal(Refused::Malformed),
            _ => Answered::reply(Reply::Unknown),
        }
    }

    /// Executes a request that leads on or back.
    #[inline(never)]
    fn go<P: Pace>(&mut self, request: &Request, pace: &mut P) -> Answered
        requires { moves request.now ≡ true }
        ensures executes { P.has_paused pace.old ≡ false → Executes self.old request.now (P.has_paused pace.new) result self.new }
        ensures goes { P.goes pace.old pace.new }
        ensures stays { is_paced request.now ≡ false → pace.new ≡ pace.old }
        ensures held { self.old.has_interrupt ≡ true → pace.new ≡ pace.old }
    {
        match *request {
            Request::Resume(ref resumed) => self.resume(resumed, pace),
            Request::Continue => self.run_on(&self.continued(), pace),
            Request::Step => self.run_on(&self.stepped_too(), pace),
            Request::BackStep => self.step_back(),
            Request::BackContinue => self.run_back(pace),
            _ => unreachable!(),
        }
    }

    /// Executes a request that changes what is agreed on, selected or watched, or ends the session.
    #[inline(never)]
    fn change(&mut self, request: &Request) -> Answered
        requires { changes request.now ≡ true }
        ensures { (paused : Bool) → Executes self.old request.now paused result self.new }
    {
        match *request {
            Request::Supported { has_processes } => self.agree(has_processes),
            Request::Select { of, tasks } => self.select(of, tasks),
            Request::Monitor(ref line) => self.monitor(line),
            Request::Insert(spot) => self.insert(spot),
            Request::Remove(spot) => self.remove(spot),
            Request::DetachAll => self.let_all_go(),
            Request::Detach(process) => self.let_go(process),
            Request::Kill => self.end(),
            _ => unreachable!(),
        }
    }

    /// Executes a request, and says what it is answered with. A run on or back to a stop asks its pace between any two entries, and is
    /// interrupted where that pauses; no other request asks it. Where an interrupt is kept, nothing runs, and the pace isn't asked. Where
    /// memory runs out, `E0c` is said and the session is as it was.
    pub fn exec<P: Pace>(&mut self, request: &Request, pace: &mut P) -> Answered
        ensures executes { P.has_paused pace.old ≡ false → Executes self.old request.now (P.has_paused pace.new) result self.new }
        ensures goes { P.goes pace.old pace.new }
        ensures stays { is_paced request.now ≡ false → pace.new ≡ pace.old }
        ensures held { self.old.has_interrupt ≡ true → pace.new ≡ pace.old }
    {
        if moves(request) {
            return self.go(request, pace);
        }
        if changes(request) {
            return self.change(request);
        }
        self.say(request)
    }
}
