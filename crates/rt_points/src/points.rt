//! A set of points.

ghost use Rattle.std.specs.Prelude.{◌≡◌, ℕ, ◌<◌, [], length, true, false, None, OnOk, IfSome};
ghost use Rattle.std.specs.List.{list_any, remove};
ghost use Rattle.rt_points.specs.Marks.{is_marked};
ghost use Rattle.rt_points.specs.Points.{Inserts, without, is_same, is_own};
ghost use Rattle.rt_points.specs.Met.{break_at, watch_at, is_watch, BreaksAt};
ghost use Rattle.rt_points.specs.Working.Marked.{has_mark, HaveMarks};
ghost use Rattle.rt_points.specs.Working.Going.{goes};

use crate::access::Access;
use crate::fault::PointFault;
use crate::marks::{Marks, Place};
use crate::met::{
    Watched, any_general, any_shares, any_touched, any_watch, contains, is_broken, watch_of,
};
use crate::point::{BreakKind, Point, WatchKind};
use std::alloc::{AllocError, Global};
use std::marker::Model;

/// The most points of a set.
const MAX_POINTS: usize = 1024;

/// The points that are taken out.
#[derive(Clone, Copy)]
enum Going {
    /// This point.
    One(Point),
    /// All points of this one task.
    OfTask(u32),
}

impl Going {
    /// Whether this point is one of them.
    fn takes(&self, point: &Point) -> bool
        ensures { result ≡ goes self.now point.now }
    {
        match self {
            Going::One(gone) => gone.is_same(point),
            Going::OfTask(task) => point.is_own(*task),
        }
    }
}

/// Where a set of points has breakpoints, as far as one look at a tick may use it.
#[derive(Clone, Copy, PartialEq, Eq)]
pub enum Breaking {
    /// Nowhere.
    Nowhere,
    /// At this place alone.
    At(Place),
    /// At any place.
    Anywhere,
}

/// A set of at most 1024 points, in the order in which they were inserted.
///
/// The places of breakpoints of one task are marked, so that one look tells a place without a mark from them, however many
/// there are.
#[derive(Drop)]
pub struct Points {
    points: Vec<Point>,
    marks: Marks,
    /// Whether there is a breakpoint of every task.
    every: bool,
}

impl Model for Points {
    ghost use Rattle.std.specs.Prelude.{◌≡◌, ◌≤◌, List, length};
    ghost use Rattle.std.specs.List.{list_any};
    ghost use Rattle.rt_points.specs.declared.point.Point.{Point};
    ghost use Rattle.rt_points.specs.Points.{point_limit};
    ghost use Rattle.rt_points.specs.Working.Marked.{HaveMarks, is_general};

    ghost Value = { List Point };

    ghost view = { λ p. p.points.items };

    ghost invariant = { λ p. (length p.points.items ≤ point_limit) × HaveMarks p.marks.words.items p.points.items × (p.every ≡ list_any is_general p.points.items) };
}

/// Marks the place of a breakpoint of one task.
fn mark(marks: &mut Marks, point: &Point) -> Result<(), AllocError>
    ensures kept { (task pc : ℕ) → is_marked marks.old.words.items task pc ≡ true → is_marked marks.new.words.items task pc ≡ true }
    ensures marked { OnOk result (has_mark marks.new.words.items point.now ≡ true) }
{
    match point.place() {
        Some(place) => marks.add(place),
        None => Ok(()),
    }
}

/// Takes away the mark of a point that is gone, unless it is also that of another.
fn unmark(marks: &mut Marks, points: &[Point], gone: &Point)
    ensures { HaveMarks marks.old.words.items points.now → HaveMarks marks.new.words.items points.now }
{
    if let Some(place) = gone.place() {
        if !any_shares(points, place) {
            marks.remove(place);
        }
    }
}

/// Where the first point that goes stands.
fn first_going(points: &[Point], going: Going) -> Option<usize>
    ensures none { result ≡ None → without (goes going) points.now ≡ points.now }
    ensures within { IfSome result (λ place. place < length points.now) }
    ensures same { IfSome result (λ place. without (goes going) (remove points.now place) ≡ without (goes going) points.now) }
{
    for (place, point) in points.iter().enumerate() {
        if going.takes(point) {
            return Some(place);
        }
    }
    None
}

impl Points {
    /// No points. Allocates nothing.
    pub fn new(alloc: Global) -> Points
        ensures { result ≡ [] }
    {
        Points {
            points: Vec::new(alloc),
            marks: Marks::new(alloc),
            every: false,
        }
    }

    /// Inserts a point behind the others. One that is there already changes nothing.
    ///
    /// # Errors
    ///
    /// `TooMany` exactly where 1024 others are there, else want of memory; the points are then as they were.
    pub fn insert(&mut self, point: Point) -> Result<(), PointFault>
        ensures { Inserts point self.old result self.new }
    {
        if contains(&self.points, &point) {
            return Ok(());
        }
        if self.points.len() >= MAX_POINTS {
            return Err(PointFault::TooMany);
        }
        self.points.reserve(1)?;
        mark(&mut self.marks, &point)?;
        let is_general = point.is_general();
        if self.points.push(point).is_err() {
            return Err(PointFault::NoMemory);
        }
        self.every |= is_general;
        Ok(())
    }

    /// Takes out the point at this place, and its mark, unless another has it.
    fn remove_at(&mut self, place: usize)
        requires { place < length self.old }
        ensures { self.new ≡ remove self.old place }
    {
        let gone = self.points.remove(place);
        self.every = any_general(&self.points);
        unmark(&mut self.marks, &self.points, &gone);
    }

    /// Takes out all points that go.
    fn take_out(&mut self, going: Going)
        ensures { self.new ≡ without (goes going) self.old }
    {
        while let Some(place) = first_going(&self.points, going) {
            self.remove_at(place);
        }
    }

    /// Takes out a point, if it is there. The others stay in their order. Allocates nothing.
    pub fn remove(&mut self, point: Point)
        ensures { self.new ≡ without (is_same point) self.old }
    {
        self.take_out(Going::One(point));
    }

    /// Takes out all points of this one task; those of every task stay. Allocates nothing.
    pub fn remove_task(&mut self, task: u32)
        ensures { self.new ≡ without (is_own task) self.old }
    {
        self.take_out(Going::OfTask(task));
    }

    /// The least kind of a breakpoint that this task meets at pc. Allocates nothing.
    pub fn break_at(&self, task: u32, pc: u32) -> Option<BreakKind>
        ensures { result ≡ break_at self.now task pc }
    {
        if is_broken(&self.points, BreakKind::Software, task, pc) {
            return Some(BreakKind::Software);
        }
        if is_broken(&self.points, BreakKind::Hardware, task, pc) {
            return Some(BreakKind::Hardware);
        }
        None
    }

    /// The watchpoint that an access of this task meets: the least kind, and of its points the least address. For one point that
    /// is the first byte of the access that is one of the point's. Allocates nothing.
    pub fn watch_at(&self, task: u32, access: Access) -> Option<Watched>
        ensures { result ≡ watch_at self.now task access }
    {
        if let Some(met) = watch_of(&self.points, WatchKind::Write, task, access) {
            return Some(met);
        }
        if let Some(met) = watch_of(&self.points, WatchKind::Read, task, access) {
            return Some(met);
        }
        watch_of(&self.points, WatchKind::Access, task, access)
    }

    /// Where breakpoints may be met. Allocates nothing.
    pub fn breaking(&self) -> Breaking
        ensures { BreaksAt self.now result }
    {
        if self.points.is_empty() {
            return Breaking::Nowhere;
        }
        if self.points.len() > 1 {
            return Breaking::Anywhere;
        }
        match self.points[0].place() {
            Some(place) => Breaking::At(place),
            None => Breaking::Anywhere,
        }
    }

    /// Whether an access of any task may meet a watchpoint: where it may not, `watch_at` finds none. Allocates nothing.
    pub fn may_watch(&self, access: Access) -> bool
        ensures { result ≡ false → (task : ℕ) → watch_at self.now task access ≡ None }
    {
        any_touched(&self.points, access)
    }

    /// Whether there is a watchpoint. Allocates nothing.
    pub fn has_watches(&self) -> bool
        ensures { result ≡ list_any is_watch self.now }
    {
        any_watch(&self.points)
    }

    /// Whether this task may meet a breakpoint at pc, by one look, however many points there are: where it may not, `break_at`
    /// finds none. Allocates nothing.
    #[inline(always)]
    pub fn may_break(&self, task: u32, pc: u32) -> bool
        ensures { result ≡ false → break_at self.now task pc ≡ None }
    {
        self.every || self.marks.has(task, pc)
    }
}
