//! What a point is: a place to break at, or bytes to watch.

ghost use Rattle.std.specs.Prelude.{◌≡◌};
ghost use Rattle.rt_points.specs.Points.{kind_number, is_same, is_own};
ghost use Rattle.rt_points.specs.Met.{is_of, breaks, covers, watches, is_watch};
ghost use Rattle.rt_points.specs.Working.Marked.{is_general, place_of};

use crate::marks::Place;

/// How a breakpoint is asked for. Both kinds break alike.
#[derive(Clone, Copy, Debug, PartialEq, Eq)]
pub enum BreakKind {
    Software,
    Hardware,
}

/// Which accesses a watchpoint is met by.
#[derive(Clone, Copy, Debug, PartialEq, Eq)]
pub enum WatchKind {
    /// By stores.
    Write,
    /// By loads.
    Read,
    /// By both.
    Access,
}

/// The kind of a point. Kinds are numbered 0 to 4, in the order in which they stand here.
#[derive(Clone, Copy, Debug, PartialEq, Eq)]
pub enum PointKind {
    Break(BreakKind),
    Watch(WatchKind),
}

impl PointKind {
    /// The kind's number, 0 to 4.
    #[inline]
    pub fn number(self) -> u8
        ensures { result ≡ kind_number self }
    {
        match self {
            PointKind::Break(BreakKind::Software) => 0,
            PointKind::Break(BreakKind::Hardware) => 1,
            PointKind::Watch(WatchKind::Write) => 2,
            PointKind::Watch(WatchKind::Read) => 3,
            PointKind::Watch(WatchKind::Access) => 4,
        }
    }
}

/// A point of one task, or of every task where none is named.
#[derive(Clone, Copy, PartialEq, Eq)]
pub struct Point {
    pub kind: PointKind,
    pub task: Option<u32>,
    /// The pc of a breakpoint; the first byte of a watchpoint.
    pub address: u32,
    /// How many bytes a watchpoint has. A breakpoint's plays no part in what is met.
    pub length: u64,
}

impl Point {
    /// Whether both are one point.
    pub(crate) fn is_same(&self, other: &Point) -> bool
        ensures { result ≡ is_same self.now other.now }
    {
        self.kind.number() == other.kind.number()
            && self.task == other.task
            && self.address == other.address
            && self.length == other.length
    }

    /// Whether it is a point of this one task alone.
    pub(crate) fn is_own(&self, task: u32) -> bool
        ensures { result ≡ is_own task self.now }
    {
        self.task == Some(task)
    }

    /// Whether it is a point of this task or of every task.
    fn is_of(&self, task: u32) -> bool
        ensures { result ≡ is_of task self.now.task }
    {
        match self.task {
            Some(owner) => owner == task,
            None => true,
        }
    }

    /// Whether it is of this kind and breaks this task at pc.
    pub(crate) fn breaks(&self, kind: BreakKind, task: u32, pc: u32) -> bool
        ensures { result ≡ breaks kind task pc self.now }
    {
        self.kind.number() == PointKind::Break(kind).number()
            && self.is_of(task)
            && self.address == pc
    }

    /// Whether it is of this kind and watches this task.
    pub(crate) fn watches(&self, kind: WatchKind, task: u32) -> bool
        ensures { result ≡ watches kind task self.now }
    {
        self.kind.number() == PointKind::Watch(kind).number() && self.is_of(task)
    }

    /// Whether it is a watchpoint.
    pub(crate) fn is_watch(&self) -> bool
        ensures { result ≡ is_watch self.now }
    {
        match self.kind {
            PointKind::Watch(_) => true,
            PointKind::Break(_) => false,
        }
    }

    /// Whether this byte is one of its bytes.
    pub(crate) fn covers(&self, address: u32) -> bool
        ensures { result ≡ covers self.now address }
    {
        self.address <= address && u64::from(address - self.address) < self.length
    }

    /// Whether it is a breakpoint of every task.
    pub(crate) fn is_general(&self) -> bool
        ensures { result ≡ is_general self.now }
    {
        match (self.kind, self.task) {
            (PointKind::Break(_), None) => true,
            _ => false,
        }
    }

    /// The place of a breakpoint of one task.
    pub(crate) fn place(&self) -> Option<Place>
        ensures { result ≡ place_of self.now }
    {
        match (self.kind, self.task) {
            (PointKind::Break(_), Some(task)) => Some(Place {
                task,
                pc: self.address,
            }),
            _ => None,
        }
    }
}
