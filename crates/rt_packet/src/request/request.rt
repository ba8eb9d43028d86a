//! What a payload asks for.

use crate::request::actions::Resumed;
use crate::request::hex_line::HexLine;
use crate::request::ids::Tasks;
use crate::request::points::Spot;

/// For which later requests tasks are selected.
#[derive(Clone, Copy, Debug, PartialEq, Eq)]
pub enum Selected {
    /// `Hg`: those that show.
    Shown,
    /// `Hc`: those that resume.
    Resumed,
}

/// What a payload asks for. Numbers are any below 2^64, and those of tasks any below 2^32.
#[derive(Debug, Drop)]
pub enum Request<'a> {
    /// `qSupported`: what both sides support, and whether gdb knows processes.
    Supported { has_processes: bool },
    /// `?`: why the tasks stopped.
    LastStop,
    /// `vCont?`: which actions there are.
    Actions,
    /// `vCont;..`: the tasks go on, each by its action.
    Resume(Resumed<'a>),
    /// `c`: on to the next stop.
    Continue,
    /// `s`: one tick on.
    Step,
    /// `bs`: one tick back.
    BackStep,
    /// `bc`: back to the stop before.
    BackContinue,
    /// `Hg`, `Hc`: the tasks of later requests.
    Select { of: Selected, tasks: Tasks },
    /// `T`: whether a task is there.
    IsThere(Tasks),
    /// `qC`: the task that is shown.
    Current,
    /// `qfThreadInfo`: the first tasks.
    FirstTasks,
    /// `qsThreadInfo`: the tasks after those.
    MoreTasks,
    /// `qThreadExtraInfo,`: a line about a task.
    TaskLine(Tasks),
    /// `qAttached`: whether the tasks ran before gdb came.
    Attached,
    /// `qXfer:features:read:target.xml:`: a part of the description of the target.
    Description { offset: u64, count: u64 },
    /// `qXfer:features:read:` of another annex.
    OtherAnnex,
    /// `qRcmd,`: a line of `monitor`.
    Monitor(HexLine<'a>),
    /// `g`: all registers.
    Registers,
    /// `p`: a register, by its number.
    Register(u64),
    /// `m`: at least one byte of memory.
    Memory { address: u64, count: u64 },
    /// `G`, `P`, `M`, `X`: a write to registers or memory.
    Write,
    /// `Z0` to `Z4`: a point comes.
    Insert(Spot),
    /// `z0` to `z4`: a point goes.
    Remove(Spot),
    /// `D`: gdb leaves every process.
    DetachAll,
    /// `D;`, `vKill;`: gdb leaves the process of this number.
    Detach(u64),
    /// `k`: the end.
    Kill,
    /// A request of these with something else behind its beginning.
    Malformed,
    /// Every other payload.
    Unknown,
}
