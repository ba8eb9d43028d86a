//! What a system file holds.

ghost use Rattle.std.specs.Prelude.{◌≡◌, ◌≤◌, length, codes, false, All};
ghost use Rattle.rt_image.specs.ObjectFile.{IsObject, object_value};
ghost use Rattle.rt_image.specs.SystemFile.{IsSystem, task_limit, set_tasks, task_set};
ghost use Rattle.rt_sink.specs.Sink.{Counts};
ghost use Rattle.rt_show.specs.SetShown.{version_line, tasks_shown, set_shown};

use crate::task_lines::TaskLines;
use rt_image::{System, Version};
use rt_sink::{DeviceFault, Sink};
use rt_text_out::{Decimal, Each, plain, write};

/// The line that says a version.
fn version_line(version: Version) -> &'static [u8]
    ensures text { result.now ≡ version_line version }
    ensures size { length result.now ≤ 13 }
{
    match version {
        Version::One => b"# version One",
        Version::Two => b"# version Two",
    }
}

/// Writes what a system file holds, as the set file that would give it: its version in a comment, its hyperperiod, and for each task
/// its line, with the path `task<i>.rti`, and a comment about its image. The answer is the text's length in bytes. Takes no memory.
///
/// # Errors
///
/// The sink failed. `written` is how many of the first bytes of the text it took.
pub fn write_set<S: Sink>(system: &System<'_>, out: &mut S) -> Result<u64, DeviceFault>
    requires is_open { (S.seen out.old).failed ≡ false }
    requires spelled { IsSystem (task_set system.now) }
    ensures { Counts S.seen out.old (set_shown (task_set system.now)) result out.new }
{
    let hyper = (plain(b"hyper "), Decimal(u64::from(system.hyper)));
    let tasks = Each {
        items: &system.tasks,
        by: TaskLines(system.hyper),
    };
    let text = (
        plain(version_line(system.version)),
        plain(b"\n"),
        hyper,
        plain(b"\n"),
        tasks,
    );
    write(&text, out)
}
