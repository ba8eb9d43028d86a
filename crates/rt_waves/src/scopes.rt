//! The scopes of tasks: by their names where no two have one.

ghost use Rattle.std.specs.Prelude.{◌≡◌, bytes_eq};
ghost use Rattle.rt_names.specs.TaskNames.{name_at};
ghost use Rattle.rt_waves.specs.WavesText as text;

use arrayvec::ArrayVec;
use rt_names::{NameAt, TaskNames};
use rt_text_out::{Decimal, Out, Text, plain};

/// The most bytes of a name that is compared.
const NAME_LEN: usize = 532;

/// The name of a task.
fn name_of(names: &TaskNames<'_>, task: u32) -> ArrayVec<u8, NAME_LEN>
    ensures { result.items ≡ name_at names.now task }
{
    let mut name = ArrayVec::new();
    NameAt { names, task }.offer(&mut name);
    name
}

/// Whether a task has another name than each of the first `count`.
fn differs(names: &TaskNames<'_>, task: u32, count: u32) -> bool
    ensures { result ≡ text.differs names.now task count }
{
    let name = name_of(names, task);
    let mut differs = true;
    for other in 0..count {
        differs = differs && name_of(names, other).as_slice() != name.as_slice();
    }
    differs
}

/// Whether no two of the first `count` tasks have one name.
pub(crate) fn all_differ(names: &TaskNames<'_>, count: u32) -> bool
    ensures { result ≡ text.all_differ names.now count }
{
    let mut differ = true;
    for task in 0..count {
        differ = differ && differs(names, task, task);
    }
    differ
}

/// The scope of a task: its name, or where names aren't used `task` and its number.
#[derive(Clone, Copy)]
pub(crate) struct Scope<'n, 'a> {
    pub(crate) names: &'n TaskNames<'a>,
    pub(crate) are_used: bool,
    pub(crate) task: u32,
}

impl<'n, 'a> Text for Scope<'n, 'a> {
    ghost text = { λ x. text.scope_name x.are_used x.names.now x.task };

    ghost most = { 532 };

    fn offer<O: Out>(&self, out: &mut O) {
        let (names, task) = (self.names, self.task);
        if self.are_used {
            NameAt { names, task }.offer(out);
        } else {
            (plain(b"task"), Decimal(u64::from(task))).offer(out);
        }
    }
}
