//! What ends the line of a task: its name.

ghost use Rattle.std.specs.Prelude.{◌≡◌, ◌≤◌, length};
ghost use Rattle.rt_report.specs.NameText.{name_end};

use rt_names::{NameAt, TaskNames};
use rt_text_out::{Byte, Out, Text};

/// The name of the task of this number, and the end of the line.
#[derive(Clone, Copy)]
pub(crate) struct NameEnd<'n, 'a>(pub(crate) &'n TaskNames<'a>, pub(crate) u32);

impl<'n, 'a> Text for NameEnd<'n, 'a> {
    ghost text = { λ x. name_end x.0.now x.1 };

    ghost most = { 533 };

    fn offer<O: Out>(&self, out: &mut O) {
        let name = NameAt {
            names: self.0,
            task: self.1,
        };
        (name, Byte(b'\n')).offer(out);
    }
}
