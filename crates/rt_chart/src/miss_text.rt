//! The element of a missed deadline.

ghost use Rattle.std.specs.Prelude.{◌≡◌, ◌+◌, ◌^◌, ◌<◌, ◌≤◌, ◌++◌};
ghost use Rattle.rt_sink.specs.Offers.{Offers};
ghost use Rattle.rt_chart.specs.MissText as texts;

use crate::element::TEXT_LEN;
use crate::rows::row_height;
use crate::scale::Scale;
use rt_drawing::Miss;
use rt_sink::{Sink, Writer};
use rt_text_out::{Decimal, Out, Text, offer_to, plain};

/// The element of a missed deadline: its line.
#[derive(Clone, Copy)]
struct MissLine<'s> {
    scale: &'s Scale,
    task: u32,
    miss: Miss,
}

impl<'s> Text for MissLine<'s> {
    ghost text = { λ x. texts.miss_line x.scale.now.look x.task x.miss };

    ghost most = { 3172 };

    fn offer<O: Out>(&self, out: &mut O) {
        let scale = self.scale;
        let place = Decimal(scale.place(self.miss.tick));
        let height = Decimal(row_height(&scale.look.style));
        let task = Decimal(u64::from(self.task));
        let begin = (plain(b"<line class=\"breach\" data-task=\""), task);
        let tick = (begin, plain(b"\" data-tick=\""), Decimal(self.miss.tick));
        let from = (tick, plain(b"\" x1=\""), place);
        let to = (from, plain(b"\" y1=\"0\" x2=\""), place);
        let end = plain(b"\" stroke=\"#e5484d\" stroke-width=\"2\">");
        (to, plain(b"\" y2=\""), height, end).offer(out);
    }
}

/// Its title, and the end of its element.
#[derive(Clone, Copy)]
struct MissTitle(Miss);

impl Text for MissTitle {
    ghost text = { λ x. texts.miss_title x.0 };

    ghost most = { 2108 };

    fn offer<O: Out>(&self, out: &mut O) {
        let tick = (plain(b"<title>tick "), Decimal(self.0.tick));
        let deadline = (tick, plain(b": deadline "), Decimal(self.0.deadline));
        let unspent = Decimal(self.0.unspent);
        let end = plain(b" ticks of the budget unspent</title></line>\n");
        (deadline, plain(b" passed with "), unspent, end).offer(out);
    }
}

/// Offers the element of the deadline that a task missed, if it missed one.
pub(crate) fn offer_miss<S: Sink>(
    out: &mut Writer<'_, S>,
    scale: &Scale,
    task: u32,
    miss: Option<Miss>,
)
    requires { out.old.written + TEXT_LEN + 1 < 2 ^ 64 }
    ensures bound { out.new.written ≤ out.old.written + TEXT_LEN }
    ensures same { out.new.sink.ghost_name ≡ out.old.sink.ghost_name }
    ensures offers { Offers S.seen out.old.written out.old.sink.now (texts.miss_text scale.now.look task miss) out.new.written out.new.sink.now }
{
    if let Some(miss) = miss {
        let line = MissLine { scale, task, miss };
        offer_to(&(line, MissTitle(miss)), out);
    }
}
