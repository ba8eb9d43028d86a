//! What stands round the rows of a picture: its head, and its end.

ghost use Rattle.std.specs.Prelude.{◌≡◌, ◌+◌, ◌^◌, ◌<◌, ◌≤◌, ◌++◌, length};
ghost use Rattle.rt_sink.specs.Offers.{Offers};
ghost use Rattle.rt_chart.specs.ChartText as texts;

use crate::axis::{offer_grid, offer_labels, offer_upper_axis};
use crate::legend::{KEY_END, key};
use crate::rows::{label_room, row_top, top, whole_height, whole_width};
use crate::scale::Scale;
use rt_sink::{Sink, Writer};
use rt_text_out::{Decimal, Out, Text, offer_to, plain};

/// The styles of elements on a dark ground, by their classes; on a light one their own attributes say how they look. And how waits
/// over the period are hatched.
pub(crate) const STYLE: &[u8] = b"<style>
svg{color-scheme:light dark}
@media(prefers-color-scheme:dark){.ground{fill:#16181d}text{fill:#ddd}path{stroke:#ddd}.base{stroke:#777}.grid{stroke:#2b3038}
.run{fill:#3f6ea5}.wait,.key-wait{fill:#475569}.run.over,.key-over{fill:#b7791f}.wait.over{fill:url(#hatch)}
.hatched{fill:#4d3b16}.hatching{fill:#b7791f}
.fresh,.key-fresh{stroke:#4ac26b}.kept,.key-kept{stroke:#d8a032}.deadline,.key-deadline{stroke:#b0b8c0}
.postponed,.key-postponed{fill:#e3a04a;stroke:none}.end,.key-end{fill:#ddd}.sleep,.key-sleep{stroke:#79b8ff}
.reserve,.key-reserve,.key-refused{stroke:#c4a7ff}.fault,.key-fault{stroke:#ff7b72}}
</style>
<defs><pattern id=\"hatch\" width=\"6\" height=\"6\" patternUnits=\"userSpaceOnUse\" patternTransform=\"rotate(45)\">
<rect class=\"hatched\" width=\"6\" height=\"6\" fill=\"#fdebc8\"/><rect class=\"hatching\" width=\"3\" height=\"6\" fill=\"#f0a030\"/>
</pattern></defs>
";

/// The element of the picture and its title, for so many tasks.
#[derive(Clone, Copy)]
struct Opening<'s> {
    scale: &'s Scale,
    count: u32,
}

impl<'s> Text for Opening<'s> {
    ghost text = { λ x. texts.opening_text x.scale.now.look x.count };

    ghost most = { 4728 };

    fn offer<O: Out>(&self, out: &mut O) {
        let scale = self.scale;
        let width = Decimal(whole_width(scale));
        let height = Decimal(whole_height(&scale.look.style, self.count));
        let from = Decimal(scale.look.window.from);
        let last = Decimal(scale.look.window.to.saturating_sub(1));
        let begin = plain(b"<svg xmlns=\"http://www.w3.org/2000/svg\" version=\"1.1\" width=\"");
        let size = (begin, width, plain(b"\" height=\""), height);
        let view = (size, plain(b"\" viewBox=\"0 "), plain(top(self.count)));
        let seen = (view, plain(b" "), width, plain(b" "), height);
        let title = (seen, plain(b"\">\n<title>ticks "), from);
        (title, plain(b" to "), last, plain(b"</title>\n")).offer(out);
    }
}

/// The ground of a picture of so many tasks, and the begin of what is drawn on it.
#[derive(Clone, Copy)]
struct Ground<'s> {
    scale: &'s Scale,
    count: u32,
}

impl<'s> Text for Ground<'s> {
    ghost text = { λ x. texts.ground_text x.scale.now.look x.count };

    ghost most = { 2600 };

    fn offer<O: Out>(&self, out: &mut O) {
        let scale = self.scale;
        let width = Decimal(whole_width(scale));
        let height = Decimal(whole_height(&scale.look.style, self.count));
        let begin = (
            plain(b"<rect class=\"ground\" y=\""),
            plain(top(self.count)),
        );
        let size = (begin, plain(b"\" width=\""), width, plain(b"\" height=\""));
        let end = plain(
            b"\" fill=\"#fff\"/>\n<g fill=\"#222\" font-family=\"sans-serif\" font-size=\"12\">\n",
        );
        (size, height, end).offer(out);
    }
}

/// The opening of a group whose coordinates begin behind the labels, so far below the top.
#[derive(Clone, Copy)]
pub(crate) struct Group<'s> {
    pub(crate) scale: &'s Scale,
    pub(crate) top: u64,
}

impl<'s> Text for Group<'s> {
    ghost text = { λ x. texts.group_text x.scale.now.look x.top };

    ghost most = { 2100 };

    #[tactic(auto, unfolding(crate::specs::ChartText::group_text))]
    fn offer<O: Out>(&self, out: &mut O) {
        let left = Decimal(label_room(self.scale));
        let begin = (plain(b"<g transform=\"translate("), left);
        (begin, plain(b","), Decimal(self.top), plain(b")\">\n")).offer(out);
    }
}

/// Offers the head of a picture of so many tasks.
pub(crate) fn offer_head<S: Sink>(out: &mut Writer<'_, S>, scale: &Scale, count: u32)
    requires { out.old.written ≤ 2 ^ 58 }
    ensures bound { out.new.written ≤ out.old.written + 2 ^ 36 }
    ensures same { out.new.sink.ghost_name ≡ out.old.sink.ghost_name }
    ensures offers { Offers S.seen out.old.written out.old.sink.now (texts.head_text scale.now.look count) out.new.written out.new.sink.now }
{
    offer_to(&Opening { scale, count }, out);
    out.put(STYLE);
    offer_to(&Ground { scale, count }, out);
    offer_grid(out, scale, count);
    offer_upper_axis(out, scale, count);
}

/// Offers the axis below so many rows, and the end of the picture.
pub(crate) fn offer_axis<S: Sink>(out: &mut Writer<'_, S>, scale: &Scale, count: u32)
    requires { out.old.written ≤ 2 ^ 60 + 2 ^ 59 }
    ensures same { out.new.sink.ghost_name ≡ out.old.sink.ghost_name }
    ensures offers { Offers S.seen out.old.written out.old.sink.now (texts.axis_text scale.now.look count) out.new.written out.new.sink.now }
{
    let top = row_top(&scale.look.style, count);
    offer_to(&Group { scale, top }, out);
    offer_labels(out, scale);
    out.put(key(scale.look.marks));
    out.put(KEY_END);
}
