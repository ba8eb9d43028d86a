//! The axis of ticks, and the thin lines that go from its ticks through all rows.

ghost use Rattle.std.specs.Prelude.{◌≡◌, ℕ, ◌+◌, ◌*◌, ◌%◌, ◌^◌, ◌<◌, ◌≤◌, ◌++◌, length};
ghost use Rattle.std.specs.List.{flat_map, range_with_len};
ghost use Rattle.rt_sink.specs.Offers.{Offers};
ghost use Rattle.rt_chart.specs.Axis as texts;
ghost use Rattle.rt_chart.specs.Scale as scales;
ghost use Rattle.rt_drawing.specs.Windows.{ticks_in};

use crate::element::TEXT_LEN;
use crate::rows::{is_tall, label_room, rows_height};
use crate::scale::Scale;
use rt_sink::{Sink, Writer};
use rt_text_out::{Decimal, Out, Text, offer_to, plain};

/// The begin of the axis above the rows of a tall picture.
#[derive(Clone, Copy)]
struct UpperBegin<'s>(&'s Scale);

impl<'s> Text for UpperBegin<'s> {
    ghost text = { λ x. texts.upper_begin x.0.now.look };

    ghost most = { 2100 };

    #[tactic(auto, unfolding(crate::specs::Axis::upper_begin))]
    fn offer<O: Out>(&self, out: &mut O) {
        let left = Decimal(label_room(self.0));
        (
            plain(b"<g transform=\"translate("),
            left,
            plain(b",-18)\">\n"),
        )
            .offer(out);
    }
}

/// The end of a group.
const GROUP_END: &[u8] = b"</g>\n";

/// The begin of the lines through all rows.
#[derive(Clone, Copy)]
struct GridBegin<'s>(&'s Scale);

impl<'s> Text for GridBegin<'s> {
    ghost text = { λ x. texts.grid_begin x.0.now.look };

    ghost most = { 1044 };

    fn offer<O: Out>(&self, out: &mut O) {
        let left = Decimal(label_room(self.0));
        let end = plain(b",10)\" fill=\"none\" stroke=\"#e5e7eb\" stroke-width=\"1\">\n");
        (plain(b"<g transform=\"translate("), left, end).offer(out);
    }
}

/// What stands at a tick of the axis.
#[derive(Clone, Copy)]
pub(crate) enum TickPart {
    /// Its name, below a short line.
    Name,
    /// A thin line through rows of this height.
    Line(u64),
}

/// The name of a tick on the axis.
#[derive(Clone, Copy)]
struct TickLabel<'s> {
    scale: &'s Scale,
    tick: u64,
}

impl<'s> Text for TickLabel<'s> {
    ghost text = { λ x. texts.tick_label x.scale.now.look x.tick };

    ghost most = { 2108 };

    fn offer<O: Out>(&self, out: &mut O) {
        let scale = self.scale;
        let place = Decimal(scale.place(self.tick));
        let line = (plain(b"<path class=\"base\" d=\"M"), place);
        let words = plain(
            b",0v5\" fill=\"none\" stroke=\"#999\" stroke-width=\"1\"/><text class=\"tick\" x=\"",
        );
        let end = plain(b"\" y=\"18\" text-anchor=\"middle\">");
        (
            line,
            words,
            place,
            end,
            Decimal(self.tick),
            plain(b"</text>\n"),
        )
            .offer(out);
    }
}

/// The line from a tick of the axis through rows of this height.
#[derive(Clone, Copy)]
struct GridLine<'s> {
    scale: &'s Scale,
    height: u64,
    tick: u64,
}

impl<'s> Text for GridLine<'s> {
    ghost text = { λ x. texts.grid_line x.scale.now.look x.height x.tick };

    ghost most = { 4096 };

    #[tactic(auto, unfolding(crate::specs::Axis::grid_line))]
    fn offer<O: Out>(&self, out: &mut O) {
        let scale = self.scale;
        let place = Decimal(scale.place(self.tick));
        let line = (plain(b"<path class=\"grid\" d=\"M"), place);
        (line, plain(b",0v"), Decimal(self.height), plain(b"\"/>\n")).offer(out);
    }
}

/// Offers what stands at a tick of the axis, which is a multiple of the step.
fn offer_part<S: Sink>(out: &mut Writer<'_, S>, scale: &Scale, part: TickPart, tick: u64)
    requires room { out.old.written + TEXT_LEN < 2 ^ 64 }
    requires multiple { tick % scales.step scale.now.look.window scale.now.look.style ≡ 0 }
    ensures bound { out.new.written ≤ out.old.written + TEXT_LEN }
    ensures same { out.new.sink.ghost_name ≡ out.old.sink.ghost_name }
    ensures offers { Offers S.seen out.old.written out.old.sink.now (texts.part_at scale.now.look part tick) out.new.written out.new.sink.now }
{
    match part {
        TickPart::Name => offer_to(&TickLabel { scale, tick }, out),
        TickPart::Line(height) => {
            let line = GridLine {
                scale,
                height,
                tick,
            };
            offer_to(&line, out);
        }
    }
}

/// The first multiple of a step from a tick on.
fn multiple_from(tick: u64, step: u64) -> u64
    requires some { 1 ≤ step }
    requires room { tick + step < 2 ^ 64 }
    ensures multiple { result % step ≡ 0 }
    ensures onward { tick ≤ result }
    ensures near { result < tick + step }
{
    (tick + step - 1) / step * step
}

/// Offers what stands at the ticks of the axis, from step to step.
fn offer_parts<S: Sink>(out: &mut Writer<'_, S>, scale: &Scale, part: TickPart)
    requires { out.old.written ≤ 2 ^ 61 }
    ensures bound { out.new.written ≤ out.old.written + 2 ^ 33 }
    ensures same { out.new.sink.ghost_name ≡ out.old.sink.ghost_name }
    ensures offers { Offers S.seen out.old.written out.old.sink.now (texts.parts_text scale.now.look part) out.new.written out.new.sink.now }
{
    let step = scale.step();
    let mut tick = multiple_from(scale.look.window.from, step);
    'ticks: while tick <= scale.look.window.to {
        offer_part(out, scale, part, tick);
        tick += step;
    }
}

/// Offers the names of the axis.
pub(crate) fn offer_labels<S: Sink>(out: &mut Writer<'_, S>, scale: &Scale)
    requires { out.old.written ≤ 2 ^ 61 }
    ensures bound { out.new.written ≤ out.old.written + 2 ^ 33 }
    ensures same { out.new.sink.ghost_name ≡ out.old.sink.ghost_name }
    ensures offers { Offers S.seen out.old.written out.old.sink.now (texts.labels_text scale.now.look) out.new.written out.new.sink.now }
{
    offer_parts(out, scale, TickPart::Name);
}

/// Offers the axis above the rows of a picture of so many tasks, if it is tall.
pub(crate) fn offer_upper_axis<S: Sink>(out: &mut Writer<'_, S>, scale: &Scale, count: u32)
    requires { out.old.written ≤ 2 ^ 59 }
    ensures bound { out.new.written ≤ out.old.written + 2 ^ 34 }
    ensures same { out.new.sink.ghost_name ≡ out.old.sink.ghost_name }
    ensures offers { Offers S.seen out.old.written out.old.sink.now (texts.upper_axis_text scale.now.look count) out.new.written out.new.sink.now }
{
    if is_tall(count) {
        offer_to(&UpperBegin(scale), out);
        offer_labels(out, scale);
        out.put(GROUP_END);
    }
}

/// Offers the lines through so many rows.
pub(crate) fn offer_grid<S: Sink>(out: &mut Writer<'_, S>, scale: &Scale, count: u32)
    requires { out.old.written ≤ 2 ^ 59 }
    ensures bound { out.new.written ≤ out.old.written + 2 ^ 34 }
    ensures same { out.new.sink.ghost_name ≡ out.old.sink.ghost_name }
    ensures offers { Offers S.seen out.old.written out.old.sink.now (texts.grid_text scale.now.look count) out.new.written out.new.sink.now }
{
    offer_to(&GridBegin(scale), out);
    offer_parts(
        out,
        scale,
        TickPart::Line(rows_height(&scale.look.style, count)),
    );
    out.put(GROUP_END);
}
