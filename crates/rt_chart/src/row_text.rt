//! The row of a task.

ghost use Rattle.std.specs.Prelude.{◌≡◌, ◌+◌, ◌*◌, ◌^◌, ◌<◌, ◌≤◌, ◌++◌, [], length};
ghost use Rattle.std.specs.List.{flat_map};
ghost use Rattle.arrayvec.specs.ArrayVec.{array_vec_len};
ghost use Rattle.rt_sink.specs.Offers.{Offers};
ghost use Rattle.rt_words.specs.Limits.{tick_limit};
ghost use Rattle.rt_chart.specs.ChartText as texts;
ghost use Rattle.rt_chart.specs.Labels.{label_text};
ghost use Rattle.rt_chart.specs.MarkText.{mark_text};
ghost use Rattle.rt_chart.specs.Working.Titled as titled;
ghost use Rattle.rt_chart.specs.Working.Titled.{titled_text};
ghost use Rattle.rt_drawing.specs.Standing.{finished};
ghost use Rattle.rt_drawing.specs.Drawn.{IsSound};

use crate::element::{ELEMENT_LEN, Element, TEXT_LEN};
use crate::frame::Group;
use crate::kept::Kept;
use crate::mark_text::{Bar, Numbers, fill_marks, fill_stretches};
use crate::miss_text::offer_miss;
use crate::page::{PAGE_LEN, Page};
use crate::rows::{base_top, is_wide, label_room, row_top, words_top};
use crate::scale::Scale;
use arrayvec::ArrayVec;
use rt_drawing::{Mark, Sketch, Stretch};
use rt_history::Mode;
use rt_names::TASK_NAME_LEN;
use rt_report::stands_word;
use rt_sink::{Sink, Writer, push_decimal, push_text};
use rt_text_out::{Decimal, Out, Text, offer_to, plain};

/// The name of a task, as it is written.
type NameText = ArrayVec<u8, TASK_NAME_LEN>;

/// The begin of the marks of a row.
const MARKS_BEGIN: &[u8] = b"<g fill=\"none\" stroke=\"#222\" stroke-width=\"1.5\">\n";

/// What a row's label tells: the number and the name of its task, and that task's budget and period, in ticks.
#[derive(Clone, Copy)]
struct Label<'n> {
    task: u32,
    name: &'n [u8],
    budget: u32,
    period: u32,
    ghost short: { length name.now ≤ 512 },
}

/// A label, behind the begin of its element up to how far from the left it is.
#[derive(Clone, Copy)]
struct LabelWords<'s, 'n> {
    scale: &'s Scale,
    label: Label<'n>,
}

impl<'s, 'n> Text for LabelWords<'s, 'n> {
    ghost text = { λ x. texts.label_words x.scale.now.look (label_text x.label.task x.label.name.now x.label.budget x.label.period) };

    ghost most = { 4096 };

    #[tactic(auto, unfolding(crate::specs::ChartText::label_words, crate::specs::Labels::label_text))]
    fn offer<O: Out>(&self, out: &mut O) {
        let scale = self.scale;
        let label = self.label;
        let top = Decimal(words_top(&scale.look.style));
        let place = (plain(b"\" y=\""), top, plain(b"\">"));
        let task = (place, Decimal(u64::from(label.task)), plain(b" "));
        let name = (task, plain(label.name), plain(b"  "));
        let budget = (name, Decimal(u64::from(label.budget)), plain(b"/"));
        let period = Decimal(u64::from(label.period));
        (budget, period, plain(b"</text>\n")).offer(out);
    }
}

/// The begin of the row of a task: its group, its label, and the line on which the task stands.
#[derive(Clone, Copy)]
struct RowBegin<'s, 'n>(LabelWords<'s, 'n>);

impl<'s, 'n> Text for RowBegin<'s, 'n> {
    ghost text = { λ x. texts.begin_text x.0.scale.now.look x.0.label.task (label_text x.0.label.task x.0.label.name.now x.0.label.budget x.0.label.period) };

    ghost most = { 16384 };

    #[tactic(auto, unfolding(crate::specs::ChartText::begin_text, crate::specs::ChartText::left_label_text, crate::specs::ChartText::base_text))]
    fn offer<O: Out>(&self, out: &mut O) {
        let scale = self.0.scale;
        let top = row_top(&scale.look.style, self.0.label.task);
        let left = Decimal(label_room(scale) - 10);
        let label = (plain(b"<text x=\"-"), left, self.0);
        let base_top = Decimal(base_top(&scale.look.style));
        let width = Decimal(scale.width);
        let base = (
            plain(b"<path class=\"base\" d=\"M0,"),
            base_top,
            plain(b"h"),
        );
        let end = plain(b"\" fill=\"none\" stroke=\"#999\" stroke-width=\"1\"/>\n");
        (Group { scale, top }, label, (base, width, end)).offer(out);
    }
}

/// The end of the marks, and how the task stands.
#[derive(Clone, Copy)]
struct StandsAt<'s> {
    scale: &'s Scale,
    mode: Mode,
}

impl<'s> Text for StandsAt<'s> {
    ghost text = { λ x. texts.stands_at x.scale.now.look x.mode };

    ghost most = { 2600 };

    fn offer<O: Out>(&self, out: &mut O) {
        let scale = self.scale;
        let left = Decimal(scale.width + 10);
        let top = Decimal(words_top(&scale.look.style));
        let place = (plain(b"</g>\n<text x=\""), left, plain(b"\" y=\""), top);
        let word = plain(stands_word(self.mode));
        (place, plain(b"\">"), word, plain(b"</text>\n")).offer(out);
    }
}

/// The label at the right, where the picture is wide.
#[derive(Clone, Copy)]
struct RightLabel<'s, 'n>(LabelWords<'s, 'n>);

impl<'s, 'n> Text for RightLabel<'s, 'n> {
    ghost text = { λ x. texts.right_label_text x.0.scale.now.look (label_text x.0.label.task x.0.label.name.now x.0.label.budget x.0.label.period) };

    ghost most = { 8192 };

    fn offer<O: Out>(&self, out: &mut O) {
        let scale = self.0.scale;
        if is_wide(scale) {
            let left = Decimal(scale.width + 200);
            (plain(b"<text x=\""), left, self.0).offer(out);
        } else {
            plain(b"").offer(out);
        }
    }
}

/// Offers what stands behind the marks of a row, and its end.
#[tactic(auto, unfolding(crate::specs::ChartText::end_text))]
fn offer_end<S: Sink>(out: &mut Writer<'_, S>, words: LabelWords<'_, '_>, mode: Mode)
    requires { out.old.written + 2 * TEXT_LEN < 2 ^ 64 }
    ensures bound { out.new.written ≤ out.old.written + 2 * TEXT_LEN }
    ensures same { out.new.sink.ghost_name ≡ out.old.sink.ghost_name }
    ensures offers { Offers S.seen out.old.written out.old.sink.now (texts.end_text words.entry.scale.now.look (label_text words.entry.label.task words.entry.label.name.now words.entry.label.budget words.entry.label.period) mode) out.new.written out.new.sink.now }
{
    let stands = StandsAt {
        scale: words.scale,
        mode,
    };
    offer_to(&(stands, RightLabel(words), plain(b"</g>\n")), out);
}

/// How the title of each stretch of a task begins.
fn title_begin(task: u32, name: &[u8]) -> Kept
    requires { length name.now ≤ TASK_NAME_LEN }
    ensures { result ≡ titled.title_begin task name.now }
{
    let mut title = Element::new();
    push_text(&mut title, b"\"><title>task ");
    push_decimal(&mut title, u64::from(task));
    push_text(&mut title, b" ");
    push_text(&mut title, name);
    Kept::new(&title)
}

/// Offers the elements of stretches that are drawn so and whose titles begin so, page by page.
fn offer_stretches<S: Sink>(
    out: &mut Writer<'_, S>,
    room: &mut [u8; PAGE_LEN],
    numbers: &mut Numbers,
    scale: &Scale,
    title: &Kept,
    period: u32,
    bar: Bar,
    stretches: &[Stretch],
)
    requires room { out.old.written ≤ 2 ^ 61 }
    requires few { length stretches.now ≤ 2 ^ 43 }
    ensures task { numbers.new.task ≡ numbers.old.task }
    ensures bound { out.new.written ≤ out.old.written + ELEMENT_LEN * length stretches.now }
    ensures same { out.new.sink.ghost_name ≡ out.old.sink.ghost_name }
    ensures offers { Offers S.seen out.old.written out.old.sink.now (flat_map (titled_text scale.now.look numbers.old.task title.now period bar) stretches.now) out.new.written out.new.sink.now }
{
    let mut page = Page::new(room);
    let mut next = 0;
    'pages: while next < stretches.len() {
        next = fill_stretches(
            &mut page, numbers, scale, title, period, bar, stretches, next,
        );
        out.put(page.text());
        page.clear();
    }
}

/// Offers the elements of marks, page by page.
fn offer_marks<S: Sink>(
    out: &mut Writer<'_, S>,
    room: &mut [u8; PAGE_LEN],
    numbers: &mut Numbers,
    scale: &Scale,
    marks: &[Mark],
)
    requires room { out.old.written ≤ 2 ^ 61 }
    requires few { length marks.now ≤ 2 ^ 43 }
    ensures task { numbers.new.task ≡ numbers.old.task }
    ensures bound { out.new.written ≤ out.old.written + ELEMENT_LEN * length marks.now }
    ensures same { out.new.sink.ghost_name ≡ out.old.sink.ghost_name }
    ensures offers { Offers S.seen out.old.written out.old.sink.now (flat_map (mark_text scale.now.look numbers.old.task) marks.now) out.new.written out.new.sink.now }
{
    let mut page = Page::new(room);
    let mut next = 0;
    'pages: while next < marks.len() {
        next = fill_marks(&mut page, numbers, scale, marks, next);
        out.put(page.text());
        page.clear();
    }
}

/// Offers the row of a task, once the wakes up to the end of the picture are applied.
pub(crate) fn offer_row<S: Sink>(
    out: &mut Writer<'_, S>,
    room: &mut [u8; PAGE_LEN],
    scale: &Scale,
    task: u32,
    sketch: &Sketch<'_>,
)
    requires room { out.old.written ≤ 5 * 2 ^ 58 }
    requires sound { IsSound tick_limit sketch.now }
    ensures bound { out.new.written ≤ out.old.written + 2 ^ 54 }
    ensures same { out.new.sink.ghost_name ≡ out.old.sink.ghost_name }
    ensures offers { Offers S.seen out.old.written out.old.sink.now (texts.row_text scale.now.look (finished scale.now.look.window task sketch.now)) out.new.written out.new.sink.now }
{
    let window = &scale.look.window;
    let last = sketch.last_marks(window);
    let wait = sketch.last_wait(window);
    let mut numbers = Numbers::new(task);
    let mut text = NameText::new();
    sketch.name().push(&mut text);
    let name = text.as_slice();
    let label = Label {
        task,
        name,
        budget: sketch.budget(window),
        period: sketch.period(),
    };
    let words = LabelWords { scale, label };
    offer_to(&RowBegin(words), out);
    let title = title_begin(task, name);
    let period = sketch.period();
    offer_stretches(
        out,
        room,
        &mut numbers,
        scale,
        &title,
        period,
        Bar::Wait,
        sketch.waits(),
    );
    offer_stretches(
        out,
        room,
        &mut numbers,
        scale,
        &title,
        period,
        Bar::Wait,
        &wait,
    );
    offer_stretches(
        out,
        room,
        &mut numbers,
        scale,
        &title,
        period,
        Bar::Run,
        sketch.stretches(),
    );
    out.put(MARKS_BEGIN);
    offer_marks(out, room, &mut numbers, scale, sketch.marks());
    offer_marks(out, room, &mut numbers, scale, &last);
    offer_miss(out, scale, task, sketch.shown_miss(window));
    offer_end(out, words, sketch.last_mode(window));
}
