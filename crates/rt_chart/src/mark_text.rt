//! The elements of stretches and marks.

ghost use Rattle.std.specs.Prelude.{◌≡◌, ◌+◌, ◌-◌, ◌*◌, ◌<◌, ◌≤◌, ◌++◌, [], length, take, codes, decimal};
ghost use Rattle.std.specs.List.{flat_map};
ghost use Rattle.rt_chart.specs.Ink.{ink};
ghost use Rattle.rt_chart.specs.MarkText as texts;
ghost use Rattle.rt_chart.specs.Working.Titled.{titled_end, titled_text};
ghost use Rattle.rt_drawing.specs.Marks.{mark};

use crate::digits::Digits;
use crate::element::ELEMENT_LEN;
use crate::kept::Kept;
use crate::look::MarkStyle;
use crate::page::{PAGE_LEN, Page};
use crate::scale::Scale;
use rt_drawing::{Event, Mark, Stretch};

/// What a stretch is drawn as.
#[derive(Clone, Copy)]
pub(crate) enum Bar {
    /// A bar on the line of its row: its task runs.
    Run,
    /// A thin bar: its task waits.
    Wait,
}

/// The numbers of a row's elements, of which many are written more than once.
#[derive(Drop)]
pub(crate) struct Numbers {
    pub(crate) task: Digits,
    first: Digits,
    second: Digits,
    place: Digits,
    extent: Digits,
    job: Digits,
    release: Digits,
    ticks: Digits,
    response: Digits,
    since: Digits,
}

impl Numbers {
    /// Those of a task's row, before its first element.
    pub(crate) fn new(task: u32) -> Numbers
        ensures { result.task ≡ task }
    {
        Numbers {
            task: Digits::new(u64::from(task)),
            first: Digits::new(0),
            second: Digits::new(0),
            place: Digits::new(0),
            extent: Digits::new(0),
            job: Digits::new(0),
            release: Digits::new(0),
            ticks: Digits::new(0),
            response: Digits::new(0),
            since: Digits::new(0),
        }
    }
}

/// Appends the begin of an event's element, up to the number of its task: at most 60 bytes.
#[inline(always)]
fn put_class(page: &mut Page<'_>, event: &Event)
    requires { length page.old + 60 ≤ PAGE_LEN }
    ensures text { page.new ≡ page.old ++ (codes "<path class=\"" ++ texts.class_text event.now ++ codes "\" data-task=\"") }
    ensures short { length page.new ≤ length page.old + 60 }
{
    match event {
        Event::FreshWake(_) => page.put(b"<path class=\"wake fresh\" data-task=\""),
        Event::KeptWake => page.put(b"<path class=\"wake kept\" data-task=\""),
        Event::Deadline => page.put(b"<path class=\"deadline\" data-task=\""),
        Event::Postponed(_, _) => page.put(b"<path class=\"postponed\" data-task=\""),
        Event::GivenUp(_, _) => page.put(b"<path class=\"postponed\" data-task=\""),
        Event::End => page.put(b"<path class=\"end\" data-task=\""),
        Event::Yield => page.put(b"<path class=\"yield\" data-task=\""),
        Event::Sleep(_) => page.put(b"<path class=\"sleep\" data-task=\""),
        Event::Granted(_) => page.put(b"<path class=\"reserve\" data-task=\""),
        Event::Refused => page.put(b"<path class=\"reserve refused\" data-task=\""),
        Event::Fault(_) => page.put(b"<path class=\"fault\" data-task=\""),
    }
}

/// Appends the path of an event's element, behind where it begins: at most 40 bytes.
#[inline(always)]
#[tactic(auto, unfolding(crate::proofs::Computing::computing))]
fn put_whole_shape(page: &mut Page<'_>, event: &Event)
    requires { length page.old + 40 ≤ PAGE_LEN }
    ensures text { page.new ≡ page.old ++ texts.shape_text (texts.whole_shape event.now) }
    ensures short { length page.new ≤ length page.old + 40 }
{
    match event {
        Event::FreshWake(_) => page.put(b",28v-12l-3,4m3,-4l3,4"),
        Event::KeptWake => page.put(b",28v-3m0,-3v-6l-3,4m3,-4l3,4"),
        Event::Deadline => page.put(b",2v12l-3,-4m3,4l3,-4"),
        Event::Postponed(_, _) | Event::GivenUp(_, _) => {
            page.put(b",37l-4,-6h8z");
        }
        Event::End => page.put(b",45h3v6h-6v-6z"),
        Event::Yield => page.put(b",44l4,4l-4,4l-4,-4z"),
        Event::Sleep(_) => page.put(b",45a3,3,0,1,0,1,0z"),
        Event::Granted(_) => page.put(b",51h-4l4,-7l4,7z"),
        Event::Refused => page.put(b",44h-4l4,7l4,-7z"),
        Event::Fault(_) => page.put(b",48l-4,-4l8,8l-4,-4l4,-4l-8,8"),
    }
}

/// The same where there are many marks: at most 40 bytes.
#[inline(always)]
#[tactic(auto, unfolding(crate::proofs::Computing::computing))]
fn put_line_shape(page: &mut Page<'_>, event: &Event)
    requires { length page.old + 40 ≤ PAGE_LEN }
    ensures text { page.new ≡ page.old ++ texts.shape_text (texts.line_shape event.now) }
    ensures short { length page.new ≤ length page.old + 40 }
{
    match event {
        Event::FreshWake(_) => page.put(b",25v-9"),
        Event::KeptWake => page.put(b",25v-3m0,-3v-3"),
        Event::Deadline => page.put(b",2v12"),
        Event::Postponed(_, _) | Event::GivenUp(_, _) => page.put(b",30v-4h1v4"),
        Event::Yield | Event::Sleep(_) | Event::Granted(_) => page.put(b",44v5"),
        Event::Refused => page.put(b",44v2m0,1v2"),
        Event::End => page.put(b",45h3v6h-6v-6z"),
        Event::Fault(_) => page.put(b",48l-4,-4l8,8l-4,-4l4,-4l-8,8"),
    }
}

/// The same in the low rows of a compact picture: at most 40 bytes.
#[inline(always)]
#[tactic(auto, unfolding(crate::proofs::Computing::computing))]
fn put_low_shape(page: &mut Page<'_>, event: &Event)
    requires { length page.old + 40 ≤ PAGE_LEN }
    ensures text { page.new ≡ page.old ++ texts.shape_text (texts.low_shape event.now) }
    ensures short { length page.new ≤ length page.old + 40 }
{
    match event {
        Event::FreshWake(_) => page.put(b",8v-4"),
        Event::KeptWake => page.put(b",8v-1m0,-2v-1"),
        Event::Deadline => page.put(b",0v4"),
        Event::Postponed(_, _) | Event::GivenUp(_, _) => page.put(b",8v-3h1v3"),
        Event::Yield | Event::Sleep(_) | Event::Granted(_) => page.put(b",17v3"),
        Event::Refused => page.put(b",17v1m0,1v1"),
        Event::End => page.put(b",17h2v3h-4v-3z"),
        Event::Fault(_) => page.put(b",18l-2,-2l4,4l-2,-2l2,-2l-4,4"),
    }
}

/// The same in a style.
#[inline(always)]
fn put_shape(page: &mut Page<'_>, style: MarkStyle, event: &Event)
    requires { length page.old + 40 ≤ PAGE_LEN }
    ensures text { page.new ≡ page.old ++ texts.shape_text (texts.shape_of style event.now) }
    ensures short { length page.new ≤ length page.old + 40 }
{
    match style {
        MarkStyle::Shapes => put_whole_shape(page, event),
        MarkStyle::Lines => put_line_shape(page, event),
        MarkStyle::LowLines => put_low_shape(page, event),
    }
}

/// The end of an event's path, its colours, and the begin of its title: at most 70 bytes.
#[inline(always)]
fn ink_and_title(event: &Event) -> &'static [u8]
    ensures text { result.now ≡ codes "\"" ++ ink event.now ++ codes "><title>tick " }
    ensures short { length result.now ≤ 70 }
{
    match event {
        Event::FreshWake(_) => b"\" stroke=\"#1a7f37\"><title>tick ",
        Event::KeptWake => b"\" stroke=\"#9a6700\"><title>tick ",
        Event::Deadline => b"\" stroke=\"#57606a\"><title>tick ",
        Event::Postponed(_, _) | Event::GivenUp(_, _) => {
            b"\" fill=\"#bc6c00\" stroke=\"none\"><title>tick "
        }
        Event::End => b"\" fill=\"#222\"><title>tick ",
        Event::Yield => b"\"><title>tick ",
        Event::Sleep(_) => b"\" stroke=\"#1f5fa8\"><title>tick ",
        Event::Granted(_) | Event::Refused => b"\" stroke=\"#6e40c9\"><title>tick ",
        Event::Fault(_) => b"\" stroke=\"#c0262d\" stroke-width=\"2.5\"><title>tick ",
    }
}

/// Where an event of a tick is drawn: wakes and deadlines where the tick begins, what a record does in its middle.
fn place(scale: &Scale, tick: u64, event: &Event) -> u64
    ensures { result ≡ texts.place_of scale.now.look tick event.now }
{
    match event {
        Event::FreshWake(_) | Event::KeptWake | Event::Deadline => scale.place(tick),
        _ => scale.middle(tick),
    }
}

/// Appends how a deadline moved: at most 60 bytes. The next time it moves on from there.
#[inline(always)]
fn put_move(page: &mut Page<'_>, numbers: &mut Numbers, old: u64, new: u64)
    requires { length page.old + 60 ≤ PAGE_LEN }
    ensures text { page.new ≡ page.old ++ (decimal old ++ codes " to " ++ decimal new) }
    ensures short { length page.new ≤ length page.old + 50 }
    ensures task { numbers.new.task ≡ numbers.old.task }
{
    numbers.second.go_to(old);
    numbers.first.go_to(new);
    page.put_number(&numbers.second);
    page.put(b" to ");
    page.put_number(&numbers.first);
    numbers.second.go_to(new);
}

/// Appends that a task wakes afresh, and its budget where that is a new one: at most 110 bytes.
#[inline(always)]
fn put_fresh_wake(page: &mut Page<'_>, numbers: &mut Numbers, budget: Option<u32>)
    requires { length page.old + 110 ≤ PAGE_LEN }
    ensures text { page.new ≡ page.old ++ texts.event_text (Event.FreshWake budget) }
    ensures short { length page.new ≤ length page.old + 110 }
    ensures task { numbers.new.task ≡ numbers.old.task }
{
    match budget {
        None => page.put(b"wakes afresh"),
        Some(budget) => {
            numbers.second.go_to(u64::from(budget));
            page.put(b"wakes afresh, budget ");
            page.put_number(&numbers.second);
        }
    }
}

/// Appends what the title of an event says: at most 110 bytes. Each `COPY` is code of its own, which knows its caller's event.
#[inline(always)]
fn put_event<const COPY: u8>(page: &mut Page<'_>, numbers: &mut Numbers, event: &Event)
    requires { length page.old + 110 ≤ PAGE_LEN }
    ensures text { page.new ≡ page.old ++ texts.event_text event.now }
    ensures short { length page.new ≤ length page.old + 110 }
    ensures task { numbers.new.task ≡ numbers.old.task }
{
    match event {
        Event::FreshWake(budget) => put_fresh_wake(page, numbers, *budget),
        Event::KeptWake => page.put(b"wakes with what it had"),
        Event::Deadline => page.put(b"deadline"),
        Event::Postponed(old, new) => {
            page.put(b"budget used up, deadline from ");
            put_move(page, numbers, *old, *new);
        }
        Event::GivenUp(old, new) => {
            page.put(b"rest of the budget given up, deadline from ");
            put_move(page, numbers, *old, *new);
        }
        Event::End => page.put(b"ends"),
        Event::Yield => page.put(b"yields"),
        Event::Sleep(w) => {
            numbers.second.go_to(*w);
            page.put(b"sleeps until ");
            page.put_number(&numbers.second);
        }
        Event::Granted(budget) => {
            numbers.second.go_to(u64::from(*budget));
            page.put(b"reserve granted, budget ");
            page.put_number(&numbers.second);
        }
        Event::Refused => page.put(b"reserve refused"),
        Event::Fault(fault) => {
            page.put(b"fault ");
            page.put(fault.name());
        }
    }
}

/// Appends the element of an event of a tick. Each `COPY` is code of its own, which knows its caller's event.
#[inline(always)]
fn put_happening<const COPY: u8>(
    page: &mut Page<'_>,
    numbers: &mut Numbers,
    scale: &Scale,
    tick: u64,
    event: &Event,
)
    requires { length page.old + ELEMENT_LEN ≤ PAGE_LEN }
    ensures text { page.new ≡ page.old ++ texts.mark_text scale.now.look numbers.old.task (mark tick event.now) }
    ensures short { length page.new ≤ length page.old + ELEMENT_LEN }
    ensures task { numbers.new.task ≡ numbers.old.task }
{
    numbers.first.go_to(tick);
    numbers.place.go_to(place(scale, tick, event));
    put_class(page, event);
    page.put_number(&numbers.task);
    page.put(b"\" data-tick=\"");
    page.put_number(&numbers.first);
    page.put(b"\" d=\"M");
    page.put_number(&numbers.place);
    put_shape(page, scale.look.marks, event);
    page.put(ink_and_title(event));
    page.put_number(&numbers.first);
    page.put(b": ");
    put_event::<COPY>(page, numbers, event);
    page.put(b"</title></path>\n");
}

/// Appends the element of a mark. The events of which there are most have code of their own each, which knows their texts.
#[inline(always)]
fn put_mark(page: &mut Page<'_>, numbers: &mut Numbers, scale: &Scale, mark: &Mark)
    requires { length page.old + ELEMENT_LEN ≤ PAGE_LEN }
    ensures text { page.new ≡ page.old ++ texts.mark_text scale.now.look numbers.old.task mark.now }
    ensures short { length page.new ≤ length page.old + ELEMENT_LEN }
    ensures task { numbers.new.task ≡ numbers.old.task }
{
    match mark.event {
        Event::Deadline => put_happening::<0>(page, numbers, scale, mark.tick, &Event::Deadline),
        Event::Postponed(old, new) => {
            put_happening::<1>(page, numbers, scale, mark.tick, &Event::Postponed(old, new));
        }
        _ => put_happening::<2>(page, numbers, scale, mark.tick, &mark.event),
    }
}

/// Appends the begin of a stretch's element, up to the number of its task: at most 40 bytes.
#[inline(always)]
fn put_stretch_begin(page: &mut Page<'_>, bar: Bar, over: bool)
    requires { length page.old + 40 ≤ PAGE_LEN }
    ensures text { page.new ≡ page.old ++ (codes "<rect class=\"" ++ texts.bar_class bar over ++ codes "\" data-task=\"") }
    ensures short { length page.new ≤ length page.old + 40 }
{
    match (bar, over) {
        (Bar::Run, false) => page.put(b"<rect class=\"run\" data-task=\""),
        (Bar::Run, true) => page.put(b"<rect class=\"run over\" data-task=\""),
        (Bar::Wait, false) => page.put(b"<rect class=\"wait\" data-task=\""),
        (Bar::Wait, true) => page.put(b"<rect class=\"wait over\" data-task=\""),
    }
}

/// Appends what stands between where a bar begins and its width: at most 20 bytes.
#[inline(always)]
fn put_bar_top(page: &mut Page<'_>, is_compact: bool, bar: Bar)
    requires { length page.old + 20 ≤ PAGE_LEN }
    ensures text { page.new ≡ page.old ++ (codes "\" y=\"" ++ texts.bar_top is_compact bar ++ codes "\" width=\"") }
    ensures short { length page.new ≤ length page.old + 20 }
{
    match (bar, is_compact) {
        (Bar::Run, false) => page.put(b"\" y=\"30\" width=\""),
        (Bar::Run, true) => page.put(b"\" y=\"8\" width=\""),
        (Bar::Wait, false) => page.put(b"\" y=\"38\" width=\""),
        (Bar::Wait, true) => page.put(b"\" y=\"13\" width=\""),
    }
}

/// Appends what stands between the width of a bar and its colour: at most 20 bytes.
#[inline(always)]
fn put_bar_height(page: &mut Page<'_>, is_compact: bool, bar: Bar)
    requires { length page.old + 20 ≤ PAGE_LEN }
    ensures text { page.new ≡ page.old ++ (codes "\" height=\"" ++ texts.bar_height is_compact bar ++ codes "\" fill=\"") }
    ensures short { length page.new ≤ length page.old + 20 }
{
    match (bar, is_compact) {
        (Bar::Run, false) => page.put(b"\" height=\"12\" fill=\""),
        (Bar::Run, true) => page.put(b"\" height=\"8\" fill=\""),
        (Bar::Wait, false) => page.put(b"\" height=\"4\" fill=\""),
        (Bar::Wait, true) => page.put(b"\" height=\"3\" fill=\""),
    }
}

/// Appends the colour of a bar: at most 11 bytes.
#[inline(always)]
fn put_bar_fill(page: &mut Page<'_>, bar: Bar, over: bool)
    requires { length page.old + 11 ≤ PAGE_LEN }
    ensures text { page.new ≡ page.old ++ texts.bar_fill bar over }
    ensures short { length page.new ≤ length page.old + 11 }
{
    match (bar, over) {
        (Bar::Run, false) => page.put(b"#7aa6d8"),
        (Bar::Run, true) => page.put(b"#f0a030"),
        (Bar::Wait, false) => page.put(b"#cbd5e1"),
        (Bar::Wait, true) => page.put(b"url(#hatch)"),
    }
}

/// Appends what the title of a bar says of its task: at most 15 bytes.
#[inline(always)]
fn put_bar_words(page: &mut Page<'_>, bar: Bar)
    requires { length page.old + 15 ≤ PAGE_LEN }
    ensures text { page.new ≡ page.old ++ texts.bar_words bar }
    ensures short { length page.new ≤ length page.old + 15 }
{
    match bar {
        Bar::Run => page.put(b", ticks "),
        Bar::Wait => page.put(b" waits, ticks "),
    }
}

/// How long the response of a stretch's job has become with its last tick, in ticks.
fn response_of(stretch: &Stretch) -> u64
    ensures { result ≡ texts.response stretch.now }
{
    stretch.to.saturating_sub(stretch.job.release)
}

/// Since which tick a stretch that is over its period is so.
fn over_since(stretch: &Stretch, period: u32) -> u64
    ensures { result ≡ texts.over_since period stretch.now }
{
    let over = response_of(stretch).saturating_sub(u64::from(period));
    stretch.to.saturating_sub(over)
}

/// Appends since when a stretch is over its period, where it is: at most 44 bytes.
#[inline(always)]
fn put_over(page: &mut Page<'_>, numbers: &mut Numbers, period: u32, stretch: &Stretch)
    requires { length page.old + 60 ≤ PAGE_LEN }
    ensures text { page.new ≡ page.old ++ texts.over_words stretch.now.over (texts.over_since period stretch.now) }
    ensures short { length page.new ≤ length page.old + 44 }
    ensures task { numbers.new.task ≡ numbers.old.task }
{
    if stretch.over {
        numbers.since.go_to(over_since(stretch, period));
        page.put(b", over the period since ");
        page.put_number(&numbers.since);
    }
}

/// Appends how far the job of a stretch has come with its last tick: at most 130 bytes.
#[inline(always)]
fn put_job(page: &mut Page<'_>, numbers: &mut Numbers, stretch: &Stretch)
    requires { length page.old + 140 ≤ PAGE_LEN }
    ensures text { page.new ≡ page.old ++ texts.job_words stretch.now }
    ensures short { length page.new ≤ length page.old + 130 }
    ensures task { numbers.new.task ≡ numbers.old.task }
{
    numbers.job.go_to(stretch.job.number);
    numbers.release.go_to(stretch.job.release);
    numbers.ticks.go_to(stretch.job.ticks);
    numbers.response.go_to(response_of(stretch));
    page.put(b"; job ");
    page.put_number(&numbers.job);
    page.put(b", released at ");
    page.put_number(&numbers.release);
    page.put(b", ");
    page.put_number(&numbers.ticks);
    page.put(b" ticks so far, response ");
    page.put_number(&numbers.response);
}

/// Appends the begin of a stretch's element, with its ticks: at most 130 bytes. Each kind of bar has code of its own, which is called
/// in one place.
#[inline(always)]
fn put_bar_begin<const RUN: bool, const OVER: bool>(
    page: &mut Page<'_>,
    numbers: &mut Numbers,
    bar: Bar,
    stretch: &Stretch,
)
    requires { length page.old + 150 ≤ PAGE_LEN }
    ensures text { page.new ≡ page.old ++ texts.bar_begin numbers.old.task bar stretch.now }
    ensures short { length page.new ≤ length page.old + 130 }
    ensures task { numbers.new.task ≡ numbers.old.task }
    ensures first { numbers.new.first ≡ stretch.now.from }
    ensures second { numbers.new.second ≡ stretch.now.to }
{
    numbers.first.go_to(stretch.from);
    numbers.second.go_to(stretch.to);
    put_stretch_begin(page, bar, stretch.over);
    page.put_number(&numbers.task);
    page.put(b"\" data-from=\"");
    page.put_number(&numbers.first);
    page.put(b"\" data-to=\"");
    page.put_number(&numbers.second);
}

/// Appends where a stretch is drawn: at most 120 bytes. Each kind of bar has code of its own, as in `put_bar_begin`.
#[inline(always)]
fn put_bar<const RUN: bool, const OVER: bool>(
    page: &mut Page<'_>,
    numbers: &mut Numbers,
    scale: &Scale,
    bar: Bar,
    stretch: &Stretch,
)
    requires { length page.old + 140 ≤ PAGE_LEN }
    ensures text { page.new ≡ page.old ++ texts.bar_place scale.now.look bar stretch.now }
    ensures short { length page.new ≤ length page.old + 120 }
    ensures task { numbers.new.task ≡ numbers.old.task }
    ensures first { numbers.new.first ≡ numbers.old.first }
    ensures second { numbers.new.second ≡ numbers.old.second }
{
    let place = scale.place(stretch.from);
    numbers.place.go_to(place);
    numbers.extent.go_to(scale.extent(place, stretch.to));
    page.put(b"\" x=\"");
    page.put_number(&numbers.place);
    put_bar_top(page, scale.look.style.is_compact, bar);
    page.put_number(&numbers.extent);
    put_bar_height(page, scale.look.style.is_compact, bar);
    put_bar_fill(page, bar, stretch.over);
}

/// Appends the title of a stretch, whose ticks are the numbers so far, and the end of its element: at most 840 bytes. Each kind of bar
/// has code of its own, as in `put_bar_begin`.
#[inline(always)]
fn put_bar_title<const RUN: bool, const OVER: bool>(
    page: &mut Page<'_>,
    numbers: &mut Numbers,
    title: &Kept,
    period: u32,
    bar: Bar,
    stretch: &Stretch,
)
    requires room { length page.old + 850 ≤ PAGE_LEN }
    requires first { numbers.old.first ≡ stretch.now.from }
    requires second { numbers.old.second ≡ stretch.now.to }
    ensures text { page.new ≡ page.old ++ titled_end title.now period bar stretch.now }
    ensures short { length page.new ≤ length page.old + 840 }
    ensures task { numbers.new.task ≡ numbers.old.task }
{
    page.put_kept(title);
    put_bar_words(page, bar);
    page.put_number(&numbers.first);
    page.put(b" to ");
    page.put_before(&numbers.second);
    put_over(page, numbers, period, stretch);
    put_job(page, numbers, stretch);
    page.put(b"</title></rect>\n");
}

/// Appends the element of a stretch, whose title begins so. Each kind of bar (`RUN`), over its period (`OVER`) or not, has code of its
/// own, which knows its texts.
#[inline(always)]
fn put_element<const RUN: bool, const OVER: bool>(
    page: &mut Page<'_>,
    numbers: &mut Numbers,
    scale: &Scale,
    title: &Kept,
    period: u32,
    bar: Bar,
    stretch: &Stretch,
)
    requires { length page.old + ELEMENT_LEN ≤ PAGE_LEN }
    ensures text { page.new ≡ page.old ++ titled_text scale.now.look numbers.old.task title.now period bar stretch.now }
    ensures short { length page.new ≤ length page.old + ELEMENT_LEN }
    ensures task { numbers.new.task ≡ numbers.old.task }
{
    put_bar_begin::<RUN, OVER>(page, numbers, bar, stretch);
    put_bar::<RUN, OVER>(page, numbers, scale, bar, stretch);
    put_bar_title::<RUN, OVER>(page, numbers, title, period, bar, stretch);
}

/// Appends the element of a stretch. One that is over the period has code of its own, which knows its texts.
#[inline(always)]
fn put_stretch<const RUN: bool>(
    page: &mut Page<'_>,
    numbers: &mut Numbers,
    scale: &Scale,
    title: &Kept,
    period: u32,
    bar: Bar,
    stretch: &Stretch,
)
    requires { length page.old + ELEMENT_LEN ≤ PAGE_LEN }
    ensures text { page.new ≡ page.old ++ titled_text scale.now.look numbers.old.task title.now period bar stretch.now }
    ensures short { length page.new ≤ length page.old + ELEMENT_LEN }
    ensures task { numbers.new.task ≡ numbers.old.task }
{
    let Stretch {
        from,
        to,
        over,
        job,
    } = *stretch;
    if over {
        let late = Stretch {
            from,
            to,
            over: true,
            job,
        };
        put_element::<RUN, true>(page, numbers, scale, title, period, bar, &late);
    } else {
        let early = Stretch {
            from,
            to,
            over: false,
            job,
        };
        put_element::<RUN, false>(page, numbers, scale, title, period, bar, &early);
    }
}

/// Fills an empty page as `fill_stretches` does, for one kind of bar (`RUN`).
#[inline(always)]
fn fill_bars<const RUN: bool>(
    page: &mut Page<'_>,
    numbers: &mut Numbers,
    scale: &Scale,
    title: &Kept,
    period: u32,
    bar: Bar,
    stretches: &[Stretch],
    from: usize,
) -> usize
    requires empty { page.old ≡ [] }
    requires some { from < length stretches.now }
    ensures onward { from < result }
    ensures within { result ≤ length stretches.now }
    ensures short { length page.new + ELEMENT_LEN * from ≤ ELEMENT_LEN * result }
    ensures task { numbers.new.task ≡ numbers.old.task }
    ensures text { let text = titled_text scale.now.look numbers.old.task title.now period bar in
        flat_map text (take result stretches.now) ≡ flat_map text (take from stretches.now) ++ page.new }
{
    let mut next = from;
    'elements: while next < stretches.len() && page.has_room() {
        put_stretch::<RUN>(page, numbers, scale, title, period, bar, &stretches[next]);
        next += 1;
    }
    next
}

/// Fills an empty page with the elements of the stretches from one on, and answers the first that had no more room, or their count.
/// Each kind of bar has code of its own, which knows its texts.
#[inline(always)]
pub(crate) fn fill_stretches(
    page: &mut Page<'_>,
    numbers: &mut Numbers,
    scale: &Scale,
    title: &Kept,
    period: u32,
    bar: Bar,
    stretches: &[Stretch],
    from: usize,
) -> usize
    requires empty { page.old ≡ [] }
    requires some { from < length stretches.now }
    ensures onward { from < result }
    ensures within { result ≤ length stretches.now }
    ensures short { length page.new + ELEMENT_LEN * from ≤ ELEMENT_LEN * result }
    ensures task { numbers.new.task ≡ numbers.old.task }
    ensures text { let text = titled_text scale.now.look numbers.old.task title.now period bar in
        flat_map text (take result stretches.now) ≡ flat_map text (take from stretches.now) ++ page.new }
{
    match bar {
        Bar::Run => fill_bars::<true>(
            page,
            numbers,
            scale,
            title,
            period,
            Bar::Run,
            stretches,
            from,
        ),
        Bar::Wait => fill_bars::<false>(
            page,
            numbers,
            scale,
            title,
            period,
            Bar::Wait,
            stretches,
            from,
        ),
    }
}

/// Fills an empty page with the elements of the marks from one on, and answers the first that had no more room, or their count.
#[inline(always)]
pub(crate) fn fill_marks(
    page: &mut Page<'_>,
    numbers: &mut Numbers,
    scale: &Scale,
    marks: &[Mark],
    from: usize,
) -> usize
    requires empty { page.old ≡ [] }
    requires some { from < length marks.now }
    ensures onward { from < result }
    ensures within { result ≤ length marks.now }
    ensures short { length page.new + ELEMENT_LEN * from ≤ ELEMENT_LEN * result }
    ensures task { numbers.new.task ≡ numbers.old.task }
    ensures text { let text = texts.mark_text scale.now.look numbers.old.task in
        flat_map text (take result marks.now) ≡ flat_map text (take from marks.now) ++ page.new }
{
    let mut next = from;
    'elements: while next < marks.len() && page.has_room() {
        put_mark(page, numbers, scale, &marks[next]);
        next += 1;
    }
    next
}
