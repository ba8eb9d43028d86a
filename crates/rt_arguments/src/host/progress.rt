//! The line on a terminal that tells how far a run has come.

use crate::host::terminals::Terminals;
use rt_perform::{Beat, FileText, Request};
use std::cell::Cell;
use std::fmt::{self, Display};
use std::time::{Clock, Instant};

/// How many milliseconds lie between two lines at least, and before the first.
const PAUSE: u64 = 1_000;

/// Of so many lines the pace is taken: ten seconds.
const PACE: usize = 10;

/// When a run had come to a tick, in milliseconds since it began.
#[derive(Clone, Copy)]
struct Mark {
    millis: u64,
    tick: u64,
}

/// How far a run is to go.
#[derive(Clone, Copy)]
enum End {
    /// To this tick.
    Tick(u64),
    /// Until so many jobs are finished, whose ticks nobody knows before.
    Jobs(u64),
}

/// Which tick comes next, how far the run is to go, and how many seconds are left, if the end and a pace are known.
#[derive(Drop)]
struct Line {
    tick: u64,
    end: End,
    left: Option<u64>,
}

/// How many seconds are left up to tick `end`, by the pace from one mark to another.
fn seconds_left(end: u64, from: Mark, to: Mark) -> Option<u64> {
    let ticks = to.tick.saturating_sub(from.tick);
    let millis = to.millis.saturating_sub(from.millis);
    let rest = end.saturating_sub(to.tick).saturating_mul(millis);
    rest.checked_div(ticks).map(|millis| millis / 1_000)
}

impl Line {
    /// That of a run, by the pace from one mark to another.
    fn of(end: End, from: Mark, to: Mark) -> Line {
        let left = match end {
            End::Tick(end) => seconds_left(end, from, to),
            End::Jobs(_) => None,
        };
        Line {
            tick: to.tick,
            end,
            left,
        }
    }
}

impl Display for Line {
    fn fmt<W: fmt::Write>(&self, f: &mut fmt::Formatter<W>) -> fmt::Result {
        write!(f, "tick {}", self.tick)?;
        match self.end {
            End::Tick(end) => {
                let share = self
                    .tick
                    .saturating_mul(1_000)
                    .checked_div(end)
                    .unwrap_or(0);
                write!(f, " of {end}, {}.{} %", share / 10, share % 10)?;
            }
            End::Jobs(jobs) => write!(f, ", for {jobs} jobs")?,
        }
        match self.left {
            None => Ok(()),
            Some(seconds) if seconds < 60 => write!(f, ", {seconds} s left"),
            Some(seconds) if seconds < 3_600 => write!(f, ", {} min left", seconds / 60),
            Some(seconds) => write!(f, ", {} h {} min left", seconds / 3_600, seconds / 60 % 60),
        }
    }
}

/// What lines of a text begin with before the tick that they tell.
const TICK: &[u8] = b"";

/// The same of waves.
const WAVES: &[u8] = b"#";

/// How far a request runs, if it follows a run, and what the lines of its text have before the ticks that they tell, if they do.
fn run_of(request: Request<'_>) -> Option<(End, Option<&'static [u8]>)> {
    let Request::Print { text, .. } = request else {
        return None;
    };
    let (end, before) = match text {
        FileText::Solo { ticks, .. } | FileText::Run { ticks } => (ticks, Some(TICK)),
        FileText::SoloPart { ticks, .. } | FileText::RunPart { ticks, .. } => (ticks, None),
        FileText::Report { ticks, .. } | FileText::Jobs { ticks, .. } => (ticks, None),
        FileText::Profile { ticks, .. } => (ticks, None),
        FileText::Chart { window, .. } => (window.to, None),
        FileText::Waves { from, ticks, .. } => (from.saturating_add(ticks), Some(WAVES)),
        FileText::Trace { from, ticks, .. } => (from.saturating_add(ticks), Some(TICK)),
        FileText::Certificate(question) | FileText::Certificates(question) => {
            return Some((End::Jobs(question.jobs), None));
        }
        _ => return None,
    };
    Some((End::Tick(end), before))
}

/// The tick that a line tells behind this, if it tells one.
fn tick_of(line: &[u8], before: &[u8]) -> Option<u64> {
    if !line.starts_with(before) {
        return None;
    }
    let mut tick = None;
    for byte in line.iter().skip(before.len()) {
        if !byte.is_ascii_digit() {
            break;
        }
        let digit = u64::from(byte.saturating_sub(b'0'));
        tick = Some(
            tick.unwrap_or(0_u64)
                .saturating_mul(10)
                .saturating_add(digit),
        );
    }
    tick
}

/// Tells on the standard error how far a run has come, where a terminal shows it: from the second second on, a line in place of the last,
/// at most once a second. Nothing is left of it before another line.
#[derive(Drop)]
pub struct Progress<'a, R> {
    rt: &'a R,
    /// How far the run goes.
    end: End,
    /// What stands before each tick that its text tells.
    before: Option<&'static [u8]>,
    /// Whether the text goes to a terminal too.
    is_beside: bool,
    /// When it began; none where nothing is shown.
    begin: Option<Instant>,
    /// When the last lines were shown.
    marks: Cell<[Mark; PACE]>,
    is_shown: Cell<bool>,
}

impl<'a, R: Eprint + Clock> Progress<'a, R> {
    /// That of a request, which tells nothing where no terminal shows it, or there is no clock.
    pub fn new(rt: &'a R, request: Request<'_>, terminals: Terminals) -> Progress<'a, R> {
        let run = run_of(request);
        let (end, before) = run.unwrap_or((End::Tick(0), None));
        let begin = if terminals.error && run.is_some() {
            Instant::now(rt).ok()
        } else {
            None
        };
        Progress {
            rt,
            end,
            before,
            is_beside: terminals.output,
            begin,
            marks: Cell::new([Mark { millis: 0, tick: 0 }; PACE]),
            is_shown: Cell::new(false),
        }
    }

    /// Takes the line away. There is nothing left to do where that fails.
    pub fn clear(&self) {
        if self.is_shown.get() {
            self.is_shown.set(false);
            let _ = eprint!(self.rt; "\x1b[K");
        }
    }

    /// Makes way for bytes of the text.
    pub fn before_text(&self) {
        if self.is_beside {
            self.clear();
        }
    }

    /// Hears the last tick that these bytes of the text tell, if it tells ticks.
    pub fn hear(&self, text: &[u8]) {
        let (Some(before), Some(_)) = (self.before, &self.begin) else {
            return;
        };
        // The first line and the last may be cut.
        let Some(first) = text.iter().position(|byte| *byte == b'\n') else {
            return;
        };
        for line in text[first..].rsplit(|byte| *byte == b'\n').skip(1) {
            if let Some(tick) = tick_of(line, before) {
                self.beat(tick);
                return;
            }
        }
    }

    /// How many milliseconds the run has taken, if that is known.
    fn millis(&self) -> Option<u64> {
        match &self.begin {
            Some(begin) => u64::try_from(begin.elapsed(self.rt).ok()?.as_millis()).ok(),
            None => None,
        }
    }

    /// Shows how far it has come, by the pace since the first of the last lines.
    fn show(&self, mark: Mark) {
        let mut marks = self.marks.get();
        let line = Line::of(self.end, marks[0], mark);
        marks.copy_within(1.., 0);
        marks[PACE - 1] = mark;
        self.marks.set(marks);
        self.is_shown.set(true);
        // There is nothing left to do where this fails.
        let _ = eprint!(self.rt; "{line}\x1b[K\r");
    }
}

impl<R: Eprint + Clock> Beat for Progress<'_, R> {
    fn beat(&self, tick: u64) {
        let Some(millis) = self.millis() else {
            return;
        };
        let last = self.marks.get()[PACE - 1];
        if millis >= last.millis.saturating_add(PAUSE) {
            self.show(Mark { millis, tick });
        }
    }
}
