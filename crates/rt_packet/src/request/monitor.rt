//! The lines of `monitor`.

ghost use Rattle.std.specs.Prelude.{◌≡◌};
ghost use Rattle.rt_packet.specs.request.MonitorLine.{at_word, begins_with, wanted_for, shown_by, monitor_of};

use rt_command::{Command, Place, Whose, parse_command};
use rt_points::Event;
use rt_token::{after_keyword, decimal_up_to};
use rt_words::{MAX_LINE, MAX_TICKS};

/// What is wanted in place of a line that is none: what goes with its first word, or any line.
#[derive(Clone, Copy, Debug, PartialEq, Eq)]
pub enum Wanted {
    Line,
    At,
    Where,
    Regs,
    Server,
    Mem,
    List,
    Out,
    Trace,
    Stop,
}

/// What a line of `monitor` asks for.
#[derive(Debug, Drop)]
pub enum Monitor<'a> {
    /// `at t`: runs stop at tick t too, 0 to 2^40; `at none`: they don't any more.
    At(Option<u64>),
    /// `at`: at which tick they do.
    Asked,
    /// `stop word task`: runs stop where this happens to this task too, or, without one, to any; `unstop word task`: they don't any more.
    Events {
        event: Event,
        whose: Whose<'a>,
        is_asked: bool,
    },
    /// `help`: the lines that there are.
    Help,
    /// A command of the debugger that only shows.
    Look(Command<'a>),
    /// Every other line, and what is wanted in its place.
    Unknown(Wanted),
}

/// What `at` says by its word.
fn at_word(word: &[u8]) -> Monitor<'static>
    ensures { result ≡ at_word word.now }
{
    if word == b"none".as_slice() {
        return Monitor::At(None);
    }
    match decimal_up_to(MAX_TICKS, word) {
        Some(tick) => Monitor::At(Some(tick)),
        None => Monitor::Unknown(Wanted::At),
    }
}

/// A command where it only shows, and nothing at a symbol: gdb has its own; or where it asks for an event.
fn shown_by(command: Command<'_>) -> Monitor<'_>
    ensures { result ≡ shown_by command.entry }
{
    match command {
        Command::Mem {
            place: Place::Symbol(_),
            ..
        } => Monitor::Unknown(Wanted::Mem),
        Command::List {
            place: Place::Symbol(_),
            ..
        } => Monitor::Unknown(Wanted::List),
        Command::Shown
        | Command::Regs(_)
        | Command::Server(_)
        | Command::Mem { .. }
        | Command::List { .. }
        | Command::Out(_)
        | Command::Trace(_) => Monitor::Look(command),
        Command::Events {
            event,
            whose,
            is_asked,
        } => Monitor::Events {
            event,
            whose,
            is_asked,
        },
        _ => Monitor::Unknown(Wanted::Line),
    }
}

/// Whether the first word of a line is this.
fn begins_with(word: &[u8], line: &[u8]) -> bool
    ensures { result ≡ begins_with word.now line.now }
{
    line == word || after_keyword(word, line).is_some()
}

/// What is wanted in place of a line that is no command.
fn wanted_for(line: &[u8]) -> Wanted
    ensures { result ≡ wanted_for line.now }
{
    if begins_with(b"where", line) {
        Wanted::Where
    } else if begins_with(b"regs", line) {
        Wanted::Regs
    } else if begins_with(b"server", line) {
        Wanted::Server
    } else if begins_with(b"mem", line) {
        Wanted::Mem
    } else if begins_with(b"list", line) {
        Wanted::List
    } else if begins_with(b"out", line) {
        Wanted::Out
    } else if begins_with(b"trace", line) {
        Wanted::Trace
    } else if begins_with(b"stop", line) || begins_with(b"unstop", line) {
        Wanted::Stop
    } else {
        Wanted::Line
    }
}

/// Reads a line of `monitor`, without its end. Takes no memory.
pub fn parse_monitor(line: &[u8]) -> Monitor<'_>
    ensures { result ≡ monitor_of line.now }
{
    if line.len() > MAX_LINE as usize {
        return Monitor::Unknown(Wanted::Line);
    }
    if line == b"help".as_slice() {
        return Monitor::Help;
    }
    if line == b"at".as_slice() {
        return Monitor::Asked;
    }
    if let Some(word) = after_keyword(b"at", line) {
        return at_word(word);
    }
    match parse_command(line) {
        Ok(command) => shown_by(command),
        Err(_) => Monitor::Unknown(wanted_for(line)),
    }
}
