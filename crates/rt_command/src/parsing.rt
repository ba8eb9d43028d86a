//! How a command line is read.

ghost use Rattle.std.specs.Prelude.{◌≡◌, ◌≤◌, ◌↔◌, length, Ok, IfSome};
ghost use Rattle.std.specs.Option.{option_map};
ghost use Rattle.rt_words.specs.Limits.{line_limit};
ghost use Rattle.rt_token.specs.Number.{magnitude, after_zero};
ghost use Rattle.rt_token.specs.SpacedWords.{decimal_up_to};
ghost use Rattle.rt_command.specs.declared.command.Command.{Command};
ghost use Rattle.rt_command.specs.Commands.{number_limit, IsCommand};
ghost use Rattle.rt_command.specs.CommandLine.{words, words_of, counted, place_of, whose_of, of_every, of_one, alone, with_one, with_two, with_three, in_words, command_of};

use crate::command::{Command, Name, Place, Whose};
use crate::refusal::Refusal;
use crate::verb::{Verb, verb_of};
use rt_points::Event;
use rt_token::{decimal_up_to, is_word, value_up_to, word_at};
use rt_words::{MAX_LINE, MAX_TICKS, MAX_WORD};

/// The ticks of `continue` where no number is given.
const CONTINUE_TICKS: u64 = 1_000_000;

/// The most bytes that `mem` shows, the most words of `list`, and the most entries of `trace`.
const MOST_BYTES: u64 = 256;

const MOST_WORDS: u64 = 64;

const MOST_ENTRIES: u64 = 256;

/// The first word of a line, and what stands after the space that ends it.
fn cut_word(line: &[u8]) -> (&[u8], Option<&[u8]>)
    ensures { words line.now ≡ words_of result.0.now (option_map (λ x. x.now) result.1) }
{
    match word_at(line) {
        Some((word, rest)) => (word, Some(rest)),
        None => (line, None),
    }
}

/// A count from 1 to `limit`.
fn counted(limit: u64, digits: &[u8]) -> Option<u64>
    ensures value { result ≡ counted limit digits.now }
    ensures within { IfSome result (λ count. count ≤ limit) }
{
    let count = decimal_up_to(limit, digits)?;
    if count >= 1 { Some(count) } else { None }
}

/// The number of a task or a stop.
fn numbered(digits: &[u8]) -> Option<u32>
    ensures { result ≡ decimal_up_to number_limit digits.now }
{
    let number = decimal_up_to(MAX_WORD, digits)?;
    Some(number as u32)
}

/// What an address may be after its first digit 0.
fn after_zero(bytes: &[u8]) -> Option<u64>
    ensures value { result ≡ after_zero number_limit bytes.now }
    ensures within { IfSome result (λ value. value ≤ number_limit) }
{
    match bytes.split_first() {
        None => Some(0),
        Some((b'x' | b'X', digits)) => value_up_to(MAX_WORD, 16, digits),
        Some((b'b' | b'B', digits)) => value_up_to(MAX_WORD, 2, digits),
        Some(_) => None,
    }
}

/// An address: a number of assembly text without `-`.
fn address_of(bytes: &[u8]) -> Option<u32>
    ensures { result ≡ magnitude number_limit bytes.now }
{
    let value = match bytes.split_first()? {
        (b'0', rest) => after_zero(rest)?,
        _ => value_up_to(MAX_WORD, 10, bytes)?,
    };
    Some(value as u32)
}

/// A place: a symbol where it is a word, else an address.
fn place_of(bytes: &[u8]) -> Option<Place<'_>>
    ensures { result ≡ place_of bytes.now }
{
    if is_word(bytes) {
        return Some(Place::Symbol(Name { bytes }));
    }
    Some(Place::Address(address_of(bytes)?))
}

/// Of which task an event is: of a name where it is a word, else of a number.
fn whose_of(text: &[u8]) -> Option<Whose<'_>>
    ensures { result ≡ whose_of text.now }
{
    if is_word(text) {
        return Some(Whose::Named(Name { bytes: text }));
    }
    Some(Whose::Number(numbered(text)?))
}

/// An event that is asked for of every task, or no more.
fn of_every(is_asked: bool, word: &[u8]) -> Option<Command<'static>>
    ensures { result ≡ of_every is_asked word.now }
{
    Some(Command::Events {
        event: Event::named(word)?,
        whose: Whose::Every,
        is_asked,
    })
}

/// The same of one task.
fn of_one<'a>(is_asked: bool, word: &[u8], task: &'a [u8]) -> Option<Command<'a>>
    ensures { result ≡ of_one is_asked word.now task.now }
{
    Some(Command::Events {
        event: Event::named(word)?,
        whose: whose_of(task)?,
        is_asked,
    })
}

/// A command of one word.
fn alone(verb: Verb) -> Option<Command<'static>>
    ensures { result ≡ alone verb }
{
    match verb {
        Verb::Step => Some(Command::Step(1)),
        Verb::Back => Some(Command::Back(1)),
        Verb::Continue => Some(Command::Continue(CONTINUE_TICKS)),
        Verb::Where => Some(Command::Shown),
        Verb::Quit => Some(Command::Quit),
        _ => None,
    }
}

/// A command of two words.
fn with_one(verb: Verb, word: &[u8]) -> Option<Command<'static>>
    ensures { result ≡ with_one verb word.now }
{
    match verb {
        Verb::Step => Some(Command::Step(counted(MAX_TICKS, word)?)),
        Verb::Back => Some(Command::Back(counted(MAX_TICKS, word)?)),
        Verb::Continue => Some(Command::Continue(counted(MAX_TICKS, word)?)),
        Verb::Regs => Some(Command::Regs(numbered(word)?)),
        Verb::Server => Some(Command::Server(numbered(word)?)),
        Verb::Out => Some(Command::Out(numbered(word)?)),
        Verb::Trace => Some(Command::Trace(counted(MOST_ENTRIES, word)? as u32)),
        Verb::Delete => Some(Command::Delete(numbered(word)?)),
        Verb::Stop => of_every(true, word),
        Verb::Unstop => of_every(false, word),
        _ => None,
    }
}

/// A command of three words.
fn with_two<'a>(verb: Verb, first: &[u8], second: &'a [u8]) -> Option<Command<'a>>
    ensures { result ≡ with_two verb first.now second.now }
{
    match verb {
        Verb::Break => Some(Command::Break {
            task: numbered(first)?,
            place: place_of(second)?,
        }),
        Verb::Stop => of_one(true, first, second),
        Verb::Unstop => of_one(false, first, second),
        _ => None,
    }
}

/// A command of four words.
fn with_three<'a>(verb: Verb, task: &[u8], place: &'a [u8], count: &[u8]) -> Option<Command<'a>>
    ensures { result ≡ with_three verb task.now place.now count.now }
{
    match verb {
        Verb::Mem => Some(Command::Mem {
            task: numbered(task)?,
            place: place_of(place)?,
            count: counted(MOST_BYTES, count)? as u32,
        }),
        Verb::List => Some(Command::List {
            task: numbered(task)?,
            place: place_of(place)?,
            count: counted(MOST_WORDS, count)? as u32,
        }),
        _ => None,
    }
}

/// The command of a line's words.
fn in_words(line: &[u8]) -> Option<Command<'_>>
    ensures { result ≡ in_words (words line.now) }
{
    let (name, rest) = cut_word(line);
    let verb = verb_of(name)?;
    let Some(rest) = rest else {
        return alone(verb);
    };
    let (first, rest) = cut_word(rest);
    let Some(rest) = rest else {
        return with_one(verb, first);
    };
    let (second, rest) = cut_word(rest);
    let Some(rest) = rest else {
        return with_two(verb, first, second);
    };
    let (third, rest) = cut_word(rest);
    if rest.is_some() {
        return None;
    }
    with_three(verb, first, second, third)
}

/// Reads a command line without its end: words that single spaces separate, at most 512 bytes. Takes no memory.
///
/// # Errors
///
/// `UnknownCommand` for every line that is no command: of another shape, or with a number out of range.
pub fn parse_command(line: &[u8]) -> Result<Command<'_>, Refusal>
    ensures exact { result ≡ command_of line.now }
    ensures grammar { (c : Command) → (result ≡ Ok c) ↔ ((length line.now ≤ line_limit) × IsCommand line.now c) }
{
    if line.len() > MAX_LINE as usize {
        return Err(Refusal::UnknownCommand);
    }
    in_words(line).ok_or(Refusal::UnknownCommand)
}
