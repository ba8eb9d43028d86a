//! Options that clap reads, and that mean nothing.

ghost use Rattle.std.specs.Prelude.{◌≡◌, ◌⊎◌, ℕ, [], Some, is_some, IfSome, IfNone};
ghost use Rattle.rt_waves.specs.declared.scale.Scale.{Scale};
ghost use Rattle.rt_arguments.specs.Words.{scale_word, IsAddress, is_numeric, MeansEntry, data_symbol, data_path, Lays};

use crate::host::{Entry, EntryName, Escaped, LaidFile, Scale, ScaleCount, TimeUnit};
use clap::ArgMatches;
use rt_token::number;
use std::fmt;

/// The address that a word spells, by a number as in assembly text.
fn address_of(word: &str) -> Option<u32>
    ensures spells { IfSome result (IsAddress word.now) }
    ensures whole { (address : ℕ) → IsAddress word.now address → result ≡ Some address }
{
    u32::try_from(number(word.as_bytes())?).ok()
}

/// Whether a word is to be a number, and not a name.
fn is_numeric(word: &str) -> bool
    ensures { result ≡ is_numeric word.now }
{
    matches!(word.as_bytes(), [b'0'..=b'9' | b'-' | b'+', ..])
}

/// What `--entry` means: an address, or a name where there is a list of names.
pub(crate) fn entry_of<'a>(word: &'a str, symbols: Option<&str>) -> Option<Entry<'a>>
    ensures { MeansEntry word.now (is_some symbols.entry) result }
{
    match address_of(word) {
        Some(address) => Some(Entry::Address(address)),
        None if is_numeric(word) || symbols.is_none() => None,
        None => Some(Entry::Name(word)),
    }
}

/// What `--timescale` means: a count, and behind it a unit.
pub(crate) fn scale_of(word: &str) -> Option<Scale>
    ensures spells { IfSome result (λ scale. word.now ≡ scale_word scale) }
    ensures whole { (scale : Scale) → word.now ≡ scale_word scale → result ≡ Some scale }
{
    let (count, unit) = match word.as_bytes() {
        [b'1', b'0', b'0', unit @ ..] => (ScaleCount::Hundred, unit),
        [b'1', b'0', unit @ ..] => (ScaleCount::Ten, unit),
        [b'1', unit @ ..] => (ScaleCount::One, unit),
        _ => return None,
    };
    let unit = match unit {
        [b's'] => TimeUnit::Seconds,
        [b'm', b's'] => TimeUnit::Milliseconds,
        [b'u', b's'] => TimeUnit::Microseconds,
        [b'n', b's'] => TimeUnit::Nanoseconds,
        [b'p', b's'] => TimeUnit::Picoseconds,
        [b'f', b's'] => TimeUnit::Femtoseconds,
        _ => return None,
    };
    Some(Scale { count, unit })
}

/// What `--data` means: a symbol, `=`, and the path of a file, of which `-` is the standard input.
pub(crate) fn laid_file(word: &str) -> Option<LaidFile<'_>>
    ensures some { IfSome result (Lays word.now) }
    ensures none { IfNone result ((data_symbol word.now ≡ []) ⊎ (data_path word.now ≡ [])) }
{
    match word.split_once('=') {
        Some(("", _) | (_, "")) | None => None,
        Some((symbol, "-")) => Some(LaidFile {
            symbol,
            path: "/dev/stdin",
        }),
        Some((symbol, path)) => Some(LaidFile { symbol, path }),
    }
}

/// The first word of `--data` that means nothing, if one does.
pub(crate) fn no_file<'a>(matches: &ArgMatches<'a>) -> Option<&'a str> {
    for word in matches.get_strs("data")? {
        if laid_file(*word).is_none() {
            return Some(*word);
        }
    }
    None
}

/// An option that means nothing.
#[derive(Clone, Copy)]
pub enum Misread<'a> {
    /// `--entry` with a word that is no address.
    Entry(&'a str),
    /// `--entry` with a name, and no list of names.
    NameWithoutList(&'a str),
    /// A window that passes the last tick.
    Window,
    /// `--timescale` with a word that is no scale.
    Scale(&'a str),
    /// `--name` with a word that is no name.
    EntryName(&'a str),
    /// `--data` with a word that names no symbol or no file.
    Data(&'a str),
}

impl<'a> Misread<'a> {
    /// The option of a command that asks for nothing.
    pub fn of(matches: &ArgMatches<'a>) -> Option<Misread<'a>> {
        let (name, matches) = matches.subcommand()?;
        if let Some(word) = matches.get_str("name")
            && EntryName::new(word).is_none()
        {
            return Some(Misread::EntryName(word));
        }
        if let Some(word) = no_file(matches) {
            return Some(Misread::Data(word));
        }
        match name {
            "image" => {
                let word: &'a str = matches.get_str("entry")?;
                if is_numeric(word) {
                    Some(Misread::Entry(word))
                } else {
                    Some(Misread::NameWithoutList(word))
                }
            }
            "chart" | "trace" => Some(Misread::Window),
            "vcd" => {
                let word: &'a str = matches.get_str("timescale")?;
                match scale_of(word) {
                    Some(_) => Some(Misread::Window),
                    None => Some(Misread::Scale(word)),
                }
            }
            _ => None,
        }
    }
}

impl fmt::Display for Misread<'_> {
    fn fmt<W: fmt::Write>(&self, f: &mut fmt::Formatter<W>) -> fmt::Result {
        match self {
            Misread::Entry(word) => write!(
                f,
                "--entry {}: an address is 0 to 0xffffffff, as 0x80000000",
                Escaped::line(word)
            ),
            Misread::NameWithoutList(word) => write!(
                f,
                "--entry {}: a name needs --symbols NM; an address begins with 0x",
                Escaped::line(word)
            ),
            Misread::Window => f.write_str("--from, --ticks: the last tick is 1099511627775"),
            Misread::Scale(word) => write!(
                f,
                "--timescale {}: 1, 10 or 100 of s, ms, us, ns, ps or fs, as 10us",
                Escaped::line(word)
            ),
            Misread::EntryName(word) => write!(
                f,
                "--name {}: at most 64 letters, digits, `_`, `.` and `$`; the first is no digit",
                Escaped::line(word)
            ),
            Misread::Data(word) => write!(
                f,
                "--data {}: wanted SYMBOL=FILE, as samples=run1.bin",
                Escaped::line(word)
            ),
        }
    }
}
