//! Which word of a line is refused.

ghost use Rattle.std.specs.Prelude.{◌≡◌};
ghost use Rattle.std.specs.Option.{option_map};
ghost use Rattle.rt_words.specs.Found.{Finds};
ghost use Rattle.rt_set.specs.Misfit.{cut, is_right, behind, form_after, misfit_in, word_in, misfit_of, misfit_entry};

use crate::lines::path_of;
use crate::numbers::decimal_of;
use rt_token::word_at;
use rt_words::is_ram_size;

/// What a word of a line is to be.
#[derive(Clone, Copy)]
pub enum WordKind {
    /// `hyper`.
    Hyper,
    /// The hyperperiod: a number below 2^32.
    Ticks,
    /// No word: the line ends before.
    End,
    /// `task` or `task-split`.
    Task,
    /// A number below 2^32.
    Budget,
    /// A number below 2^32.
    Period,
    /// A number below 2^32.
    Start,
    /// A multiple of 4, from 4 to 1,048,576.
    Ram,
    /// The rest of the line: text, and not empty.
    Path,
    /// No word, as 256 task lines stand before.
    Nothing,
}

/// The first word of a line that isn't what it is to be. It borrows from the line.
#[derive(Clone, Copy)]
pub struct Misfit<'a> {
    /// What the word is to be.
    pub kind: WordKind,
    /// Its first byte, counted from 0: the line's length where the line ends before it, and the blank
    /// behind the last word where the line is to end there.
    pub start: usize,
    /// Its bytes.
    pub word: &'a [u8],
}

const HYPER_FORM: [WordKind; 3] = [WordKind::Hyper, WordKind::Ticks, WordKind::End];

const TASK_FORM: [WordKind; 6] = [
    WordKind::Task,
    WordKind::Budget,
    WordKind::Period,
    WordKind::Start,
    WordKind::Ram,
    WordKind::Path,
];

const NO_FORM: [WordKind; 1] = [WordKind::Nothing];

/// A word, and what stands behind the blank that ends it, if one does.
fn cut(rest: &[u8]) -> (&[u8], Option<&[u8]>)
    ensures { (result.0.now, option_map (λ after. after.now) result.1) ≡ cut rest.now }
{
    match word_at(rest) {
        Some((word, after)) => (word, Some(after)),
        None => (rest, None),
    }
}

/// Whether a word between blanks is what it is to be.
fn is_right(kind: WordKind, word: &[u8]) -> bool
    ensures { result ≡ is_right kind word.now }
{
    match kind {
        WordKind::Hyper => word == b"hyper".as_slice(),
        WordKind::Task => word == b"task".as_slice() || word == b"task-split".as_slice(),
        WordKind::Ram => match decimal_of(word) {
            Some(size) => is_ram_size(size),
            None => false,
        },
        WordKind::Ticks | WordKind::Budget | WordKind::Period | WordKind::Start => {
            decimal_of(word).is_some()
        }
        WordKind::End | WordKind::Path | WordKind::Nothing => false,
    }
}

/// What is left of a line behind a word that is what it is to be. None where another word stands there.
fn behind(kind: WordKind, left: Option<&[u8]>) -> Option<Option<&[u8]>>
    ensures { Finds (λ next. option_map (λ rest. rest.now) next) result (behind kind (option_map (λ rest. rest.now) left.entry)) }
{
    match (kind, left) {
        (WordKind::End, None) => Some(None),
        (_, None) => None,
        (WordKind::Path, Some(rest)) => match path_of(rest) {
            Some(_) => Some(None),
            None => None,
        },
        (_, Some(rest)) => {
            let (word, after) = cut(rest);
            if is_right(kind, word) {
                Some(after)
            } else {
                None
            }
        }
    }
}

/// What the words of a line are to be behind so many lines that say something.
fn form_after(said: u64) -> &'static [WordKind]
    ensures { result.now ≡ form_after said }
{
    match said {
        0 => &HYPER_FORM,
        1..=256 => &TASK_FORM,
        _ => &NO_FORM,
    }
}

/// The first word that isn't what it is to be, by what is left of the line from there on.
fn misfit_in<'a>(form: &[WordKind], line: &'a [u8]) -> Option<(WordKind, Option<&'a [u8]>)>
    ensures { Finds (λ x. (x.0, option_map (λ rest. rest.now) x.1)) result (misfit_in form.now (Some line.now)) }
{
    let mut left = Some(line);
    for kind in form {
        match behind(*kind, left) {
            Some(next) => left = next,
            None => return Some((*kind, left)),
        }
    }
    None
}

/// The bytes of a word at the front of others.
fn word_in(kind: WordKind, tail: &[u8]) -> &[u8]
    ensures { result.now ≡ word_in kind tail.now }
{
    match kind {
        WordKind::Path | WordKind::End => tail,
        _ => cut(tail).0,
    }
}

/// The word for which a line is refused that says something: the first that isn't what it is to be behind so many lines that say
/// something. None where the line may follow them.
pub fn first_misfit(line: &[u8], said: u64) -> Option<Misfit<'_>>
    ensures { Finds misfit_entry result (misfit_of said line.now) }
{
    let (kind, left) = misfit_in(form_after(said), line)?;
    let rest = left.unwrap_or(b"");
    let place = line.len().saturating_sub(rest.len());
    let start = match kind {
        WordKind::End => place.saturating_sub(1),
        _ => place,
    };
    let word = word_in(kind, &line[start..]);
    Some(Misfit { kind, start, word })
}
