//! Which word of a line is refused.

ghost use Rattle.std.specs.Prelude.{◌≡◌, ◌+◌, ◌<◌, ◌≤◌, ◌^◌, false, length, IfOk};
ghost use Rattle.std.specs.Char.{is_ascii};
ghost use Rattle.std.specs.List.{prefix_len};
ghost use Rattle.rt_token.specs.Tokens.{is_escape, is_printable};
ghost use Rattle.rt_text.specs.FlawedWord.{flawed_byte};
ghost use Rattle.rt_text.specs.NoToken.{tokens_len, string_piece, no_token_behind};
ghost use Rattle.rt_text.specs.RefusedWord.{no_number, no_name, word_among, word_of, refused_word};

mod misfits;

use crate::fault::TextKind;
use crate::line::{is_good, labels_of, line_at};
use misfits::misfit;
use rt_token::{Piece, Span, Token, cut_tokens};
use std::alloc::{AllocError, Global};

/// What is wrong with a word.
#[derive(Clone, Copy)]
pub enum Flaw {
    /// It is the whole line, which has over 512 bytes.
    TooLong,
    /// It is a byte over 127.
    NotAscii,
    /// It is a byte that begins no token.
    Byte,
    /// It is a byte that may not stand in a string.
    InString,
    /// It is an escape that no string has.
    Escape,
    /// It is a string without an end.
    Endless,
    /// It begins as a number and is none.
    Number,
    /// No statement has this name.
    Name,
    /// No name of a statement is written so.
    NoName,
    /// It is an operand that fits no form of the name that lies here; the name itself where an operand
    /// is missing.
    Operand(Span),
}

/// The word for which a line is refused.
#[derive(Clone, Copy)]
pub struct RefusedWord {
    /// What is wrong with it.
    pub flaw: Flaw,
    /// Where it lies, in bytes of the text.
    pub span: Span,
}

impl RefusedWord {
    ghost use Rattle.rt_text.specs.FlawedWord.{flawed, flawed_slice};

    /// The bytes of a line from `start` to `end`.
    fn new(flaw: Flaw, start: usize, end: usize) -> RefusedWord
        ensures { result ≡ flawed flaw start end }
    {
        let span = Span { start, end };
        RefusedWord { flaw, span }
    }

    fn of(flaw: Flaw, word: &Piece<'_>) -> RefusedWord
        ensures { result ≡ flawed_slice flaw word.now }
    {
        let span = word.span();
        RefusedWord { flaw, span }
    }
}

/// The word for which a line, without its end, is refused whose first byte lies at `place`. None where it isn't refused.
///
/// # Errors
/// Want of memory.
pub fn refused_word(
    alloc: Global,
    place: usize,
    line: &[u8],
) -> Result<Option<RefusedWord>, AllocError>
    requires { place + length line.now < 2 ^ 63 }
    ensures { IfOk result (λ found. found ≡ refused_word place line.now) }
{
    let mut tokens = Vec::new(alloc);
    match line_at(alloc, &mut tokens, &mut None, place, line)? {
        Ok(_) => Ok(None),
        Err(kind) => word_of(alloc, place, line, kind),
    }
}

/// The word for which a line is refused by a fault of this kind.
fn word_of(
    alloc: Global,
    place: usize,
    line: &[u8],
    kind: TextKind,
) -> Result<Option<RefusedWord>, AllocError>
    requires { place + length line.now < 2 ^ 63 }
    ensures { IfOk result (λ found. found ≡ word_of place line.now kind) }
{
    match kind {
        TextKind::LineTooLong => Ok(Some(RefusedWord::new(
            Flaw::TooLong,
            place,
            place + line.len(),
        ))),
        TextKind::NotAscii => Ok(Some(no_ascii(place, line))),
        TextKind::BadToken => Ok(Some(no_token(alloc, place, line)?)),
        _ => {
            let mut tokens = Vec::new(alloc);
            if cut_tokens(&mut tokens, place, line)? {
                word_among(alloc, kind, tokens.as_slice())
            } else {
                Ok(None)
            }
        }
    }
}

/// The first byte over 127.
fn no_ascii(place: usize, line: &[u8]) -> RefusedWord
    requires { place + length line.now < 2 ^ 63 }
    ensures { result ≡ flawed_byte Flaw.NotAscii (place + prefix_len is_ascii line.now) }
{
    let start = place + ascii_len(line);
    RefusedWord::new(Flaw::NotAscii, start, start + 1)
}

/// How many bytes at the front are ASCII.
fn ascii_len(line: &[u8]) -> usize
    ensures value { result ≡ prefix_len is_ascii line.now }
    ensures within { result ≤ length line.now }
{
    for (index, byte) in line.iter().enumerate() {
        if !byte.is_ascii() {
            return index;
        }
    }
    line.len()
}

/// The first byte that begins no token, or the piece of a string for which it is none.
fn no_token(alloc: Global, place: usize, line: &[u8]) -> Result<RefusedWord, AllocError>
    requires { place + length line.now < 2 ^ 63 }
    ensures { IfOk result (λ word. word ≡ no_token_behind place line.now (tokens_len place (length line.now) line.now)) }
{
    let front = tokens_len(alloc, place, line)?;
    let start = place + front;
    match line.split_at(front).1 {
        [b'"', behind @ ..] => Ok(string_piece(start, behind)),
        _ => Ok(RefusedWord::new(Flaw::Byte, start, start + 1)),
    }
}

/// How many bytes stand before the first that begins no token: the longest front that is tokens.
fn tokens_len(alloc: Global, place: usize, line: &[u8]) -> Result<usize, AllocError>
    requires { place + length line.now < 2 ^ 63 }
    ensures value { IfOk result (λ len. len ≡ tokens_len place (length line.now) line.now) }
    ensures within { IfOk result (λ len. len ≤ length line.now) }
{
    let mut tokens = Vec::new(alloc);
    let mut len = line.len();
    while len > 0 && !cut_tokens(&mut tokens, place, line.split_at(len).0)? {
        len -= 1;
    }
    Ok(len)
}

/// The piece for which the bytes behind the quote at `quote` are no string.
fn string_piece(quote: usize, behind: &[u8]) -> RefusedWord
    requires { quote + 1 + length behind.now < 2 ^ 64 }
    ensures { result ≡ string_piece quote false (quote + 1) behind.now }
{
    let mut place = quote + 1;
    let mut is_escaped = false;
    for byte in behind {
        if is_escaped {
            if !is_escape(*byte) {
                return RefusedWord::new(Flaw::Escape, place - 1, place + 1);
            }
            is_escaped = false;
        } else if *byte == b'\\' {
            is_escaped = true;
        } else if !is_printable(*byte) {
            return RefusedWord::new(Flaw::InString, place, place + 1);
        }
        place += 1;
    }
    RefusedWord::new(Flaw::Endless, quote, place)
}

fn is_escape(byte: u8) -> bool
    ensures { result ≡ is_escape byte }
{
    matches!(byte, b'n' | b't' | b'\\' | b'"')
}

fn is_printable(byte: u8) -> bool
    ensures { result ≡ is_printable byte }
{
    (b' '..=b'~').contains(&byte)
}

/// The word of a line of these tokens.
fn word_among(
    alloc: Global,
    kind: TextKind,
    tokens: &[Token<'_>],
) -> Result<Option<RefusedWord>, AllocError>
    ensures { IfOk result (λ found. found ≡ word_among kind tokens.now) }
{
    match kind {
        TextKind::BadNumber => Ok(no_number(tokens)),
        TextKind::UnknownName => Ok(no_name(labels_of(Vec::new(alloc), tokens)?.1)),
        TextKind::BadOperands => Ok(misfit(labels_of(Vec::new(alloc), tokens)?.1)),
        _ => Ok(None),
    }
}

/// The first token that is written as a number and is none.
fn no_number(tokens: &[Token<'_>]) -> Option<RefusedWord>
    ensures { result ≡ no_number tokens.now }
{
    for token in tokens {
        if !is_good(token) {
            return Some(RefusedWord::of(Flaw::Number, &token.slice));
        }
    }
    None
}

/// The first word of a statement.
fn no_name(tokens: &[Token<'_>]) -> Option<RefusedWord>
    ensures { result ≡ no_name tokens.now }
{
    let (name, _) = tokens.split_first()?;
    Some(RefusedWord::of(Flaw::Name, &name.slice))
}
