//! What a program was built for that this machine lacks.

use rt_elf::architecture;
use rt_fault_lines::shown::{Explanation, Printable, line};
use std::alloc::{AllocError, Global};
use std::fmt;

/// The most bytes of an architecture that are looked at.
const MOST: usize = 512;

/// The base, and extensions that assemblers name unasked.
const HARMLESS: [&[u8]; 3] = [b"i", b"zicsr", b"zifencei"];

/// Extensions that are parts of one that is named by a letter.
const PARTS: [(&[u8], &[u8]); 3] = [(b"zmmul", b"m"), (b"zaamo", b"a"), (b"zalrsc", b"a")];

/// How many digits stand at the front.
fn digits_at(text: &[u8]) -> usize {
    text.iter()
        .position(|byte| !byte.is_ascii_digit())
        .unwrap_or(text.len())
}

/// What follows a version at the front, as `2p1`, if one stands there.
fn behind_version(text: &[u8]) -> &[u8] {
    let digits = digits_at(text);
    let rest = text.get(digits..).unwrap_or(b"");
    match rest {
        [b'p', minor @ ..] if digits > 0 && digits_at(minor) > 0 => {
            minor.get(digits_at(minor)..).unwrap_or(b"")
        }
        _ => rest,
    }
}

/// A text without the digits at its end.
fn without_digits(text: &[u8]) -> &[u8] {
    let mut front = text;
    for _ in text {
        if let [rest @ .., b'0'..=b'9'] = front {
            front = rest;
        }
    }
    front
}

/// A word without the version at its end, if it has one.
fn without_version(word: &[u8]) -> &[u8] {
    let front = without_digits(word);
    match front {
        [major @ .., b'p'] if without_digits(major).len() < major.len() => without_digits(major),
        _ => front,
    }
}

/// The extension at the front, and what follows it: a letter, or a word from `s`, `x` or `z` up to the next `_`.
fn extension_at(text: &[u8]) -> Option<(&[u8], &[u8])> {
    let text = text.strip_prefix(b"_").unwrap_or(text);
    if matches!(text, [b's' | b'x' | b'z', ..]) {
        let end = text.iter().position(|byte| *byte == b'_');
        let (word, rest) = text.split_at_checked(end.unwrap_or(text.len()))?;
        return Some((without_version(word), rest));
    }
    let (letter, rest) = text.split_at_checked(1)?;
    Some((letter, behind_version(rest)))
}

/// Whether a byte may stand in an architecture.
fn is_of_architecture(byte: u8) -> bool {
    byte.is_ascii_lowercase() || byte.is_ascii_digit() || byte == b'_'
}

/// The extensions that an architecture names, as `i2p1_m2p0_zba1p0`, without their versions.
fn names_in(alloc: Global, extensions: &[u8]) -> Result<Vec<&[u8]>, AllocError> {
    let mut names = Vec::new(alloc);
    let mut rest = extensions;
    for _ in 0..extensions.len() {
        let Some((name, after)) = extension_at(rest) else {
            break;
        };
        names.push(name)?;
        rest = after;
    }
    Ok(names)
}

/// Whether this machine lacks an extension, and no letter among all names says so already.
fn is_lacking(name: &[u8], names: &[&[u8]]) -> bool {
    let is_part = PARTS.iter().any(|(part, whole)| name == *part
        && names.iter().any(|it| *it == *whole));
    !name.is_empty() && !is_part && !HARMLESS.iter().any(|harmless| name == *harmless)
}

/// The extensions that this machine lacks of an architecture, as `rv32i2p1_m2p0`: none where it can't be read.
fn lacking(alloc: Global, architecture: &[u8]) -> Result<Vec<&[u8]>, AllocError> {
    let mut lacking = Vec::new(alloc);
    let extensions = architecture.strip_prefix(b"rv32").unwrap_or(b"");
    if extensions.len() > MOST || !extensions.iter().all(|byte| is_of_architecture(*byte)) {
        return Ok(lacking);
    }
    let names = names_in(alloc, extensions)?;
    for name in &names {
        if is_lacking(name, &names) {
            lacking.push(*name)?;
        }
    }
    Ok(lacking)
}

/// Extensions, as they stand in an architecture and as manuals call them, as `_zba` and `Zba`.
#[derive(Drop)]
struct BuiltFor<'a> {
    lacking: Vec<&'a [u8]>,
}

impl fmt::Display for BuiltFor<'_> {
    fn fmt<W: fmt::Write>(&self, f: &mut fmt::Formatter<W>) -> fmt::Result {
        f.write_str("built for rv32i")?;
        for name in &self.lacking {
            let before = if name.len() > 1 { "_" } else { "" };
            write!(f, "{before}{}", Printable(*name))?;
        }
        let mut before = ": instructions of ";
        for name in &self.lacking {
            if let Some((first, others)) = name.split_first() {
                let first = [first.to_ascii_uppercase()];
                write!(f, "{before}{}{}", Printable(&first), Printable(others))?;
            }
            before = ", ";
        }
        f.write_str(" fault as Illegal here; compile with -march=rv32i")
    }
}

/// What a program of these bytes was built for, if instructions of it would fault.
pub fn built_for(alloc: Global, elf: &[u8]) -> Explanation {
    let lacking = lacking(alloc, architecture(elf).unwrap_or(b""))?;
    if lacking.is_empty() {
        return Ok(None);
    }
    line(alloc, BuiltFor { lacking })
}
