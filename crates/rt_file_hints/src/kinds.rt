//! Files of the wrong kind: what their first bytes are, and what to do with such a file.

use rt_desk::reading::FileKind;
use rt_fault_lines::shown::{Escaped, Explanation, line};
use rt_image::ImageFault;
use std::alloc::Global;
use std::str::from_utf8;

/// How many bytes of a file are looked at to see whether it is text.
const LOOKED_AT: usize = 4096;

/// What the first bytes of a file are.
#[derive(Clone, Copy, PartialEq, Eq)]
enum Kind {
    Empty,
    /// The first bytes of an object or a system, and no others.
    Cut,
    Elf,
    Library,
    Object,
    System,
    Set,
    Text,
    /// Text of two bytes a letter.
    WideText,
    Other,
}

/// Whether the first line that says something begins as those of a set file do.
fn begins_set(front: &[u8]) -> bool {
    for line in front.split(|byte| *byte == b'\n') {
        let line = line.trim_ascii();
        if line.is_empty() || line.starts_with(b"#") {
            continue;
        }
        let end = line.iter().position(|byte| byte.is_ascii_whitespace());
        let word = line.get(..end.unwrap_or(line.len())).unwrap_or(line);
        return matches!(word, b"hyper" | b"task" | b"task-split");
    }
    false
}

/// Whether a byte may stand in a text.
fn is_of_text(byte: u8) -> bool {
    byte >= b' ' && byte != 0x7f || byte.is_ascii_whitespace()
}

/// Whether the front of a file is text: its last line may be cut.
fn is_text(front: &[u8]) -> bool {
    let end = front.iter().rposition(|byte| *byte == b'\n');
    let lines = front.get(..end.unwrap_or(front.len())).unwrap_or(front);
    lines.iter().all(|byte| is_of_text(*byte)) && from_utf8(lines).is_ok()
}

/// Whether these are the first bytes of an object or a system.
fn is_cut(bytes: &[u8]) -> bool {
    let is_system = b"RTS1".starts_with(bytes) || b"RTS2".starts_with(bytes);
    bytes.len() < 4 && (is_system || b"RTI1".starts_with(bytes))
}

fn kind_of(bytes: &[u8]) -> Kind {
    let front = bytes.get(..LOOKED_AT).unwrap_or(bytes);
    match bytes {
        [] => Kind::Empty,
        [0x7f, b'E', b'L', b'F', ..] => Kind::Elf,
        [b'!', b'<', b'a', b'r', b'c', b'h', b'>', ..] => Kind::Library,
        [b'R', b'T', b'I', b'1', ..] => Kind::Object,
        [b'R', b'T', b'S', b'1' | b'2', ..] => Kind::System,
        [0xff, 0xfe, ..] | [0xfe, 0xff, ..] => Kind::WideText,
        _ if is_cut(bytes) => Kind::Cut,
        _ if begins_set(front) => Kind::Set,
        _ if is_text(front) => Kind::Text,
        _ => Kind::Other,
    }
}

/// Whether a file of this kind is what was wanted.
fn is_wanted(kind: Kind, wanted: FileKind) -> bool {
    matches!(
        (kind, wanted),
        (Kind::Object, FileKind::Object | FileKind::ObjectOrSystem)
            | (Kind::System, FileKind::System | FileKind::ObjectOrSystem)
            | (Kind::Set, FileKind::Set)
            | (
                Kind::Text,
                FileKind::Set | FileKind::Source | FileKind::WholeSource
            )
            | (Kind::Elf, FileKind::Elf)
            | (Kind::Other, FileKind::Image | FileKind::Names)
    )
}

/// What a file was to be, in words.
fn wanted_words(wanted: FileKind) -> &'static str {
    match wanted {
        FileKind::Object => "an object",
        FileKind::System => "a system",
        FileKind::ObjectOrSystem => "an object or a system",
        FileKind::Set => "a set file",
        FileKind::Source | FileKind::WholeSource => "a source",
        FileKind::Elf => "an ELF file",
        FileKind::Image | FileKind::Names => "a flat image",
    }
}

/// What a file of a kind is, what to do with it, and what stands behind its path then: nothing where it doesn't take the path.
fn row(kind: Kind, wanted: FileKind) -> (&'static str, &'static str, &'static str) {
    match kind {
        Kind::Elf if matches!(wanted, FileKind::System) => {
            ("an ELF file", "a set file names it", "")
        }
        Kind::Empty => ("an empty file", "make it again", ""),
        Kind::Cut => ("a file that is cut", "make it again", ""),
        Kind::Elf => ("an ELF file", "rt_sim elf ", " OUT"),
        Kind::Library => ("a library", "link it", ""),
        Kind::Object => ("an object", "a set file for rt_sim pack names it", ""),
        Kind::System => ("a system", "rt_sim run ", " runs it"),
        Kind::Set => ("a set file", "rt_sim pack ", " OUT"),
        Kind::Text => ("text", "a source? rt_sim asm ", " OUT"),
        Kind::WideText => ("text in UTF-16", "save it as ASCII or UTF-8", ""),
        Kind::Other => ("no file of rt_sim", "a flat image? rt_sim image ", " OUT"),
    }
}

/// What a file is that isn't what was wanted, and what to do with it. Nothing of a file of the right kind. Only the bytes that are given
/// are looked at.
pub fn kind_hint(alloc: Global, path: &str, bytes: &[u8], wanted: FileKind) -> Explanation {
    let kind = kind_of(bytes);
    if is_wanted(kind, wanted) {
        return Ok(None);
    }
    let (is, to_do, behind) = row(kind, wanted);
    let wanted = wanted_words(wanted);
    let again = Escaped::line(if behind.is_empty() { "" } else { path });
    let path = Escaped::line(path);
    line(
        alloc,
        format_args!("{path}: this is {is}, wanted {wanted}: {to_do}{again}{behind}"),
    )
}

/// Why an object or a system isn't read: what the file is that isn't what was wanted, else what its bytes are.
pub fn image_hint(
    alloc: Global,
    path: &str,
    bytes: &[u8],
    wanted: FileKind,
    fault: ImageFault,
) -> Explanation {
    let kind = kind_hint(alloc, path, bytes, wanted)?;
    if kind.is_some() {
        return Ok(kind);
    }
    let said = match fault {
        ImageFault::BadMagic => "a task's object doesn't begin with RTI1",
        ImageFault::Truncated => "the file ends within a field",
        ImageFault::Trailing => "bytes follow the last field",
        ImageFault::BadField => "a field has a value that it may not have",
        ImageFault::NotCanonical => "a symbol's name isn't above the one before it",
    };
    let path = Escaped::line(path);
    line(alloc, format_args!("{path}: {said}: make it again"))
}
