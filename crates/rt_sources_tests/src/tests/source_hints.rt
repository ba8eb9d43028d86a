//! Faulty sources, each with what is shown of its first fault.

mod all;
mod names;
mod sources;
mod texts;

use crate::tests::same;
use rt_asm::{AssembleTextFault, LineFault, assemble_text};
use rt_file_hints::source_hints::source_hint;
use std::alloc::Global;
use std::process::Abort;
use std::test::Fail;

/// What is shown of the first fault of a source.
fn shown(alloc: Global, path: &str, source: &[u8]) -> Result<Option<String>, Fail> {
    let fault = match assemble_text(alloc, source) {
        Err(AssembleTextFault::Text(fault)) => LineFault::Text(fault),
        Err(AssembleTextFault::Source(fault)) => LineFault::Source(fault),
        _ => return Err(Fail::from("no fault")),
    };
    Ok(source_hint(alloc, path, source, fault)?)
}

/// Whether just this is shown of the first fault of each source.
fn are_shown(rt: &impl Abort, alloc: Global, cases: &[(&[u8], &str)]) -> Result<(), Fail> {
    for (source, wanted) in cases {
        let text = shown(alloc, "f.s", source)?.ok_or("nothing is shown")?;
        same(rt, "a source", text.as_str(), *wanted);
    }
    Ok(())
}

/// A text of so many copies of a line.
fn copies(alloc: Global, line: &[u8], count: u32) -> Result<Vec<u8>, Fail> {
    let mut text = Vec::new(alloc);
    for _ in 0..count {
        text.extend_from_slice(line)?;
    }
    Ok(text)
}

#[test]
fn long_lines_are_told(rt: HostRuntime) -> Result<(), Fail> {
    let source = copies(rt.alloc(), b"# nop", 103)?;
    let text = shown(rt.alloc(), "f.s", &source)?.ok_or("nothing is shown")?;
    let text = text.as_str();
    let first = "  f.s:1: LineTooLong: 515 bytes, at most 512\n    # nop# nop";
    same(&rt, "the first", text.starts_with(first), true);
    same(&rt, "the last", text.ends_with("# nop# nop .."), true);
    same(&rt, "bytes", text.len(), 152);
    Ok(())
}

#[test]
fn too_many_labels_are_told(rt: HostRuntime) -> Result<(), Fail> {
    let alloc = rt.alloc();
    let mut source = String::new(alloc);
    source.push_str("_start:\n")?;
    for number in 0..65_536 {
        source.write(format_args!("label{number}:\n"))?;
    }
    let text = shown(alloc, "f.s", source.as_bytes())?.ok_or("nothing is shown")?;
    let wanted = "  f.s:65537: TooLarge: 65537 labels, at most 65536\n    label65535:";
    same(&rt, "labels", text.as_str(), wanted);
    Ok(())
}

#[test]
fn paths_are_escaped(rt: HostRuntime) -> Result<(), Fail> {
    let text = shown(rt.alloc(), "a\n\x1b.s", b"nop")?.ok_or("nothing is shown")?;
    let wanted = "  a\\x0a\\x1b.s: NoEntry: no line defines _start";
    same(&rt, "a path", text.as_str(), wanted);
    Ok(())
}
