//! Requests for memory, of which one may be refused: with `rt try --test --fail-alloc N` the Nth.

use crate::tests::same;
use rt_asm::*;
use rt_image::Object;
use rt_text::{ParseFault, parse};
use std::alloc::{AllocError, Global};
use std::process::Abort;
use std::test::Fail;

/// Three labels, an instruction of two words, and data.
const SOURCE: &[u8] =
    b"_start: la   a0, word      # two words\n        li   a7, 1\n        ecall\nword:   .ascii \"hi\\n\"\ntable:  .word 3, 5, word\n";

/// Its bytes, worked out by hand.
const IMAGE: &[u8] =
    b"\x17\x05\0\0\x13\x05\x05\x01\x93\x08\x10\0\x73\0\0\0hi\n\x03\0\0\0\x05\0\0\0\x10\0\0\x80";

/// The image of the source, with its labels in the order of the source.
fn is_image(rt: &impl Abort, image: &Assembled<'_>) {
    same(rt, "the entry", image.entry(), 0x8000_0000);
    same(rt, "bytes", image.bytes(), IMAGE);
    let labels = image.labels();
    let word: &[u8] = b"word";
    same(rt, "labels", labels.len(), 3);
    let found = labels.get(1).map(|label| (label.name, label.address));
    same(rt, "word", found, Some((word, 0x8000_0010)));
    let found = labels.get(2).map(|label| label.address);
    same(rt, "table", found, Some(0x8000_0013));
}

/// The object of the source.
fn is_object(rt: &impl Abort, object: &Object<'_>) {
    same(rt, "the entry", object.entry, 0x8000_0000);
    same(rt, "bytes", object.bytes, IMAGE);
    let symbols = &object.symbols;
    let (start, table): (&[u8], &[u8]) = (b"_start", b"table");
    same(rt, "symbols", symbols.len(), 3);
    let found = symbols.get(0).map(|symbol| symbol.name);
    same(rt, "the first", found, Some(start));
    let found = symbols.get(1).map(|symbol| symbol.name);
    same(rt, "the second", found, Some(table));
    let found = symbols.get(2).map(|symbol| symbol.address);
    same(rt, "the third", found, Some(0x8000_0010));
}

/// Makes an object, and once more where there was no memory.
fn object_again<'a>(alloc: Global, image: &'a Assembled<'_>) -> Result<Object<'a>, AllocError> {
    match image.object(alloc) {
        Err(_) => image.object(alloc),
        answer => answer,
    }
}

#[test]
fn lines_are_assembled_again(rt: HostRuntime) -> Result<(), Fail> {
    let lines = match parse(rt.alloc(), SOURCE) {
        Err(ParseFault::Memory) => parse(rt.alloc(), SOURCE)?,
        answer => answer?,
    };
    let image = match assemble(rt.alloc(), &lines) {
        Err(AssembleFault::Memory) => assemble(rt.alloc(), &lines)?,
        answer => answer?,
    };
    is_image(&rt, &image);
    Ok(())
}

/// The object has the symbols in the order of their names.
#[test]
fn objects_are_made_again(rt: HostRuntime) -> Result<(), Fail> {
    let image = match assemble_text(rt.alloc(), SOURCE) {
        Err(AssembleTextFault::Memory) => assemble_text(rt.alloc(), SOURCE)?,
        answer => answer?,
    };
    let object = object_again(rt.alloc(), &image)?;
    is_image(&rt, &image);
    is_object(&rt, &object);
    Ok(())
}

/// Tells the faults of a text, and once more where there was no memory.
fn faults_again(alloc: Global, text: &[u8]) -> Result<Vec<LineFault>, AllocError> {
    match all_faults(alloc, text) {
        Err(_) => all_faults(alloc, text),
        answer => answer,
    }
}

/// Texts of two faults.
static TEXTS: [&[u8]; 3] = [b"frob\n?\n", b"x:\nx: nop\nx:\n", b"j x\n.byte 1,256\n"];

#[test]
fn faults_are_told_again(rt: HostRuntime) -> Result<(), Fail> {
    for text in &TEXTS {
        let faults = faults_again(rt.alloc(), text)?;
        same(&rt, *text, faults.len(), 2);
    }
    Ok(())
}

/// Tells why lines of a text are at fault, and once more where there was no memory.
fn flaws_again(alloc: Global, text: &[u8]) -> Result<Vec<Flaw>, AllocError> {
    match all_flaws(alloc, text) {
        Err(_) => all_flaws(alloc, text),
        answer => answer,
    }
}

#[test]
fn flaws_are_told_again(rt: HostRuntime) -> Result<(), Fail> {
    for (text, wanted) in TEXTS.iter().zip(&[0, 2, 2]) {
        let flaws = flaws_again(rt.alloc(), text)?;
        same(&rt, *text, flaws.len(), *wanted);
    }
    Ok(())
}
