//! What no clause says: the words of statements, and that sources assemble.

mod faults;
mod memory;
mod texts;

use crate::tests::same;
use rt_asm::*;
use rt_image::{Object, write_object};
use rt_text::parse;
use std::alloc::{AllocError, Global};
use std::process::Abort;
use std::test::Fail;

/// Statements at 0x80000000 with their words, by the ISA document's tables.
static ROWS: [(&str, &[u32]); 61] = [
    ("nop", &[0x0000_0013]),
    ("mv x5,x6", &[0x0003_0293]),
    ("not x5,x6", &[0xfff3_4293]),
    ("neg x5,x6", &[0x4060_02b3]),
    ("seqz x5,x6", &[0x0013_3293]),
    ("snez x5,x6", &[0x0060_32b3]),
    ("sltz x5,x6", &[0x0003_22b3]),
    ("sgtz x5,x6", &[0x0060_22b3]),
    ("beqz x5,0x80000008", &[0x0002_8463]),
    ("bnez x5,0x80000008", &[0x0002_9463]),
    ("blez x5,0x80000008", &[0x0050_5463]),
    ("bgez x5,0x80000008", &[0x0002_d463]),
    ("bltz x5,0x80000008", &[0x0002_c463]),
    ("bgtz x5,0x80000008", &[0x0050_4463]),
    ("bgt x5,x6,0x80000008", &[0x0053_4463]),
    ("ble x5,x6,0x80000008", &[0x0053_5463]),
    ("bgtu x5,x6,0x80000008", &[0x0053_6463]),
    ("bleu x5,x6,0x80000008", &[0x0053_7463]),
    ("j 0x80000008", &[0x0080_006f]),
    ("jal 0x80000008", &[0x0080_00ef]),
    ("jr x5", &[0x0002_8067]),
    ("jalr x5", &[0x0002_80e7]),
    ("ret", &[0x0000_8067]),
    ("fence", &[0x0ff0_000f]),
    ("call 0x80001800", &[0x0000_2097, 0x8000_80e7]),
    ("tail 0x80001800", &[0x0000_2317, 0x8003_0067]),
    ("la x5,0x80000800", &[0x0000_1297, 0x8002_8293]),
    ("la x5,0x80000001", &[0x0000_0297, 0x0012_8293]),
    ("la x5,0", &[0x8000_0297, 0x0002_8293]),
    ("li x5,2047", &[0x7ff0_0293]),
    ("li x5,-2048", &[0x8000_0293]),
    ("li x5,0xFFFFFFFF", &[0xfff0_0293]),
    ("li x5,-2049", &[0xffff_f2b7, 0x7ff2_8293]),
    ("li x5,0x7FFFFFFF", &[0x8000_02b7, 0xfff2_8293]),
    ("li x5,4096", &[0x0000_12b7]),
    ("li a0,0x12345FFF", &[0x1234_6537, 0xfff5_0513]),
    ("li x1,2048", &[0x0000_10b7, 0x8000_8093]),
    ("li x1,0x80000000", &[0x8000_00b7]),
    ("lui x5,1048575", &[0xffff_f2b7]),
    ("auipc x5,1", &[0x0000_1297]),
    ("jal x5,0x80000008", &[0x0080_02ef]),
    ("jalr x5,-4(x6)", &[0xffc3_02e7]),
    ("jalr x5,x6,4", &[0x0043_02e7]),
    ("beq x5,x6,0x80000008", &[0x0062_8463]),
    ("bgeu x5,x6,0x80000008", &[0x0062_f463]),
    ("lb x5,-1(x6)", &[0xfff3_0283]),
    ("lhu x5,2(x6)", &[0x0023_5283]),
    ("lw x5,(x6)", &[0x0003_2283]),
    ("sb x5,1(x6)", &[0x0053_00a3]),
    ("sw x5,-4(x6)", &[0xfe53_2e23]),
    ("sltiu x5,x6,-1", &[0xfff3_3293]),
    ("andi x5,x6,2047", &[0x7ff3_7293]),
    ("slli x5,x6,31", &[0x01f3_1293]),
    ("srai x5,x6,31", &[0x41f3_5293]),
    ("sub x5,x6,x7", &[0x4073_02b3]),
    ("sra x5,x6,x7", &[0x4073_52b3]),
    ("and x5,x6,x7", &[0x0073_72b3]),
    ("fence i,o", &[0x0840_000f]),
    ("fence iorw,w", &[0x0f10_000f]),
    ("ecall", &[0x0000_0073]),
    ("ebreak", &[0x0010_0073]),
];

/// The bytes of a source that has no fault.
fn bytes_of(alloc: Global, source: &str) -> Result<Vec<u8>, Fail> {
    let lines = parse(alloc, source.as_bytes()).ok().ok_or("lines")?;
    let assembled = assemble(alloc, &lines).ok().ok_or("an image")?;
    Ok(Vec::from_slice(alloc, assembled.bytes())?)
}

/// The bytes of a source that is a line behind `_start:`.
fn bytes_at_start(alloc: Global, line: &str) -> Result<Vec<u8>, Fail> {
    let source = format!(in alloc; "_start: {line}\n")?;
    bytes_of(alloc, &source)
}

fn bytes_of_words(alloc: Global, words: &[u32]) -> Result<Vec<u8>, AllocError> {
    let mut bytes = Vec::new(alloc);
    for word in words {
        bytes.extend_from_slice(&word.to_le_bytes())?;
    }
    Ok(bytes)
}

/// The first fault of a source; none where it has none, or isn't well formed.
fn fault_of(alloc: Global, source: &str) -> Option<AsmFault> {
    let lines = parse(alloc, source.as_bytes()).ok()?;
    match assemble(alloc, &lines) {
        Err(AssembleFault::Fault(fault)) => Some(fault),
        _ => None,
    }
}

/// Fails unless a source has these words.
fn has_words(rt: &impl Abort, alloc: Global, source: &str, words: &[u32]) -> Result<(), Fail> {
    let bytes = bytes_at_start(alloc, source)?;
    let expected = bytes_of_words(alloc, words)?;
    same(rt, source, bytes.as_slice(), expected.as_slice());
    Ok(())
}

/// Fails unless the bytes of a source that is a line behind `_start:` are these.
fn has_bytes(rt: &impl Abort, alloc: Global, line: &str, want: &[u8]) -> Result<(), Fail> {
    let bytes = bytes_at_start(alloc, line)?;
    same(rt, line, bytes.as_slice(), want);
    Ok(())
}

#[test]
fn each_form_has_its_words(rt: HostRuntime) -> Result<(), Fail> {
    for (line, words) in &ROWS {
        has_words(&rt, rt.alloc(), line, words)?;
    }
    Ok(())
}

#[test]
fn an_address_has_two_words(rt: HostRuntime) -> Result<(), Fail> {
    let bytes = bytes_of(rt.alloc(), "_start: la a0,m\n.zero 2040\nm:\n")?;
    let words: [u8; 8] = [0x17, 0x15, 0, 0, 0x13, 0x05, 0x05, 0x80];
    same(&rt, "bytes", bytes.len(), 2048);
    same(&rt, "words", bytes.get(..8), Some(words.as_slice()));
    Ok(())
}

static DIRECTIVES: [(&str, &[u8]); 16] = [
    (".text", &[]),
    (".globl _start", &[]),
    (".byte -128,255,1", &[128, 255, 1]),
    (".half -32768,65535,258", &[0, 128, 255, 255, 2, 1]),
    (".2byte 1", &[1, 0]),
    (
        ".word -1,0x80000001,_start",
        &[255, 255, 255, 255, 1, 0, 0, 128, 0, 0, 0, 128],
    ),
    (".4byte 2", &[2, 0, 0, 0]),
    (".zero 3", &[0, 0, 0]),
    (".space 0", &[]),
    (".ascii \"a\\n\\\"\"", &[97, 10, 34]),
    (".asciz \"a\"", &[97, 0]),
    (".string \"\"", &[0]),
    (".byte 1\n.align 2", &[1, 0, 0, 0]),
    (".byte 1\n.align 1", &[1, 0]),
    (".byte 1\n.p2align 3", &[1, 0, 0, 0, 0x13, 0, 0, 0]),
    (".byte 1\n.align 0", &[1]),
];

#[test]
fn directives_have_their_bytes(rt: HostRuntime) -> Result<(), Fail> {
    for (line, want) in &DIRECTIVES {
        has_bytes(&rt, rt.alloc(), line, want)?;
    }
    Ok(())
}

#[test]
fn padding_ends_at_the_multiple(rt: HostRuntime) -> Result<(), Fail> {
    let bytes = bytes_of(rt.alloc(), "_start: nop\n.align 12\nend: .byte 7\n")?;
    let last: [u8; 5] = [0x13, 0, 0, 0, 7];
    same(&rt, "bytes", bytes.len(), 4097);
    same(&rt, "the last", bytes.get(4092..), Some(last.as_slice()));
    let none = bytes_of(rt.alloc(), "_start: nop\n.align 2\n.align 0\n")?;
    same(&rt, "no padding", none.len(), 4);
    Ok(())
}

/// Labels and their addresses, in the order of the source.
static LABELS: [(&str, u32); 3] = [
    ("back", 0x8000_0000),
    ("_start", 0x8000_0004),
    ("ahead", 0x8000_0010),
];

fn look_at_labels(rt: &impl Abort, image: &Assembled<'_>) {
    same(rt, "the entry", image.entry(), 0x8000_0004);
    same(rt, "labels", image.labels().len(), 3);
    for (label, (name, address)) in image.labels().iter().zip(&LABELS) {
        same(rt, *name, label.name, name.as_bytes());
        same(rt, *name, label.address, *address);
    }
}

/// The words 00000013, ffdff06f, 0080006f, fe209ae3 and 00000013.
static BOTH_WAYS: &[u8] = b"\x13\0\0\0\x6f\xf0\xdf\xff\x6f\0\x80\0\xe3\x9a\x20\xfe\x13\0\0\0";

#[test]
fn targets_lead_both_ways(rt: HostRuntime) -> Result<(), Fail> {
    let source = b"back: nop\n_start: j back\nj ahead\nbne x1,x2,back\nahead: nop\n";
    let lines = parse(rt.alloc(), source).ok().ok_or("lines")?;
    let assembled = assemble(rt.alloc(), &lines).ok().ok_or("an image")?;
    same(&rt, "words", assembled.bytes(), BOTH_WAYS);
    look_at_labels(&rt, &assembled);
    Ok(())
}

static FITTING: [(&str, &[u32]); 4] = [
    ("beq x1,x2,0x80000FFE", &[0x7e20_8fe3]),
    ("beq x1,x2,0x7FFFF000", &[0x8020_8063]),
    ("jal x0,0x800FFFFE", &[0x7fff_f06f]),
    ("jal x0,0x7FF00000", &[0x8000_006f]),
];

#[test]
fn distances_end_where_the_rows_do(rt: HostRuntime) -> Result<(), Fail> {
    for (line, words) in &FITTING {
        has_words(&rt, rt.alloc(), line, words)?;
    }
    Ok(())
}

/// Sources, each with its first faulty line, or 0, and what is wrong.
static FAULTS: [(&str, u64, AsmKind); 28] = [
    ("x: nop\nx: nop", 2, AsmKind::DuplicateLabel),
    ("x: x: nop", 1, AsmKind::DuplicateLabel),
    ("_start: j t\n_start: nop", 2, AsmKind::DuplicateLabel),
    ("nop", 0, AsmKind::NoEntry),
    ("", 0, AsmKind::NoEntry),
    ("nop\naddi x1,x0,2048", 2, AsmKind::OutOfRange),
    ("_start:addi x1,x0,2048", 1, AsmKind::OutOfRange),
    ("_start:addi x1,x0,-2049", 1, AsmKind::OutOfRange),
    ("_start:lui x1,1048576", 1, AsmKind::OutOfRange),
    ("_start:slli x1,x2,32", 1, AsmKind::OutOfRange),
    ("_start:lw x1,2048(x2)", 1, AsmKind::OutOfRange),
    ("_start:\n.byte 256", 2, AsmKind::OutOfRange),
    ("_start:\n.byte -129", 2, AsmKind::OutOfRange),
    ("_start:\n.half 65536", 2, AsmKind::OutOfRange),
    ("_start:\n.half -32769", 2, AsmKind::OutOfRange),
    ("_start:\n.zero 1048577", 2, AsmKind::OutOfRange),
    ("_start:\n.zero -1", 2, AsmKind::OutOfRange),
    ("_start:\n.align 13", 2, AsmKind::OutOfRange),
    ("_start:\nj t\n.align 13", 3, AsmKind::OutOfRange),
    ("_start: j t", 1, AsmKind::UndefinedLabel),
    ("_start: .word 1,t", 1, AsmKind::UndefinedLabel),
    ("_start: beq x1,x2,0x80000FFF", 1, AsmKind::OddTarget),
    ("_start: beq x1,x2,0x80001000", 1, AsmKind::OutOfRange),
    ("_start: beq x1,x2,0x7FFFEFFF", 1, AsmKind::OutOfRange),
    ("_start: jal x0,0x800FFFFF", 1, AsmKind::OddTarget),
    ("_start: jal x0,0x80100000", 1, AsmKind::OutOfRange),
    ("_start: jal x0,0x7FEFFFFF", 1, AsmKind::OutOfRange),
    ("_start: .zero 1048576\n.byte 0", 2, AsmKind::TooLarge),
];

#[test]
fn faults_come_in_order(rt: HostRuntime) -> Result<(), Fail> {
    for (source, line, kind) in &FAULTS {
        let want = AsmFault {
            line: *line,
            kind: *kind,
        };
        same(&rt, *source, fault_of(rt.alloc(), source), Some(want));
    }
    let most = bytes_of(rt.alloc(), "_start: .zero 1048576")?;
    same(&rt, "the most", most.len(), 1_048_576);
    Ok(())
}

static KINDS: [(AsmKind, u8, &str); 6] = [
    (AsmKind::DuplicateLabel, 1, "line 7: DuplicateLabel"),
    (AsmKind::UndefinedLabel, 2, "line 7: UndefinedLabel"),
    (AsmKind::OutOfRange, 3, "line 7: OutOfRange"),
    (AsmKind::OddTarget, 4, "line 7: OddTarget"),
    (AsmKind::TooLarge, 5, "line 7: TooLarge"),
    (AsmKind::NoEntry, 6, "line 7: NoEntry"),
];

/// Fails unless a fault has this text.
fn has_text(rt: &impl Abort, alloc: Global, fault: AssembleFault, text: &str) -> Result<(), Fail> {
    let shown = format!(in alloc; "{fault}")?;
    same(rt, "a fault", shown.as_str(), text);
    Ok(())
}

#[test]
fn kinds_have_their_numbers_and_texts(rt: HostRuntime) -> Result<(), Fail> {
    for (kind, number, text) in &KINDS {
        same(&rt, *text, kind.number(), *number);
        let fault = AssembleFault::from(AsmFault {
            line: 7,
            kind: *kind,
        });
        has_text(&rt, rt.alloc(), fault, text)?;
    }
    has_text(&rt, rt.alloc(), AssembleFault::Memory, "memory")
}

/// `addi x1,x0,-1` and a jump to itself, with the two labels in order.
static LOOP_FILE: [u8; 43] = [
    0x52, 0x54, 0x49, 0x31, 0x00, 0x00, 0x00, 0x80, 0x08, 0x00, 0x00, 0x00, 0x02, 0x00, 0x00, 0x00,
    0x93, 0x00, 0xf0, 0xff, 0x6f, 0x00, 0x00, 0x00, 0x06, 0x00, 0x5f, 0x73, 0x74, 0x61, 0x72, 0x74,
    0x00, 0x00, 0x00, 0x80, 0x01, 0x00, 0x78, 0x04, 0x00, 0x00, 0x80,
];

/// The file of an image; none where memory runs out.
fn file_of(alloc: Global, assembled: &Assembled) -> Option<Vec<u8>> {
    let object = assembled.object(alloc).ok()?;
    let mut file = Vec::new(alloc);
    write_object(&object, &mut file).ok()?;
    Some(file)
}

#[test]
fn an_object_has_its_file(rt: HostRuntime) -> Result<(), Fail> {
    let source = "_start: addi x1,x0,-1\nx: jal x0,x\n";
    let lines = parse(rt.alloc(), source.as_bytes()).ok().ok_or("lines")?;
    let assembled = assemble(rt.alloc(), &lines).ok().ok_or("an image")?;
    let file = file_of(rt.alloc(), &assembled).ok_or("a file")?;
    same(&rt, "a file", file.as_slice(), LOOP_FILE.as_slice());
    Ok(())
}

/// The symbols of a source with seven labels, by their bytes.
static SYMBOLS: [(&str, u32); 7] = [
    ("$x", 0x8000_0005),
    ("B", 0x8000_0004),
    ("_start", 0x8000_0004),
    ("a", 0x8000_0004),
    ("a.b", 0x8000_0000),
    ("ab", 0x8000_0004),
    ("b", 0x8000_0000),
];

/// Whether an object has these symbols, in this order.
fn has_symbols(object: &Object, rows: &[(&str, u32)]) -> bool {
    let mut same = object.symbols.len() == rows.len();
    for (symbol, (name, address)) in object.symbols.iter().zip(rows) {
        same = same && symbol.name == name.as_bytes() && symbol.address == *address;
    }
    same
}

#[test]
fn symbols_rise_by_their_bytes(rt: HostRuntime) -> Result<(), Fail> {
    let source = "b: a.b: nop\nB: _start: ab:\na: .byte 1\n$x:\n";
    let lines = parse(rt.alloc(), source.as_bytes()).ok().ok_or("lines")?;
    let assembled = assemble(rt.alloc(), &lines).ok().ok_or("an image")?;
    let object = assembled.object(rt.alloc()).ok().ok_or("an object")?;
    same(&rt, "the entry", object.entry, 0x8000_0004);
    same(&rt, "bytes", object.bytes, assembled.bytes());
    same(&rt, "symbols", has_symbols(&object, &SYMBOLS), true);
    Ok(())
}

/// A source with `_start` and so many labels more.
fn labels_of(alloc: Global, more: u32) -> Result<String, AllocError> {
    let mut source = String::from_str(alloc, "_start:\n")?;
    for number in 0..more {
        let line = format!(in alloc; "l{number}:\n")?;
        source.push_str(line.as_str())?;
    }
    Ok(source)
}

#[test]
fn labels_are_at_most_65536(rt: HostRuntime) -> Result<(), Fail> {
    let mut source = labels_of(rt.alloc(), 65_535)?;
    let bytes = bytes_of(rt.alloc(), source.as_str())?;
    same(&rt, "65,536 labels", bytes.len(), 0);
    source.push_str("more:\n")?;
    let want = AsmFault {
        line: 65_537,
        kind: AsmKind::TooLarge,
    };
    let fault = fault_of(rt.alloc(), source.as_str());
    same(&rt, "one more", fault, Some(want));
    Ok(())
}

#[test]
fn laws_take_nothing(_rt: HostRuntime) {
    one_placement();
    assembles_what_agrees();
    statements_have_their_size();
    two_parts_make_the_number();
    the_first_fault_is_named();
    what_is_printed_reads_back();
}
