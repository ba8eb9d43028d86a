//! Texts of every form and of each fault, and what is read of them.

use crate::tests::same;
use rt_text::*;
use rt_token::Span;
use std::alloc::Global;
use std::process::Abort;
use std::test::Fail;

mod memory;

/// Every instruction, pseudo-instruction and directive, in each of its forms.
static FITTING: [&str; 104] = [
    "lui x1,0x12345",
    "auipc ra,0",
    "jal x1,loop",
    "jal x1,0x80000000",
    "jal loop",
    "jalr x1,4(x2)",
    "jalr x1,(x2)",
    "jalr x1,x2,-4",
    "jalr x1,x2",
    "jalr x2",
    "beq x1,x2,loop",
    "bne s0,fp,0x80000000",
    "blt a0,a7,loop",
    "bge s2,s11,loop",
    "bltu t0,t2,loop",
    "bgeu t3,t6,loop",
    "lb x1,-1(sp)",
    "lh gp,(tp)",
    "lw x1,0b11(x31)",
    "lbu x1,0X7f(x2)",
    "lhu x1,2(x2)",
    "sb x1,1(x2)",
    "sh x1,(x2)",
    "sw zero,-4(s1)",
    "addi x1,x2,5000",
    "slti x1,x2,-1",
    "sltiu x1,x2,1",
    "xori x1,x2,1",
    "ori x1,x2,1",
    "andi x1,x2,1",
    "slli x1,x2,31",
    "srli x1,x2,99",
    "srai x1,x2,0",
    "add x1,x2,x3",
    "sub x1,x2,x3",
    "sll x1,x2,x3",
    "slt x1,x2,x3",
    "sltu x1,x2,x3",
    "xor x1,x2,x3",
    "srl x1,x2,x3",
    "sra x1,x2,x3",
    "or x1,x2,x3",
    "and x1,x2,x3",
    "fence",
    "fence iorw,rw",
    "fence i,o",
    "ecall",
    "ebreak",
    "nop",
    "not x1,x2",
    "seqz x1,x2",
    "sltz x1,x2",
    "beqz x1,loop",
    "blez x1,loop",
    "bltz x1,loop",
    "bgt x1,x2,loop",
    "bgtu x1,x2,loop",
    "j loop",
    "j 4",
    "jr x1",
    "ret",
    "call loop",
    "la x1,loop",
    "la x1,0x80000004",
    "mv x1,x2",
    "neg x1,x2",
    "snez x1,x2",
    "sgtz x1,x2",
    "bnez x1,loop",
    "bgez x1,loop",
    "bgtz x1,loop",
    "ble x1,x2,loop",
    "bleu x1,x2,loop",
    "tail loop",
    "li x1,-2147483648",
    "li x1,4294967295",
    ".text",
    ".globl _start",
    ".global _start",
    ".byte 1",
    ".byte 1,-2,300",
    ".half 1,2",
    ".2byte 1",
    ".word 1,loop",
    ".4byte loop",
    ".zero 4",
    ".space 99999999",
    ".align 2",
    ".p2align 31",
    ".ascii \"a\"",
    ".asciz \"\"",
    ".string \"a\\n\\t\\\\\\\"#\"",
    "",
    "  \t ",
    "# a comment",
    "a:",
    "a: b:",
    "a:b:c: nop # after",
    "add: add x1,x2,x3",
    "x1: nop",
    ".L1$_: nop",
    " lw x1 , -4 ( x2 ) ",
    "li x1,-0",
    "li x1,-0x10",
];

/// What no form takes, each with its fault.
static REFUSED: [(&str, TextKind); 74] = [
    ("add a0,a1,5", TextKind::BadOperands),
    ("lw x1,symbol", TextKind::BadOperands),
    ("sw x1,symbol,x2", TextKind::BadOperands),
    ("lui x1,%hi(a)", TextKind::BadToken),
    ("li x1,1+2", TextKind::BadToken),
    ("li x1,'a'", TextKind::BadToken),
    ("li x1,010", TextKind::BadNumber),
    ("li x1,0o10", TextKind::BadNumber),
    ("1: nop", TextKind::BadOperands),
    ("j 1b", TextKind::BadNumber),
    ("nop;nop", TextKind::BadToken),
    ("nop // a", TextKind::BadToken),
    ("nop /* a */", TextKind::BadToken),
    ("fence.tso", TextKind::UnknownName),
    ("fence.i", TextKind::UnknownName),
    (".option norvc", TextKind::UnknownName),
    (".type a,b", TextKind::UnknownName),
    (".size a,4", TextKind::UnknownName),
    (".file \"a\"", TextKind::UnknownName),
    (".attribute 4", TextKind::UnknownName),
    (".section a", TextKind::UnknownName),
    (".data", TextKind::UnknownName),
    (".equ a,4", TextKind::UnknownName),
    (".balign 4", TextKind::UnknownName),
    ("lla x1,a", TextKind::UnknownName),
    ("mul x1,x2,x3", TextKind::UnknownName),
    ("csrr x1,mstatus", TextKind::UnknownName),
    ("lwu x1,(x2)", TextKind::UnknownName),
    ("ADD x1,x2,x3", TextKind::UnknownName),
    ("add X1,x2,x3", TextKind::BadOperands),
    ("add x1,x2,x32", TextKind::BadOperands),
    ("add x1,x2,x01", TextKind::BadOperands),
    ("frob x1", TextKind::UnknownName),
    ("frob 012", TextKind::BadNumber),
    ("012 012", TextKind::BadNumber),
    ("li x1,012", TextKind::BadNumber),
    ("li x1,-2147483649", TextKind::BadNumber),
    ("li x1,4294967296", TextKind::BadNumber),
    ("li x1,0x", TextKind::BadNumber),
    ("li x1,0b2", TextKind::BadNumber),
    ("li x1,5x", TextKind::BadNumber),
    ("li x1,-x", TextKind::BadToken),
    ("li x1,- 5", TextKind::BadToken),
    (".text x", TextKind::BadOperands),
    ("nop x", TextKind::BadOperands),
    ("nop nop", TextKind::BadOperands),
    ("nop a:", TextKind::BadOperands),
    (": nop", TextKind::BadOperands),
    ("5", TextKind::BadOperands),
    ("(x1)", TextKind::BadOperands),
    (".globl 5", TextKind::BadOperands),
    (".globl", TextKind::BadOperands),
    (".globl a,b", TextKind::BadOperands),
    (".byte", TextKind::BadOperands),
    (".byte a", TextKind::BadOperands),
    (".byte 1,", TextKind::BadOperands),
    (".byte ,1", TextKind::BadOperands),
    (".byte 1 2", TextKind::BadOperands),
    (".word \"a\"", TextKind::BadOperands),
    (".zero", TextKind::BadOperands),
    (".zero 1,2", TextKind::BadOperands),
    (".align a", TextKind::BadOperands),
    (".ascii a", TextKind::BadOperands),
    (".ascii \"a\",\"b\"", TextKind::BadOperands),
    (".ascii \"a", TextKind::BadToken),
    (".ascii \"\\q\"", TextKind::BadToken),
    (".ascii \"a\tb\"", TextKind::BadToken),
    ("fence rw", TextKind::BadOperands),
    ("fence wr,rw", TextKind::BadOperands),
    ("fence rr,rw", TextKind::BadOperands),
    ("fence 1,2", TextKind::BadOperands),
    ("lw x1,4(x2", TextKind::BadOperands),
    ("lw x1,a(x2)", TextKind::BadOperands),
    ("ret x1", TextKind::BadOperands),
];

/// Looks whether a text has this fault.
fn refuses(rt: &impl Abort, alloc: Global, text: &[u8], line: u64, kind: TextKind) {
    let expected = ParseFault::Fault(TextFault { line, kind });
    same(rt, text, parse(alloc, text).err(), Some(expected));
}

#[test]
fn takes_every_form(rt: HostRuntime) -> Result<(), Fail> {
    for text in &FITTING {
        let lines = parse(rt.alloc(), text.as_bytes());
        same(&rt, *text, lines.is_ok(), true);
    }
    Ok(())
}

#[test]
fn refuses_what_is_left_out(rt: HostRuntime) {
    for (text, kind) in &REFUSED {
        refuses(&rt, rt.alloc(), text.as_bytes(), 1, *kind);
    }
}

/// Texts of several faults, each with its first one.
static FIRST_FAULTS: [(&[u8], u64, TextKind); 9] = [
    (b"nop\nfrob x1\n\xFF", 2, TextKind::UnknownName),
    (b"frob 012 ' \xFF", 1, TextKind::NotAscii),
    (b"nop # \x80", 1, TextKind::NotAscii),
    (b"frob 012 '", 1, TextKind::BadToken),
    (b"frob 012 x2", 1, TextKind::BadNumber),
    (b"frob ,,", 1, TextKind::UnknownName),
    (b"nop\r", 1, TextKind::BadToken),
    (b"\n\n\r\r\n", 3, TextKind::BadToken),
    (b"nop\x7F", 1, TextKind::BadToken),
];

#[test]
fn names_the_first_fault(rt: HostRuntime) {
    for (text, line, kind) in &FIRST_FAULTS {
        refuses(&rt, rt.alloc(), text, *line, *kind);
    }
}

/// All of them say nothing.
#[test]
fn reads_over_1_000_000_lines(rt: HostRuntime) -> Result<(), Fail> {
    let text = vec![in rt.alloc(); b'\n'; 1_100_000]?;
    let lines = parse(rt.alloc(), text.as_slice())?;
    same(&rt, "lines", lines.len(), 1_100_000);
    Ok(())
}

static COUNTED: [(&str, usize); 7] = [
    ("", 0),
    ("\n", 1),
    ("nop", 1),
    ("nop\n", 1),
    ("nop\n\n", 2),
    ("nop\r\n\r\nnop", 3),
    ("# \r", 1),
];

#[test]
fn counts_lines_and_their_bytes(rt: HostRuntime) -> Result<(), Fail> {
    for (text, lines) in &COUNTED {
        let found = parse(rt.alloc(), text.as_bytes())?;
        same(&rt, *text, found.len(), *lines);
    }
    Ok(())
}

#[test]
fn lines_have_at_most_512_bytes(rt: HostRuntime) -> Result<(), Fail> {
    let mut long = vec![in rt.alloc(); b'#'; 512]?;
    long.extend_from_slice(b"\r\n")?;
    same(&rt, "512", parse(rt.alloc(), &long).is_ok(), true);
    let mut longer = vec![in rt.alloc(); b'\xFF'; 513]?;
    longer.extend_from_slice(b"\n")?;
    refuses(&rt, rt.alloc(), &longer, 1, TextKind::LineTooLong);
    Ok(())
}

#[test]
fn comments_have_any_byte_of_ascii(rt: HostRuntime) -> Result<(), Fail> {
    let mut comment = Vec::new(rt.alloc());
    comment.push(b'#')?;
    for byte in 0..128 {
        if byte != b'\n' {
            comment.push(byte)?;
        }
    }
    same(&rt, "ASCII", parse(rt.alloc(), &comment).is_ok(), true);
    Ok(())
}

/// Looks at `a: b : lw x5, -4 (sp)`, which begins at byte 5.
fn look_at_places(rt: &impl Abort, line: &Line) -> Result<(), Fail> {
    same(rt, "labels", line.labels().len(), 2);
    let label = line.labels().get(1).ok_or("no label")?;
    same(rt, "the second", label.text(), b"b".as_slice());
    same(rt, "the second", (label.start(), label.end()), (8, 9));
    let statement = line.statement().ok_or("no statement")?;
    same(rt, "name", statement.name().text(), b"lw".as_slice());
    same(rt, "name", statement.name().start(), 12);
    look_at_operands(rt, statement)
}

fn look_at_operands(rt: &impl Abort, statement: &Statement) -> Result<(), Fail> {
    let operands = statement.operands();
    same(rt, "operands", operands.len(), 2);
    let first = operands.first().ok_or("no operand")?;
    let second = operands.get(1).ok_or("no operand")?;
    same(rt, "the first", first.span(), Span { start: 15, end: 17 });
    same(rt, "the second", second.span(), Span { start: 19, end: 26 });
    Ok(())
}

/// What the statement of a line means.
fn meaning_of<'a, 'b>(lines: &'b [Line<'a>], place: usize) -> Result<&'b Meaning<'a>, Fail> {
    let line = lines.get(place).ok_or("no line")?;
    Ok(line.statement().ok_or("no statement")?.meaning())
}

fn look_at_load(rt: &impl Abort, meaning: &Meaning) {
    match meaning {
        Meaning::Operation(Operation::Load(LoadOp::Lw, written, memory)) => {
            same(rt, "target", written.number(), 5);
            same(rt, "offset", memory.offset, -4);
            same(rt, "base", memory.base.number(), 2);
        }
        _ => panic!(rt; "no load"),
    }
}

fn look_at_string(rt: &impl Abort, meaning: &Meaning) {
    match meaning {
        Meaning::Directive(Directive::Text(TextOp::Ascii, bytes)) => {
            same(rt, "bytes", bytes.bytes(), b"\t#\"".as_slice());
        }
        _ => panic!(rt; "no string"),
    }
}

#[test]
fn shows_labels_operands_and_spans(rt: HostRuntime) -> Result<(), Fail> {
    let text = b"nop\r\na: b : lw x5, -4 (sp) # \"\n.ascii \"\\t#\\\"\"";
    let lines = parse(rt.alloc(), text)?;
    same(&rt, "lines", lines.len(), 3);
    look_at_places(&rt, lines.get(1).ok_or("no line")?)?;
    look_at_load(&rt, meaning_of(&lines, 1)?);
    look_at_string(&rt, meaning_of(&lines, 2)?);
    Ok(())
}

fn look_at_bytes(rt: &impl Abort, meaning: &Meaning) {
    match meaning {
        Meaning::Directive(Directive::Bytes(numbers)) => {
            same(rt, "numbers", numbers.items(), [1, -2].as_slice());
        }
        _ => panic!(rt; "no bytes"),
    }
}

fn look_at_words(rt: &impl Abort, meaning: &Meaning) {
    let Meaning::Directive(Directive::Words(targets)) = meaning else {
        panic!(rt; "no words");
    };
    same(rt, "targets", targets.items().len(), 2);
    match targets.items().get(1) {
        Some(Target::Label(label)) => same(rt, "a label", label.text(), b"end".as_slice()),
        _ => panic!(rt; "no label"),
    }
}

fn look_at_fence(rt: &impl Abort, meaning: &Meaning) {
    match meaning {
        Meaning::Fence(before, after) => {
            same(rt, "before", before.bits(), 15);
            same(rt, "after", after.bits(), 1);
        }
        _ => panic!(rt; "no fence"),
    }
}

#[test]
fn shows_data_and_fences(rt: HostRuntime) -> Result<(), Fail> {
    let lines = parse(rt.alloc(), b".byte 1,-2\n.word 7,end\nfence iorw,w\n")?;
    same(&rt, "lines", lines.len(), 3);
    look_at_bytes(&rt, meaning_of(&lines, 0)?);
    look_at_words(&rt, meaning_of(&lines, 1)?);
    look_at_fence(&rt, meaning_of(&lines, 2)?);
    Ok(())
}

#[test]
fn tells_the_fault_of_each_line(rt: HostRuntime) -> Result<(), Fail> {
    let faults = text_faults(rt.alloc(), b"nop\nfrob x1\n\nli x1,012\r\nx: nop\n?")?;
    let expected = [
        TextFault {
            line: 2,
            kind: TextKind::UnknownName,
        },
        TextFault {
            line: 4,
            kind: TextKind::BadNumber,
        },
        TextFault {
            line: 6,
            kind: TextKind::BadToken,
        },
    ];
    same(&rt, "faults", faults.len(), 3);
    for (fault, expected) in faults.iter().zip(&expected) {
        same(&rt, "a fault", *fault, *expected);
    }
    Ok(())
}

#[test]
fn finds_lines_by_their_numbers(rt: HostRuntime) {
    let text = b"a\r\n\nnop # b\n";
    same(&rt, 0, numbered_line(text, 0), None);
    same(&rt, 1, numbered_line(text, 1), Some(b"a".as_slice()));
    same(&rt, 2, numbered_line(text, 2), Some(b"".as_slice()));
    same(&rt, 3, numbered_line(text, 3), Some(b"nop # b".as_slice()));
    same(&rt, 4, numbered_line(text, 4), None);
}

static KINDS: [(TextKind, u8, &str); 6] = [
    (TextKind::BadToken, 1, "line 7: BadToken"),
    (TextKind::BadNumber, 2, "line 7: BadNumber"),
    (TextKind::UnknownName, 3, "line 7: UnknownName"),
    (TextKind::BadOperands, 4, "line 7: BadOperands"),
    (TextKind::LineTooLong, 5, "line 7: LineTooLong"),
    (TextKind::NotAscii, 6, "line 7: NotAscii"),
];

#[test]
fn prints_faults(rt: HostRuntime) -> Result<(), Fail> {
    for (kind, number, shown) in &KINDS {
        same(&rt, *shown, kind.number(), *number);
        let fault = TextFault {
            line: 7,
            kind: *kind,
        };
        let text = format!(in rt.alloc(); "{fault}")?;
        same(&rt, "a text", text.as_str(), *shown);
    }
    Ok(())
}

#[test]
fn laws_take_nothing(_rt: HostRuntime) {
    pieces_are_slices_that_rise();
    lines_are_those_of_the_grammar();
    strings_mean_what_they_spell();
    the_first_fault_of_a_text_is_named();
}
