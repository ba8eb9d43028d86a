//! The lines of `monitor`, and how they come.

use super::*;

/// What lines ask for.
static LINES: [(&[u8], &str); 46] = [
    (b"at 0", "At(Some(0))"),
    (b"at 12", "At(Some(12))"),
    (b"at 1099511627776", "At(Some(1099511627776))"),
    (b"at none", "At(None)"),
    (b"at", "Asked"),
    (b"help", "Help"),
    (b"where", "Look(Shown)"),
    (b"regs 1", "Look(Regs(1))"),
    (b"server 0", "Look(Server(0))"),
    (
        b"mem 0 0x80000000 16",
        "Look(Mem { task: 0, place: Address(2147483648), count: 16 })",
    ),
    (
        b"list 2 0x80000004 64",
        "Look(List { task: 2, place: Address(2147483652), count: 64 })",
    ),
    (b"out 3", "Look(Out(3))"),
    (b"trace 256", "Look(Trace(256))"),
    (b"at 1099511627777", "Unknown(At)"),
    (b"at 00", "Unknown(At)"),
    (b"at 01", "Unknown(At)"),
    (b"at 0x1", "Unknown(At)"),
    (b"at -1", "Unknown(At)"),
    (b"at ", "Unknown(At)"),
    (b"at  1", "Unknown(At)"),
    (b"at 1 2", "Unknown(At)"),
    (b"at None", "Unknown(At)"),
    (b"at none ", "Unknown(At)"),
    (b"atnone", "Unknown(Line)"),
    (b"At", "Unknown(Line)"),
    (b"help me", "Unknown(Line)"),
    (b"step", "Unknown(Line)"),
    (b"step 1", "Unknown(Line)"),
    (b"back", "Unknown(Line)"),
    (b"back 1", "Unknown(Line)"),
    (b"continue", "Unknown(Line)"),
    (b"break 0 _start", "Unknown(Line)"),
    (b"delete 0", "Unknown(Line)"),
    (b"quit", "Unknown(Line)"),
    (b"regs", "Unknown(Regs)"),
    (b"trace 0", "Unknown(Trace)"),
    (b"trace 257", "Unknown(Trace)"),
    (b"where ", "Unknown(Where)"),
    (b" where", "Unknown(Line)"),
    (b"WHERE", "Unknown(Line)"),
    (b"where\n", "Unknown(Line)"),
    (b"mem 0 0x80000000 257", "Unknown(Mem)"),
    (b"mem 0 word 4", "Unknown(Mem)"),
    (b"list 0 word 1", "Unknown(List)"),
    (b"", "Unknown(Line)"),
    (b"\xff", "Unknown(Line)"),
];

#[test]
fn lines_are_read(rt: HostRuntime) -> Result<(), Fail> {
    for (line, wanted) in &LINES {
        let asked = format!(in rt.alloc(); "{:?}", parse_monitor(*line))?;
        same(&rt, *line, asked.as_str(), *wanted);
    }
    Ok(())
}

/// Digits that are no bytes.
static OTHERS: [&[u8]; 5] = [
    b"qRcmd,7",
    b"qRcmd,776",
    b"qRcmd,7g",
    b"qRcmd,7 ",
    b"qRcmd,0x77",
];

/// Digits, and the bytes that they are.
static DIGITS: [(&[u8], &[u8]); 5] = [
    (b"qRcmd,7768657265", b"where"),
    (b"qRcmd,", b""),
    (b"qRcmd,4a4B", b"JK"),
    (b"qRcmd,00fFF00a", b"\x00\xff\xf0\x0a"),
    (b"qRcmd,6174203132", b"at 12"),
];

/// The line of a payload, in the place of another. Nothing where it has none.
fn line_of(payload: &[u8]) -> Option<ArrayVec<u8, 515>> {
    let Request::Monitor(digits) = parse_request(payload) else {
        return None;
    };
    let mut line = ArrayVec::new();
    line.push(b'x');
    digits.keep(&mut line);
    Some(line)
}

#[test]
fn digits_are_bytes(rt: HostRuntime) -> Result<(), Fail> {
    for (payload, bytes) in &DIGITS {
        let line = line_of(*payload).ok_or("a line")?;
        same(&rt, *payload, line.as_slice(), *bytes);
    }
    Ok(())
}

#[test]
fn other_digits_are_malformed(rt: HostRuntime) {
    for payload in &OTHERS {
        let is_malformed = matches!(parse_request(*payload), Request::Malformed);
        same(&rt, *payload, is_malformed, true);
    }
    let is_unknown = matches!(parse_request(b"qRcmd"), Request::Unknown);
    same(&rt, "no comma", is_unknown, true);
}

#[test]
fn a_long_line_is_cut(rt: HostRuntime) -> Result<(), Fail> {
    let mut payload = Vec::new(rt.alloc());
    payload.extend_from_slice(b"qRcmd,")?;
    for _ in 0..515 {
        payload.extend_from_slice(b"61")?;
    }
    payload.extend_from_slice(b"62")?;
    let line = line_of(&payload).ok_or("a line")?;
    let letters = vec![in rt.alloc(); b'a'; 515]?;
    same(&rt, "a line", line.as_slice(), letters.as_slice());
    Ok(())
}
