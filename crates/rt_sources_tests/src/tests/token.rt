//! Words, numbers and lines that were worked out by hand.

use crate::tests::same;
use rt_token::{
    Kind, Span, Token, after_keyword, cut_line, cut_tokens, decimal_up_to, is_word, number,
    number_at, value_up_to, word_at,
};
use std::process::Abort;
use std::test::Fail;

/// A text, and whether it is a word.
static WORDS: [(&str, bool); 11] = [
    ("a", true),
    ("_", true),
    (".L1", true),
    ("$a.b_9", true),
    ("Z", true),
    ("", false),
    ("1a", false),
    ("a b", false),
    ("a-", false),
    ("-", false),
    ("a\n", false),
];

/// A text, and its number.
static NUMBERS: [(&str, Option<i64>); 25] = [
    ("0", Some(0)),
    ("-0", Some(0)),
    ("4294967295", Some(4294967295)),
    ("4294967296", None),
    ("-2147483648", Some(-2147483648)),
    ("-2147483649", None),
    ("0xFFFFffff", Some(4294967295)),
    ("0x00000000000000000001", Some(1)),
    ("0x100000000", None),
    ("-0X10", Some(-16)),
    ("0b101", Some(5)),
    ("0B0001", Some(1)),
    ("99999999999999999999999999999999999999", None),
    ("00", None),
    ("012", None),
    ("0x", None),
    ("0b", None),
    ("0b2", None),
    ("0xg", None),
    ("5x", None),
    ("--5", None),
    ("+5", None),
    ("-", None),
    ("", None),
    ("1_000", None),
];

#[test]
fn reads_words_and_numbers(rt: HostRuntime) -> Result<(), Fail> {
    for (text, is_one) in &WORDS {
        same(&rt, *text, is_word(text.as_bytes()), *is_one);
    }
    for (text, value) in &NUMBERS {
        same(&rt, *text, number(text.as_bytes()), *value);
    }
    Ok(())
}

const LIMIT: u64 = 1 << 40;

/// A greatest value, a text, and its decimal number.
static DECIMALS: [(u64, &str, Option<u64>); 4] = [
    (LIMIT, "1099511627776", Some(LIMIT)),
    (LIMIT, "1099511627777", None),
    (u64::MAX, "18446744073709551615", Some(u64::MAX)),
    (u64::MAX, "18446744073709551616", None),
];

fn reads_values(rt: &impl Abort) {
    for (most, text, value) in &DECIMALS {
        same(rt, *text, decimal_up_to(*most, text.as_bytes()), *value);
    }
    same(rt, "fF", value_up_to(255, 16, b"fF"), Some(255));
    same(rt, "ff", value_up_to(254, 16, b"ff"), None);
}

#[test]
fn reads_spaced_words(rt: HostRuntime) -> Result<(), Fail> {
    let (step, twelve, x): (&[u8], &[u8], &[u8]) = (b"step", b"12 x", b"x");
    let one: &[u8] = b"1";
    same(&rt, "a word", word_at(b"step 12 x"), Some((step, twelve)));
    same(&rt, "12", number_at(LIMIT, twelve), Some((12, x)));
    same(&rt, "012", number_at(LIMIT, b"012 x"), None);
    same(&rt, "step", after_keyword(step, b"step 1"), Some(one));
    same(&rt, "steps", after_keyword(step, b"steps 1"), None);
    reads_values(&rt);
    Ok(())
}

#[test]
fn cuts_lines(rt: HostRuntime) {
    let (a, rest, none, b): (&[u8], &[u8], &[u8], &[u8]) = (b"a", b"\nb", b"", b"b\r");
    same(&rt, "the first", cut_line(b"a\r\n\nb"), (a, rest));
    same(&rt, "the next", cut_line(rest).0, none);
    same(&rt, "the last", cut_line(b).0, b);
}

/// The kind of a token, and where it begins and ends.
fn shown(token: Option<&Token<'_>>) -> Option<(Kind, Span)> {
    let token = token?;
    Some((token.kind, token.slice.span()))
}

/// The tokens of `lw x1,-4(sp) # a` from 7 on.
static TOKENS: [(Kind, Span); 7] = [
    (Kind::Word, Span { start: 7, end: 9 }),
    (Kind::Word, Span { start: 10, end: 12 }),
    (Kind::Comma, Span { start: 12, end: 13 }),
    (Kind::Number, Span { start: 13, end: 15 }),
    (Kind::Open, Span { start: 15, end: 16 }),
    (Kind::Word, Span { start: 16, end: 18 }),
    (Kind::Close, Span { start: 18, end: 19 }),
];

fn look_at_tokens(rt: &impl Abort, tokens: &[Token<'_>]) {
    same(rt, "tokens", tokens.len(), 7);
    for (number, token) in TOKENS.iter().enumerate() {
        same(rt, number, shown(tokens.get(number)), Some(*token));
    }
}

#[test]
fn cuts_tokens(rt: HostRuntime) -> Result<(), Fail> {
    let mut tokens = Vec::new(rt.alloc());
    same(&rt, "nop", cut_tokens(&mut tokens, 3, b"nop")?, true);
    let cut = cut_tokens(&mut tokens, 7, b"lw x1,-4(sp) # a")?;
    same(&rt, "lw", cut, true);
    look_at_tokens(&rt, &tokens);
    let text = tokens.get(3).map(|token| token.slice.same().text());
    let four: &[u8] = b"-4";
    same(&rt, "a text", text, Some(four));
    same(&rt, ";", cut_tokens(&mut tokens, 0, b"a ; b")?, false);
    Ok(())
}
