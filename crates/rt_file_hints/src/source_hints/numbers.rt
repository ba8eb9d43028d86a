//! Why a word that begins as a number is none.

use rt_token::value_up_to;
use std::alloc::AllocError;

/// Writes why this word is no number.
pub(crate) fn write_number_reason(text: &mut String, word: &[u8]) -> Result<(), AllocError> {
    let (digits, sign) = match word.strip_prefix(b"-") {
        Some(digits) => (digits, "-"),
        None => (word, ""),
    };
    match octal_digits(digits) {
        Some(value) => text.write(format_args!(
            "leading zero (octal? write {sign}{value} or {sign}0x{value:x})"
        )),
        None => text.push_str(reason(digits)),
    }
}

/// The value of octal digits behind `0o`, or behind a leading zero.
fn octal_digits(digits: &[u8]) -> Option<u64> {
    let octal = digits.strip_prefix(b"0")?;
    let octal = octal.strip_prefix(b"o").unwrap_or(octal);
    value_up_to(u64::from(u32::MAX), 8, octal)
}

/// Why a word without a sign is no number.
fn reason(word: &[u8]) -> &'static str {
    match word {
        [b'0', b'x' | b'X' | b'b' | b'B'] => "no digits behind it",
        [b'0', b'x' | b'X', digits @ ..] if !digits.iter().all(|byte| byte.is_ascii_hexdigit()) => {
            "hexadecimal digits are 0 to 9 and a to f"
        }
        [b'0', b'b' | b'B', digits @ ..]
            if !digits.iter().all(|byte| matches!(byte, b'0' | b'1')) => {
            "binary digits are 0 and 1"
        }
        [b'0', b'x' | b'X' | b'b' | b'B', ..] => RANGE,
        [b'0', b'o' | b'O', ..] => "letters in a number",
        [digits @ .., b'b' | b'f'] if are_decimal(digits) => {
            "letters in a number; no numeric labels"
        }
        [b'0', ..] if are_decimal(word) => "leading zero",
        _ if are_decimal(word) => RANGE,
        _ if word.contains(&b'.') => "numbers are whole",
        _ => "letters in a number",
    }
}

/// What is said of a number that is too small or too large.
const RANGE: &str = "wanted -2147483648 to 4294967295";

fn are_decimal(bytes: &[u8]) -> bool {
    bytes.iter().all(|byte| byte.is_ascii_digit())
}
