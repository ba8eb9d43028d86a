//! Cuts a text into lines.

ghost use Rattle.std.specs.Prelude.{ℕ, ◌≡◌, ◌+◌, ◌-◌, ◌<◌, ◌≤◌, ◌∷◌, length};
ghost use Rattle.std.specs.List.{position_or_len};
ghost use Rattle.std.specs.Str.Lines.{strip_carriage_return};
ghost use Rattle.rt_token.specs.SourceLines.{is_line_feed, source_lines};

use memchr::memchr;

/// The first line of a text without its end, and the text after that. A line ends at a line feed,
/// with the one carriage return directly before it, or at the end of the text.
pub fn cut_line(text: &[u8]) -> (&[u8], &[u8])
    requires { 0 < length text.now }
    ensures first { (place : ℕ) → source_lines place text.now ≡ (place, result.0.now) ∷ source_lines (place + (length text.now - length result.1.now)) result.1.now }
    ensures shorter { length result.1.now < length text.now }
    ensures within { length result.0.now + length result.1.now ≤ length text.now }
{
    let (line, after) = text.split_at(line_feed_place(text));
    match after.split_first() {
        Some((_line_feed, after)) => (without_carriage_return(line), after),
        None => (line, after),
    }
}

/// Where the first line feed stands, or the length of the text where there is none.
fn line_feed_place(text: &[u8]) -> usize
    ensures value { result ≡ position_or_len is_line_feed text.now }
    ensures within { result ≤ length text.now }
{
    memchr(b'\n', text).unwrap_or(text.len())
}

/// A line without the one carriage return at its end, if it has one.
fn without_carriage_return(line: &[u8]) -> &[u8]
    ensures value { result.now ≡ strip_carriage_return line.now }
    ensures within { length result.now ≤ length line.now }
{
    match line.last() {
        Some(b'\r') => &line[..line.len() - 1],
        _ => line,
    }
}
