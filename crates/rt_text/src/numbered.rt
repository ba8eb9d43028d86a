//! The lines of a text by their numbers.

ghost use Rattle.rt_words.specs.Found.{Finds};
ghost use Rattle.rt_text.specs.Numbered.{numbered_line};

use rt_token::cut_line;

/// The line of this number of a text, counted from 1, without its end. None where there are fewer.
pub fn numbered_line(text: &[u8], number: u64) -> Option<&[u8]>
    ensures { Finds (λ line. line.now) result (numbered_line text.now number) }
{
    let mut rest = text;
    let mut left = number;
    while !rest.is_empty() {
        let (line, after) = cut_line(rest);
        if left == 1 {
            return Some(line);
        }
        left = left.saturating_sub(1);
        rest = after;
    }
    None
}
