//! The words of assembly text: labels, mnemonics, directives, registers.

ghost use Rattle.std.specs.Prelude.{◌≡◌};
ghost use Rattle.std.specs.List.{list_all};
ghost use Rattle.rt_token.specs.Word.{is_word, is_word_start, is_word_part};

/// Whether the bytes are one word: a letter, `_`, `.` or `$`, and after it any of these and digits.
pub fn is_word(bytes: &[u8]) -> bool
    ensures { result ≡ is_word bytes.now }
{
    match bytes.split_first() {
        Some((first, rest)) => is_word_start(*first) && are_word_parts(rest),
        None => false,
    }
}

fn are_word_parts(bytes: &[u8]) -> bool
    ensures { result ≡ list_all is_word_part bytes.now }
{
    bytes.iter().all(|byte| is_word_part(*byte))
}

pub(crate) fn is_word_start(byte: u8) -> bool
    ensures { result ≡ is_word_start byte }
{
    byte.is_ascii_alphabetic() || byte == b'_' || byte == b'.' || byte == b'$'
}

/// The bytes of a word, each at its own place; a comma stands at every other.
static WORD_PARTS: [u8; 256] = *b"\
    ,,,,,,,,,,,,,,,,,,,,,,,,,,,,,,,,\
    ,,,,$,,,,,,,,,.,0123456789,,,,,,\
    ,ABCDEFGHIJKLMNOPQRSTUVWXYZ,,,,_\
    ,abcdefghijklmnopqrstuvwxyz,,,,,\
    ,,,,,,,,,,,,,,,,,,,,,,,,,,,,,,,,\
    ,,,,,,,,,,,,,,,,,,,,,,,,,,,,,,,,\
    ,,,,,,,,,,,,,,,,,,,,,,,,,,,,,,,,\
    ,,,,,,,,,,,,,,,,,,,,,,,,,,,,,,,,";

/// Whether a byte may stand in a word. It is asked of nearly all bytes of a source, so it is a look in a table.
pub(crate) fn is_word_part(byte: u8) -> bool
    ensures { result ≡ is_word_part byte }
{
    WORD_PARTS[byte as usize] != b','
}
