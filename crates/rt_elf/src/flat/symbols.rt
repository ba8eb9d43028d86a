//! The symbols that lines of a list say.

ghost use Rattle.std.specs.Prelude.{◌≡◌, ◌≤◌};
ghost use Rattle.rt_words.specs.Found.{Finds};
ghost use Rattle.rt_image.specs.ObjectFile.{label};
ghost use Rattle.rt_elf.specs.flat.Shown.{is_shown};
ghost use Rattle.rt_elf.specs.flat.FlatNames.{address_of, symbol_of, may_stand};

use rt_image::Symbol;
use rt_token::{is_word, value_up_to, word_at};
use rt_words::{MAX_IMAGE, MAX_LINE, MAX_WORD, RAM_BASE};

/// The address that eight hexadecimal digits say.
pub fn address_of(digits: &[u8]) -> Option<u32>
    ensures { result ≡ address_of digits.now }
{
    if digits.len() != 8 {
        return None;
    }
    let address = value_up_to(MAX_WORD, 16, digits)?;
    Some(address as u32)
}

/// The symbol that a line `ADDRESS LETTER NAME` says.
#[tactic(auto, unfolding(crate::specs::flat::FlatNames::symbol_of))]
pub fn symbol_of(line: &[u8]) -> Option<Symbol<'_>>
    ensures { Finds label result (symbol_of line.now) }
{
    let (digits, rest) = word_at(line)?;
    let address = address_of(digits)?;
    let (letter, name) = word_at(rest)?;
    if letter.len() != 1 || name.is_empty() {
        return None;
    }
    Some(Symbol { name, address })
}

/// Whether GNU `nm` shows a symbol of this name: it isn't empty, and begins with none of `$x`, `$d` and `.L`.
pub fn is_shown(name: &[u8]) -> bool
    ensures { result ≡ is_shown name.now }
{
    !name.is_empty()
        && !name.starts_with(b"$x")
        && !name.starts_with(b"$d")
        && !name.starts_with(b".L")
}

/// Whether an object of so many bytes may have the symbol.
pub fn may_stand(size: u32, symbol: &Symbol) -> bool
    requires { size ≤ MAX_IMAGE }
    ensures { result ≡ may_stand size (label symbol.now) }
{
    let len = symbol.name.len();
    let address = symbol.address;
    1 <= len
        && len <= MAX_LINE as usize
        && is_word(symbol.name)
        && RAM_BASE <= address
        && address <= RAM_BASE + size
}
