//! The symbols that name parts of addresses.

ghost use Rattle.std.specs.Prelude.{◌≡◌};
ghost use Rattle.std.specs.Option.{option_map};
ghost use Rattle.rt_image.specs.ObjectFile.{label, labels};
ghost use Rattle.rt_names.specs.Parts.{is_nearer, namer};
ghost use Rattle.rt_names.specs.Working.Nearest.{nearest};

use rt_image::Symbol;

/// Whether the first of two symbols at or below an address is the one that names its part.
fn is_nearer_than(symbol: &Symbol, other: &Symbol) -> bool
    ensures { result ≡ is_nearer (label symbol.now) (label other.now) }
{
    if symbol.address == other.address {
        if symbol.name.len() == other.name.len() {
            symbol.name.cmp(other.name).is_lt()
        } else {
            symbol.name.len() < other.name.len()
        }
    } else {
        symbol.address > other.address
    }
}

/// The one that names the part, of the one so far and another.
pub(crate) fn nearest_of<'a>(so_far: Option<Symbol<'a>>, symbol: Symbol<'a>) -> Symbol<'a>
    ensures { label result ≡ nearest (option_map label so_far.entry) (label symbol.entry) }
{
    match so_far {
        Some(other) => {
            if is_nearer_than(&symbol, &other) {
                symbol
            } else {
                other
            }
        }
        None => symbol,
    }
}

/// The symbol at which the part of an address begins, and by which it is named; none of the part below all symbols.
pub fn namer_of<'a>(symbols: &[Symbol<'a>], address: u32) -> Option<Symbol<'a>>
    ensures { option_map label result ≡ namer (labels symbols.now) address }
{
    let mut found: Option<Symbol<'a>> = None;
    for symbol in symbols {
        if symbol.address <= address {
            found = Some(nearest_of(found, *symbol));
        }
    }
    found
}
