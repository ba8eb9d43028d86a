//! An address as a reader of the source knows it.

use crate::shown::Printable;
use rt_image::Symbol;
use std::fmt;

/// An address by the symbol that is nearest at or below it, as `motor+0x1c`; as eight digits where there is none.
#[derive(Clone, Copy)]
pub struct Place<'a> {
    symbol: Option<Symbol<'a>>,
    address: u32,
}

/// Whether a symbol names an address better than another, both at or below it: it is nearer, or its name is shorter. Symbols come in
/// the order of their names.
fn is_better(symbol: &Symbol, other: &Symbol) -> bool {
    symbol.address > other.address
        || symbol.address == other.address && symbol.name.len() < other.name.len()
}

impl<'a> Place<'a> {
    /// An address by these symbols.
    pub fn of(symbols: &[Symbol<'a>], address: u32) -> Place<'a> {
        let mut nearest: Option<Symbol<'a>> = None;
        for symbol in symbols {
            let is_better = match nearest {
                Some(found) => is_better(symbol, &found),
                None => true,
            };
            if symbol.address <= address && is_better {
                nearest = Some(*symbol);
            }
        }
        Place {
            symbol: nearest,
            address,
        }
    }
}

impl fmt::Display for Place<'_> {
    fn fmt<W: fmt::Write>(&self, f: &mut fmt::Formatter<W>) -> fmt::Result {
        let address = self.address;
        let Some(symbol) = self.symbol else {
            return write!(f, "{address:08x}");
        };
        write!(f, "{}", Printable(symbol.name))?;
        match address.saturating_sub(symbol.address) {
            0 => Ok(()),
            offset => write!(f, "+{offset:#x}"),
        }
    }
}
