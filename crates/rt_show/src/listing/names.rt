//! The lines of the symbols.

ghost use Rattle.std.specs.Prelude.{◌≡◌, ℕ, ◌<◌, ◌++◌, IfOk, OnOk};
ghost use Rattle.std.specs.List.Sorted.{IsNonDecreasingBy};
ghost use Rattle.rt_image.specs.ObjectFile.{label, labels};
ghost use Rattle.rt_image.specs.declared.object.Symbol.{Symbol};
ghost use Rattle.rt_show.specs.listing.Listing.{name_line, names_at};

use rt_image::Symbol;
use std::alloc::{AllocError, Global};

/// The symbols by their addresses, those at one address in their order.
pub fn by_address<'a>(alloc: Global, symbols: &[Symbol<'a>]) -> Result<Vec<Symbol<'a>>, AllocError>
    ensures sorted { IfOk result (λ found. IsNonDecreasingBy (λ (s : Symbol). s.address) found.items) }
    ensures same { IfOk result (λ found. (address : ℕ) → names_at address (labels found.items) ≡ names_at address (labels symbols.now)) }
{
    let mut found = Vec::new(alloc);
    found.extend_from_slice(symbols)?;
    found.sort_by_key(|symbol| symbol.address)?;
    Ok(found)
}

/// Appends the line of a symbol, where it stands at an address.
fn push_name(out: &mut Vec<u8>, symbol: &Symbol, address: u32) -> Result<(), AllocError>
    ensures { OnOk result (out.new.items ≡ out.old.items ++ name_line address (label symbol.now)) }
{
    if symbol.address != address {
        return Ok(());
    }
    out.extend_from_slice(symbol.name)?;
    out.extend_from_slice(b":\n")
}

/// Appends the lines of the symbols at an address, of symbols that rise by theirs, and answers
/// those above it.
pub fn push_names<'s, 'a>(
    out: &mut Vec<u8>,
    symbols: &'s [Symbol<'a>],
    address: u32,
) -> Result<&'s [Symbol<'a>], AllocError>
    requires { IsNonDecreasingBy (λ (s : Symbol). s.address) symbols.now }
    ensures lines { OnOk result (out.new.items ≡ out.old.items ++ names_at address (labels symbols.now)) }
    ensures rest { IfOk result (λ rest. (a : ℕ) → address < a → names_at a (labels rest.now) ≡ names_at a (labels symbols.now)) }
    ensures sorted { IfOk result (λ rest. IsNonDecreasingBy (λ (s : Symbol). s.address) rest.now) }
{
    // All of them are left at first.
    let (_, mut rest) = symbols.split_at(0);
    while let Some((symbol, after)) = rest.split_first() {
        if symbol.address > address {
            break;
        }
        push_name(out, symbol, address)?;
        rest = after;
    }
    Ok(rest)
}
