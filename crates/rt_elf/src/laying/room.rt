//! How many bytes there is room for from a symbol on.

ghost use Rattle.std.specs.Prelude.{◌≡◌, ◌+◌, ◌<◌, ◌≤◌, length, None, IfSome, false};
ghost use Rattle.std.specs.List.{fold};
ghost use Rattle.std.specs.Option.{option_map};
ghost use Rattle.rt_image.specs.ObjectFile.{label};
ghost use Rattle.rt_words.specs.Base.{base};
ghost use Rattle.rt_elf.specs.Fields.{numbered};
ghost use Rattle.rt_elf.specs.Refusals.{lacks_name, refusal};
ghost use Rattle.rt_elf.specs.SymbolTable.{entry_count};
ghost use Rattle.rt_elf.specs.Working.Checks.{HasSections, HasSymbols};
ghost use Rattle.rt_elf.specs.laying.Room.{size_at, is_entry_of, after_entry, each, room_of};

use crate::checking::check_file;
use crate::fields::u32_at;
use crate::names::name_at;
use crate::sections::{SectionHeader, section_header};
use crate::symbols::{Entry, entry_at, entry_count};
use rt_image::Symbol;
use rt_words::{MAX_RAM, RAM_BASE};

/// The size that entry `number` says.
fn size_at(file: &[u8], table: &SectionHeader, number: usize) -> u32
    requires whole { table.now.offset + table.now.size ≤ length file.now }
    requires there { number < entry_count table.now }
    ensures { result ≡ size_at file.now table.now number }
{
    u32_at(file, table.offset as usize + 16 * number + 8)
}

/// Whether an entry is one of a symbol whose name an object may have.
#[tactic(auto, using(crate::proofs::laying::RoomLemmas::same_cut))]
fn is_entry_of(names: &[u8], symbol: &Symbol<'_>, entry: &Entry) -> bool
    requires named { lacks_name (length names.now) entry.now ≡ false }
    requires short { length symbol.now.name.now ≤ 512 }
    ensures { result ≡ is_entry_of names.now (label symbol.now) entry.now }
{
    if !entry.may_tell() || entry.value != symbol.address {
        return false;
    }
    symbol.name == name_at(names, entry.name as usize)
}

/// So much room, or as much as entry `number` says that the symbol has bytes, where that is less.
fn after_entry(
    file: &[u8],
    table: &SectionHeader,
    symbol: &Symbol<'_>,
    room: u32,
    number: usize,
) -> u32
    requires sections { HasSections file.now }
    requires table { HasSymbols file.now table.now }
    requires short { length symbol.now.name.now ≤ 512 }
    requires there { number < entry_count table.now }
    ensures { result ≡ after_entry file.now table.now (label symbol.now) room number }
{
    let size = size_at(file, table, number);
    let names = section_header(file, table.link as usize).contents(file);
    if size > 0 && is_entry_of(names, symbol, &entry_at(file, table, number)) {
        room.min(size)
    } else {
        room
    }
}

/// So much room, or as much as an entry of a table says that the symbol has bytes, where that is less.
fn room_by(file: &[u8], table: &SectionHeader, symbol: &Symbol<'_>, most: u32) -> u32
    requires sections { HasSections file.now }
    requires table { HasSymbols file.now table.now }
    requires short { length symbol.now.name.now ≤ 512 }
    ensures { result ≡ fold (after_entry file.now table.now (label symbol.now)) most (numbered each 0 (entry_count table.now)) }
{
    let mut room = most;
    for number in 0..entry_count(table) {
        room = after_entry(file, table, symbol, room, number);
    }
    room
}

/// How many bytes there is room for from a symbol on, of an object that is made of this ELF file, if it is made of one.
pub(crate) fn room_of(elf: Option<&[u8]>, symbol: &Symbol<'_>) -> u32
    requires taken { IfSome elf (λ file. refusal file.now ≡ None) }
    requires high { symbol.now.address ≤ base + MAX_RAM }
    requires short { length symbol.now.name.now ≤ 512 }
    ensures { result ≡ room_of (option_map (λ file. file.now) elf.entry) (label symbol.now) }
{
    let most = RAM_BASE + MAX_RAM - symbol.address;
    let Some(file) = elf else {
        return most;
    };
    match check_file(file) {
        Ok(Some(table)) => room_by(file, &table, symbol, most),
        Ok(None) => most,
        // The file isn't refused.
        Err(_) => unreachable!(),
    }
}
