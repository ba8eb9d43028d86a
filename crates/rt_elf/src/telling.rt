//! The symbols that a file tells, whether an object keeps them or not.

ghost use Rattle.std.specs.Prelude.{◌≡◌, ◌++◌, ◌≤◌, false, length, map, MatchResult, OnOk};
ghost use Rattle.rt_image.specs.ObjectFile.{label, labels};
ghost use Rattle.rt_words.specs.Found.{Finds};
ghost use Rattle.rt_elf.specs.Refusals.{lacks_name};
ghost use Rattle.rt_elf.specs.SymbolTable.{names_of, entries};
ghost use Rattle.rt_elf.specs.Telling.{told_by};
ghost use Rattle.rt_elf.specs.ToldSymbols.{IsTold, IsUntold, shortened, told_at};
ghost use Rattle.rt_elf.specs.Working.Checks.{HasSections, HasSymbols};

use crate::checking::check_file;
use crate::fault::ElfFault;
use crate::flat::is_shown;
use crate::loading::image_size;
use crate::names::name_at;
use crate::sections::{SectionHeader, section_header};
use crate::symbols::{Entry, entry_at, entry_count};
use rt_image::Symbol;
use std::alloc::{AllocError, Global};

/// What the symbols of an object are chosen from.
#[derive(Drop)]
pub struct Told<'a> {
    /// How many bytes the image has.
    pub image_size: u64,
    /// The symbols that the first symbol table tells, if there is one: those that aren't local come first. Of a name of over 513 bytes
    /// they have the first 513.
    pub symbols: Vec<Symbol<'a>>,
}

/// The symbol of an entry, if it is local or not as said and tells one.
fn told_at<'a>(names: &'a [u8], entry: &Entry, local: bool) -> Option<Symbol<'a>>
    requires { lacks_name (length names.now) entry.now ≡ false }
    ensures { Finds label result (told_at local names.now entry.now) }
{
    if entry.is_local() != local || !entry.may_tell() {
        return None;
    }
    let name = name_at(names, entry.name as usize);
    let address = entry.value;
    is_shown(name).then_some(Symbol { name, address })
}

/// Appends the symbols that all entries tell that are local, or the others.
fn push_told<'a>(
    symbols: &mut Vec<Symbol<'a>>,
    file: &'a [u8],
    table: &SectionHeader,
    local: bool,
) -> Result<(), AllocError>
    requires sections { HasSections file.now }
    requires table { HasSymbols file.now table.now }
    ensures { OnOk result (labels symbols.new.items ≡ labels symbols.old.items ++ map shortened (told_by local (names_of file.now table.now) (entries file.now table.now))) }
{
    let names = section_header(file, table.link as usize).contents(file);
    for number in 0..entry_count(table) {
        if let Some(symbol) = told_at(names, &entry_at(file, table, number), local) {
            symbols.push(symbol)?;
        }
    }
    Ok(())
}

/// The symbols that a file tells, and the size of its image.
///
/// # Errors
///
/// The refusal of the file, as that of its object; or `Memory`, where there is no memory.
pub fn told_symbols(alloc: Global, file: &[u8]) -> Result<Told<'_>, ElfFault>
    ensures { MatchResult result (IsTold file.now) (IsUntold file.now) }
{
    let table = check_file(file)?;
    let mut symbols = Vec::new(alloc);
    if let Some(table) = &table {
        push_told(&mut symbols, file, table, false)?;
        push_told(&mut symbols, file, table, true)?;
    }
    Ok(Told {
        image_size: image_size(file),
        symbols,
    })
}
