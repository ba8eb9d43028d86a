//! What a file is refused for, before memory is asked for.

ghost use Rattle.std.specs.Prelude.{◌≡◌, Some, MatchResult};
ghost use Rattle.rt_elf.specs.Refusals.{refusal};
ghost use Rattle.rt_elf.specs.Working.Making.{Passes};

use crate::elf_header::{check_kind, check_program, check_sections, check_table};
use crate::fault::ElfFault;
use crate::program_headers::{check_headers, check_image};
use crate::sections::{SectionHeader, symbol_table};
use crate::symbols::check_symbols;

/// The symbol table of a file that is an executable for this machine, if it has one.
pub fn check_file(file: &[u8]) -> Result<Option<SectionHeader>, ElfFault>
    ensures { MatchResult result (Passes file.now) (λ fault. refusal file.now ≡ Some fault) }
{
    check_kind(file)?;
    check_program(file)?;
    check_table(file)?;
    check_headers(file)?;
    check_image(file)?;
    check_sections(file)?;
    let table = symbol_table(file);
    if let Some(table) = &table {
        check_symbols(file, table)?;
    }
    Ok(table)
}
