//! Rows of ELF files.
ghost use Rattle.std.specs.Prelude.{[], ◌∷◌};
ghost use Rattle.rt_elf.specs.flat.ElfMagic.{magic};
ghost use Rattle.rt_elf.specs.declared.fault.ElfFault.TheVariants as faults;
ghost use Rattle.rt_text_rows.specs.ElfFiles.{AreRefused, header, program, of_segments, of_sections, segment, word_at};
ghost use Rattle.rt_text_rows.specs.ElfNames.{IsMade, section, with_table, with_strings, with_last_name};

/// Tests in their order, where later ones would refuse the header too: `kind_rows`, `program_rows`, `table_rows`.
pub fn elf_headers_in_order()
    ensures kinds { AreRefused ((0 ∷ [], faults.BadMagic) ∷ (magic, faults.Truncated) ∷ (header 2 2 1 0 7 1, faults.Not32Bit)
        ∷ (header 1 2 1 0 7 1, faults.NotLittleEndian) ∷ (header 1 1 1 0 7 1, faults.NotRiscV) ∷ []) }
    ensures programs { AreRefused ((program 1 7 1, faults.Relocatable) ∷ (program 3 7 1, faults.Shared) ∷ (program 4 7 1, faults.NotExecutable)
        ∷ (program 2 7 1, faults.Compressed) ∷ (program 2 6 1, faults.FloatAbi) ∷ (program 2 8 1, faults.OtherAbi) ∷ []) }
    ensures tables { AreRefused ((program 2 0 257, faults.BadHeader) ∷ (program 2 0 2, faults.Truncated) ∷ (program 2 0 0, faults.Empty) ∷ []) }
{}

/// One program header after the other, then all segments, then sections, then symbols: `header_rows`, `image_rows`, `section_rows`,
/// `symbol_rows`.
pub fn elf_tables_in_order()
    ensures headers { AreRefused ((of_segments (segment 2 0 0 0 9 8 ∷ []), faults.Dynamic) ∷ (of_segments (segment 1 900 0 0 9 8 ∷ []), faults.BadSegment)
        ∷ (of_segments (segment 1 900 0 0 8 8 ∷ []), faults.Truncated) ∷ (of_segments (segment 1 0 0x7FFFFFFC 0x80000000 4 4 ∷ segment 3 0 0 0 0 0 ∷ []), faults.OutsideRam)
        ∷ (of_segments (segment 1 0 0x800FFFFC 0x80000000 4 8 ∷ []), faults.OutsideRam) ∷ []) }
    ensures segments { AreRefused ((of_sections 900 41 1 (segment 1 0 0x80000000 0 0 8 ∷ []), faults.Empty)
        ∷ (of_sections 900 41 1 (word_at 0x80000000 ∷ word_at 0x80000003 ∷ []), faults.Overlap)
        ∷ (of_sections 900 41 1 (word_at 0x80000000 ∷ word_at 0x80000004 ∷ []), faults.BadHeader)
        ∷ (of_sections 900 40 1 (word_at 0x80000000 ∷ []), faults.Truncated) ∷ []) }
    ensures symbols { AreRefused ((with_table (section 2 900 112 3 15), faults.BadSymbols) ∷ (with_table (section 2 900 113 3 16), faults.BadSymbols)
        ∷ (with_table (section 2 900 112 4 16), faults.BadSymbols) ∷ (with_strings (section 1 900 31 0 0), faults.BadSymbols)
        ∷ (with_table (section 2 900 112 3 16), faults.Truncated) ∷ (with_strings (section 3 900 0 0 0), faults.Truncated)
        ∷ (with_strings (section 3 240 30 0 0), faults.BadSymbols) ∷ (with_strings (section 3 240 0 0 0), faults.BadSymbols)
        ∷ (with_last_name 31, faults.BadSymbols) ∷ []) }
{}

/// Bytes lie where they are loaded, and zeros reach to where the program ends to run. Of two names that are equal the one is kept
/// that other files can name, and of two local ones the first: `refusal`, `object_of`, `all_told`, `left_out`.
pub fn names_of_an_elf_file()
    ensures other_first { IsMade 0x11 0x01 0x80000010 }
    ensures local_first { IsMade 0x01 0x11 0x80000000 }
    ensures both_local { IsMade 0x01 0x01 0x80000010 }
{}
