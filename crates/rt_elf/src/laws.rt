//! What the definitions of an object say, in the words of segments and of entries. Each function does nothing: its clause is the
//! law, and a caller has it after the call.

ghost use Rattle.std.specs.Prelude.{ℕ, ◌≡◌, ◌+◌, List, Some, None, slice_range, slice_set};
ghost use Rattle.rt_elf.specs.declared.program_headers.ProgramHeader.{ProgramHeader};
ghost use Rattle.rt_elf.specs.declared.sections.SectionHeader.{SectionHeader};
ghost use Rattle.rt_elf.specs.LoadedImage.{image_size, loaded};
ghost use Rattle.rt_elf.specs.SymbolTable.{symbol_table, names_of, entries};
ghost use Rattle.rt_elf.specs.KeptNames.{kept_names};
ghost use Rattle.rt_elf.specs.ElfObject.{object_of};
ghost use Rattle.rt_elf.specs.OneSegment.{IsFlat};
ghost use Rattle.rt_elf.specs.Refusals.{refusal};
ghost use Rattle.rt_elf.specs.SameHeaders.{AreReordered};
ghost use Rattle.rt_elf.specs.ToldNames.{AreTold};
ghost use Rattle.rt_elf.specs.Unread.{IsUnread};

/// The image of one segment that is loaded and runs at 0x80000000 is its bytes in the file.
pub fn one_segment_is_a_flat_image()
    ensures { (file : List ℕ) (h : ProgramHeader) → refusal file ≡ None → IsFlat file h → loaded file ≡ slice_range file h.offset (h.offset + h.filesz) }
{}

/// The order of the program headers doesn't matter to the image.
pub fn order_of_headers_does_not_matter()
    ensures { (f g : List ℕ) → AreReordered f g → refusal f ≡ None → refusal g ≡ None → loaded f ≡ loaded g }
{}

/// Each symbol is reported by an entry, each name that an entry tells is kept where an object may have
/// the symbol, and has the address that an entry tells that isn't local where there is one.
pub fn kept_symbols_are_told()
    ensures { (file : List ℕ) (t : SectionHeader) → symbol_table file ≡ Some t → AreTold (image_size file) (names_of file t) (entries file t) (kept_names file).symbols }
{}

/// What is never looked at doesn't matter: the file with another such byte is refused for the same, or
/// has the same object and as many names left out. Such are `p_flags` and `p_align` of a program
/// header, unless they are among the bytes of a segment too.
pub fn unread_bytes_do_not_matter()
    ensures refused { (file : List ℕ) (place b : ℕ) → IsUnread file place → refusal (slice_set file place b) ≡ refusal file }
    ensures same { (file : List ℕ) (place b : ℕ) → IsUnread file place → refusal file ≡ None → (object_of (slice_set file place b) ≡ object_of file) × (kept_names (slice_set file place b) ≡ kept_names file) }
{}
