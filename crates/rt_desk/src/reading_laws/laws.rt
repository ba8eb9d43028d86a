//! What follows enough bytes of a file changes nothing.

ghost use Rattle.std.specs.Prelude.{◌≡◌, ◌↔◌, ◌≤◌, ◌++◌, ℕ, List, Result, length, true};
ghost use Rattle.rt_image.specs.ObjectReading.{spelled_object};
ghost use Rattle.rt_image.specs.SystemReading.{system_of};
ghost use Rattle.rt_elf.specs.flat.ElfMagic.{is_elf};
ghost use Rattle.rt_elf.specs.flat.FlatObject.{FlatMeans};
ghost use Rattle.rt_elf.specs.declared.flat.entry.Entry.{Entry};
ghost use Rattle.rt_elf.specs.declared.flat.fault.FlatFault.{FlatFault};
ghost use Rattle.rt_elf.specs.declared.flat.making.Flat.{Flat};
ghost use Rattle.rt_elf.specs.Refusals.{refusal};
ghost use Rattle.rt_text.specs.Text.{text_lines};
ghost use Rattle.rt_set.specs.SetLines.{is_set, set_of};
ghost use Rattle.rt_elf.specs.flat.FlatNames.{names_of};
ghost use Rattle.rt_desk.specs.reading.Extent.{block_size, IsEnough, IsNoSet};
ghost use Rattle.rt_desk.specs.declared.reading.kind.FileKind.TheVariants.{Object, System, Source, Image, Elf, Set, Names};

/// An object file, and an ELF file in its place.
pub fn more_of_an_object_changes_nothing()
    ensures object { (bytes more : List ℕ) → block_size ≤ length bytes → IsEnough Object bytes → spelled_object (bytes ++ more) ≡ spelled_object bytes }
    ensures elf { (bytes more : List ℕ) → is_elf bytes ≡ true → IsEnough Object bytes → refusal (bytes ++ more) ≡ refusal bytes }
{}

/// A system file.
pub fn more_of_a_system_changes_nothing()
    ensures { (bytes more : List ℕ) → block_size ≤ length bytes → IsEnough System bytes → system_of (bytes ++ more) ≡ system_of bytes }
{}

/// A flat image, whatever its entry and its names.
pub fn more_of_an_image_changes_nothing()
    ensures { (bytes more : List ℕ) (entry : Entry) (names : List ℕ) (answer : Result Flat FlatFault) → block_size ≤ length bytes → IsEnough Image bytes →
        FlatMeans bytes entry names answer → FlatMeans (bytes ++ more) entry names answer }
{}

/// An ELF file.
pub fn more_of_an_elf_file_changes_nothing()
    ensures { (bytes more : List ℕ) → IsEnough Elf bytes → refusal (bytes ++ more) ≡ refusal bytes }
{}

/// A source.
pub fn more_of_a_source_changes_nothing()
    ensures { (bytes more : List ℕ) → block_size ≤ length bytes → IsEnough Source bytes → text_lines (bytes ++ more) ≡ text_lines bytes }
{}

/// A set file.
pub fn more_of_a_set_changes_nothing()
    ensures { (bytes more : List ℕ) → block_size ≤ length bytes → IsEnough Set bytes → set_of (bytes ++ more) ≡ set_of bytes }
{}

/// A file that may be a set in place of a system: whether it is one, and what it says.
pub fn more_than_no_set_changes_nothing()
    ensures is_set { (bytes more : List ℕ) → IsNoSet bytes → is_set (bytes ++ more) ≡ is_set bytes }
    ensures says { (bytes more : List ℕ) → IsNoSet bytes → set_of (bytes ++ more) ≡ set_of bytes }
{}

/// A list of names, for an image of any size.
pub fn more_of_names_changes_nothing()
    ensures { (bytes more : List ℕ) (n : ℕ) → block_size ≤ length bytes → IsEnough Names bytes → names_of n (bytes ++ more) ≡ names_of n bytes }
{}
