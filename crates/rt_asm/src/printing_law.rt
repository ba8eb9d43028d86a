//! The law of printing: what disassembly prints, assembly reads back.

ghost use Rattle.std.specs.Prelude.{◌≡◌, ◌<◌, ◌^◌, ℕ};
ghost use Rattle.rt_isa.specs.Print.{text};
ghost use Rattle.rt_asm.specs.Printed.{ReadsBack};

/// The text of each word at each address is one statement without labels, which assembles at that
/// address to the word.
pub fn what_is_printed_reads_back()
    ensures { (pc w : ℕ) → pc < 2 ^ 32 → w < 2 ^ 32 → ReadsBack (text pc w) pc w }
{}
