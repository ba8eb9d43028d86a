//! Laws of assembly, each the contract of a function that does nothing.

ghost use Rattle.std.specs.Prelude.{◌≡◌, ◌≤◌, ◌<◌, ◌*◌, ◌^◌, ◌+ℤ◌, pos, List, [], ◌∷◌, ℕ, length, map, codes, Option, Some, Ok, Err};
ghost use Rattle.rt_isa.specs.Numbers.{IsImmediate, IsUpper};
ghost use Rattle.rt_image.specs.ObjectFile.{Label};
ghost use Rattle.rt_words.specs.Limits.{image_limit, symbol_limit};
ghost use Rattle.rt_text.specs.Line.{SourceLine, SourceStatement};
ghost use Rattle.rt_text.specs.Text.{text_lines};
ghost use Rattle.rt_text.specs.declared.fault.TextFault.{TextFault};
ghost use Rattle.rt_asm.specs.AllFaults.{all_faults};
ghost use Rattle.rt_asm.specs.Code.{Code, IsCode, statement_code};
ghost use Rattle.rt_asm.specs.Flaws.{all_flaws};
ghost use Rattle.rt_asm.specs.Labels.{address_in};
ghost use Rattle.rt_words.specs.Modular.{modulo};
ghost use Rattle.rt_asm.specs.Numbers.{lower_part, upper_part};
ghost use Rattle.rt_asm.specs.Placement.{Agrees};
ghost use Rattle.rt_asm.specs.Size.{statement_size};
ghost use Rattle.rt_asm.specs.Source.{assembled};
ghost use Rattle.rt_asm.specs.declared.fault.AsmFault.{AsmFault};
ghost use Rattle.rt_asm.specs.declared.fault.LineFault.{LineFault};
ghost use Rattle.rt_asm.specs.declared.fault.LineFault.TheVariants as line_faults;

/// Lines agree with at most one list of labels and one image.
pub fn one_placement()
    ensures { (lines : List SourceLine) (L M : List Label) (a b : List ℕ) → Agrees lines L a → Agrees lines M b → (L ≡ M) × (a ≡ b) }
{}

/// Lines that agree with labels and an image within the limits, and define `_start`, assemble.
pub fn assembles_what_agrees()
    ensures { (lines : List SourceLine) (labels : List Label) (bytes : List ℕ) (entry : ℕ) → Agrees lines labels bytes → length bytes ≤ image_limit → length labels ≤ symbol_limit → address_in labels (codes "_start") ≡ Some entry → assembled lines ≡ Ok (entry, labels) }
{}

/// The size of a statement, which the layout counts, is the number of its bytes.
pub fn statements_have_their_size()
    ensures { (known : List Label) (place : ℕ) (s : Option SourceStatement) (code : Code) (bytes : List ℕ) → statement_code known place s ≡ Ok code → IsCode code bytes → statement_size place s ≡ Ok (length bytes) }
{}

/// The two parts of a number below 2^32 make it: the upper 20 bits times 2^12 and the low 12 bits
/// with their sign sum to it, modulo 2^32, and the low part fits a 12-bit immediate.
pub fn two_parts_make_the_number()
    ensures sum { (n : ℕ) → n < 2 ^ 32 → modulo 32 (pos (upper_part n * 2 ^ 12) +ℤ lower_part n) ≡ n }
    ensures low { (n : ℕ) → IsImmediate (lower_part n) }
    ensures high { (n : ℕ) → IsUpper (upper_part n) }
{}

/// Of all faults of a text the first is the one that it is refused for; a text that is assembled, or
/// lacks only `_start`, has none.
pub fn the_first_fault_is_named()
    ensures text { (text : List ℕ) (fault : TextFault) → text_lines text ≡ Err fault → (rest : List LineFault) × (all_faults text ≡ line_faults.Text fault ∷ rest) }
    ensures source { (text : List ℕ) (lines : List SourceLine) (fault : AsmFault) → text_lines text ≡ Ok lines → assembled lines ≡ Err fault → 0 < fault.line → (rest : List LineFault) × (all_faults text ≡ line_faults.Source fault ∷ rest) }
    ensures no_entry { (text : List ℕ) (lines : List SourceLine) (fault : AsmFault) → text_lines text ≡ Ok lines → assembled lines ≡ Err fault → fault.line ≡ 0 → all_faults text ≡ [] }
    ensures none { (text : List ℕ) (lines : List SourceLine) (made : ℕ × List Label) → text_lines text ≡ Ok lines → assembled lines ≡ Ok made → all_faults text ≡ [] }
{}

/// The flaws of a text that has lines are those of its faults, in order.
pub fn flaws_are_those_of_the_faults()
    ensures { (text : List ℕ) (lines : List SourceLine) → text_lines text ≡ Ok lines → map (λ flaw. line_faults.Source flaw.fault) (all_flaws text) ≡ all_faults text }
{}
