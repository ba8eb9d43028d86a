//! What holds of all set files.

ghost use Rattle.std.specs.Prelude.{◌≡◌, ◌<◌, ◌↔◌, List, ℕ, All, Option, Ok, Err, map, true};
ghost use Rattle.rt_image.specs.SystemFile.{SetTask, IsSystem};
ghost use Rattle.rt_set.specs.SaidLines.{said_before};
ghost use Rattle.rt_set.specs.SetFile.{SetEntries, IsSetFile, set_lines};
ghost use Rattle.rt_set.specs.FirstFault.{MayNotFollow, IsFaultyLine, IsFirstFault};
ghost use Rattle.rt_set.specs.Misfit.{is_found, misfit_of, said_by};
ghost use Rattle.rt_set.specs.SetLines.{set_of};
ghost use Rattle.rt_set.specs.Packing.{PackEntry, packed_tasks, packed_set};

/// A text is read as a set exactly where its lines spell it, and refused with a line's number exactly
/// where this line is the first faulty one.
pub fn reads_set_files()
    ensures read { (text : List ℕ) (s : SetEntries) → (set_of text ≡ Ok s) ↔ IsSetFile text s }
    ensures refused { (text : List ℕ) (line : ℕ) → (set_of text ≡ Err line) ↔ IsFirstFault text line }
{}

/// The system of the task lines of one set file, with files that spell objects, has a spelling.
pub fn read_sets_fit()
    ensures { (text : List ℕ) (s : SetEntries) (ps : List PackEntry) (tasks : List SetTask) → IsSetFile text s → map (λ p. p.line) ps ≡ s.tasks
        → All (λ p. All (λ b. b < 256) p.file) ps → packed_tasks ps ≡ Ok tasks → IsSystem (packed_set s.hyper tasks) }
{}

/// A word of a line is refused exactly where the line may not follow what the lines before it say: so one of the first faulty line is.
pub fn misfits_are_in_faulty_lines()
    ensures refused { (before : Option SetEntries) (line : List ℕ) → MayNotFollow before line ↔ (is_found (misfit_of (said_by before) line) ≡ true) }
    ensures first { (text : List ℕ) (n : ℕ) (faulty : IsFaultyLine (set_lines text) n) → is_found (misfit_of (said_before n (set_lines text)) faulty.line) ≡ true }
{}
