//! What the definitions of this crate's contracts say, in the grammar's own words.

ghost use Rattle.std.specs.Prelude.{ℕ, ◌≡◌, ◌↔◌, List, [], ◌∷◌, is_some, Ok, Err};
ghost use Rattle.std.specs.List.{list_any};
ghost use Rattle.std.specs.Option.{option_map};
ghost use Rattle.std.specs.Result.{result_err};
ghost use Rattle.rt_text.specs.AllFaults.{text_faults};
ghost use Rattle.rt_text.specs.Line.{SourceLine};
ghost use Rattle.rt_text.specs.LineGrammar.{SaysLine};
ghost use Rattle.rt_text.specs.Meaning.{meaning_of};
ghost use Rattle.rt_text.specs.OperandKinds.{fit, shapes_of};
ghost use Rattle.rt_text.specs.Pieces.{pieces_of, AreInOrder};
ghost use Rattle.rt_text.specs.RefusedWord.{kind_of, refused_word};
ghost use Rattle.rt_text.specs.Statement.{line_at};
ghost use Rattle.rt_text.specs.StringGrammar.{Spells};
ghost use Rattle.rt_text.specs.Strings.{string_bytes};
ghost use Rattle.rt_text.specs.Text.{text_lines};
ghost use Rattle.rt_text.specs.declared.forms.Form.{Form};
ghost use Rattle.rt_text.specs.declared.operands.Operand.{Operand};
ghost use Rattle.rt_text.specs.declared.fault.TextFault.{TextFault};
ghost use Rattle.rt_token.specs.Grammar.{IsText};
ghost use Rattle.rt_token.specs.declared.tokens.Kind.TheVariants as kinds;

/// Each piece of a source that is read (a label, a statement's name, an operand) is the slice of the
/// source that begins where it says, and the pieces of the whole source rise: each begins where the
/// one before it ends, or behind that. A memory operand is what the tokens of its span say.
pub fn pieces_are_slices_that_rise()
    ensures { (text : List ℕ) (lines : List SourceLine) → text_lines text ≡ Ok lines → AreInOrder text 0 (pieces_of lines) }
{}

/// The line that some bytes are read as is the one that the grammar gives them, and it gives them
/// one at most.
pub fn lines_are_those_of_the_grammar()
    ensures { (place : ℕ) (bytes : List ℕ) (line : SourceLine) → (line_at place bytes ≡ Ok line) ↔ SaysLine place bytes line }
{}

/// The bytes that a string means are those that its text spells: escapes stand for one byte each,
/// and all others for themselves.
pub fn strings_mean_what_they_spell()
    ensures { (text bytes : List ℕ) → (IsText kinds.Text text × (string_bytes text ≡ bytes)) ↔ Spells text bytes }
{}

/// A text that is read has no faults, and of all faults of one that isn't the first is the one that
/// it is refused for.
pub fn the_first_fault_of_a_text_is_named()
    ensures read { (text : List ℕ) (lines : List SourceLine) → text_lines text ≡ Ok lines → text_faults text ≡ [] }
    ensures refused { (text : List ℕ) (fault : TextFault) → text_lines text ≡ Err fault → (rest : List TextFault) × (text_faults text ≡ fault ∷ rest) }
{}

/// Operands have a meaning under a form exactly where they have one of its shapes.
pub fn operands_fit_their_shapes()
    ensures { (form : Form) (os : List Operand) → is_some (meaning_of form os) ≡ list_any (λ shape. fit shape os) (shapes_of form) }
{}

/// A word of a line is refused exactly where the line has a fault, and its flaw is of the fault's kind.
pub fn refused_words_are_in_faulty_lines()
    ensures { (place : ℕ) (line : List ℕ) → option_map (λ word. kind_of word.flaw) (refused_word place line) ≡ result_err (line_at place line) }
{}
