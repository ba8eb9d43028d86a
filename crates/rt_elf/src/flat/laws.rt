//! What the definitions of a list of names say, in the words of its lines.

ghost use Rattle.std.specs.Prelude.{ℕ, ◌≡◌, ◌↔◌, List, Ok, None, true};
ghost use Rattle.rt_elf.specs.flat.FlatNames.{Named, name_lines, names_of, symbol_of};
ghost use Rattle.rt_elf.specs.flat.Kept.{AreThoseOf};
ghost use Rattle.rt_elf.specs.flat.RefusedWord.{is_found, refused_word};

/// A list of names gives no symbol but those that its lines say, and none of their names is missing
/// that an object may have.
pub fn symbols_are_those_of_the_lines()
    ensures { (n : ℕ) (text : List ℕ) (named : Named) → names_of n text ≡ Ok named → AreThoseOf n (name_lines text) named.symbols }
{}

/// A word of a line is refused exactly where the line says no symbol.
pub fn refused_words_are_in_faulty_lines()
    ensures { (line : List ℕ) → (symbol_of line ≡ None) ↔ (is_found (refused_word line) ≡ true) }
{}
