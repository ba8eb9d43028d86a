//! Laws of the table of rows, each the contract of a function that does nothing.

ghost use Rattle.std.specs.Prelude.{◌≡◌, ◌<◌, ◌^◌, ℕ, Some, true};
ghost use Rattle.std.specs.List.{slice_get};
ghost use Rattle.rt_isa.specs.Table.{Row, ins, matches, table};
ghost use Rattle.rt_isa.specs.declared.instruction.Ins.{Ins};

/// An instruction has at most one word.
pub fn one_word()
    ensures { (v w : ℕ) (x : Ins) → v < 2 ^ 32 → w < 2 ^ 32 → ins v ≡ Some x → ins w ≡ Some x → v ≡ w }
{}

/// A word matches at most one row: any two that it matches stand at one place of the table.
pub fn one_row()
    ensures { (w i j : ℕ) (r s : Row) → slice_get table i ≡ Some r → slice_get table j ≡ Some s → matches w r ≡ true → matches w s ≡ true → i ≡ j }
{}
