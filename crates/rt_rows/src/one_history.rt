//! The one legal history of a set.
ghost use Rattle.std.specs.Prelude.{◌≡◌, ℕ, List, length};
ghost use Rattle.rt_image.specs.SystemFile.{TaskSet};
ghost use Rattle.rt_history.specs.declared.record.Record.{Record};
ghost use Rattle.rt_history.specs.Legal.{legal};
ghost use Rattle.rt_rows.specs.OneHistory.{IsLegal};

/// A set has exactly one history of each length in which each record is what the ones before it name: the legal one.
pub fn one_legal_history()
    ensures length { (set : TaskSet) (t : ℕ) → length (legal set t) ≡ t }
    ensures legal { (set : TaskSet) (t : ℕ) → IsLegal set (legal set t) }
    ensures one { (set : TaskSet) (history : List Record) → IsLegal set history → history ≡ legal set (length history) }
{}
