//! Rows of the names of a flat image, of parts and of tasks.
ghost use Rattle.std.specs.Prelude.{◌≡◌, ◌++◌, codes, None, Some, Ok, Err};
ghost use Rattle.rt_elf.specs.flat.FlatNames.{names_of};
ghost use Rattle.rt_names.specs.Parts.{namer};
ghost use Rattle.rt_names.specs.TaskName.{task_name};
ghost use Rattle.rt_text_rows.specs.Names.{named, names, kept, places, entered_at};

/// Names outside the image, those that aren't words, and the last of two equal ones are left out, and counted; those that nm doesn't
/// show aren't; a line of another form is faulty: `may_stand`, `after_symbol`, `put`, `is_shown`, `symbol_of`, `address_of`.
pub fn names_of_a_flat_image()
    ensures kept { names_of 8 names ≡ Ok kept }
    ensures seven_digits { names_of 8 (codes "80000000 T a\n\n8000000 T b\n") ≡ Err 3 }
    ensures two_letters { names_of 8 (codes "80000000 TT a\n") ≡ Err 1 }
    ensures no_name { names_of 8 (codes "80000000 T \n") ≡ Err 1 }
{}

/// The nearest symbol below an address names its part, the shortest one there, and the first by its bytes; a task is named by a symbol at
/// its entry that begins with neither `_` nor `.`: `is_nearer`, `is_plain`, `task_name`.
pub fn names_of_parts_and_tasks()
    ensures below_all { namer places 0x80000000 ≡ None }
    ensures shortest { namer places 0x80000004 ≡ Some (named 0x80000004 (codes "_b")) }
    ensures nearest { namer places 0x8000000C ≡ Some (named 0x80000008 (codes "pid")) }
    ensures plain { task_name 2 (entered_at 0x80000004) ≡ codes "abc" }
    ensures none { task_name 2 (entered_at 0x80000010) ≡ codes "task2" }
{}
