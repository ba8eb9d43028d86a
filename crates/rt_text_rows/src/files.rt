//! Rows of system files, byte for byte.
ghost use Rattle.std.specs.Prelude.{◌≡◌, [], ◌∷◌};
ghost use Rattle.rt_image.specs.SystemFile.{system_spelling};
ghost use Rattle.rt_image.specs.declared.system.Version.TheVariants.{One, Two};
ghost use Rattle.rt_set.specs.Packing.{version_for};
ghost use Rattle.rt_programs.specs.Convert.{in_version_two};
ghost use Rattle.rt_text_rows.specs.Files.{looping, looping_set, bytes_in_one, bytes_in_two, splitting, splitting_set, split_bytes};

/// The file of a set of one task, in both versions: `magic`, `front_spelling`, `flags`, `in_version_two`.
pub fn bytes_of_systems()
    ensures one { system_spelling looping_set ≡ bytes_in_one }
    ensures converted { system_spelling (in_version_two looping_set) ≡ bytes_in_two }
    ensures split { system_spelling splitting_set ≡ split_bytes }
    ensures kept { in_version_two splitting_set ≡ splitting_set }
    ensures once { in_version_two (record splitting_set { version = One }) ≡ splitting_set }
{}

/// Version Two where at least one task has its flag: `version_for`.
pub fn version_of_a_set()
    ensures of_none { version_for [] ≡ One }
    ensures without_flags { version_for (looping ∷ looping ∷ []) ≡ One }
    ensures with_the_first { version_for (splitting ∷ looping ∷ []) ≡ Two }
    ensures with_the_last { version_for (looping ∷ splitting ∷ []) ≡ Two }
{}
