//! What holds of all objects and files.

ghost use Rattle.std.specs.Prelude.{◌≡◌, ◌<◌, List, ℕ, All, Ok};
ghost use Rattle.rt_image.specs.ObjectFile.{ObjectValue, IsObject, spelling};
ghost use Rattle.rt_image.specs.ObjectReading.{spelled_object};
ghost use Rattle.rt_image.specs.SystemFile.{TaskSet, IsSystem, system_spelling};
ghost use Rattle.rt_image.specs.SystemReading.{system_of};

/// Bytes spell at most one object.
pub fn one_object()
    ensures { (o p : ObjectValue) → IsObject o → IsObject p → spelling o ≡ spelling p → o ≡ p }
{}

/// Bytes are read as an object exactly where they are its spelling.
pub fn reads_spellings()
    ensures read { (file : List ℕ) (o : ObjectValue) → All (λ b. b < 256) file → spelled_object file ≡ Ok o → IsObject o × (file ≡ spelling o) }
    ensures spelled { (o : ObjectValue) → IsObject o → spelled_object (spelling o) ≡ Ok o }
{}

/// Bytes spell at most one system.
pub fn one_system()
    ensures { (s t : TaskSet) → IsSystem s → IsSystem t → system_spelling s ≡ system_spelling t → s ≡ t }
{}

/// Bytes are read as a system exactly where they are its spelling.
pub fn reads_system_spellings()
    ensures read { (file : List ℕ) (s : TaskSet) → All (λ b. b < 256) file → system_of file ≡ Ok s → IsSystem s × (file ≡ system_spelling s) }
    ensures spelled { (s : TaskSet) → IsSystem s → system_of (system_spelling s) ≡ Ok s }
{}
