//! A desk, and why it doesn't make a file.

use crate::reason::Reason;
use rt_sink::DeviceFault;
use std::alloc::{AllocError, Global};
use std::fmt::Display;
use std::io::Read;

/// Why a file isn't made.
#[derive(Clone, Copy, PartialEq, Eq)]
pub enum MakeFault {
    /// It can't be made, or can't take the place of the file that is there.
    Refused(Reason),
    /// Its device failed within the bytes, for this reason if it gave one.
    Device(DeviceFault, Option<Reason>),
}

/// The files of a host and its standard error. A path is its name's bytes: a desk that tells what stands on it has one file for each.
pub trait Desk {
    ghost use Rattle.std.specs.Prelude.{◌≡◌, ℕ, List, Option, Bool, true, false, IfOk, IfErr, OnOk, OnErr};
    ghost use Rattle.rt_desk.specs.Desk.{Files, Opens, IsOneFile, Makes, Keeps, FailsWithin, Says};

    /// A file that is open for reading.
    type File: Read + Drop;

    /// What stands at each path. None where the desk doesn't tell.
    ghost files: { Self → Option Files };

    /// What was said on the standard error so far. None where the desk doesn't tell.
    ghost said: { Self → Option (List ℕ) };

    /// Whether the standard error has failed: what is said then may be lost.
    ghost is_deaf: { Self → Bool };

    /// Opens the file of this path for reading.
    fn open(&self, alloc: Global, path: &str) -> Result<Self::File, Reason>
        ensures { IfOk result (λ file. Opens (files self.now) path.now (Self.File.remaining file)) };

    /// Whether two paths are those of one file, as far as the desk can see.
    fn is_one_file(&self, path: &str, other: &str) -> bool
        ensures { IsOneFile (files self.now) path.now other.now result };

    /// The folder from which paths are looked for, if the desk has one.
    ///
    /// # Errors
    ///
    /// There is no memory.
    fn folder(&self, alloc: Global) -> Result<Option<String>, AllocError>;

    /// Why the standard output takes no more, if it failed and the desk can tell.
    fn output_fault(&self) -> Option<Reason>;

    /// Makes the file of this path of these bytes, or leaves all files as they were.
    fn make(&mut self, alloc: Global, path: &str, bytes: &[u8]) -> Result<(), MakeFault>
        ensures made { OnOk result (Makes (files self.old) path.now bytes.now (files self.new)) }
        ensures kept { OnErr result (Keeps (files self.old) (files self.new)) }
        ensures within { IfErr result (λ fault. FailsWithin bytes.now fault) }
        ensures silent { said self.new ≡ said self.old }
        ensures hears { is_deaf self.new ≡ is_deaf self.old };

    /// Says a text on the standard error, and ends the line. There is nothing left to do where that fails.
    fn say<D: Display + Drop>(&mut self, line: D)
        ensures said { is_deaf self.new ≡ false → Says (said self.old) (D.output line) (said self.new) }
        ensures deaf { is_deaf self.old ≡ true → is_deaf self.new ≡ true }
        ensures stays { files self.new ≡ files self.old };
}
