//! A disk.

use crate::Reason;
use std::alloc::Global;

/// How a path is written to.
#[derive(Drop)]
pub enum Way<P> {
    /// A new file takes the place of the one of this path, of these permissions where one is there.
    Replace(String, Option<P>),
    /// What is there takes the bytes.
    InPlace,
}

/// The plain files of a host, one of which is being made. A disk may tell nothing of them, since others may change them at any time.
pub trait Disk {
    ghost use Rattle.std.specs.Prelude.{◌<◌, ◌≤◌, length, IfOk, IfErr, OnOk, OnErr};
    ghost use Rattle.rt_desk.specs.making.Disk.{Standing, KeepsTime, Calls, Fails, IsRefused, Same, SameBut, IsWay, Creates, TearsNew, Appends, IsDurable, Renames, Moves, Removes};

    /// The permissions of a file.
    type Permissions: Drop;

    /// What stands on it, and what a crash may leave.
    ghost standing: { Self → Standing };

    /// How the file of this path is written.
    ///
    /// # Errors
    ///
    /// It may not be written, by its mode or by its host; or there is no memory.
    fn way(&self, alloc: Global, path: &str) -> Result<Way<Self::Permissions>, Reason>
        ensures way { IfOk result (λ way. IsWay (standing self.now) path.now way) }
        ensures refused { IfErr result (λ reason. IsRefused (standing self.now) path.now reason) };

    /// Makes an empty file of this path. False where the path is taken.
    fn create_new(&mut self, path: &str) -> Result<bool, Reason>
        ensures calls { Calls (Creates path.now result) (TearsNew path.now result) (standing self.old) (standing self.new) }
        ensures fails { OnErr result (Fails (standing self.old) (standing self.new)) };

    /// Opens what stands at this path, or a new file, to be written in place. Nothing is promised of what stands there.
    fn open_in_place(&mut self, path: &str) -> Result<(), Reason>;

    /// Gives the file of this path, which was made here, these permissions.
    fn set_permissions(&mut self, path: &str, permissions: Self::Permissions) -> Result<(), Reason>
        ensures calls { Calls Same (SameBut path.now) (standing self.old) (standing self.new) }
        ensures fails { OnErr result (Fails (standing self.old) (standing self.new)) };

    /// Adds some of the bytes to the file of this path, which was made or opened here. Until a sync, a crash may leave any bytes there.
    ///
    /// # Errors
    ///
    /// Its device failed, for this reason if it gave one.
    fn write(&mut self, path: &str, bytes: &[u8]) -> Result<usize, Option<Reason>>
        requires { 0 < length bytes.now }
        ensures some { IfOk result (λ count. (0 < count) × (count ≤ length bytes.now)) }
        ensures calls { Calls (Appends path.now bytes.now result) (SameBut path.now) (standing self.old) (standing self.new) }
        ensures fails { OnErr result (Fails (standing self.old) (standing self.new)) };

    /// Closes the file of this path, which was made here. After it, a crash leaves what was written.
    fn sync(&mut self, path: &str) -> Result<(), Reason>
        ensures calls { Calls Same (SameBut path.now) (standing self.old) (standing self.new) }
        ensures durable { OnOk result (IsDurable path.now (standing self.new)) }
        ensures fails { OnErr result (Fails (standing self.old) (standing self.new)) };

    /// Moves a file over another. A crash leaves either.
    fn rename(&mut self, from: &str, to: &str) -> Result<(), Reason>
        ensures calls { Calls (Renames from.now to.now result) (Moves from.now to.now) (standing self.old) (standing self.new) }
        ensures fails { OnErr result (Fails (standing self.old) (standing self.new)) };

    /// Removes the file of this path.
    fn remove(&mut self, path: &str) -> Result<(), Reason>
        ensures calls { Calls (Removes path.now result) (SameBut path.now) (standing self.old) (standing self.new) }
        ensures fails { OnErr result (Fails (standing self.old) (standing self.new)) };

    /// This moment is one of those since an earlier one, and since this moment there is no other.
    ghost clock: { (disk : Self) → KeepsTime (standing disk) };
}
