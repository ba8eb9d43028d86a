//! A file that is made whole or not at all.

ghost use Rattle.std.specs.Prelude.{◌≡◌, ◌≢◌, [], IfOk, IfErr, OnOk, OnErr, IfSome, Some, string_bytes};
ghost use Rattle.rt_desk.specs.Desk.{FailsWithin};
ghost use Rattle.rt_desk.specs.declared.desk.MakeFault.TheVariants.{Refused};
ghost use Rattle.rt_desk.specs.declared.reason.Reason.TheVariants.{Memory};
ghost use Rattle.rt_desk.specs.making.Disk.{Calls, Fails, SameBut, IsDurable};
ghost use Rattle.rt_desk.specs.making.Making.{beside, IsBeside, IsOldOrNew, Puts, Tears, Makes};
ghost use Rattle.rt_desk.specs.making.Working.Parts.{CreatesPart, TearsPart, Fills, PutsPart, IsEmpty, IsFailed, IsRemoved, HasCause};

use crate::making::disk::{Disk, Way};
use crate::{MakeFault, Reason};
use rt_sink::DeviceFault;
use std::alloc::{AllocError, Global};

/// How many names are tried for the file in which the bytes are gathered. Runs that were killed leave one each.
const NAMES: u32 = 65_536;

/// The path of a new file in the folder of another. It is short, so that there is one beside each file that a folder can have.
fn path_beside(alloc: Global, path: &str, number: u32) -> Result<String, AllocError>
    ensures { IfOk result (λ part. string_bytes part ≡ beside path.now number) }
{
    match path.rsplit_once('/') {
        Some((folder, _)) => format!(in alloc; "{folder}/.rt_sim.part{number}"),
        None => format!(in alloc; ".rt_sim.part{number}"),
    }
}

/// Why no new file can be made in a folder, to which a link may lead, or take the place of another there.
fn refused_in_folder(reason: Reason, is_linked: bool) -> MakeFault
    ensures refused { (why : Reason) × (result ≡ Refused why) }
    ensures memory { reason ≡ Memory → result ≡ Refused Memory }
{
    MakeFault::Refused(match reason {
        Reason::Forbidden => Reason::ForbiddenFolder,
        Reason::Missing if is_linked => Reason::MissingTarget,
        reason => reason,
    })
}

/// Makes an empty file of a name that isn't taken, beside another. None where each is taken.
fn make_part<D: Disk>(disk: &mut D, alloc: Global, path: &str) -> Result<Option<String>, Reason>
    ensures calls { Calls (CreatesPart path.now result) (TearsPart result) (D.standing disk.old) (D.standing disk.new) }
    ensures fails { IfErr result (λ reason. IsFailed (D.standing disk.old) (D.standing disk.new) reason) }
    ensures name { IfOk result (λ part. IfSome part (λ part. IsBeside path.now (string_bytes part))) }
{
    for number in 0..NAMES {
        let part = path_beside(alloc, path, number)?;
        if part.as_str() != path && disk.create_new(&part)? {
            return Ok(Some(part));
        }
    }
    Ok(None)
}

/// Adds all of the bytes to the file of this path.
fn write_all<D: Disk>(disk: &mut D, path: &str, bytes: &[u8]) -> Result<(), MakeFault>
    ensures calls { Calls (Fills path.now bytes.now result) (SameBut path.now) (D.standing disk.old) (D.standing disk.new) }
    ensures fails { OnErr result (Fails (D.standing disk.old) (D.standing disk.new)) }
    ensures within { IfErr result (λ fault. FailsWithin bytes.now fault) }
{
    let mut done = 0;
    while done < bytes.len() {
        match disk.write(path, &bytes[done..]) {
            Ok(count) => done += count,
            Err(reason) => {
                let written = done as u64;
                return Err(MakeFault::Device(DeviceFault { written }, reason));
            }
        }
    }
    Ok(())
}

/// Fills a new file, which is empty, until its device has all of it.
fn fill<D: Disk>(
    disk: &mut D,
    part: &str,
    permissions: Option<D::Permissions>,
    bytes: &[u8],
) -> Result<(), MakeFault>
    ensures calls { Calls (Fills part.now bytes.now result) (SameBut part.now) (D.standing disk.old) (D.standing disk.new) }
    ensures durable { OnOk result (IsDurable part.now (D.standing disk.new)) }
    ensures fails { OnErr result (Fails (D.standing disk.old) (D.standing disk.new)) }
    ensures within { IfErr result (λ fault. FailsWithin bytes.now fault) }
{
    if let Some(permissions) = permissions {
        disk.set_permissions(part, permissions)
            .map_err(|reason| refused_in_folder(reason, false))?;
    }
    write_all(disk, part, bytes)?;
    disk.sync(part)
        .map_err(|reason| refused_in_folder(reason, false))
}

/// Fills a new file, which is empty, and puts it in the place of another.
fn put_part<D: Disk>(
    disk: &mut D,
    part: &str,
    path: &str,
    permissions: Option<D::Permissions>,
    bytes: &[u8],
) -> Result<(), MakeFault>
    requires apart { part.now ≢ path.now }
    requires empty { IsEmpty part.now (D.standing disk.old) }
    ensures calls { Calls (PutsPart path.now bytes.now part.now result) (IsOldOrNew path.now bytes.now part.now) (D.standing disk.old) (D.standing disk.new) }
    ensures fails { OnErr result (Fails (D.standing disk.old) (D.standing disk.new)) }
    ensures within { IfErr result (λ fault. FailsWithin bytes.now fault) }
{
    fill(disk, part, permissions, bytes)?;
    match disk.rename(part, path) {
        Ok(()) => Ok(()),
        Err(reason) => Err(refused_in_folder(reason, false)),
    }
}

/// Makes the file of a path, to which a link may lead, by a new one beside it that takes its place.
fn replace<D: Disk>(
    disk: &mut D,
    alloc: Global,
    path: &str,
    is_linked: bool,
    permissions: Option<D::Permissions>,
    bytes: &[u8],
) -> Result<(), MakeFault>
    ensures calls { Calls (Puts path.now bytes.now result) (Tears (D.standing disk.old).files path.now bytes.now) (D.standing disk.old) (D.standing disk.new) }
    ensures removed { OnErr result (IsRemoved (D.standing disk.old) (D.standing disk.new)) }
    ensures cause { IfErr result (λ fault. HasCause path.now (D.standing disk.old) (D.standing disk.new) fault) }
    ensures within { IfErr result (λ fault. FailsWithin bytes.now fault) }
{
    let part = match make_part(disk, alloc, path) {
        Ok(Some(part)) => part,
        Ok(None) => return Err(MakeFault::Refused(Reason::Other)),
        Err(reason) => return Err(refused_in_folder(reason, is_linked)),
    };
    match put_part(disk, &part, path, permissions, bytes) {
        Ok(()) => Ok(()),
        Err(fault) => {
            // There is nothing left to do where this fails.
            let _ = disk.remove(&part);
            Err(fault)
        }
    }
}

/// Makes the file of this path of these bytes. What is there and no plain file of one name is written in place, without a promise.
pub fn make_file<D: Disk>(
    disk: &mut D,
    alloc: Global,
    path: &str,
    bytes: &[u8],
) -> Result<(), MakeFault>
    ensures made { Makes path.now bytes.now result (D.standing disk.old) (D.standing disk.new) }
    ensures within { IfErr result (λ fault. FailsWithin bytes.now fault) }
{
    match disk.way(alloc, path) {
        Ok(Way::Replace(target, permissions)) => {
            let is_linked = target.as_str() != path;
            replace(disk, alloc, &target, is_linked, permissions, bytes)
        }
        Ok(Way::InPlace) => match disk.open_in_place(path) {
            Ok(()) => write_all(disk, path, bytes),
            Err(reason) => Err(MakeFault::Refused(reason)),
        },
        Err(reason) => Err(MakeFault::Refused(reason)),
    }
}
