//! The names of the tasks of the histories by hand, from a system file: one symbol at an entry, none, and three of them.

use rt_image::read_system;
use rt_names::TaskNames;
use rt_words::RAM_BASE;
use std::alloc::Global;
use std::test::Fail;

/// Names of symbols at the entry of a task, in their order.
type Symbols = &'static [&'static str];

/// They name the tasks `motor`, `task1` and `log`.
const SYMBOLS: [Symbols; 3] = [&["motor"], &["_start"], &[".L1", "log", "main"]];

/// An object file of one word with these symbols at its entry.
fn object_file(alloc: Global, symbols: Symbols) -> Result<Vec<u8>, Fail> {
    let mut file = Vec::new(alloc);
    file.extend_from_slice(b"RTI1")?;
    file.extend_from_slice(&RAM_BASE.to_le_bytes())?;
    file.extend_from_slice(&4u32.to_le_bytes())?;
    file.extend_from_slice(&u32::try_from(symbols.len())?.to_le_bytes())?;
    file.extend_from_slice(&0x13u32.to_le_bytes())?;
    for name in symbols {
        file.extend_from_slice(&u16::try_from(name.len())?.to_le_bytes())?;
        file.extend_from_slice(name.as_bytes())?;
        file.extend_from_slice(&RAM_BASE.to_le_bytes())?;
    }
    Ok(file)
}

/// A system file of three tasks, each in 4 bytes of RAM with a budget of 1 in 3 ticks.
pub fn named_file(alloc: Global) -> Result<Vec<u8>, Fail> {
    let mut file = Vec::new(alloc);
    file.extend_from_slice(b"RTS1")?;
    file.extend_from_slice(&3u32.to_le_bytes())?;
    file.extend_from_slice(&3u32.to_le_bytes())?;
    for symbols in &SYMBOLS {
        let object = object_file(alloc, *symbols)?;
        for field in [1u32, 3, 0, 4] {
            file.extend_from_slice(&field.to_le_bytes())?;
        }
        file.extend_from_slice(&u32::try_from(object.len())?.to_le_bytes())?;
        file.extend_from_slice(&object)?;
    }
    Ok(file)
}

/// The names of the tasks of a system file.
pub fn names_of<'a>(alloc: Global, file: &'a [u8]) -> Result<TaskNames<'a>, Fail> {
    let Ok(system) = read_system(alloc, file) else {
        return Err(Fail::from("no system"));
    };
    Ok(TaskNames::of(alloc, &system)?)
}
