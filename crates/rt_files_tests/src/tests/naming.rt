//! A name for an entry that no command makes.

use crate::tests::same;
use rt_elf::naming::{EntryName, NameFault, named_file};
use std::test::Fail;

/// An object of one word, which begins behind its end.
const BEYOND: &[u8] = b"RTI1\x08\0\0\x80\x04\0\0\0\0\0\0\0\x13\0\0\0";

#[test]
fn an_entry_beyond_the_end_has_no_name(rt: HostRuntime) -> Result<(), Fail> {
    let name = EntryName::new("pid").ok_or("a name")?;
    let refused = named_file(rt.alloc(), BEYOND, name).err();
    let fault = refused.map(|refused| refused.fault);
    same(&rt, "beyond", fault, Some(NameFault::BadEntry));
    Ok(())
}
