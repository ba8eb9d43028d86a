//! An entry that no command line names.

use crate::tests::same;
use rt_elf::flat::{Entry, FlatFault, flat_object};
use std::test::Fail;

#[test]
fn no_name_is_empty(rt: HostRuntime) -> Result<(), Fail> {
    let names = b"80000000 T go".as_slice();
    let refused = flat_object(rt.alloc(), &[0; 8], Entry::Name(""), Some(names)).err();
    same(&rt, "empty", refused, Some(FlatFault::BadEntry));
    Ok(())
}
