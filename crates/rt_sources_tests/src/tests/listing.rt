//! Listings that were written by hand.

use crate::tests::same;
use rt_image::{ImageFault, ReadFault};
use rt_show::listing::listing;
use std::test::Fail;

/// An object file, in lines of its header, its bytes and each of its symbols, and its listing.
static EXAMPLES: [(&[u8], &str); 5] = [
    (
        b"RTI1\0\0\0\x80\x08\0\0\0\0\0\0\0\
            \x93\0\xf0\xffo\0\0\0",
        "    addi x1,x0,-1 # 80000000 fff00093\n    jal x0,0x80000004 # 80000004 0000006f\n",
    ),
    (
        b"RTI1\0\0\0\x80\x08\0\0\0\x02\0\0\0\
            \x93\0\xf0\xffo\0\0\0\
            \x06\0_start\0\0\0\x80\
            \x01\0x\x04\0\0\x80",
        "_start:\n    addi x1,x0,-1 # 80000000 fff00093\nx:\n    jal x0,0x80000004 # 80000004 0000006f\n",
    ),
    // Names at one address keep their order, one within a word has no line, and those at the end
    // come last, though they stand before others by name.
    (
        b"RTI1\0\0\0\x80\x06\0\0\0\x06\0\0\0\
            \x13\0\0\0\x13\n\
            \x01\0a\x06\0\0\x80\
            \x01\0b\0\0\0\x80\
            \x01\0c\x02\0\0\x80\
            \x01\0d\0\0\0\x80\
            \x01\0e\x05\0\0\x80\
            \x01\0f\x06\0\0\x80",
        "b:\nd:\n    addi x0,x0,0 # 80000000 00000013\n    .byte 0x13 # 80000004\ne:\n    .byte 0x0a # 80000005\na:\nf:\n",
    ),
    (
        b"RTI1\0\0\0\x80\x04\0\0\0\0\0\0\0\
            \x93\xd0\xf0C",
        "    .word 0x43f0d093 # 80000000 43f0d093\n",
    ),
    (
        b"RTI1\0\0\0\x80\0\0\0\0\x01\0\0\0\
            \x03\0end\0\0\0\x80",
        "end:\n",
    ),
];

#[test]
fn examples_are_listed(rt: HostRuntime) -> Result<(), Fail> {
    for (file, text) in &EXAMPLES {
        let listed = listing(rt.alloc(), file).ok().ok_or("refused")?;
        same(&rt, *text, listed.as_slice(), text.as_bytes());
    }
    Ok(())
}

/// The file of the byte 0x13, with a byte behind its end.
static LONGER: &[u8] = b"RTI1\0\0\0\x80\x01\0\0\0\0\0\0\0\x13\0";

#[test]
fn files_are_refused(rt: HostRuntime) -> Result<(), Fail> {
    let refused = listing(rt.alloc(), LONGER).err();
    let trailing = ReadFault::Fault(ImageFault::Trailing);
    same(&rt, "a byte more", refused, Some(trailing));
    Ok(())
}
