//! Requests for memory, of which one may be refused: with `rt try --test --fail-alloc N` the Nth.

use crate::tests::same;
use rt_isa::disasm;
use std::alloc::Global;
use std::process::Abort;
use std::test::Fail;

/// A list for whose next text there was no memory is as it was, and takes the text when it is given again.
fn append_again(rt: &impl Abort, alloc: Global, word: u32, text: &str) -> Result<(), Fail> {
    let Ok(mut out) = String::from_str(alloc, "text ") else {
        return Ok(());
    };
    if disasm(0x8000_0000, word, &mut out).is_err() {
        same(rt, word, out.as_str(), "text ");
        disasm(0x8000_0000, word, &mut out)?;
    }
    same(rt, word, out.as_str(), text);
    Ok(())
}

#[test]
fn words_are_appended_again(rt: HostRuntime) -> Result<(), Fail> {
    append_again(&rt, rt.alloc(), 0x01c5_0513, "text addi x10,x10,28")?;
    append_again(&rt, rt.alloc(), 0, "text .word 0x00000000")
}
