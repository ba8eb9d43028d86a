//! Digits and sizes that were worked out by hand.

use crate::{hex_byte, hex_word, is_ram_size};
use std::test::Fail;

#[test]
fn digits(rt: HostRuntime) -> Result<(), Fail> {
    assert_eq!(rt; hex_word(0x8000_00af).as_slice(), b"800000af".as_slice());
    assert_eq!(rt; hex_byte(0x0c).as_slice(), b"0c".as_slice());
    Ok(())
}

#[test]
fn sizes(rt: HostRuntime) -> Result<(), Fail> {
    assert!(rt; is_ram_size(4) && is_ram_size(1_048_576) && is_ram_size(65_536));
    assert!(rt; !is_ram_size(0) && !is_ram_size(6) && !is_ram_size(1_048_580));
    Ok(())
}
