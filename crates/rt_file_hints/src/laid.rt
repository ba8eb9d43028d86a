//! What to do about bytes that don't come to stand in an image.

use rt_elf::laying::{DataFault, NotLaid};
use rt_fault_lines::shown::{Escaped, Explanation, line};
use rt_words::MAX_IMAGE;
use std::alloc::Global;

/// Why the bytes for a symbol don't come to stand in an image, and what to do.
pub fn data_hint(alloc: Global, fault: DataFault<'_>) -> Explanation {
    let symbol = Escaped::line(fault.symbol);
    match fault.fault {
        NotLaid::NoSymbol if fault.of_elf => line(
            alloc,
            format_args!("--data {symbol}: no symbol of the object; rt_sim show OUT lists them"),
        ),
        NotLaid::NoSymbol => line(
            alloc,
            format_args!("--data {symbol}: no symbol that --symbols NM gives the object"),
        ),
        NotLaid::TooLarge { len, room } if len <= MAX_IMAGE as usize => line(
            alloc,
            format_args!(
                "--data {symbol}: the file has {len} bytes, and there is room for {room}: make it shorter, or the array longer"
            ),
        ),
        NotLaid::TooLarge { room, .. } => line(
            alloc,
            format_args!(
                "--data {symbol}: the file has over {MAX_IMAGE} bytes, and there is room for {room}: make it shorter, or the array longer"
            ),
        ),
        NotLaid::Memory => Ok(None),
    }
}
