//! What the program says of itself.

/// Its version, and the logic that proved it. `./gate try`, which builds it without a proof, puts `not proved` here.
pub(crate) const VERSION: &str = "0.1, proved with logic dac8208d650f15bf";

/// The same, and what it reads, runs and prints.
pub const ABOUT: &str = "rt_sim 0.1, proved with logic dac8208d650f15bf
machine: RV32I on one hart, up to 64 tasks, 2^40 ticks
reads: assembly, ELF, flat images, RTI1, RTS1, RTS2
prints: runs, reports, CSV, callgrind, SVG, VCD, certificates
serves: debug, gdb
";
