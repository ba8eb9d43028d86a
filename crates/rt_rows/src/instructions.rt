//! Rows of instructions alone.
ghost use Rattle.rt_rows.specs.Instructions.{LeaveInX3, GoTo, Leave, holding, of_registers, of_immediates, of_amounts, of_upper_numbers, of_equals, of_loads, of_branches, of_jumps, of_stores, of_nothing};

/// Sums modulo 2^32, comparisons with signs and without, shifts by the low five bits, immediates whose sign is extended: `effect`.
pub fn what_is_computed()
    ensures registers { LeaveInX3 0x80000001 33 of_registers }
    ensures equals { LeaveInX3 5 5 of_equals }
    ensures immediates { LeaveInX3 0x80000001 33 of_immediates }
    ensures amounts { LeaveInX3 0x80000001 33 of_amounts }
    ensures upper { LeaveInX3 0 0 of_upper_numbers }
    ensures nothing { GoTo 1 2 of_nothing }
{}

/// Branches that are taken and those that aren't, and jumps, which keep the address behind them: `effect`, `branches`, `links`.
pub fn where_control_goes()
    ensures branches { GoTo 1 0xFFFFFFFF of_branches }
    ensures jumps { Leave (holding 0x80000020 2) of_jumps }
{}

/// Loads of bytes and halves with their signs and without, and stores of just so many bytes: `effect`, `loads`, `stores`.
pub fn what_is_read_and_stored()
    ensures loads { LeaveInX3 0x80000000 0x80000008 of_loads }
    ensures stores { Leave (holding 0x80000000 0xAABBCCDD) of_stores }
{}
