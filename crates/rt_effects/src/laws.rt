//! Laws that tie what a trace tells of an instruction, and what watchpoints meet, to what the instruction does: its target is the only
//! register, and the bytes of its access are the only ones, that it may change; and its access is just what decides its faults.

mod laws;

pub use laws::{
    accesses_are_what_is_read, accesses_decide_their_faults, others_stay, sources_are_stored,
};
