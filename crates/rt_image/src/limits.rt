//! The limits of the fields of a file.

/// The most tasks of a system.
pub const MAX_TASKS: u32 = 256;

/// The most bytes of the file of a task's object.
pub const MAX_FILE: u32 = 67_108_864;
