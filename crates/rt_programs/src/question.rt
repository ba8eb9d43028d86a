//! What is asked of an object that is to be certified.

use rt_certify::Limits;

/// How a program is loaded, and what its jobs are compared with.
#[derive(Clone, Copy, PartialEq, Eq)]
pub struct Question {
    /// The size of its RAM, in bytes.
    pub ram: u32,
    /// Whether its accesses are split.
    pub split: bool,
    /// The tick at which its first job is released.
    pub start: u32,
    pub limits: Limits,
    /// How many jobs are asked for.
    pub jobs: u64,
    /// Whether the jobs that have the certificate's numbers are told too.
    pub places: bool,
}
