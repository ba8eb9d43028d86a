//! A certificate for one program, which holds in every admitted set that has it: it is run alone, once, and each of its jobs is
//! compared with a budget and a period. The laws of `rt_laws` say what it promises. Nothing here allocates.
#![tactic(auto)]

mod certificate;
mod certified_sets;
mod certifying;
mod trial;

pub use certificate::{
    Certificate, Extremes, JobAt, Limits, NotCertified, PlacedCertificate, Reason,
};
pub use certified_sets::certified_set_is_in_time;
pub use certifying::{certify, certify_where};
