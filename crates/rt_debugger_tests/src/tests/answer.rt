//! Payloads that were written by hand.

use crate::tests::same;
use rt_packet::answer::Payload;
use std::fmt::Debug;
use std::process::Abort;

mod description;
mod ids;
mod numbers;
mod replies;
mod stops;

/// Fails where a payload isn't this text, and writes both, and in which case.
fn same_payload<N: Copy + Debug>(rt: &impl Abort, case: N, payload: &Payload, expected: &[u8]) {
    same(rt, case, payload.as_slice(), expected);
}

/// The same of a payload that there may be.
fn same_found<N: Copy + Debug>(
    rt: &impl Abort,
    case: N,
    payload: &Option<Payload>,
    expected: Option<&[u8]>,
) {
    let found = payload.as_ref().map(|payload| payload.as_slice());
    same(rt, case, found, expected);
}
