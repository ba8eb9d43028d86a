//! Certificates: of greater limits than the command line takes, and of sets.

use crate::tests::{image_of, same};
use rt_certify::{Certificate, Limits, NotCertified, Reason, certify};
use rt_core::{Machine, NoBeat};
use rt_exec::{Fetcher, Plain};
use rt_image::{Object, System, Task, Version};
use rt_queue::{MinQueue, Scan};
use rt_words::RAM_BASE;
use std::alloc::Global;
use std::test::Fail;

mod sets;

/// It sleeps until 10, 20, 30, ..; its first job has 3 attempts, as each later one.
const BEAT: &[u32] = &[0x0020_0893, 0x00a5_0513, 0x0000_0073, 0xff9f_f06f];

const SPIN: &[u32] = &[0x0000_006f];

const POLL: &[u32] = &[0x0030_0893, 0x0000_0073, 0xffdf_f06f];

/// How long jobs may be, how far they must sleep, and how many there are to be.
#[derive(Clone, Copy)]
struct Question {
    start: u32,
    limits: Limits,
    jobs: u64,
}

/// What is answered of an object of these words.
fn answer<Q: MinQueue, F: Fetcher>(
    alloc: Global,
    words: &[u32],
    question: Question,
) -> Result<Result<Certificate, NotCertified>, Fail> {
    let image = image_of(alloc, words)?;
    let task = Task {
        budget: 1,
        period: 1,
        start: question.start,
        split: false,
        ram: 64,
        object: Object {
            entry: RAM_BASE,
            bytes: &image,
            symbols: Vec::new(alloc),
        },
    };
    let system = System {
        version: Version::One,
        hyper: 1,
        tasks: vec![in alloc; task]?,
    };
    let mut machine: Machine<Q, F> = Machine::load(alloc, &system)?;
    Ok(certify(
        &mut machine,
        question.start,
        question.limits,
        question.jobs,
        &NoBeat,
    ))
}

#[test]
fn greatest_limits(rt: HostRuntime) -> Result<(), Fail> {
    let limits = Limits {
        budget: u32::MAX,
        period: u32::MAX,
        periods: u32::MAX,
    };
    let question = Question {
        start: 0,
        limits,
        jobs: 60,
    };
    let refused = NotCertified {
        job: 0,
        pc: 0x8000_0008,
        reason: Reason::TooSoon {
            release: 0,
            sleep: 10,
            periods: Some(1),
        },
    };
    let answered = answer::<Scan, Plain>(rt.alloc(), BEAT, question)?;
    same(&rt, "beat", answered, Err(refused));
    Ok(())
}
