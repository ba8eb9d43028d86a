//! Ids: one more than the task's number, in hexadecimal.

use super::same_payload;
use crate::tests::same;
use rt_packet::answer::{Ids, task_answer, tasks_answer};

/// Tasks, and how they are named.
static NAMED: [(Ids, u32, &[u8]); 11] = [
    (Ids::Processes, 0, b"QCp1.1"),
    (Ids::Processes, 8, b"QCp9.9"),
    (Ids::Processes, 9, b"QCpa.a"),
    (Ids::Processes, 14, b"QCpf.f"),
    (Ids::Processes, 15, b"QCp10.10"),
    (Ids::Processes, 63, b"QCp40.40"),
    (Ids::Processes, 0xffff_ffff, b"QCp100000000.100000000"),
    (Ids::Threads, 0, b"QC1"),
    (Ids::Threads, 15, b"QC10"),
    (Ids::Threads, 63, b"QC40"),
    (Ids::Threads, 0xabc_deee, b"QCabcdeef"),
];

#[test]
fn one_task(rt: HostRuntime) {
    for (ids, task, expected) in &NAMED {
        same_payload(&rt, *task, &task_answer(*ids, *task), *expected);
    }
}

#[test]
fn some_tasks(rt: HostRuntime) {
    same_payload(&rt, "none", &tasks_answer(Ids::Processes, &[]), b"l");
    same_payload(&rt, "none", &tasks_answer(Ids::Threads, &[]), b"l");
    same_payload(&rt, "one", &tasks_answer(Ids::Processes, &[63]), b"mp40.40");
    same_payload(
        &rt,
        "two",
        &tasks_answer(Ids::Processes, &[0, 1]),
        b"mp1.1,p2.2",
    );
    same_payload(
        &rt,
        "threads",
        &tasks_answer(Ids::Threads, &[4, 0, 15]),
        b"m5,1,10",
    );
}

/// `m`, 64 digits and 63 commas.
#[test]
fn the_first_64_tasks(rt: HostRuntime) {
    same(&rt, 63, tasks_answer(Ids::Threads, &[8; 63]).len(), 126);
    same(&rt, 64, tasks_answer(Ids::Threads, &[8; 64]).len(), 128);
    same(&rt, 65, tasks_answer(Ids::Threads, &[8; 65]).len(), 128);
}
