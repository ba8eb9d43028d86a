//! Payloads and lines of `monitor` with what they ask for, by hand from gdb's manual and the table of requests.

use crate::tests::same;
use arrayvec::ArrayVec;
use rt_packet::request::*;
use std::alloc::Global;
use std::process::Abort;
use std::test::Fail;

mod actions;
mod lines;

/// Payloads without a part that varies, and what is near them.
static WHOLE: [(&[u8], &str); 37] = [
    (b"qSupported", "Supported { has_processes: false }"),
    (b"?", "LastStop"),
    (b"vCont?", "Actions"),
    (b"c", "Continue"),
    (b"s", "Step"),
    (b"bs", "BackStep"),
    (b"bc", "BackContinue"),
    (b"qC", "Current"),
    (b"qfThreadInfo", "FirstTasks"),
    (b"qsThreadInfo", "MoreTasks"),
    (b"qAttached", "Attached"),
    (b"qAttached:1", "Attached"),
    (b"qAttached:", "Attached"),
    (b"g", "Registers"),
    (b"D", "DetachAll"),
    (b"k", "Kill"),
    (b"qSupportedX", "Unknown"),
    (b"??", "Unknown"),
    (b"vCont", "Unknown"),
    (b"vCont?;", "Unknown"),
    (b"c80000000", "Unknown"),
    (b"s0", "Unknown"),
    (b"C", "Unknown"),
    (b"b", "Unknown"),
    (b"bcc", "Unknown"),
    (b"qCRC:0,1", "Unknown"),
    (b"qfThreadInfo0", "Unknown"),
    (b"qAttachedX", "Unknown"),
    (b"gg", "Unknown"),
    (b"Dx", "Unknown"),
    (b"kk", "Unknown"),
    (b"vKill", "Unknown"),
    (b"vMustReplyEmpty", "Unknown"),
    (b"", "Unknown"),
    (b"\n", "Unknown"),
    (b"\xff\x00\x80", "Unknown"),
    (b"\xc3\xa9", "Unknown"),
];

static FEATURES: [(&[u8], &str); 8] = [
    (b"qSupported:", "Supported { has_processes: false }"),
    (
        b"qSupported:multiprocess+",
        "Supported { has_processes: true }",
    ),
    (
        b"qSupported:multiprocess+;swbreak+;hwbreak+",
        "Supported { has_processes: true }",
    ),
    (
        b"qSupported:xmlRegisters=i386;;multiprocess+",
        "Supported { has_processes: true }",
    ),
    (
        b"qSupported:multiprocess-;swbreak+",
        "Supported { has_processes: false }",
    ),
    (
        b"qSupported:multiprocess+x;xmultiprocess+",
        "Supported { has_processes: false }",
    ),
    (
        b"qSupported:multiprocess;+",
        "Supported { has_processes: false }",
    ),
    (
        b"qSupported:Multiprocess+",
        "Supported { has_processes: false }",
    ),
];

/// Ids: task i is process i + 1, with one thread of the same number.
static IDS: [(&[u8], &str); 36] = [
    (b"Hgp0.0", "Select { of: Shown, tasks: All }"),
    (b"Hc-1", "Select { of: Resumed, tasks: All }"),
    (b"Hgp2.2", "Select { of: Shown, tasks: One(1) }"),
    (b"Hcp2.2", "Select { of: Resumed, tasks: One(1) }"),
    (b"Hg0", "Select { of: Shown, tasks: All }"),
    (b"Hg00000000", "Select { of: Shown, tasks: All }"),
    (b"Hgp0", "Select { of: Shown, tasks: All }"),
    (b"Hgp-1", "Select { of: Shown, tasks: All }"),
    (b"Hgp-1.5", "Select { of: Shown, tasks: All }"),
    (b"Hgp00.-1", "Select { of: Shown, tasks: All }"),
    (b"Hgp1", "Select { of: Shown, tasks: One(0) }"),
    (b"Hgp1.0", "Select { of: Shown, tasks: One(0) }"),
    (b"Hgp1.-1", "Select { of: Shown, tasks: One(0) }"),
    (b"HgpA.0a", "Select { of: Shown, tasks: One(9) }"),
    (b"Hgff", "Select { of: Shown, tasks: One(254) }"),
    (
        b"Hgffffffff",
        "Select { of: Shown, tasks: One(4294967294) }",
    ),
    (b"T3", "IsThere(One(2))"),
    (b"T-1", "IsThere(All)"),
    (b"qThreadExtraInfo,p1.1", "TaskLine(One(0))"),
    (b"qThreadExtraInfo,5", "TaskLine(One(4))"),
    (b"Tp3.4", "Malformed"),
    (b"T", "Malformed"),
    (b"Hg", "Malformed"),
    (b"Hc", "Malformed"),
    (b"Hgp", "Malformed"),
    (b"Hgp1.2", "Malformed"),
    (b"Hgp1.", "Malformed"),
    (b"Hgp.1", "Malformed"),
    (b"Hgp0.x", "Malformed"),
    (b"Hgp1.1.1", "Malformed"),
    (b"Hg1.1", "Malformed"),
    (b"Hg000000001", "Malformed"),
    (b"Hg-2", "Malformed"),
    (b"Hg 1", "Malformed"),
    (b"qThreadExtraInfo,", "Malformed"),
    (b"Hx1", "Unknown"),
];

/// The description of the target, registers, memory, writes.
static DATA: [(&[u8], &str); 36] = [
    (
        b"qXfer:features:read:target.xml:0,ffb",
        "Description { offset: 0, count: 4091 }",
    ),
    (
        b"qXfer:features:read:target.xml:FfB,1000",
        "Description { offset: 4091, count: 4096 }",
    ),
    (
        b"qXfer:features:read:target.xml:0,0",
        "Description { offset: 0, count: 0 }",
    ),
    (b"qXfer:features:read:other.xml:0,1", "OtherAnnex"),
    (b"qXfer:features:read:target.xmlx:0,1", "OtherAnnex"),
    (b"qXfer:features:read::", "OtherAnnex"),
    (b"qXfer:features:read:other.xml:x", "OtherAnnex"),
    (b"qXfer:features:read:target.xml:", "Malformed"),
    (b"qXfer:features:read:target.xml:0", "Malformed"),
    (b"qXfer:features:read:target.xml:0,1:", "Malformed"),
    (b"qXfer:features:read:target.xml", "Malformed"),
    (b"qXfer:features:read:", "Malformed"),
    (b"qXfer:features:write:target.xml:0:", "Unknown"),
    (b"qXfer:memory-map:read::0,1", "Unknown"),
    (b"p21", "Register(33)"),
    (b"p0", "Register(0)"),
    (b"pfFfFffffffffffff", "Register(18446744073709551615)"),
    (b"p0000000000000000a", "Malformed"),
    (b"p", "Malformed"),
    (b"p1.1", "Malformed"),
    (b"m8000003e,8", "Memory { address: 2147483710, count: 8 }"),
    (b"m0,1", "Memory { address: 0, count: 1 }"),
    (b"m0,0", "Malformed"),
    (b"m0", "Malformed"),
    (b"m,1", "Malformed"),
    (b"m0,", "Malformed"),
    (b"m0,1,1", "Malformed"),
    (b"m0x0,1", "Malformed"),
    (b"m", "Malformed"),
    (b"G00", "Write"),
    (b"P0a=00", "Write"),
    (b"P", "Write"),
    (b"M0,1:00", "Write"),
    (b"X0,0:", "Write"),
    (b"X\xff", "Write"),
    (b"x0,1", "Unknown"),
];

/// Points, and the end.
static POINTS: [(&[u8], &str); 27] = [
    (
        b"Z0,80000010,4",
        "Insert(Spot { kind: Break(Software), address: 2147483664, length: 4 })",
    ),
    (
        b"Z1,80000010,2",
        "Insert(Spot { kind: Break(Hardware), address: 2147483664, length: 2 })",
    ),
    (
        b"Z2,0,1",
        "Insert(Spot { kind: Watch(Write), address: 0, length: 1 })",
    ),
    (
        b"Z3,0,0",
        "Insert(Spot { kind: Watch(Read), address: 0, length: 0 })",
    ),
    (
        b"Z4,a,10",
        "Insert(Spot { kind: Watch(Access), address: 10, length: 16 })",
    ),
    (
        b"z0,1,1",
        "Remove(Spot { kind: Break(Software), address: 1, length: 1 })",
    ),
    (
        b"z1,1,1",
        "Remove(Spot { kind: Break(Hardware), address: 1, length: 1 })",
    ),
    (
        b"z2,1,1",
        "Remove(Spot { kind: Watch(Write), address: 1, length: 1 })",
    ),
    (
        b"z3,1,1",
        "Remove(Spot { kind: Watch(Read), address: 1, length: 1 })",
    ),
    (
        b"z4,ffffffff,1",
        "Remove(Spot { kind: Watch(Access), address: 4294967295, length: 1 })",
    ),
    (b"Z0", "Malformed"),
    (b"Z00,0,1", "Malformed"),
    (b"Z0,0", "Malformed"),
    (b"Z0;0,1", "Malformed"),
    (b"Z0,0,1;X1,0", "Malformed"),
    (b"z2,0,", "Malformed"),
    (b"Z5,0,1", "Unknown"),
    (b"Z,", "Unknown"),
    (b"z", "Unknown"),
    (b"D;1", "Detach(1)"),
    (b"D;Ff", "Detach(255)"),
    (b"vKill;2", "Detach(2)"),
    (b"vKill;0", "Detach(0)"),
    (b"D;", "Malformed"),
    (b"D;1.1", "Malformed"),
    (b"vKill;", "Malformed"),
    (b"vKill;p1", "Malformed"),
];

/// Each payload asks for what stands beside it.
fn ask(rt: &impl Abort, alloc: Global, rows: &[(&[u8], &str)]) -> Result<(), Fail> {
    for (payload, wanted) in rows {
        let asked = format!(in alloc; "{:?}", parse_request(*payload))?;
        same(rt, *payload, asked.as_str(), *wanted);
    }
    Ok(())
}

#[test]
fn whole_payloads_are_requests(rt: HostRuntime) -> Result<(), Fail> {
    ask(&rt, rt.alloc(), &WHOLE)
}

#[test]
fn features_are_compared_whole(rt: HostRuntime) -> Result<(), Fail> {
    ask(&rt, rt.alloc(), &FEATURES)
}

#[test]
fn ids_mean_tasks(rt: HostRuntime) -> Result<(), Fail> {
    ask(&rt, rt.alloc(), &IDS)
}

#[test]
fn numbers_are_hexadecimal(rt: HostRuntime) -> Result<(), Fail> {
    ask(&rt, rt.alloc(), &DATA)
}

#[test]
fn points_have_kinds(rt: HostRuntime) -> Result<(), Fail> {
    ask(&rt, rt.alloc(), &POINTS)
}
