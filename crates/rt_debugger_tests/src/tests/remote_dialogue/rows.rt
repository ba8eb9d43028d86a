//! Sessions whose input comes whole, in pieces, by bytes, and with noise between; transcripts have the others.

use super::{FAULT, PAIR, Row, WHOLE, heard_in, said_in, says};
use std::test::Fail;

/// A session on `FAULT`.
pub static FAULT_ROWS: [Row; 8] = [
    (
        b"$qSupported:multiprocess+#c6",
        b"+$PacketSize=1000;multiprocess+;swbreak+;hwbreak+;vContSupported+;ReverseStep+;ReverseContinue+;qXfer:features:read+#96",
    ),
    (b"$Z3,80000034,4#a8", b"+$OK#9a"),
    (b"$vCont;c#a8", b"+$T05rwatch:80000034;thread:p1.1;#33"),
    (
        b"$vCont;c#a8",
        b"+$O34312030203830303030303230203030323532373033206661756c74204c6f61644d6973616c69676e65640a#49$T0athread:p1.1;#d2",
    ),
    (b"$bs#d5", b"+$T05thread:p1.1;#a6"),
    (b"$bc#c5", b"+$T05rwatch:80000034;thread:p1.1;#33"),
    (b"$p21#d3", b"+$1a00000000000000#32"),
    (b"$bc#c5", b"+$T05replaylog:begin;thread:p1.1;#ef"),
];

/// A session on `PAIR`: a packet with a wrong sum, and one that is begun again. Within a run that never stops it says beats, each after
/// 4,194,304 ticks.
static BEATS: [Row; 10] = [
    (
        b"$qSupported:multiprocess+#c6",
        b"+$PacketSize=1000;multiprocess+;swbreak+;hwbreak+;vContSupported+;ReverseStep+;ReverseContinue+;qXfer:features:read+#96",
    ),
    (b"$p21#00", b"-"),
    (
        b"-",
        b"$PacketSize=1000;multiprocess+;swbreak+;hwbreak+;vContSupported+;ReverseStep+;ReverseContinue+;qXfer:features:read+#96",
    ),
    (b"$p2$p21#d3", b"+$0000000000000000#00"),
    (b"$vCont;c:p2.2#e4", b"+$O#4f"),
    (b"-", b"$O#4f"),
    (b"+", b"$O#4f"),
    (b"\x03", b"$T02thread:p2.2;#a5"),
    (b"$D;1#b0", b"+$OK#9a"),
    (b"$k#6b", b"+"),
];

/// How many bytes one read gives, and what stands between the rows of `FAULT_ROWS`.
static WAYS: [(usize, &[u8]); 4] = [
    (WHOLE, b""),
    (1, b""),
    (7, b""),
    // bytes that say nothing outside of a packet
    (WHOLE, b"+#9a}*+ \xff\0"),
];

#[test]
fn requests_are_heard(rt: HostRuntime) -> Result<(), Fail> {
    let said = said_in(rt.alloc(), &FAULT_ROWS)?;
    for (piece, between) in &WAYS {
        let heard = heard_in(rt.alloc(), &FAULT_ROWS, between)?;
        says(&rt, rt.alloc(), FAULT, &heard, *piece, &said)?;
    }
    Ok(())
}

#[test]
fn runs_are_interrupted(rt: HostRuntime) -> Result<(), Fail> {
    let heard = heard_in(rt.alloc(), &BEATS, b"")?;
    let said = said_in(rt.alloc(), &BEATS)?;
    says(&rt, rt.alloc(), PAIR, &heard, 1, &said)
}
